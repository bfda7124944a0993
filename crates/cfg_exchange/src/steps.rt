//! What the crates above use: bodies over anything that can be asked, and the readings that they share.
pub use crate::attempts::follow_exchange;
pub use crate::container::{
    ContainerSettings, ContainerUri, DEFAULT_CONNECT_TIMEOUT, DEFAULT_READ_TIMEOUT,
    container_credentials, container_uri, follow_container,
};
pub use crate::full_uri::FullUri;
pub use crate::lifetime::number;
pub use crate::reading::is_success;

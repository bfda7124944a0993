//! What the crates above use: bodies over anything that can be asked, and where a client asks.
pub use crate::asked::AskedClient;
pub use crate::classifier::Classifier;
pub use crate::endpoint::{Endpoint, endpoint_of};
pub use crate::fetch::entry_text;
pub use crate::imds::client::{client_at, follow_fetch, follow_settle};
pub use crate::path::is_path;
pub use crate::region::{follow_region, is_disabled};
pub use crate::requests::ImdsSettings;

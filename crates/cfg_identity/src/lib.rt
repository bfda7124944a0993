//! Credentials that are held under names, and asked for again only when little of their life is left. It stands on
//! cfg_chain. The layers above may use that a call under a name hands out what is held, after one reading of the
//! clock, exactly where more of its life is left than the settings say, and is else that reading and a call of the
//! name's chain; that no call touches another name; and that an error leaves what is held.
#![tactic(auto)]

mod cache;
mod fault;
mod held;
pub mod laws;
mod loaded;
mod names;
mod settings;
mod shared;

pub use cache::IdentityCache;
pub use cfg_chain::DefaultCredentialsChain;
pub use cfg_kept::Found;
pub use cfg_types::{Credentials, CredentialsError, OutOfMemory};
pub use fault::CacheFault;
pub use held::Held;
pub use loaded::Loaded;
pub use settings::CacheSettings;
pub use shared::{CacheAnswer, SharedIdentityCache};

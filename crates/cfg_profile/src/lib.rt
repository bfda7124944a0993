//! Profiles: their sections, the path from a profile along its sources, and what it gives credentials
//! by. It stands on cfg_types. The layers above may use that a plan is the one that the path of the
//! selected profile gives, and that there is one path.
#![tactic(auto)]

mod bases;
pub mod chain;
pub mod generated;
mod keys;
pub mod laws;
pub mod plan;
pub mod provider_config;
pub mod region;
pub mod resolve;
pub mod sections;
pub mod settings;
mod sign_on;
mod static_keys;
mod walk;

pub use cfg_types::{OutOfMemory, ProfileFileError};
pub use chain::{BaseProvider, ProfileChain, RoleArn};
pub use generated::generated_set;
pub use plan::{is_alike, is_named, plan_of, plan_of_profile};
pub use provider_config::{ProviderConfig, selected_name};
pub use region::{region_of, region_of_profile};
pub use resolve::{chain_of_profile, resolve_chain};
pub use sections::{ProfileSet, ProfileSource, Section};
pub use settings::call_settings;

//! Regions: the environment's, a profile's, that of instance metadata, a caller's own, and chains of them.
//! It stands on cfg_imds and cfg_profile. The layers above may use that a chain's journal is the parts of
//! its sources up to the first that gave a region, and that a configuration is given the region of one
//! source, none included, and nothing else.
#![tactic(auto)]

mod custom;
pub mod default_provider;
pub mod environment;
pub mod imds;
pub mod laws;
mod load;
pub mod meta;
pub mod profile;
mod source;
pub mod steps;

pub use cfg_types::OutOfMemory;
pub use custom::{CustomRegion, ProvideRegion};
pub use default_provider::region::DefaultRegionChain;
pub use environment::region::EnvironmentVariableRegionProvider;
pub use imds::region::ImdsRegionProvider;
pub use load::{load_default_region, with_default_region};
pub use meta::region::RegionProviderChain;
pub use profile::region::ProfileFileRegionProvider;
pub use source::RegionSource;

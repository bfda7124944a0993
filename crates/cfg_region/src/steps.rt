//! What the crates above use: a configuration with the region of one source, and the builder of a provider that
//! reads a profile.
pub use crate::load::with_region_from;
pub use crate::profile::settings::{FromProfile, ProfileBuilder, with_name};

//! What a call of a chain is over.
use crate::settled::Settled;
use cfg_imds::Client;
use cfg_profile::ProviderConfig;
use cfg_providers::CustomSource;
use std::alloc::Global;

/// A configuration, what it settles of every call, and what the chain's caller brings.
#[derive(Drop)]
pub struct ChainCall<'a> {
    pub alloc: Global,
    pub config: &'a ProviderConfig,
    pub settled: &'a Settled,
    pub custom_sources: &'a [CustomSource],
    /// The metadata client of the chain's own member that the chain was given, in place of the configuration's.
    pub imds_client: Option<&'a Client>,
}

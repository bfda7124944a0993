//! What a configuration settles of every call.
ghost use Rattle.std.specs.Prelude.{IfOk};
ghost use Rattle.cfg_chain.specs.Settled.{IsSettled};

use crate::profile::plan::{settled_plan, token_key_of};
use cfg_exchange::steps::{ContainerUri, container_uri};
use cfg_imds::steps::{Endpoint, endpoint_of};
use cfg_profile::{ProfileChain, ProviderConfig};
use cfg_token::TokenKey;
use cfg_types::OutOfMemory;
use std::alloc::Global;

/// What a configuration settles of every call: it depends on no answer.
pub struct Settled {
    /// Whose token is kept.
    pub token_key: Option<TokenKey>,
    /// The plan of the selected profile, where it needs no source of the caller's own.
    pub plan: Option<ProfileChain>,
    /// The address at which the variables say that a container's credentials are.
    pub container: ContainerUri,
    /// Where the configuration's client asks instance metadata.
    pub imds_endpoint: Endpoint,
}

impl Drop for Settled {
    fn drop(self) {
        let Settled {
            token_key: _,
            plan: _,
            container: _,
            imds_endpoint: _,
        } = self;
    }
}

impl Settled {
    /// What this configuration settles, by one walk over its profiles. Nothing is asked. `OutOfMemory` where memory
    /// runs out.
    pub(crate) fn of(alloc: Global, config: &ProviderConfig) -> Result<Settled, OutOfMemory>
        ensures { IfOk result (IsSettled config.now) }
    {
        let plan = settled_plan(alloc, config)?;
        let token_key = token_key_of(alloc, &plan)?;
        let container = container_uri(alloc, config.env())?;
        let imds_endpoint = endpoint_of(alloc, config, &None, None)?;
        Ok(Settled {
            token_key,
            plan,
            container,
            imds_endpoint,
        })
    }
}

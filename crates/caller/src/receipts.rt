//! A call that is driven by receipts.
ghost use Rattle.std.specs.Prelude.{◌≡◌, IfOk, IfSome};
ghost use Rattle.cfg_kept.specs.KeptStates.{kept_key};
ghost use Rattle.cfg_chain.specs.Provides.{ProvidesOn};
ghost use Rattle.cfg_chain.specs.Views.{chain_of};
ghost use Rattle.cfg_chain.specs.profile.Plans.{key_of};

use aws_config::default_provider::credentials::DefaultCredentialsChain;
use aws_config::devices::{Devices, World};
use aws_config::kept::Kept;
use aws_config::run::{Run, Step};
use aws_config::{Credentials, CredentialsError, OutOfMemory, TryCopy};
use std::alloc::Global;

/// What a call answered, and what is kept then.
pub struct Called {
    pub answer: Result<Credentials, CredentialsError>,
    pub kept: Kept,
}

impl Drop for Called {
    fn drop(self) {
        let Called { answer: _, kept: _ } = self;
    }
}

/// A call of the chain whose questions are put one at a time: it asks, answers and leaves what `provide_credentials`
/// does. None where it asks more questions than this. `OutOfMemory` where memory runs out.
pub fn call_by_receipts<D: Devices>(
    alloc: Global,
    chain: &DefaultCredentialsChain,
    kept: Kept,
    world: &mut World<D>,
    limit: usize,
) -> Result<Option<Called>, OutOfMemory>
    requires { kept_key kept ≡ key_of chain.now.core }
    ensures { IfOk result (λ called. IfSome called (λ c.
        ProvidesOn ⟦<D as Devices>⟧ (chain_of value repeated chain.now) kept c.kept world.old world.new c.answer)) }
{
    let mut run = Run::start(chain, kept);
    let mut receipt = None;
    for _ in 0..=limit {
        match run.poll(receipt)? {
            Step::Pending => {
                let question = run.question().unwrap().copy(alloc)?;
                receipt = Some(world.ask(question)?);
            }
            Step::Ready(answer) => {
                let kept = run.into_kept();
                return Ok(Some(Called { answer, kept }));
            }
        }
    }
    Ok(None)
}

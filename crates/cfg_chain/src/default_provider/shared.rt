//! Calls of the default chain over what callers on several threads share.
ghost use Rattle.std.specs.Prelude.{◌≡◌, [], IfOk, map, option_map};
ghost use Rattle.cfg_kept.specs.FoundValues.{bare};
ghost use Rattle.cfg_kept.specs.Retrieved.{keys_of_retrieved};
ghost use Rattle.cfg_kept.specs.SharedStates.{pass_found, pass_key, shared_key};
ghost use Rattle.cfg_chain.specs.Answers.{Answered as Unless, RanOut};
ghost use Rattle.cfg_chain.specs.Callers.{TellsWho};
ghost use Rattle.cfg_chain.specs.SharedCalls.{ProvidesFound, InterruptedFound};
ghost use Rattle.cfg_chain.specs.Views.{chain_of};
ghost use Rattle.cfg_chain.specs.profile.Plans.{key_of};

use crate::default_provider::credentials::DefaultCredentialsChain;
use cfg_kept::{Found, Keeper, Place, Retrieved, SharedKept, SharedPass};
use cfg_types::{Credentials, CredentialsError, OutOfMemory, Seq, TryCopy};
use cfg_world::{Devices, World};
use std::sync::Wait;

/// What a call over shared values answers, and the values that it found, in order.
#[derive(Drop)]
pub struct Answered {
    /// The credentials, or why there are none.
    pub outcome: Result<Credentials, CredentialsError>,
    /// Each value that a holding of this call found, a copy with its receipts.
    pub found: Seq<Found>,
}

/// What serves in place of a call that was interrupted.
#[derive(Drop)]
pub struct Fallback {
    /// The credentials of the value that was found, if there was one.
    pub credentials: Option<Credentials>,
    /// What was found of the credentials that were last retrieved from instance metadata for the chain.
    pub found: Option<Retrieved>,
}

impl DefaultCredentialsChain {
    /// One call as [`Self::provide_credentials`] is one, over kept states that other callers hold in between. Each
    /// holding takes the lock of its own value and no other, for as long as it lasts; a token that is kept is handed out
    /// while another caller loads one. The answer is what the values found and the journal's new entries say.
    ///
    /// # Errors
    ///
    /// Those of [`Self::provide_credentials`], over the values that were found. After `OutOfMemory` the journal has gained
    /// the beginning of the parts, and each kept state is as the last finished holding left it.
    pub fn provide_credentials_shared<R: Wait, D: Devices>(
        &self,
        rt: &R,
        kept: &SharedKept,
        world: &mut World<D>,
    ) -> Answered
        requires { shared_key kept.now ≡ key_of self.now.core }
        // One call is the parts of its members in order, and its answer is the last one's.
        ensures provides { Unless result.outcome (ProvidesFound ⟦<D as Devices>⟧ (chain_of value repeated self.now)
            (map bare result.found) world.old world.new) }
        ensures tells { Unless result.outcome (TellsWho (chain_of value repeated self.now) (map bare result.found) world.old.journal world.new.journal) }
        ensures stays { RanOut result.outcome (InterruptedFound ⟦<D as Devices>⟧ (chain_of value repeated self.now)
            (map bare result.found) world.old world.new) }
    {
        let mut pass = SharedPass::new(rt, kept);
        let outcome = self.answer_to(&mut pass, world);
        Answered {
            outcome,
            found: Seq::of(pass.into_found()),
        }
    }

    /// What a caller may use where a call was interrupted: the credentials that were last retrieved from the instance
    /// metadata service for the chain, if any were, with the value that was found of them. Nothing is asked, and what
    /// is kept stays. `OutOfMemory` where memory runs out.
    pub fn fallback_on_interrupt_shared<R: Wait>(
        &self,
        rt: &R,
        kept: &SharedKept,
    ) -> Result<Fallback, OutOfMemory>
        ensures { IfOk result (λ f. f.credentials ≡ option_map keys_of_retrieved f.found) }
    {
        let alloc = self.core.alloc();
        let found = SharedPass::new(rt, kept).retrieved(alloc, Place::Chain)?;
        let credentials = match &found {
            Some(retrieved) => Some(retrieved.credentials().copy(alloc)?),
            None => None,
        };
        Ok(Fallback { credentials, found })
    }

    // What the members answer over a world, which leaves no question open.
    fn answer_to<R: Wait, D: Devices>(
        &self,
        pass: &mut SharedPass<'_, R>,
        world: &mut World<D>,
    ) -> Result<Credentials, CredentialsError>
        requires empty { pass_found pass.old ≡ [] }
        requires key { pass_key pass.old ≡ key_of self.now.core }
        ensures provides { Unless result (ProvidesFound ⟦<D as Devices>⟧ (chain_of value repeated self.now)
            (pass_found pass.new) world.old world.new) }
        ensures tells { Unless result (TellsWho (chain_of value repeated self.now) (pass_found pass.new) world.old.journal world.new.journal) }
        ensures stays { RanOut result (InterruptedFound ⟦<D as Devices>⟧ (chain_of value repeated self.now)
            (pass_found pass.new) world.old world.new) }
    {
        match self.follow(pass, world) {
            Ok(outcome) => outcome,
            Err(_) => Err(CredentialsError::OutOfMemory),
        }
    }
}

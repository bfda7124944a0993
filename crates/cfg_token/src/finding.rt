//! What a section finds of a token.
ghost use Rattle.std.specs.Prelude.{◌≡◌, IfOk, IfSome, Some, None};
ghost use Rattle.std.specs.Option.{option_copied};
ghost use Rattle.cfg_token.specs.Sections.{hit as hit_of};
ghost use Rattle.cfg_token.specs.Histories.{token_in, load_in, last_in};
ghost use Rattle.cfg_token.specs.SharedSections.{IsPublishedLoad};

use crate::file_token::FileToken;
use crate::history::{Load, copy_load};
use crate::loads::Loads;
use crate::sections::hit;
use cfg_types::{Instant, OutOfMemory};
use std::alloc::Global;

/// What a section found: the load that gave the kept token, if one is kept, and the reading of the last attempt at a
/// new one, if any was noted.
#[derive(Drop)]
pub struct Finding<T: FileToken> {
    pub load: Option<Load<T>>,
    pub last: Option<Instant>,
}

// A token that is handed out, and what was found with it.
#[derive(Drop)]
pub(crate) struct Handed<T: FileToken> {
    pub(crate) token: T,
    pub(crate) finding: Finding<T>,
}

impl<T: FileToken> Finding<T> {
    /// No token is kept, and no attempt was noted.
    pub fn nothing() -> Finding<T>
        ensures load { result.load ≡ None }
        ensures last { result.last ≡ None }
    {
        Finding {
            load: None,
            last: None,
        }
    }

    /// The kept token.
    pub fn token(&self) -> Option<&T>
        ensures { option_copied result ≡ token_in self.now.load }
    {
        match &self.load {
            Some(load) => Some(load.token()),
            None => None,
        }
    }

    // The token with what was found, where it is not to be refreshed yet at this reading.
    pub(crate) fn handed(
        &self,
        alloc: Global,
        reading: Instant,
    ) -> Result<Option<Handed<T>>, OutOfMemory>
        ensures token { IfOk result (λ h. IfSome h (λ x. Some x.token ≡ hit_of T.rules (token_in x.finding.load) reading)) }
        ensures load { IfOk result (λ h. IfSome h (λ x. x.finding.load ≡ self.now.load)) }
        ensures last { IfOk result (λ h. IfSome h (λ x. x.finding.last ≡ self.now.last)) }
    {
        match hit(alloc, self.token(), reading)? {
            Some(token) => {
                let load = copy_load(alloc, &self.load)?;
                let last = self.last;
                Ok(Some(Handed {
                    token,
                    finding: Finding { load, last },
                }))
            }
            None => Ok(None),
        }
    }
}

// What a section of these loads finds.
pub(crate) fn finding_in<T: FileToken>(loads: &Loads<T>) -> Result<Finding<T>, OutOfMemory>
    ensures load { IfOk result (λ f. f.load ≡ load_in loads.now) }
    ensures last { IfOk result (λ f. f.last ≡ last_in loads.now) }
{
    let load = loads.load()?;
    let last = loads.last_attempt();
    Ok(Finding { load, last })
}

// What is published of these loads: no load where memory runs out, which is lawful. Whoever looks there then asks
// the loads themselves.
pub(crate) fn publication<T: FileToken>(loads: &Loads<T>) -> Finding<T>
    ensures load { IsPublishedLoad loads.now result.load }
    ensures last { result.last ≡ last_in loads.now }
{
    let load = match loads.load() {
        Ok(load) => load,
        Err(_) => None,
    };
    Finding {
        load,
        last: loads.last_attempt(),
    }
}

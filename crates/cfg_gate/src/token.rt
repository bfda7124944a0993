//! A token's state on its way into a gate.
ghost use Rattle.std.specs.Prelude.{◌≡◌, ℕ, [], length};

use crate::rule::Counted;
use cfg_token::TokenState;
use cfg_token::file_token::FileToken;
use cfg_token::loads::Loads;

impl<T: FileToken> Counted for Loads<T> {
    ghost loads = { λ s. length s.records };
}

/// The state of a token that a gate is to keep. All loads since it was made are counted.
#[derive(Drop)]
pub struct GatedToken<T: FileToken> {
    state: TokenState<T>,
    loads: u64,
    ghost counted: { loads ≡ length state.loads.records },
}

impl<T: FileToken> GatedToken<T> {
    /// The state, of which no load has been recorded yet.
    pub fn new(state: TokenState<T>) -> GatedToken<T>
        requires { state.loads.records ≡ [] }
        ensures state { result.state ≡ state }
        ensures loads { result.loads ≡ 0 }
    {
        GatedToken { state, loads: 0 }
    }

    /// How many loads the state has.
    pub fn loads(&self) -> u64
        ensures is { result ≡ self.now.loads }
        ensures counts { result ≡ length self.now.state.loads.records }
    {
        self.loads
    }

    /// What is known of the token.
    pub fn state(&self) -> &TokenState<T>
        ensures { result.now ≡ self.now.state }
    {
        &self.state
    }

    /// The state, and how many loads it has.
    pub(crate) fn into_parts(self) -> (TokenState<T>, u64)
        ensures state { result.0 ≡ self.state }
        ensures loads { result.1 ≡ self.loads }
        ensures counts { result.1 ≡ length self.state.loads.records }
    {
        let GatedToken { state, loads } = self;
        (state, loads)
    }
}

//! Members of chains of bearer tokens.
ghost use Rattle.std.specs.Prelude.{◌≡◌};
ghost use Rattle.std.specs.Option.{option_copied};
ghost use Rattle.cfg_kept.specs.Holds.{HoldsFollows};
ghost use Rattle.cfg_kept.specs.KeptStates.{kept_holdings, kept_key};
ghost use Rattle.cfg_token_chain.specs.Members.{asked_of, member_tree, needed_key};

use crate::custom::{CustomToken, token_told};
use crate::default_provider::token::DefaultTokenChain;
use crate::profile::token::ProfileFileTokenProvider;
use cfg_kept::Kept;
use cfg_meta::ChainMember;
use cfg_sso::{SsoTokenProvider, is_memory};
use cfg_token::TokenKey;
use cfg_types::{Text, Token, TokenError, TryCopy};
use cfg_world::{Asking, Stop};
use std::alloc::Global;

/// A member of a chain of bearer tokens.
#[derive(Drop)]
pub enum TokenMember {
    /// The selected profile.
    Profile(ProfileFileTokenProvider),
    /// A session of IAM Identity Center.
    Sso(SsoTokenProvider),
    /// A default chain.
    Default(DefaultTokenChain),
    /// This token, as it is. Its expiry is not looked at.
    Fixed(Token),
    /// A source of the caller's own.
    Custom(CustomToken),
}

impl TokenMember {
    /// Whose token the member needs: that of the session of its profile or of its default chain, where that
    /// has one, or its own session's. A token that was given and a caller's own source need none.
    pub fn token_key(&self) -> Option<&TokenKey>
        ensures { option_copied result ≡ needed_key (asked_of told_token self.now) }
    {
        match self {
            TokenMember::Profile(provider) => provider.token_key(),
            TokenMember::Sso(provider) => provider.token_key(),
            TokenMember::Default(chain) => chain.token_key(),
            _ => None,
        }
    }

    /// What the member answers, over anything that can be asked, on what is kept of it, whose key has to be
    /// [`Self::token_key`]. Where a question is left open it stops there, and where memory runs out with
    /// `OutOfMemory`. What is kept is then as the last finished holding left it.
    #[tactic(auto, using(cfg_kept::proofs::HoldingSteps::holding_steps), unfolding(crate::specs::Members::member_tree))]
    pub fn follow<A: Asking>(
        &self,
        alloc: Global,
        kept: &mut Kept,
        asking: &mut A,
    ) -> Result<Result<Token, TokenError>, Stop>
        requires { kept_key kept.old ≡ needed_key (asked_of told_token self.now) }
        ensures follows { HoldsFollows ⟦<A as Asking>⟧ (member_tree (asked_of told_token self.now)) asking.old (kept_holdings kept.old) asking.new
            (kept_holdings kept.new) result }
        ensures key { kept_key kept.new ≡ kept_key kept.old }
    {
        match self {
            TokenMember::Profile(provider) => provider.follow(kept, asking),
            TokenMember::Sso(provider) => provider.follow(kept, asking),
            TokenMember::Default(chain) => chain.follow(kept, asking),
            TokenMember::Fixed(token) => {
                let token = token.copy(alloc)?;
                Ok(Ok(token))
            }
            TokenMember::Custom(own) => {
                let answer = token_told(own);
                if is_memory(&answer) {
                    return Err(Stop::OutOfMemory);
                }
                Ok(answer)
            }
        }
    }
}

/// A member with the name under which the chain tells of it.
#[derive(Drop)]
pub(crate) struct NamedToken {
    pub name: Text,
    pub member: TokenMember,
}

impl ChainMember for NamedToken {
    ghost use Rattle.std.specs.Prelude.{◌≡◌};
    ghost use Rattle.std.proofs.Common.{sym, ◌∙◌};
    ghost use Rattle.cfg_token_chain.specs.Members.{named_of, IsTokenTree, needed_in};

    type Value = Token;

    type Error = TokenError;

    ghost named = { λ m. m.name };

    ghost needs = { λ m. needed_in (named_of (λ b. (ProvideToken-box b).told_token b.value) m) };

    ghost is_tree = { λ m tree. IsTokenTree (named_of (λ b. (ProvideToken-box b).told_token b.value) m) tree };

    fn name(&self) -> &str {
        self.name.as_str()
    }

    fn token_key(&self) -> Option<&TokenKey> {
        self.member.token_key()
    }

    fn follow<A: Asking>(
        &self,
        alloc: Global,
        kept: &mut Kept,
        asking: &mut A,
    ) -> Result<Result<Token, TokenError>, Stop> {
        self.member.follow(alloc, kept, asking)
    }

    ghost one_tree = { λ m one other is also. is ∙ sym also };
}

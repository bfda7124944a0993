//! Members of a chain by their names.

use crate::member::Member;
use cfg_imds::BoxedClassifier;
use cfg_kept::Kept;
use cfg_meta::{ChainMember, FallsBack};
use cfg_token::TokenKey;
use cfg_types::{Credentials, CredentialsError, OutOfMemory, Text};
use cfg_world::{Asking, Stop};
use std::alloc::Global;
use std::marker::PhantomData;

/// A member with the name under which the chain tells of it.
#[derive(Drop)]
pub(crate) struct NamedMember {
    pub name: Text,
    pub member: Member,
    // Names the interface that a client may hold, which the ghost items below speak of.
    pub classifier: PhantomData<BoxedClassifier>,
}

impl ChainMember for NamedMember {
    ghost use Rattle.cfg_credentials_chain.specs.Members.{name_in, needed_in, IsNamedTree};
    ghost use Rattle.cfg_credentials_chain.specs.Views.{named_of};
    ghost use Rattle.cfg_credentials_chain.specs.OneTree.{one_member_tree};

    type Value = Credentials;

    type Error = CredentialsError;

    ghost named = { λ m. name_in (named_of (λ b. (ProvideCredentials-box b).value b.value) (λ b. (ProvideCredentials-box b).fallback b.value)
        (λ b. (ClassifyRetry-box b).repeated b.value) m) };

    ghost needs = { λ m. needed_in (named_of (λ b. (ProvideCredentials-box b).value b.value) (λ b. (ProvideCredentials-box b).fallback b.value)
        (λ b. (ClassifyRetry-box b).repeated b.value) m) };

    ghost is_tree = { λ m tree. IsNamedTree (named_of (λ b. (ProvideCredentials-box b).value b.value)
        (λ b. (ProvideCredentials-box b).fallback b.value) (λ b. (ClassifyRetry-box b).repeated b.value) m) tree };

    fn name(&self) -> &str {
        self.name.as_str()
    }

    fn token_key(&self) -> Option<&TokenKey> {
        self.member.token_key()
    }

    fn follow<A: Asking>(
        &self,
        alloc: Global,
        kept: &mut Kept,
        asking: &mut A,
    ) -> Result<Result<Credentials, CredentialsError>, Stop> {
        self.member.follow(alloc, kept, asking)
    }

    ghost one_tree = { λ m one other is also. one_member_tree _ one other is also };
}

impl FallsBack for NamedMember {
    ghost use Rattle.cfg_credentials_chain.specs.Members.{fallback_in};
    ghost use Rattle.cfg_credentials_chain.specs.Views.{named_of};

    ghost fallback = { λ m states. fallback_in (named_of (λ b. (ProvideCredentials-box b).value b.value)
        (λ b. (ProvideCredentials-box b).fallback b.value) (λ b. (ClassifyRetry-box b).repeated b.value) m) states };

    fn fallback_on_interrupt(
        &self,
        _alloc: Global,
        kept: &Kept,
    ) -> Result<Option<Credentials>, OutOfMemory> {
        self.member.fallback_on_interrupt(kept)
    }
}

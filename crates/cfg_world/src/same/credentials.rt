ghost use Rattle.std.specs.Prelude.{◌≡◌, ◌↔◌, IsTrue};

use super::{Same, same_items};
use cfg_types::{AccountId, AwsCredentialFeature, Credentials};

impl Same for AccountId {
    fn same(&self, other: &AccountId) -> bool {
        self.text().same(other.text())
    }
}

impl Same for AwsCredentialFeature {
    fn same(&self, other: &AwsCredentialFeature) -> bool {
        *self == *other
    }
}

impl Same for Credentials {
    fn same(&self, other: &Credentials) -> bool {
        same_text(self.access_key_id(), other.access_key_id())
            && same_text(self.secret_access_key(), other.secret_access_key())
            && same_token(self, other)
            && self.expiry().same(&other.expiry())
            && same_account(self, other)
            && same_text(self.provider_name(), other.provider_name())
            && same_items(self.features(), other.features())
    }
}

// Whether both are the same text.
#[tactic(auto, using(crate::proofs::Sameness::same_list))]
pub(super) fn same_text(one: &str, other: &str) -> bool
    ensures { IsTrue result ↔ (one.now ≡ other.now) }
{
    one == other
}

// Whether both have the same session token, or none.
fn same_token(one: &Credentials, other: &Credentials) -> bool
    ensures { IsTrue result ↔ (one.now.session_token ≡ other.now.session_token) }
{
    match (one.session_token(), other.session_token()) {
        (None, None) => true,
        (Some(token), Some(other)) => same_text(token, other),
        _ => false,
    }
}

// Whether both belong to the same account, or none.
fn same_account(one: &Credentials, other: &Credentials) -> bool
    ensures { IsTrue result ↔ (one.now.account_id ≡ other.now.account_id) }
{
    match (one.account_id(), other.account_id()) {
        (None, None) => true,
        (Some(account), Some(other)) => account.same(other),
        _ => false,
    }
}

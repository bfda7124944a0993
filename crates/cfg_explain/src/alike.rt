//! Whether two calls came to the same, the features of credentials aside.
ghost use Rattle.std.specs.Prelude.{◌≡◌, ◌↔◌, IsTrue};
ghost use Rattle.cfg_explain.specs.Alike.{without_features, aside};

use cfg_types::{Credentials, CredentialsError};
use cfg_world::same::Same;

/// Whether both came to the same: to credentials that are the same but for their features, which tell how they were
/// come by, or to the same error with all its causes.
pub fn is_alike(
    one: &Result<Credentials, CredentialsError>,
    other: &Result<Credentials, CredentialsError>,
) -> bool
    ensures { IsTrue result ↔ (aside one.now ≡ aside other.now) }
{
    match (one, other) {
        (Ok(one), Ok(other)) => has_same_keys(one, other),
        (Err(one), Err(other)) => one.same(other),
        _ => false,
    }
}

fn has_same_keys(one: &Credentials, other: &Credentials) -> bool
    ensures { IsTrue result ↔ (without_features one.now ≡ without_features other.now) }
{
    same_text(one.access_key_id(), other.access_key_id())
        && same_text(one.secret_access_key(), other.secret_access_key())
        && has_same_token(one, other)
        && one.expiry().same(&other.expiry())
        && has_same_account(one, other)
        && same_text(one.provider_name(), other.provider_name())
}

#[tactic(auto, using(cfg_world::proofs::Sameness::same_list))]
fn same_text(one: &str, other: &str) -> bool
    ensures { IsTrue result ↔ (one.now ≡ other.now) }
{
    one == other
}

// Whether both have the same session token, or none.
fn has_same_token(one: &Credentials, other: &Credentials) -> bool
    ensures { IsTrue result ↔ (one.now.session_token ≡ other.now.session_token) }
{
    match (one.session_token(), other.session_token()) {
        (None, None) => true,
        (Some(token), Some(other)) => same_text(token, other),
        _ => false,
    }
}

// Whether both belong to the same account, or none.
fn has_same_account(one: &Credentials, other: &Credentials) -> bool
    ensures { IsTrue result ↔ (one.now.account_id ≡ other.now.account_id) }
{
    match (one.account_id(), other.account_id()) {
        (None, None) => true,
        (Some(account), Some(other)) => account.same(other),
        _ => false,
    }
}

//! What the answer to a refresh gives.
ghost use Rattle.std.specs.Prelude.{◌≡◌, IfOk, option_map};
ghost use Rattle.cfg_login_token.specs.LoginTokens.{renewed_keys, renewed as renewed_token, refusal_words as words_of, refusal_message as message_of, by_token, fails};

use crate::login_token::{LoginToken, LoginTokenFields};
use cfg_token::file_token::Renewal;
use cfg_token::lifetime::end_of;
use cfg_types::{
    Credentials, CredentialsBuilder, Instant, LoginTokenError, OutOfMemory, RefusalKind,
    SignInToken, Text, TryCopy, copy_option,
};
use std::alloc::Global;

/// What a reply gives: a token with the reply's keys and refresh token and all else of the old one,
/// which ends `expires_in` seconds after the reading of the clock. Without a token, with a lifetime
/// below one second, or with one that ends past the last moment of all, it is the error
/// `RefreshFailed` without a message. `OutOfMemory` where memory runs out.
pub fn by_reply(
    alloc: Global,
    token: &LoginToken,
    now: Instant,
    given: &Option<SignInToken>,
) -> Result<Renewal<LoginToken, LoginTokenError>, OutOfMemory>
    ensures { IfOk result (λ r. r ≡ by_token token.now now given.now) }
{
    let Some(given) = given else {
        return Ok(failed(None));
    };
    let Some(end) = end_of(now, given.expires_in) else {
        return Ok(failed(None));
    };
    let token = renewed(alloc, token, given, end)?;
    Ok(Renewal::Granted(token))
}

/// What a refusal gives: the error `RefreshFailed`. For `InsufficientPermissions`, `TokenExpired` and
/// `UserCredentialsChanged` it has a message that says what the user can do, else none. `OutOfMemory`
/// where memory runs out.
pub fn by_refusal(
    alloc: Global,
    kind: RefusalKind,
) -> Result<Renewal<LoginToken, LoginTokenError>, OutOfMemory>
    ensures { IfOk result (λ r. r ≡ fails (message_of kind)) }
{
    match refusal_words(kind) {
        Some(message) => {
            let message = Text::of(alloc, message)?;
            Ok(failed(Some(message)))
        }
        None => Ok(failed(None)),
    }
}

/// The error `RefreshFailed` with this message. The attempt is noted, so that the next one comes 30 seconds later at
/// the earliest, where aws-config tries again at each call.
pub fn failed(message: Option<Text>) -> Renewal<LoginToken, LoginTokenError>
    ensures { result ≡ fails message }
{
    Renewal::Refused {
        error: LoginTokenError::RefreshFailed { message },
        noted: true,
    }
}

fn refusal_words(kind: RefusalKind) -> Option<&'static str>
    ensures { option_map (λ m. m.now) result ≡ words_of kind }
{
    match kind {
        RefusalKind::InsufficientPermissions => Some(
            "Unable to refresh credentials due to insufficient permissions. You may be missing permission for the 'CreateOAuth2Token' action.",
        ),
        RefusalKind::TokenExpired => Some("Your session has expired. Please reauthenticate."),
        RefusalKind::UserCredentialsChanged => Some(
            "Unable to refresh credentials because of a change in your password. Please reauthenticate with your new password.",
        ),
        _ => None,
    }
}

fn renewed(
    alloc: Global,
    token: &LoginToken,
    given: &SignInToken,
    end: Instant,
) -> Result<LoginToken, OutOfMemory>
    ensures { IfOk result (λ t. t ≡ renewed_token token.now given.now end) }
{
    let access_token = new_keys(alloc, &token.access_token, given, end)?;
    let token_type = copy_option(alloc, &token.token_type)?;
    let identity_token = copy_option(alloc, &token.identity_token)?;
    let refresh_token = given.refresh_token.copy(alloc)?;
    let client_id = token.client_id.copy(alloc)?;
    let dpop_key = token.dpop_key.copy(alloc)?;
    let fields = LoginTokenFields {
        access_token,
        token_type,
        identity_token,
        refresh_token,
        client_id,
        dpop_key,
    };
    LoginToken::new(alloc, fields)
}

// The reply's keys, of the old account.
fn new_keys(
    alloc: Global,
    old: &Credentials,
    given: &SignInToken,
    end: Instant,
) -> Result<Credentials, OutOfMemory>
    ensures { IfOk result (λ keys. keys ≡ renewed_keys old.now given.now end) }
{
    let id = given.access_key_id.as_str();
    let secret = given.secret_access_key.as_str();
    let builder = CredentialsBuilder::new(alloc, id, secret, "Login")?
        .session_token(given.session_token.as_str())?
        .expiry(end);
    match old.account_id() {
        Some(account) => builder.account_id(account.copy(alloc)?).build(),
        None => builder.build(),
    }
}

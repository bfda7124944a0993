//! The text of a token's file.
ghost use Rattle.std.specs.Prelude.{◌≡◌, [], IfOk, OnOk};
ghost use Rattle.std.specs.Option.{option_copied};
ghost use Rattle.cfg_base.specs.Text.{characters};
ghost use Rattle.cfg_json.specs.Dates.{IsWrittenDate, IsOutside};
ghost use Rattle.cfg_json.specs.Writing.{braced};
ghost use Rattle.cfg_token.specs.SsoText.{with_text_if_there, IsWrittenIfThere, IsOutsideIfThere};
ghost use Rattle.cfg_login_token.specs.LoginText.{access_members, access_member, token_members, IsLoginText, HasNoText, Writes, FailsToFormat};

use crate::login_token::LoginToken;
use cfg_json::{ObjectWriter, write_date};
use cfg_token::writing::{push_if_there, push_text};
use cfg_types::{Credentials, Field, Instant, LoginTokenError, OutOfMemory, Text};
use std::alloc::Global;

/// The text of a token's file: one JSON object without spaces, with the object `accessToken`,
/// `tokenType` where it is there, `refreshToken`, `idToken` where it is there, `clientId` and
/// `dpopKey`, in this order. The object has `accessKeyId`, `secretAccessKey`, and where they are there
/// `sessionToken`, `accountId` and `expiresAt`.
///
/// # Errors
///
/// - `FailedToFormatDateTime`: the end is outside the years 1 to 9999.
/// - `OutOfMemory`: memory runs out.
pub fn write_cached_login_token(alloc: Global, token: &LoginToken) -> Result<Text, LoginTokenError>
    ensures answers { Writes (IsLoginText token.now) (HasNoText token.now) result }
    ensures outside { HasNoText token.now → FailsToFormat result }
{
    let expiry = date_if_there(alloc, token.access_token.expiry())?;
    Ok(file_text(alloc, token, &expiry)?)
}

fn date(alloc: Global, moment: Instant) -> Result<Text, LoginTokenError>
    ensures answers { Writes (λ text. IsWrittenDate text moment) (IsOutside moment.seconds) result }
    ensures outside { IsOutside moment.seconds → FailsToFormat result }
{
    match write_date(alloc, moment)? {
        Some(text) => Ok(text),
        None => Err(LoginTokenError::FailedToFormatDateTime),
    }
}

fn date_if_there(alloc: Global, moment: Option<Instant>) -> Result<Option<Text>, LoginTokenError>
    ensures answers { Writes (λ text. IsWrittenIfThere text moment) (IsOutsideIfThere moment) result }
    ensures outside { IsOutsideIfThere moment → FailsToFormat result }
{
    match moment {
        None => Ok(None),
        Some(moment) => {
            let text = date(alloc, moment)?;
            Ok(Some(text))
        }
    }
}

fn file_text(alloc: Global, token: &LoginToken, expiry: &Option<Text>) -> Result<Text, OutOfMemory>
    ensures { IfOk result (λ text. text ≡ braced (token_members token.now expiry.now)) }
{
    let mut file = with_access(alloc, &token.access_token, expiry)?;
    push_if_there(&mut file, Field::TokenType, &token.token_type)?;
    push_text(&mut file, Field::RefreshToken, token.refresh_token.as_str())?;
    push_if_there(&mut file, Field::IdToken, &token.identity_token)?;
    push_text(&mut file, Field::ClientId, token.client_id.as_str())?;
    push_text(&mut file, Field::DpopKey, token.dpop_key.as_str())?;
    file.finish()
}

// A file with the object `accessToken`.
fn with_access(
    alloc: Global,
    keys: &Credentials,
    expiry: &Option<Text>,
) -> Result<ObjectWriter, OutOfMemory>
    ensures { IfOk result (λ file. file ≡ access_member keys.now expiry.now) }
{
    let access = access_object(alloc, keys, expiry)?;
    let mut file = ObjectWriter::new(alloc);
    file.object(Field::AccessToken.as_str(), access)?;
    Ok(file)
}

fn access_object(
    alloc: Global,
    keys: &Credentials,
    expiry: &Option<Text>,
) -> Result<ObjectWriter, OutOfMemory>
    ensures { IfOk result (λ object. object ≡ access_members keys.now expiry.now) }
{
    let mut object = ObjectWriter::new(alloc);
    push_text(&mut object, Field::LowerAccessKeyId, keys.access_key_id())?;
    push_text(
        &mut object,
        Field::LowerSecretAccessKey,
        keys.secret_access_key(),
    )?;
    push_session(&mut object, keys)?;
    push_account(&mut object, keys)?;
    push_if_there(&mut object, Field::LowerExpiresAt, expiry)?;
    Ok(object)
}

fn push_session(object: &mut ObjectWriter, keys: &Credentials) -> Result<(), OutOfMemory>
    ensures { OnOk result (object.new ≡ with_text_if_there Field.LowerSessionToken keys.now.session_token object.old) }
{
    match keys.session_token() {
        Some(token) => push_text(object, Field::LowerSessionToken, token),
        None => Ok(()),
    }
}

fn push_account(object: &mut ObjectWriter, keys: &Credentials) -> Result<(), OutOfMemory>
    ensures { OnOk result (object.new ≡ with_text_if_there Field.LowerAccountId keys.now.account_id object.old) }
{
    match keys.account_id() {
        Some(account) => push_text(object, Field::LowerAccountId, account.as_str()),
        None => Ok(()),
    }
}

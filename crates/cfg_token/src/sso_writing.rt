//! The text of a token's file.
ghost use Rattle.std.specs.Prelude.{◌≡◌, IfOk, OnOk, Ok};
ghost use Rattle.std.specs.Str.{encode_utf8_all};
ghost use Rattle.cfg_json.specs.Dates.{IsWrittenDate, IsOutside};
ghost use Rattle.cfg_json.specs.Writing.{braced};
ghost use Rattle.cfg_token.specs.SsoText.{dated_members, IsWrittenIfThere, IsSsoText, IsOutsideIfThere, HasNoText, HasTexts, Writes, FailsToFormat};
ghost use Rattle.cfg_token.specs.SsoFile.{sso_file};

use crate::sso_token::CachedSsoToken;
use crate::writing::{push_if_there, push_text};
use cfg_json::{ObjectWriter, write_date};
use cfg_types::{CachedSsoTokenError, Field, Instant, OutOfMemory, Text};
use std::alloc::Global;

/// The text of a token's file: one JSON object without spaces, with the fields `accessToken`,
/// `expiresAt`, and where they are there `refreshToken`, `clientId`, `clientSecret`,
/// `registrationExpiresAt`, `region` and `startUrl`, in this order.
///
/// # Errors
///
/// - `FailedToFormatDateTime`: one of both dates is outside the years 1 to 9999.
/// - `OutOfMemory`: memory runs out.
pub fn write_cached_sso_token(
    alloc: Global,
    token: &CachedSsoToken,
) -> Result<Text, CachedSsoTokenError>
    ensures answers { Writes (IsSsoText token.now) (HasNoText token.now) result }
    ensures outside { HasNoText token.now → FailsToFormat result }
    ensures read_back { IfOk result (λ text. sso_file (encode_utf8_all text) ≡ Ok token.now) }
{
    let expiry = date(alloc, token.expires_at)?;
    let registration = date_if_there(alloc, token.registration_expires_at)?;
    let text = file_text(alloc, token, &expiry, &registration)?;
    Ok(text)
}

fn date(alloc: Global, moment: Instant) -> Result<Text, CachedSsoTokenError>
    ensures answers { Writes (λ text. IsWrittenDate text moment) (IsOutside moment.seconds) result }
    ensures outside { IsOutside moment.seconds → FailsToFormat result }
{
    match write_date(alloc, moment)? {
        Some(text) => Ok(text),
        None => Err(CachedSsoTokenError::FailedToFormatDateTime),
    }
}

fn date_if_there(
    alloc: Global,
    moment: Option<Instant>,
) -> Result<Option<Text>, CachedSsoTokenError>
    ensures answers { Writes (λ text. IsWrittenIfThere text moment) (IsOutsideIfThere moment) result }
    ensures outside { IsOutsideIfThere moment → FailsToFormat result }
{
    match moment {
        None => Ok(None),
        Some(moment) => {
            let text = date(alloc, moment)?;
            Ok(Some(text))
        }
    }
}

fn file_text(
    alloc: Global,
    token: &CachedSsoToken,
    expiry: &Text,
    registration: &Option<Text>,
) -> Result<Text, OutOfMemory>
    ensures is { IfOk result (λ text. text ≡ braced (dated_members token.now expiry.now registration.now)) }
    ensures texts { OnOk result (HasTexts token.now) }
{
    let mut file = ObjectWriter::new(alloc);
    push_text(&mut file, Field::AccessToken, token.access_token.as_str())?;
    push_text(&mut file, Field::LowerExpiresAt, expiry.as_str())?;
    push_if_there(&mut file, Field::RefreshToken, &token.refresh_token)?;
    push_if_there(&mut file, Field::ClientId, &token.client_id)?;
    push_if_there(&mut file, Field::ClientSecret, &token.client_secret)?;
    push_if_there(&mut file, Field::RegistrationExpiresAt, registration)?;
    push_if_there(&mut file, Field::Region, &token.region)?;
    push_if_there(&mut file, Field::StartUrl, &token.start_url)?;
    file.finish()
}

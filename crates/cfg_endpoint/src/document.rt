//! The document of what an endpoint serves.
ghost use Rattle.std.specs.Prelude.{◌≡◌, IfOk, IfSome, IfNone};
ghost use Rattle.std.specs.Str.{encode_utf8_all};
ghost use Rattle.cfg_base.specs.Text.{characters};
ghost use Rattle.cfg_json.specs.Dates.{IsWrittenDate, IsOutside};
ghost use Rattle.cfg_json.specs.Writing.{braced};
ghost use Rattle.cfg_endpoint.specs.Endpoints.{dated_members, document_of as document_bytes};
ghost use Rattle.cfg_endpoint.specs.Made.{HasTexts, IsWritable};

use crate::served::Served;
use cfg_json::{ObjectWriter, write_date};
use cfg_token::writing::push_text;
use cfg_types::{Bytes, Field, OutOfMemory, Text};
use std::alloc::Global;

/// The document of what is served: one JSON object without spaces, with the members `AccessKeyId`,
/// `SecretAccessKey`, `Token` and `Expiration`. None exactly where the moment is outside the years 1 to 9999.
pub(crate) fn document_of(alloc: Global, served: &Served) -> Result<Option<Bytes>, OutOfMemory>
    ensures written { IfOk result (λ o. IfSome o (λ bytes. (bytes ≡ document_bytes served.now) × IsWritable served.now)) }
    ensures none { IfOk result (λ o. IfNone o (IsOutside served.now.expires.seconds)) }
{
    let Some(date) = write_date(alloc, served.expires)? else {
        return Ok(None);
    };
    let text = dated_text(alloc, served, &date)?;
    let bytes = Bytes::of(alloc, text.as_str().as_bytes())?;
    Ok(Some(bytes))
}

fn dated_text(alloc: Global, served: &Served, date: &Text) -> Result<Text, OutOfMemory>
    ensures is { IfOk result (λ text. text ≡ braced (dated_members served.now date.now)) }
    ensures texts { IfOk result (λ text. HasTexts served.now) }
{
    let mut object = ObjectWriter::new(alloc);
    push_text(&mut object, Field::AccessKeyId, served.id.as_str())?;
    push_text(&mut object, Field::SecretAccessKey, served.secret.as_str())?;
    push_text(&mut object, Field::Token, served.token.as_str())?;
    push_text(&mut object, Field::Expiration, date.as_str())?;
    object.finish()
}

//! Documents that a credential process prints.
ghost use Rattle.std.specs.Option.{option_or};
ghost use Rattle.std.specs.Prelude.{◌≡◌, IfOk, option_map, codes, []};
ghost use Rattle.cfg_types.specs.Field.{field_name};
ghost use Rattle.cfg_json.specs.Lookups.{last_number as last_number_of};
ghost use Rattle.cfg_base.specs.Gives.{IsSaid};
ghost use Rattle.cfg_json.specs.Documents.{UnlessMemory, AnswersDocument, ReadsWhole, ReadsVersion, field_text, account_text, known_version, optional_end as end_of, process_of, IsProcessTable};

use crate::credentials::{dated, document_members, find_text, optional, required};
use crate::dates::reading::parse_offset_date;
use crate::lookup::last_number;
use crate::member::Member;
use crate::text::JsonText;
use cfg_types::{
    AccountId, Credentials, CredentialsBuilder, Field, FieldFault, Instant, InvalidJsonCredentials,
    OutOfMemory, TryCopy,
};
use std::alloc::Global;

fn whole_number(text: &str) -> Option<i32>
    ensures { ReadsWhole text.now result }
{
    match text.parse::<i32>() {
        Ok(number) => Some(number),
        Err(_) => None,
    }
}

fn version_of(members: &[Member]) -> Option<Option<i32>>
    ensures { ReadsVersion (last_number_of (field_name Field.Version) members.now) result }
{
    match last_number(members, Field::Version.as_str()) {
        Some(text) => Some(whole_number(text.as_str())),
        None => None,
    }
}

fn check_version(version: Option<Option<i32>>) -> Result<(), InvalidJsonCredentials>
    ensures { IsSaid (λ u. u) (known_version version) result }
{
    match version {
        None => Err(InvalidJsonCredentials::MissingField(Field::Version)),
        Some(None) => Err(InvalidJsonCredentials::InvalidField {
            field: Field::Version,
            fault: FieldFault::Version,
        }),
        Some(Some(1)) => Ok(()),
        Some(Some(number)) => Err(InvalidJsonCredentials::InvalidField {
            field: Field::LowerVersion,
            fault: FieldFault::UnknownVersion(number),
        }),
    }
}

#[tactic(auto, unfolding(crate::specs::Documents::offset_date_in))]
fn optional_end(members: &[Member]) -> Result<Option<Instant>, InvalidJsonCredentials>
    ensures { IsSaid (λ o. o) (end_of (field_text members.now Field.Expiration Field.Expiration)) result }
{
    let Some(text) = find_text(members, Field::Expiration, Field::Expiration) else {
        return Ok(None);
    };
    let moment = dated(parse_offset_date(text.as_str()))?;
    Ok(Some(moment))
}

fn account_of(
    alloc: Global,
    members: &[Member],
    profile: Option<&AccountId>,
) -> Result<Option<AccountId>, OutOfMemory>
    ensures { IfOk result (λ o. o ≡ option_or (account_text members.now) (option_map (λ a. a.now) profile.entry)) }
{
    if let Some(text) = find_text(members, Field::AccountId, Field::AccountId) {
        let account = AccountId::new(alloc, text.as_str())?;
        return Ok(Some(account));
    }
    match profile {
        None => Ok(None),
        Some(account) => {
            let account = account.copy(alloc)?;
            Ok(Some(account))
        }
    }
}

fn with_keys(
    alloc: Global,
    members: &[Member],
    id: &JsonText,
    secret: &JsonText,
    end: Option<Instant>,
    profile: Option<&AccountId>,
) -> Result<Credentials, OutOfMemory>
    ensures { IfOk result (λ k. k ≡ record {
      access_key_id = id.now;
      secret_access_key = secret.now;
      session_token = field_text members.now Field.SessionToken Field.SessionToken;
      expiry = end;
      account_id = option_or (account_text members.now) (option_map (λ a. a.now) profile.entry);
      provider_name = codes "CredentialProcess";
      features = [];
    }) }
{
    let token = optional(alloc, members, Field::SessionToken)?;
    let account = account_of(alloc, members, profile)?;
    let mut builder = CredentialsBuilder::new(
        alloc,
        id.as_str(),
        secret.as_str(),
        "CredentialProcess",
    )?;
    builder.set_session_token(token);
    builder.set_expiry(end);
    builder.set_account_id(account);
    builder.build()
}

#[tactic(auto, unfolding(crate::specs::Documents::process_of))]
fn process_document(
    alloc: Global,
    members: &[Member],
    version: Option<Option<i32>>,
    profile: Option<&AccountId>,
) -> Result<Credentials, InvalidJsonCredentials>
    ensures { UnlessMemory result (process_of members.now version (option_map (λ a. a.now) profile.entry)) }
{
    check_version(version)?;
    let id = required(members, Field::AccessKeyId, Field::AccessKeyId)?;
    let secret = required(members, Field::SecretAccessKey, Field::SecretAccessKey)?;
    let end = optional_end(members)?;
    Ok(with_keys(alloc, members, id, secret, end, profile)?)
}

/// The credentials that the document of a process holds (AWS SDKs and Tools Reference Guide, Process
/// credential provider): the text of one JSON object with the fields `Version`, which is the last number of
/// that name and has to be 1, `AccessKeyId`, `SecretAccessKey`, `SessionToken`, `Expiration` and
/// `AccountId`. The last three may be absent: then there is no session token, no expiry, or the account is
/// the profile's. Their provider is `CredentialProcess`. Names are compared without regard to the case of
/// ASCII letters, and of each field but `Version` the last text counts.
///
/// # Errors
///
/// A fault of the text comes before a fault of a field, and the faults of fields in this order.
///
/// - `JsonError(NotObject)`: the first character that is no white space is not `{`, or there is
///   none.
/// - `JsonError(Syntax)`: it is `{`, and no prefix of the text is an object.
/// - `Other`: more than white space follows the object.
/// - `InvalidField` of `Version`: it is no whole number of 32 bits, written as digits with a minus or none.
/// - `MissingField` of `Version`: there is no number of that name.
/// - `InvalidField` of `version`: it is not 1.
/// - `MissingField` of `AccessKeyId`, then of `SecretAccessKey`: there is no such text.
/// - `InvalidField` of `Expiration`: it is no date in UTC or with an offset, as [`parse_offset_date`] reads
///   them.
/// - `OutOfMemory`: memory runs out.
pub fn parse_credential_process_json_credentials(
    alloc: Global,
    text: &str,
    profile_account_id: Option<&AccountId>,
) -> Result<Credentials, InvalidJsonCredentials>
    ensures { AnswersDocument (IsProcessTable (option_map (λ a. a.now) profile_account_id.entry)) text.now result }
{
    let members = document_members(alloc, text.as_bytes())?;
    let list = members.list.as_slice();
    process_document(alloc, list, version_of(list), profile_account_id)
}

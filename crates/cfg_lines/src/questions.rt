//! The values of questions, a function for each kind of request.
ghost use Rattle.std.specs.Prelude.{◌≡◌, IfOk, IfSome, Some, codes};
ghost use Rattle.hex.specs.Hex.{IsBytes};
ghost use Rattle.serde_json.specs.Data.{string, no_members};
ghost use Rattle.serde_json.specs.View.{view};
ghost use Rattle.cfg_lines.specs.Members.{members_in, put_or_keep};
ghost use Rattle.cfg_lines.specs.Lines.{HasBytes, RequestHasBytes};
ghost use Rattle.cfg_lines.specs.Questions.{question_value, request_value, http_value, metadata_token_value, metadata_get_value, assume_role_value, web_identity_value, role_credentials_value, create_token_value, sign_in_value};

use crate::called::{settings, signer, timeouts};
use crate::fields::Fields;
use cfg_types::{
    AssumeRole, AssumeRoleWithWebIdentity, Bytes, CreateOAuth2Token, CreateToken,
    GetRoleCredentials, Http, MetadataGet, MetadataToken, OutOfMemory, Request, Text,
};
use cfg_world::Question;
use serde_json::Value;
use std::alloc::Global;

// A question of this kind.
fn asking(alloc: Global, kind: &str) -> Result<Fields, OutOfMemory>
    ensures { IfOk result (λ f. members_in f ≡ put_or_keep (codes "ask") (Some (string kind.now)) no_members) }
{
    Fields::new(alloc).word("ask", kind)
}

/// The value of a question.
#[tactic(auto, unfolding(crate::specs::Members::object_with, crate::specs::Questions::question_value))]
pub(crate) fn question_as_value(alloc: Global, question: &Question) -> Result<Value, OutOfMemory>
    ensures value { IfOk result (λ v. view v ≡ question_value question.now) }
    ensures bytes { IfOk result (λ v. HasBytes question.now) }
{
    match question {
        Question::Now => Ok(asking(alloc, "now")?.into_value()),
        Question::Jitter => Ok(asking(alloc, "jitter")?.into_value()),
        Question::Read { path } => Ok(asking(alloc, "read")?.text("path", path)?.into_value()),
        Question::Write { path, bytes } => write(alloc, path, bytes),
        Question::Run { command } => {
            Ok(asking(alloc, "run")?.text("command", command)?.into_value())
        }
        Question::LookUp { host } => Ok(asking(alloc, "lookup")?.text("host", host)?.into_value()),
        Question::Send(request) => request_as_value(alloc, request.get()),
    }
}

#[tactic(auto, unfolding(crate::specs::Members::object_with, crate::specs::Questions::question_value))]
fn write(alloc: Global, path: &Text, bytes: &Bytes) -> Result<Value, OutOfMemory>
    ensures value { IfOk result (λ v. view v ≡ question_value (Question.Write path.now bytes.now)) }
    ensures bytes { IfOk result (λ v. IsBytes bytes.now) }
{
    let fields = asking(alloc, "write")?
        .text("path", path)?
        .content("content", bytes)?;
    Ok(fields.into_value())
}

fn request_as_value(alloc: Global, request: &Request) -> Result<Value, OutOfMemory>
    ensures value { IfOk result (λ v. view v ≡ request_value request.now) }
    ensures bytes { IfOk result (λ v. RequestHasBytes request.now) }
{
    match request {
        Request::Http(call) => http(alloc, call),
        Request::MetadataToken(call) => metadata_token(alloc, call),
        Request::MetadataGet(call) => metadata_get(alloc, call),
        Request::AssumeRole(call) => assume_role(alloc, call),
        Request::AssumeRoleWithWebIdentity(call) => web_identity(alloc, call),
        Request::GetRoleCredentials(call) => role_credentials(alloc, call),
        Request::CreateToken(call) => create_token(alloc, call),
        Request::CreateOAuth2Token(call) => sign_in(alloc, call),
    }
}

#[tactic(auto, unfolding(crate::specs::Members::object_with))]
fn http(alloc: Global, call: &Http) -> Result<Value, OutOfMemory>
    ensures value { IfOk result (λ v. view v ≡ http_value call.now) }
    ensures bytes { IfOk result (λ v. IfSome call.now.authorization IsBytes) }
{
    let timeouts = timeouts(alloc, &call.timeouts)?;
    let fields = asking(alloc, "http")?
        .text("endpoint", &call.endpoint)?
        .text("path", &call.path)?
        .content_or_none("authorization", &call.authorization)?
        .with("timeouts", timeouts)?;
    Ok(fields.into_value())
}

#[tactic(auto, unfolding(crate::specs::Members::object_with))]
fn metadata_token(alloc: Global, call: &MetadataToken) -> Result<Value, OutOfMemory>
    ensures { IfOk result (λ v. view v ≡ metadata_token_value call.now) }
{
    let timeouts = timeouts(alloc, &call.timeouts)?;
    let fields = asking(alloc, "imds-token")?
        .text("endpoint", &call.endpoint)?
        .number("ttl_seconds", call.ttl_seconds)?
        .with("timeouts", timeouts)?;
    Ok(fields.into_value())
}

#[tactic(auto, unfolding(crate::specs::Members::object_with))]
fn metadata_get(alloc: Global, call: &MetadataGet) -> Result<Value, OutOfMemory>
    ensures value { IfOk result (λ v. view v ≡ metadata_get_value call.now) }
    ensures bytes { IfOk result (λ v. IsBytes call.now.token) }
{
    let timeouts = timeouts(alloc, &call.timeouts)?;
    let fields = asking(alloc, "imds-get")?
        .text("endpoint", &call.endpoint)?
        .text("path", &call.path)?
        .content("token", &call.token)?
        .with("timeouts", timeouts)?;
    Ok(fields.into_value())
}

#[tactic(auto, unfolding(crate::specs::Members::object_with))]
fn assume_role(alloc: Global, call: &AssumeRole) -> Result<Value, OutOfMemory>
    ensures { IfOk result (λ v. view v ≡ assume_role_value call.now) }
{
    let signer = signer(alloc, &call.signer)?;
    let settings = settings(alloc, &call.settings)?;
    let fields = asking(alloc, "assume-role")?
        .with("signer", signer)?
        .text("role_arn", &call.role_arn)?
        .text("session_name", &call.session_name)?
        .text_or_none("external_id", &call.external_id)?
        .text_or_none("policy", &call.policy)?
        .texts_or_none("policy_arns", &call.policy_arns)?
        .signed_or_none("duration_seconds", call.duration_seconds)?
        .tags_or_none("tags", &call.tags)?
        .with("settings", settings)?;
    Ok(fields.into_value())
}

#[tactic(auto, unfolding(crate::specs::Members::object_with))]
fn web_identity(alloc: Global, call: &AssumeRoleWithWebIdentity) -> Result<Value, OutOfMemory>
    ensures { IfOk result (λ v. view v ≡ web_identity_value call.now) }
{
    let settings = settings(alloc, &call.settings)?;
    let fields = asking(alloc, "web-identity")?
        .text("role_arn", &call.role_arn)?
        .text("session_name", &call.session_name)?
        .text("token", &call.token)?
        .text_or_none("policy", &call.policy)?
        .texts_or_none("policy_arns", &call.policy_arns)?
        .with("settings", settings)?;
    Ok(fields.into_value())
}

#[tactic(auto, unfolding(crate::specs::Members::object_with))]
fn role_credentials(alloc: Global, call: &GetRoleCredentials) -> Result<Value, OutOfMemory>
    ensures { IfOk result (λ v. view v ≡ role_credentials_value call.now) }
{
    let settings = settings(alloc, &call.settings)?;
    let fields = asking(alloc, "role-credentials")?
        .text("role_name", &call.role_name)?
        .text("account_id", &call.account_id)?
        .text("access_token", &call.access_token)?
        .with("settings", settings)?;
    Ok(fields.into_value())
}

#[tactic(auto, unfolding(crate::specs::Members::object_with))]
fn create_token(alloc: Global, call: &CreateToken) -> Result<Value, OutOfMemory>
    ensures { IfOk result (λ v. view v ≡ create_token_value call.now) }
{
    let settings = settings(alloc, &call.settings)?;
    let fields = asking(alloc, "create-token")?
        .text("client_id", &call.client_id)?
        .text("client_secret", &call.client_secret)?
        .text("refresh_token", &call.refresh_token)?
        .with("settings", settings)?;
    Ok(fields.into_value())
}

#[tactic(auto, unfolding(crate::specs::Members::object_with))]
fn sign_in(alloc: Global, call: &CreateOAuth2Token) -> Result<Value, OutOfMemory>
    ensures { IfOk result (λ v. view v ≡ sign_in_value call.now) }
{
    let settings = settings(alloc, &call.settings)?;
    let fields = asking(alloc, "sign-in")?
        .text("client_id", &call.client_id)?
        .text("refresh_token", &call.refresh_token)?
        .text("dpop_key", &call.dpop_key)?
        .with("settings", settings)?;
    Ok(fields.into_value())
}

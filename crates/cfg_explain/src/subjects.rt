//! What a question is about, in a few words.
ghost use Rattle.std.specs.Prelude.{◌≡◌, IfOk, string_bytes};
ghost use Rattle.cfg_types.specs.Commands.{shown_command};
ghost use Rattle.cfg_explain.specs.Subjects.{subject_of as subject_words, subject_of_request, text_bytes, target_words, address_words, role_words};

use cfg_types::{CommandWithSensitiveArgs, OutOfMemory, Request, ShownAddress, Text, TryCopy};
use cfg_world::Question;
use std::alloc::Global;
use std::string::ToString;

/// What a question is about: the path of a file, the program of a command, a host, an address, or a role; nothing of a
/// reading of the clock, a jitter, and a request for a new token. No text of it is one that a reply gave: of instance
/// metadata it is the service's address alone. Of an address `..` stands for what stands before its last `@`, and behind its
/// first `?` or `#`, and of a command a note for its arguments.
///
/// # Errors
///
/// `OutOfMemory` where memory runs out.
pub fn subject_of(alloc: Global, question: &Question) -> Result<String, OutOfMemory>
    ensures { IfOk result (λ text. string_bytes text ≡ subject_words question.now) }
{
    match question {
        Question::Now => Ok(String::new(alloc)),
        Question::Jitter => Ok(String::new(alloc)),
        Question::Read { path } => text_words(alloc, path),
        Question::Write { path, bytes: _ } => text_words(alloc, path),
        Question::Run { command } => program_words(alloc, command),
        Question::LookUp { host } => text_words(alloc, host),
        Question::Send(request) => request_words(alloc, request.get()),
    }
}

fn request_words(alloc: Global, request: &Request) -> Result<String, OutOfMemory>
    ensures { IfOk result (λ text. string_bytes text ≡ subject_of_request request.now) }
{
    match request {
        Request::Http(call) => target_text(alloc, &call.endpoint, &call.path),
        Request::MetadataToken(call) => address_text(alloc, &call.endpoint),
        Request::MetadataGet(call) => address_text(alloc, &call.endpoint),
        Request::AssumeRole(call) => text_words(alloc, &call.role_arn),
        Request::AssumeRoleWithWebIdentity(call) => text_words(alloc, &call.role_arn),
        Request::GetRoleCredentials(call) => role_text(alloc, &call.role_name, &call.account_id),
        Request::CreateToken(_) => Ok(String::new(alloc)),
        Request::CreateOAuth2Token(_) => Ok(String::new(alloc)),
    }
}

fn text_words(alloc: Global, text: &Text) -> Result<String, OutOfMemory>
    ensures { IfOk result (λ words. string_bytes words ≡ text_bytes text.now) }
{
    Ok(String::from_str(alloc, text.as_str())?)
}

fn program_words(alloc: Global, command: &Text) -> Result<String, OutOfMemory>
    ensures { IfOk result (λ words. string_bytes words ≡ text_bytes (shown_command command.now)) }
{
    let command = CommandWithSensitiveArgs::new(command.copy(alloc)?);
    Ok(command.to_string(alloc)?)
}

fn target_text(alloc: Global, endpoint: &Text, path: &Text) -> Result<String, OutOfMemory>
    ensures { IfOk result (λ words. string_bytes words ≡ target_words endpoint.now path.now) }
{
    let endpoint = ShownAddress(endpoint);
    let path = ShownAddress(path);
    Ok(format!(in alloc; "GET {endpoint}{path}")?)
}

fn address_text(alloc: Global, endpoint: &Text) -> Result<String, OutOfMemory>
    ensures { IfOk result (λ words. string_bytes words ≡ address_words endpoint.now) }
{
    Ok(ShownAddress(endpoint).to_string(alloc)?)
}

fn role_text(alloc: Global, role: &Text, account: &Text) -> Result<String, OutOfMemory>
    ensures { IfOk result (λ words. string_bytes words ≡ role_words role.now account.now) }
{
    let role = role.as_str();
    let account = account.as_str();
    Ok(format!(in alloc; "{role}/{account}")?)
}

//! The kinds of questions.
ghost use Rattle.std.specs.Prelude.{◌≡◌};
ghost use Rattle.cfg_base.specs.Text.{characters};
ghost use Rattle.cfg_explain.specs.Kinds.{kind_of as kind_named, kind_of_request as request_named};

use cfg_types::Request;
use cfg_world::Question;

/// The name of a question's kind, as lines show it: `now`, `jitter`, `read`, `write`, `run`, `lookup`, and of a
/// request `http`, `imds-token`, `imds-get`, `assume-role`, `web-identity`, `role-credentials`, `create-token` or
/// `sign-in`.
pub fn kind_of(question: &Question) -> &'static str
    ensures name { result.now ≡ kind_named question.now }
    ensures characters { characters result.now ≡ kind_named question.now }
{
    match question {
        Question::Now => "now",
        Question::Jitter => "jitter",
        Question::Read { .. } => "read",
        Question::Write { .. } => "write",
        Question::Run { .. } => "run",
        Question::LookUp { .. } => "lookup",
        Question::Send(request) => kind_of_request(request.get()),
    }
}

fn kind_of_request(request: &Request) -> &'static str
    ensures name { result.now ≡ request_named request.now }
    ensures characters { characters result.now ≡ request_named request.now }
{
    match request {
        Request::Http(_) => "http",
        Request::MetadataToken(_) => "imds-token",
        Request::MetadataGet(_) => "imds-get",
        Request::AssumeRole(_) => "assume-role",
        Request::AssumeRoleWithWebIdentity(_) => "web-identity",
        Request::GetRoleCredentials(_) => "role-credentials",
        Request::CreateToken(_) => "create-token",
        Request::CreateOAuth2Token(_) => "sign-in",
    }
}

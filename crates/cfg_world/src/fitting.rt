//! Whether an answer fits a question.
ghost use Rattle.std.specs.Prelude.{◌↔◌, IsTrue};
ghost use Rattle.cfg_world.specs.Fits.{Fits, FitsRequest, IsTransport, IsIo};

use crate::ask::{Answer, Question};
use cfg_types::{FailKind, Reply, Request};

/// Whether the answer is of the question's kind, or a failure of that kind of device. A reading of the
/// clock before the epoch fits no question.
pub fn fits(question: &Question, answer: &Answer) -> bool
    ensures { IsTrue result ↔ Fits question.now answer.now }
{
    match answer {
        Answer::Moment(moment) => matches!(question, Question::Now) && moment.seconds() >= 0,
        Answer::Jitter(_) => matches!(question, Question::Jitter),
        Answer::Contents(_) => matches!(question, Question::Read { path: _ }),
        Answer::Written => matches!(question, Question::Write { path: _, bytes: _ }),
        Answer::Finished(_) => matches!(question, Question::Run { command: _ }),
        Answer::Addresses(_) => matches!(question, Question::LookUp { host: _ }),
        Answer::Replied(reply) => match question {
            Question::Send(request) => fits_request(request.get(), reply),
            _ => false,
        },
        Answer::Failed(kind) => fits_failure(question, *kind),
    }
}

fn fits_failure(question: &Question, kind: FailKind) -> bool
    ensures { IsTrue result ↔ Fits question.now (Answer.Failed kind) }
{
    match question {
        Question::Now => false,
        Question::Jitter => false,
        Question::Read { path: _ } => is_io(kind),
        Question::Write { path: _, bytes: _ } => is_io(kind),
        Question::Run { command: _ } => is_io(kind),
        Question::LookUp { host: _ } => is_io(kind),
        Question::Send(_) => is_transport(kind),
    }
}

/// Whether it is a failure of a file, a command or a look-up: `Io`.
pub fn is_io(kind: FailKind) -> bool
    ensures { IsTrue result ↔ IsIo kind }
{
    match kind {
        FailKind::Io => true,
        FailKind::Dispatch => false,
        FailKind::Timeout => false,
        FailKind::Broken => false,
    }
}

/// Whether it is a failure of a transport: `Dispatch`, `Timeout` or `Broken`.
pub fn is_transport(kind: FailKind) -> bool
    ensures { IsTrue result ↔ IsTransport kind }
{
    !is_io(kind)
}

/// Whether the reply is of the kind that the request asks for, or a refusal of a request that may be
/// refused.
pub fn fits_request(request: &Request, reply: &Reply) -> bool
    ensures { IsTrue result ↔ FitsRequest request.now reply.now }
{
    match request {
        Request::Http(_) => matches!(reply, Reply::Http(_)),
        Request::MetadataToken(_) => matches!(reply, Reply::Http(_)),
        Request::MetadataGet(_) => matches!(reply, Reply::Http(_)),
        Request::AssumeRole(_) => {
            matches!(reply, Reply::Sts(_)) || matches!(reply, Reply::Refused(_))
        }
        Request::AssumeRoleWithWebIdentity(_) => {
            matches!(reply, Reply::Sts(_)) || matches!(reply, Reply::Refused(_))
        }
        Request::GetRoleCredentials(_) => {
            matches!(reply, Reply::Role(_)) || matches!(reply, Reply::Refused(_))
        }
        Request::CreateToken(_) => {
            matches!(reply, Reply::Token(_)) || matches!(reply, Reply::Refused(_))
        }
        Request::CreateOAuth2Token(_) => {
            matches!(reply, Reply::SignIn(_)) || matches!(reply, Reply::Refused(_))
        }
    }
}

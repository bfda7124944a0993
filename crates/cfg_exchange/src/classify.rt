//! Which attempts are repeated.
ghost use Rattle.std.specs.Prelude.{◌≡◌, List, ℕ, Option, Bool, option_map, codes};
ghost use Rattle.cfg_types.specs.declared.reply.http.HttpReply.{HttpReply as ReplyGiven};
ghost use Rattle.cfg_exchange.specs.declared.reading.Reading.{Reading as ReadingGiven};
ghost use Rattle.cfg_exchange.specs.Classifiers.{credentials_repeats, metadata_repeats, is_passing as is_passing_of};

use crate::reading::{Reading, is_success};
use cfg_types::HttpReply;

/// Says which attempts are repeated. A send that failed is handed over without a reply, and as
/// unreadable. An exchange does not ask it of a reply that reads as fine, nor of the last attempt that
/// its limit allows.
pub trait ClassifyRetry: Send + Sync {
    /// Whether an attempt with this reply and this reading is repeated.
    ghost repeated: { Self → Option ReplyGiven → ReadingGiven → Bool };

    /// The bytes of its name.
    ghost named: { Self → List ℕ };

    /// The name of the classifier.
    fn name(&self) -> &str
        ensures { result.now ≡ named self.now };

    /// Whether an attempt with this reply and this reading is repeated.
    fn repeats(&self, reply: Option<&HttpReply>, reading: Reading) -> bool
        ensures { result ≡ repeated self.now (option_map (λ r. r.now) reply.entry) reading };
}

// The statuses of a server that may answer the next attempt.
fn is_passing(status: u16) -> bool
    ensures { result ≡ is_passing_of status }
{
    status == 500 || status == 502 || status == 503 || status == 504
}

/// For replies that hold credentials: repeats a send that failed, a status of 500, 502, 503 or 504,
/// and a success that cannot be read.
#[derive(Clone, Copy, Debug, Default, PartialEq, Eq)]
pub struct HttpCredentialRetryClassifier;

impl ClassifyRetry for HttpCredentialRetryClassifier {
    ghost repeated = { λ _. credentials_repeats };

    ghost named = { λ _. codes "HttpCredentialRetryClassifier" };

    fn name(&self) -> &str {
        "HttpCredentialRetryClassifier"
    }

    fn repeats(&self, reply: Option<&HttpReply>, reading: Reading) -> bool {
        match reply {
            None => true,
            Some(reply) => {
                let is_unreadable = matches!(reading, Reading::Unreadable);
                is_passing(reply.status) || (is_success(reply.status) && is_unreadable)
            }
        }
    }
}

/// For replies of the instance metadata service: repeats server errors (500 to 599) and the status 401,
/// by which the service tells that a token has expired. A send that failed is repeated only where that
/// is asked for. How a reply reads plays no part.
#[derive(Clone, Copy, Debug, Default, PartialEq, Eq)]
pub struct ImdsResponseRetryClassifier {
    retry_connect_timeouts: bool,
}

impl ImdsResponseRetryClassifier {
    /// Whether a send that failed is repeated, in whatever way it failed. It is not, unless this is set.
    pub fn with_retry_connect_timeouts(
        self,
        retry_connect_timeouts: bool,
    ) -> ImdsResponseRetryClassifier
        ensures { result ≡ record { retry_connect_timeouts = retry_connect_timeouts } }
    {
        ImdsResponseRetryClassifier {
            retry_connect_timeouts,
        }
    }
}

impl ClassifyRetry for ImdsResponseRetryClassifier {
    ghost repeated = { metadata_repeats };

    ghost named = { λ _. codes "ImdsResponseRetryClassifier" };

    fn name(&self) -> &str {
        "ImdsResponseRetryClassifier"
    }

    fn repeats(&self, reply: Option<&HttpReply>, _reading: Reading) -> bool {
        match reply {
            None => self.retry_connect_timeouts,
            Some(reply) => { (reply.status >= 500 && reply.status <= 599) || reply.status == 401 }
        }
    }
}

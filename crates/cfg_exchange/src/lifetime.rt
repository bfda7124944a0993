//! How long a metadata token lives, as its reply tells it.
ghost use Rattle.std.specs.Prelude.{◌≡◌};
ghost use Rattle.cfg_exchange.specs.Lifetimes.{number as number_of, lifetime as lifetime_of};

use cfg_types::HttpReply;

/// The whole number of 64 bits without sign that the text is, in decimal digits. A plus may stand before
/// them, as aws-config parses it: `+1` is one, and ` 1` is none. None where it is no such number.
pub fn number(text: &str) -> Option<u64>
    ensures { result ≡ number_of text.now }
{
    match text.parse::<u64>() {
        Ok(number) => Some(number),
        Err(_) => None,
    }
}

/// The seconds that the metadata token of a reply lives, where the reply tells them.
#[tactic(auto, unfolding(crate::specs::Lifetimes::lifetime))]
pub fn lifetime(reply: &HttpReply) -> Option<u64>
    ensures { result ≡ lifetime_of reply.now }
{
    match reply.header("x-aws-ec2-metadata-token-ttl-seconds") {
        Some(seconds) => number(seconds),
        None => None,
    }
}

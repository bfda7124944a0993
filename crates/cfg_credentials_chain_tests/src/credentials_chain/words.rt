//! The words of what a chain over given members asks and answers.
use crate::setup::answer_words;
use cfg_types::{Credentials, CredentialsError, Request};
use cfg_world::{Entry, Question};
use std::alloc::{AllocError, Global};

/// An answer, and what a chain falls back on, that are let go by one call.
pub(crate) struct Outcome {
    pub(crate) answer: Result<Credentials, CredentialsError>,
    pub(crate) fallback: Option<Credentials>,
}

impl Drop for Outcome {
    fn drop(self) {
        let Outcome {
            answer: _,
            fallback: _,
        } = self;
    }
}

fn fallback_words(outcome: &Outcome) -> &str {
    match &outcome.fallback {
        Some(keys) => keys.access_key_id(),
        None => "none",
    }
}

/// An answer, and the key's id of what a chain falls back on.
pub(crate) fn words_of(alloc: Global, outcome: &Outcome) -> Result<String, AllocError> {
    let answer = answer_words(alloc, &outcome.answer)?;
    let fallback = fallback_words(outcome);
    format!(in alloc; "{answer}; {fallback};")
}

fn kind(question: &Question) -> &'static str {
    match question {
        Question::Now => " now",
        Question::Read { path: _ } => " read",
        Question::Send(request) => request_kind(request.get()),
        _ => " another",
    }
}

fn request_kind(request: &Request) -> &'static str {
    match request {
        Request::AssumeRole(_) => " assume-role",
        Request::GetRoleCredentials(_) => " role-credentials",
        Request::MetadataToken(_) => " imds-token",
        Request::MetadataGet(_) => " imds-get",
        _ => " another",
    }
}

/// The kinds of what was asked, in order.
pub(crate) fn kinds(alloc: Global, journal: &[Entry]) -> Result<String, AllocError> {
    let mut words = String::new(alloc);
    for entry in journal {
        words.push_str(kind(entry.question()))?;
    }
    Ok(words)
}

//! What a call for credentials answers, and its words.
use cfg_types::{Credentials, CredentialsError, OutOfMemory, Outcome};
use std::alloc::Global;

pub(crate) type CredentialsOutcome = Outcome<Credentials, CredentialsError>;

/// An answer, with the secret, the token and the features of credentials.
pub(crate) fn answer_words(
    alloc: Global,
    outcome: &CredentialsOutcome,
) -> Result<String, OutOfMemory> {
    match &outcome.answer {
        Ok(keys) => {
            let secret = keys.secret_access_key();
            let token = keys.session_token();
            let features = keys.features();
            Ok(format!(in alloc; "{keys:?} {secret} {token:?} {features:?}")?)
        }
        Err(error) => Ok(format!(in alloc; "{error:?}")?),
    }
}

//! What a section asks of a token and its file.
ghost use Rattle.std.specs.Prelude.{◌≡◌, true, IfOk, string_bytes};
ghost use Rattle.cfg_token.specs.FileNames.{session_of};

use crate::token_key::TokenKey;
use cfg_types::{Bytes, CallSettings, Env, Instant, OutOfMemory, Request, Text, TryCopy};
use cfg_world::Answer;
use std::alloc::Global;

/// What the answer to a refresh gives.
#[derive(Drop)]
pub enum Renewal<T, E> {
    /// A new token, to be saved.
    Granted(T),
    /// No new token. The attempt is noted, and the file's token serves while it lasts.
    Passed,
    /// An error, which the load gives. `noted` says whether the attempt is noted.
    Refused { error: E, noted: bool },
}

/// Why a new token was not saved.
#[derive(Drop)]
pub enum Unsaved {
    /// A date has no text, and nothing was written.
    NoText,
    /// The file of this path could not be written.
    NotWritten(Text),
}

/// A token that a file keeps. The kinds differ in their rules, and one section serves them all. A call
/// of these rules answers `OutOfMemory` where memory runs out, and each other error as its value.
pub trait FileToken: TryCopy {
    ghost use Rattle.std.specs.Prelude.{ℕ, List};
    ghost use Rattle.cfg_token.specs.Rules.{Rules, Tells};

    /// Why a section gives no token.
    type Error: TryCopy;

    ghost rules: { Rules Self Self.Error };

    /// The name of a session's file, in bytes.
    ghost name_of: { List ℕ → List ℕ };

    /// When the token ends.
    fn expires_at(&self) -> Instant
        ensures { result ≡ rules.expiry self.now };

    /// Whether it has what a refresh needs, at this reading of the clock.
    fn can_refresh(&self, now: Instant) -> bool
        ensures { result ≡ rules.refreshable self.now now };

    /// The name of the file of this session's token, in its folder.
    fn file_name(alloc: Global, session: &Text) -> Result<String, OutOfMemory>
        ensures { IfOk result (λ name. string_bytes name ≡ name_of session.now) };

    /// The path of the token's file for a key of this kind, whose name this is, or why there is none.
    fn path(
        alloc: Global,
        key: &TokenKey,
        name: &str,
        env: &Env,
    ) -> Result<Result<Text, Self::Error>, OutOfMemory>
        requires kind { rules.is_kind key.now ≡ true }
        requires name { name.now ≡ name_of (session_of key.now) }
        ensures { IfOk result (λ r. r ≡ rules.path key.now env.now) };

    /// The token in a file's bytes, or why they have none.
    fn parse(alloc: Global, bytes: &[u8]) -> Result<Result<Self, Self::Error>, OutOfMemory>
        ensures { IfOk result (λ r. r ≡ rules.reading bytes.now) };

    /// The error of a file that could not be read.
    fn read_error(alloc: Global, path: &Text) -> Result<Self::Error, OutOfMemory>
        ensures { IfOk result (λ e. e ≡ rules.unread path.now) };

    /// The error of a token that has expired.
    fn expired_error() -> Self::Error
        ensures { result ≡ rules.expired };

    /// The request for a new token.
    fn refresh_request(
        &self,
        alloc: Global,
        key: &TokenKey,
        settings: &CallSettings,
    ) -> Result<Request, OutOfMemory>
        requires { rules.is_kind key.now ≡ true }
        ensures { IfOk result (λ r. r ≡ rules.request key.now settings.now self.now) };

    /// What the answer to that request gives. A new token ends after this reading of the clock.
    fn renew(
        &self,
        alloc: Global,
        key: &TokenKey,
        now: Instant,
        answer: &Answer,
    ) -> Result<Renewal<Self, Self::Error>, OutOfMemory>
        requires { rules.is_kind key.now ≡ true }
        ensures { IfOk result (λ r. r ≡ rules.renewal key.now self.now now answer.now) };

    /// The bytes that are written to the token's file, or none where a date of it has no text.
    fn to_bytes(&self, alloc: Global) -> Result<Option<Bytes>, OutOfMemory>
        ensures { IfOk result (λ t. t ≡ rules.text self.now) };

    /// The error of a new token that was not saved, or none where that is passed over.
    fn save_error(fault: Unsaved) -> Option<Self::Error>
        ensures { result ≡ rules.unsaved fault };

    /// The error where memory runs out. No other call of these rules gives it.
    fn out_of_memory() -> Self::Error
        ensures { rules.is_memory result ≡ true };

    ghost tells: { Tells rules };
}

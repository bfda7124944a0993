ghost use Rattle.std.specs.Prelude.{◌≡◌, ◌≢◌, IfOk, option_map};
ghost use Rattle.std.specs.Str.{encode_utf8_all};
ghost use Rattle.cfg_login_token.specs.LoginText.{login_text};
ghost use Rattle.cfg_login_token.specs.LoginTokens.{first_moment};

use crate::login_file::parse_cached_login_token;
use crate::login_token::LoginToken;
use crate::login_writing::write_cached_login_token;
use crate::paths::{cache_directory, hashed, path_of_name};
use crate::renewal::{by_refusal, by_reply, failed};
use cfg_token::TokenKey;
use cfg_token::file_token::{FileToken, Renewal, Unsaved};
use cfg_types::{
    Bytes, CallSettings, CreateOAuth2Token, Env, Instant, IoStep, LoginTokenError, OutOfMemory,
    Reply, Request, Text, TryCopy,
};
use cfg_world::Answer;
use std::alloc::Global;

impl FileToken for LoginToken {
    ghost use Rattle.cfg_login_token.specs.LoginTokens.{login_rules};
    ghost use Rattle.cfg_login_token.specs.LoginTells.{login_tells};
    ghost use Rattle.cfg_login_token.specs.Paths.{login_name};

    type Error = LoginTokenError;

    ghost rules = { login_rules };

    ghost name_of = { login_name };

    ghost tells = { login_tells };

    fn expires_at(&self) -> Instant {
        match self.access_token.expiry() {
            Some(end) => end,
            None => first_instant(),
        }
    }

    fn can_refresh(&self, _now: Instant) -> bool {
        true
    }

    fn file_name(alloc: Global, session: &Text) -> Result<String, OutOfMemory> {
        hashed(alloc, session.as_str())
    }

    fn path(
        alloc: Global,
        key: &TokenKey,
        name: &str,
        env: &Env,
    ) -> Result<Result<Text, LoginTokenError>, OutOfMemory> {
        let TokenKey::Login { session: _ } = key else {
            unreachable!()
        };
        match cache_directory(alloc, env)? {
            Ok(cache) => {
                let path = path_of_name(cache, name)?;
                Ok(Ok(path))
            }
            Err(error) => Ok(Err(error)),
        }
    }

    fn parse(
        alloc: Global,
        bytes: &[u8],
    ) -> Result<Result<LoginToken, LoginTokenError>, OutOfMemory> {
        match parse_cached_login_token(alloc, bytes) {
            Ok(token) => Ok(Ok(token)),
            Err(error) => {
                let error = unless_memory(error)?;
                Ok(Err(error))
            }
        }
    }

    fn read_error(alloc: Global, path: &Text) -> Result<LoginTokenError, OutOfMemory> {
        let path = path.copy(alloc)?;
        Ok(LoginTokenError::IoError {
            what: IoStep::Read,
            path,
        })
    }

    fn expired_error() -> LoginTokenError {
        LoginTokenError::ExpiredToken
    }

    fn refresh_request(
        &self,
        alloc: Global,
        _key: &TokenKey,
        settings: &CallSettings,
    ) -> Result<Request, OutOfMemory> {
        let client_id = self.client_id.copy(alloc)?;
        let refresh_token = self.refresh_token.copy(alloc)?;
        let dpop_key = self.dpop_key.copy(alloc)?;
        let settings = settings.copy(alloc)?;
        Ok(Request::CreateOAuth2Token(CreateOAuth2Token {
            client_id,
            refresh_token,
            dpop_key,
            settings,
        }))
    }

    fn renew(
        &self,
        alloc: Global,
        _key: &TokenKey,
        now: Instant,
        answer: &Answer,
    ) -> Result<Renewal<LoginToken, LoginTokenError>, OutOfMemory> {
        match answer {
            Answer::Replied(Reply::SignIn(reply)) => by_reply(alloc, self, now, &reply.token),
            Answer::Replied(Reply::Refused(refusal)) => by_refusal(alloc, refusal.kind),
            _ => Ok(failed(None)),
        }
    }

    fn to_bytes(&self, alloc: Global) -> Result<Option<Bytes>, OutOfMemory> {
        text_bytes(alloc, self)
    }

    fn save_error(_fault: Unsaved) -> Option<LoginTokenError> {
        // As in aws-config, where it is logged alone.
        None
    }

    fn out_of_memory() -> LoginTokenError {
        LoginTokenError::OutOfMemory
    }
}

// The end of a token that has none: a token that is not known to last is refreshed. No clock reads
// before this moment, and no file gives such a token.
fn first_instant() -> Instant
    ensures { result ≡ first_moment }
{
    match Instant::new(i64::MIN, 0) {
        Some(first) => first,
        None => unreachable!(),
    }
}

// The bytes of a token's file, where its end has a text.
#[tactic(auto, using(crate::proofs::LoginTexts::login_texts))]
fn text_bytes(alloc: Global, token: &LoginToken) -> Result<Option<Bytes>, OutOfMemory>
    ensures { IfOk result (λ t. t ≡ option_map encode_utf8_all (login_text token.now)) }
{
    match write_cached_login_token(alloc, token) {
        Ok(text) => {
            let bytes = Bytes::of(alloc, text.as_str().as_bytes())?;
            Ok(Some(bytes))
        }
        Err(error) => match &error {
            LoginTokenError::FailedToFormatDateTime => Ok(None),
            _ => Err(OutOfMemory),
        },
    }
}

// An error of the file, unless memory ran out.
fn unless_memory(error: LoginTokenError) -> Result<LoginTokenError, OutOfMemory>
    ensures ok { IfOk result (λ e. e ≡ error) }
    ensures memory { IfOk result (λ e. e ≢ LoginTokenError.OutOfMemory) }
{
    match &error {
        LoginTokenError::OutOfMemory => Err(OutOfMemory),
        _ => Ok(error),
    }
}

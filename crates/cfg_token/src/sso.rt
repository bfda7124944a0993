ghost use Rattle.std.specs.Prelude.{◌≡◌, ◌≢◌, [], true, IfOk, option_map, unwrap_or};
ghost use Rattle.std.specs.Option.{option_or};
ghost use Rattle.std.specs.Str.{encode_utf8_all};
ghost use Rattle.cfg_token.specs.SsoText.{sso_text};
ghost use Rattle.cfg_token.specs.SsoTokens.{is_sso, ends_after as ends_after_moment, renewed as renewed_token, in_region as settings_in};

use crate::decision::is_before;
use crate::file_token::{FileToken, Renewal, Unsaved};
use crate::lifetime::end_of;
use crate::paths::{hashed, path_of_name};
use crate::sso_file::parse_cached_sso_token;
use crate::sso_token::{CachedSsoToken, SsoTokenFields};
use crate::sso_writing::write_cached_sso_token;
use crate::token_key::TokenKey;
use cfg_types::{
    Bytes, CachedSsoTokenError, CallSettings, CreateToken, Env, Instant, IoStep, OutOfMemory,
    Reply, Request, SsoTokenProviderError, Text, TokenReply, TryCopy, copy_option,
};
use cfg_world::Answer;
use std::alloc::Global;

impl FileToken for CachedSsoToken {
    ghost use Rattle.cfg_token.specs.SsoTokens.{sso_rules};
    ghost use Rattle.cfg_token.specs.SsoTells.{sso_tells};
    ghost use Rattle.cfg_token.specs.Paths.{sso_name};

    type Error = SsoTokenProviderError;

    ghost rules = { sso_rules };

    ghost name_of = { sso_name };

    ghost tells = { sso_tells };

    fn expires_at(&self) -> Instant {
        self.expires_at
    }

    fn can_refresh(&self, now: Instant) -> bool {
        self.client_id.is_some()
            && self.client_secret.is_some()
            && self.refresh_token.is_some()
            && ends_after(self.registration_expires_at, now)
    }

    fn file_name(alloc: Global, session: &Text) -> Result<String, OutOfMemory> {
        hashed(alloc, session.as_str())
    }

    fn path(
        alloc: Global,
        key: &TokenKey,
        name: &str,
        env: &Env,
    ) -> Result<Result<Text, SsoTokenProviderError>, OutOfMemory> {
        let TokenKey::Sso { .. } = key else {
            unreachable!()
        };
        match env.get("HOME") {
            Ok(home) => {
                let path = path_of_name(alloc, name, home)?;
                Ok(Ok(path))
            }
            Err(_) => Ok(Err(SsoTokenProviderError::FailedToLoadToken(
                CachedSsoTokenError::NoHomeDirectory,
            ))),
        }
    }

    fn parse(
        alloc: Global,
        bytes: &[u8],
    ) -> Result<Result<CachedSsoToken, SsoTokenProviderError>, OutOfMemory> {
        match parse_cached_sso_token(alloc, bytes) {
            Ok(token) => Ok(Ok(token)),
            Err(error) => {
                let error = not_loaded(error)?;
                Ok(Err(error))
            }
        }
    }

    fn read_error(alloc: Global, path: &Text) -> Result<SsoTokenProviderError, OutOfMemory> {
        let path = path.copy(alloc)?;
        Ok(SsoTokenProviderError::FailedToLoadToken(CachedSsoTokenError::IoError {
            what: IoStep::Read,
            path,
        }))
    }

    fn expired_error() -> SsoTokenProviderError {
        SsoTokenProviderError::ExpiredToken
    }

    fn refresh_request(
        &self,
        alloc: Global,
        key: &TokenKey,
        settings: &CallSettings,
    ) -> Result<Request, OutOfMemory> {
        let client_id = text_or_empty(alloc, &self.client_id)?;
        let client_secret = text_or_empty(alloc, &self.client_secret)?;
        let refresh_token = text_or_empty(alloc, &self.refresh_token)?;
        let settings = in_region(alloc, key, settings)?;
        Ok(Request::CreateToken(CreateToken {
            client_id,
            client_secret,
            refresh_token,
            settings,
        }))
    }

    fn renew(
        &self,
        alloc: Global,
        key: &TokenKey,
        now: Instant,
        answer: &Answer,
    ) -> Result<Renewal<CachedSsoToken, SsoTokenProviderError>, OutOfMemory> {
        // As in aws-config, a refresh that failed is no error: the file's token may still serve.
        let Answer::Replied(Reply::Token(reply)) = answer else {
            return Ok(Renewal::Passed);
        };
        let Some(access) = &reply.access_token else {
            return Ok(Renewal::Passed);
        };
        let Some(end) = end_of(now, reply.expires_in) else {
            return Ok(Renewal::Refused {
                error: SsoTokenProviderError::BadExpirationTimeFromSsoOidc(reply.expires_in),
                noted: false,
            });
        };
        let token = renewed(alloc, key, self, reply, access, end)?;
        Ok(Renewal::Granted(token))
    }

    fn to_bytes(&self, alloc: Global) -> Result<Option<Bytes>, OutOfMemory> {
        text_bytes(alloc, self)
    }

    fn save_error(fault: Unsaved) -> Option<SsoTokenProviderError> {
        // As in aws-config, a token that could not be saved is not handed out.
        let error = match fault {
            Unsaved::NoText => CachedSsoTokenError::FailedToFormatDateTime,
            Unsaved::NotWritten(path) => CachedSsoTokenError::IoError {
                what: IoStep::Write,
                path,
            },
        };
        Some(SsoTokenProviderError::FailedToLoadToken(error))
    }

    fn out_of_memory() -> SsoTokenProviderError {
        SsoTokenProviderError::OutOfMemory
    }
}

fn ends_after(end: Option<Instant>, now: Instant) -> bool
    ensures { result ≡ ends_after_moment end now }
{
    match end {
        Some(end) => is_before(now, end),
        None => false,
    }
}

// A request is made only where the texts are there.
fn text_or_empty(alloc: Global, text: &Option<Text>) -> Result<Text, OutOfMemory>
    ensures { IfOk result (λ t. t ≡ unwrap_or text.now []) }
{
    match text {
        Some(text) => text.copy(alloc),
        None => Text::of(alloc, ""),
    }
}

// The settings in the region of the session.
fn in_region(
    alloc: Global,
    key: &TokenKey,
    settings: &CallSettings,
) -> Result<CallSettings, OutOfMemory>
    requires { is_sso key.now ≡ true }
    ensures { IfOk result (λ s. s ≡ settings_in key.now settings.now) }
{
    let TokenKey::Sso { region, .. } = key else {
        unreachable!()
    };
    settings.in_region(alloc, region)
}

fn renewed(
    alloc: Global,
    key: &TokenKey,
    token: &CachedSsoToken,
    reply: &TokenReply,
    access: &Text,
    expires_at: Instant,
) -> Result<CachedSsoToken, OutOfMemory>
    requires { is_sso key.now ≡ true }
    ensures { IfOk result (λ t. t ≡ renewed_token key.now token.now reply.now access.now expires_at) }
{
    let TokenKey::Sso {
        region,
        start_url,
        ..
    } = key
    else {
        unreachable!()
    };
    let access_token = access.copy(alloc)?;
    let refresh_token = new_or_old(alloc, &reply.refresh_token, &token.refresh_token)?;
    let client_id = copy_option(alloc, &token.client_id)?;
    let client_secret = copy_option(alloc, &token.client_secret)?;
    let region = Text::of(alloc, region.as_str())?;
    let start_url = start_url.copy(alloc)?;
    let fields = SsoTokenFields {
        access_token,
        expires_at,
        refresh_token,
        client_id,
        client_secret,
        registration_expires_at: token.registration_expires_at,
        region: Some(region),
        start_url: Some(start_url),
    };
    CachedSsoToken::new(alloc, fields)
}

fn new_or_old(
    alloc: Global,
    new: &Option<Text>,
    old: &Option<Text>,
) -> Result<Option<Text>, OutOfMemory>
    ensures { IfOk result (λ t. t ≡ option_or new.now old.now) }
{
    match new {
        Some(_) => copy_option(alloc, new),
        None => copy_option(alloc, old),
    }
}

// The bytes of a token's file, where its dates have texts.
#[tactic(auto, using(crate::proofs::SsoTexts::sso_texts))]
fn text_bytes(alloc: Global, token: &CachedSsoToken) -> Result<Option<Bytes>, OutOfMemory>
    ensures { IfOk result (λ t. t ≡ option_map encode_utf8_all (sso_text token.now)) }
{
    match write_cached_sso_token(alloc, token) {
        Ok(text) => {
            let bytes = Bytes::of(alloc, text.as_str().as_bytes())?;
            Ok(Some(bytes))
        }
        Err(error) => match &error {
            CachedSsoTokenError::FailedToFormatDateTime => Ok(None),
            _ => Err(OutOfMemory),
        },
    }
}

// An error of the file, unless memory ran out.
fn not_loaded(error: CachedSsoTokenError) -> Result<SsoTokenProviderError, OutOfMemory>
    ensures ok { IfOk result (λ e. e ≡ SsoTokenProviderError.FailedToLoadToken error) }
    ensures memory { IfOk result (λ e. error ≢ CachedSsoTokenError.OutOfMemory) }
{
    match &error {
        CachedSsoTokenError::OutOfMemory => Err(OutOfMemory),
        _ => Ok(SsoTokenProviderError::FailedToLoadToken(error)),
    }
}

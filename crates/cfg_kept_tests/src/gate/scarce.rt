//! A token for which memory runs out where its file is empty.
use cfg_token::file_token::{FileToken, Renewal, Unsaved};
use cfg_token::{CachedSsoToken, TokenKey};
use cfg_types::{
    Bytes, CallSettings, Env, Instant, OutOfMemory, Request, SsoTokenProviderError, Text, TryCopy,
};
use cfg_world::Answer;
use std::alloc::Global;
use std::marker::Model;

/// A token of IAM Identity Center, with its rules. Where its file is empty memory runs out.
#[derive(Drop)]
pub(crate) struct Scarce {
    token: CachedSsoToken,
}

impl Model for Scarce {
    ghost use Rattle.cfg_token.specs.declared.sso_token.CachedSsoToken.{CachedSsoToken};

    ghost Value = { CachedSsoToken };

    ghost view = { λ s. s.token };
}

impl TryCopy for Scarce {
    fn copy(&self, alloc: Global) -> Result<Scarce, OutOfMemory> {
        let token = self.token.copy(alloc)?;
        Ok(Scarce { token })
    }
}

impl FileToken for Scarce {
    ghost use Rattle.cfg_token.specs.SsoTokens.{sso_rules};
    ghost use Rattle.cfg_token.specs.SsoTells.{sso_tells};
    ghost use Rattle.cfg_token.specs.Paths.{sso_name};

    type Error = SsoTokenProviderError;

    ghost rules = { sso_rules };

    ghost name_of = { sso_name };

    ghost tells = { sso_tells };

    fn expires_at(&self) -> Instant {
        self.token.expires_at()
    }

    fn can_refresh(&self, now: Instant) -> bool {
        self.token.can_refresh(now)
    }

    fn file_name(alloc: Global, session: &Text) -> Result<String, OutOfMemory> {
        CachedSsoToken::file_name(alloc, session)
    }

    fn path(
        alloc: Global,
        key: &TokenKey,
        name: &str,
        env: &Env,
    ) -> Result<Result<Text, SsoTokenProviderError>, OutOfMemory> {
        CachedSsoToken::path(alloc, key, name, env)
    }

    fn parse(
        alloc: Global,
        bytes: &[u8],
    ) -> Result<Result<Scarce, SsoTokenProviderError>, OutOfMemory> {
        if bytes.is_empty() {
            return Err(OutOfMemory);
        }
        match CachedSsoToken::parse(alloc, bytes)? {
            Ok(token) => Ok(Ok(Scarce { token })),
            Err(error) => Ok(Err(error)),
        }
    }

    fn read_error(alloc: Global, path: &Text) -> Result<SsoTokenProviderError, OutOfMemory> {
        CachedSsoToken::read_error(alloc, path)
    }

    fn expired_error() -> SsoTokenProviderError {
        CachedSsoToken::expired_error()
    }

    fn refresh_request(
        &self,
        alloc: Global,
        key: &TokenKey,
        settings: &CallSettings,
    ) -> Result<Request, OutOfMemory> {
        self.token.refresh_request(alloc, key, settings)
    }

    fn renew(
        &self,
        alloc: Global,
        key: &TokenKey,
        now: Instant,
        answer: &Answer,
    ) -> Result<Renewal<Scarce, SsoTokenProviderError>, OutOfMemory> {
        match self.token.renew(alloc, key, now, answer)? {
            Renewal::Granted(token) => Ok(Renewal::Granted(Scarce { token })),
            Renewal::Passed => Ok(Renewal::Passed),
            Renewal::Refused { error, noted } => Ok(Renewal::Refused { error, noted }),
        }
    }

    fn to_bytes(&self, alloc: Global) -> Result<Option<Bytes>, OutOfMemory> {
        self.token.to_bytes(alloc)
    }

    fn save_error(fault: Unsaved) -> Option<SsoTokenProviderError> {
        CachedSsoToken::save_error(fault)
    }

    fn out_of_memory() -> SsoTokenProviderError {
        CachedSsoToken::out_of_memory()
    }
}

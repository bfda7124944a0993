ghost use Rattle.std.specs.Prelude.{◌≡◌, IfOk};

use cfg_types::{Instant, OutOfMemory, Shared, Text, TryCopy};
use std::alloc::Global;
use std::fmt;
use std::marker::Model;
use std::ops::Deref;

/// What the file of a token of IAM Identity Center keeps.
#[derive(PartialEq, Eq)]
pub struct SsoTokenFields {
    /// What is sent with requests for credentials, and handed out as a bearer token.
    pub access_token: Text,
    /// When the access token ends.
    pub expires_at: Instant,
    /// What a refresh is asked with.
    pub refresh_token: Option<Text>,
    /// The id of the registered client.
    pub client_id: Option<Text>,
    /// The secret of the registered client.
    pub client_secret: Option<Text>,
    /// When the registration of the client ends.
    pub registration_expires_at: Option<Instant>,
    /// The region of the session.
    pub region: Option<Text>,
    /// Where the users of the session sign in.
    pub start_url: Option<Text>,
}

impl Drop for SsoTokenFields {
    fn drop(self) {
        let SsoTokenFields {
            access_token: _,
            expires_at: _,
            refresh_token: _,
            client_id: _,
            client_secret: _,
            registration_expires_at: _,
            region: _,
            start_url: _,
        } = self;
    }
}

/// A token of IAM Identity Center, as its file keeps it. With the client's id and secret, a refresh
/// token, and a registration of the client that has not expired, it can be refreshed. Contracts see its
/// fields. A copy shares them with its source.
#[derive(PartialEq, Eq)]
pub struct CachedSsoToken {
    fields: Shared<SsoTokenFields>,
}

impl Model for CachedSsoToken {
    ghost use Rattle.cfg_token.specs.declared.sso_token.SsoTokenFields.{SsoTokenFields};

    ghost Value = { SsoTokenFields };

    ghost view = { λ t. t.fields };

    ghost inverse = { λ f. record { fields = f } };
}

impl Drop for CachedSsoToken {
    fn drop(self) {
        let CachedSsoToken { fields: _ } = self;
    }
}

impl CachedSsoToken {
    /// The token with these fields. `OutOfMemory` where memory runs out.
    pub fn new(alloc: Global, fields: SsoTokenFields) -> Result<CachedSsoToken, OutOfMemory>
        ensures { IfOk result (λ t. t ≡ fields) }
    {
        let fields = Shared::new(alloc, fields)?;
        Ok(CachedSsoToken { fields })
    }
}

impl Deref for CachedSsoToken {
    type Target = SsoTokenFields;

    ghost deref_gives = { λ t f. f ≡ t };

    fn deref(&self) -> &SsoTokenFields {
        self.fields.get()
    }
}

impl TryCopy for CachedSsoToken {
    fn copy(&self, alloc: Global) -> Result<CachedSsoToken, OutOfMemory> {
        let fields = self.fields.copy(alloc)?;
        Ok(CachedSsoToken { fields })
    }
}

// The text depends on neither token, nor on the client's secret.
impl fmt::Debug for CachedSsoToken {
    ghost use Rattle.std.specs.Prelude.{Some};
    ghost use Rattle.cfg_token.specs.ShownTokens.{shown_sso_token};

    ghost debug_output = { λ t. Some (shown_sso_token t.expires_at) };

    fn fmt<W: fmt::Write>(&self, f: &mut fmt::Formatter<W>) -> fmt::Result {
        let seconds = self.expires_at.seconds();
        let nanos = self.expires_at.nanos();
        write!(
            f,
            "CachedSsoToken {{ secrets: \"** redacted **\", expires_at: {seconds} s {nanos} ns }}"
        )
    }
}

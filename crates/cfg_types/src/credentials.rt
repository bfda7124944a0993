//! Credentials, and the builder that puts them together.
ghost use Rattle.std.specs.Prelude.{◌≡◌, ◌++◌, ◌∷◌, IfOk, OnOk, OnErr, Some, None, [], Option, option_map};
ghost use Rattle.std.specs.Str.{encode_utf8_all};
ghost use Rattle.cfg_base.specs.Text.{characters};

use cfg_base::{Instant, OutOfMemory, Seq, Shared, Text, TryCopy};
use std::alloc::Global;
use std::fmt;
use std::marker::Model;

/// The id of an account. Any text is one. Contracts see its characters.
#[derive(PartialEq, Eq, Drop)]
pub struct AccountId {
    id: Text,
}

impl Model for AccountId {
    ghost use Rattle.std.specs.Prelude.{List, ℕ};

    ghost Value = { List ℕ };

    ghost view = { λ a. a.id };

    ghost inverse = { λ id. record { id = id } };
}

impl AccountId {
    /// The account of this id. `OutOfMemory` where memory runs out.
    pub fn new(alloc: Global, text: &str) -> Result<AccountId, OutOfMemory>
        ensures { IfOk result (λ account. account ≡ characters text.now) }
    {
        Ok(AccountId {
            id: Text::of(alloc, text)?,
        })
    }

    /// The id, lent.
    pub fn as_str(&self) -> &str
        ensures chars { characters result.now ≡ self.now }
        ensures bytes { result.now ≡ encode_utf8_all self.now }
    {
        self.id.as_str()
    }

    /// The text of the id.
    pub fn text(&self) -> &Text
        ensures { result.now ≡ self.now }
    {
        &self.id
    }
}

impl fmt::Debug for AccountId {
    ghost use Rattle.std.specs.Str.{encode_utf8_all};
    ghost use Rattle.std.specs.Fmt.{debug_str};

    ghost debug_output = { λ a. debug_str (encode_utf8_all a) };

    fn fmt<W: fmt::Write>(&self, f: &mut fmt::Formatter<W>) -> fmt::Result {
        fmt::Debug::fmt(&self.id, f)
    }
}

impl TryCopy for AccountId {
    fn copy(&self, alloc: Global) -> Result<AccountId, OutOfMemory> {
        Ok(AccountId {
            id: self.id.copy(alloc)?,
        })
    }
}

/// Where credentials came from, as the SDK counts it in its user agent.
#[derive(Clone, Copy, Debug, PartialEq, Eq)]
pub enum AwsCredentialFeature {
    /// Environment variables.
    CredentialsEnvVars,
    /// A process.
    CredentialsProcess,
    /// The endpoint of a container.
    CredentialsHttp,
    /// A web identity, whether a profile names it or the environment does.
    CredentialsProfileStsWebIdToken,
    /// Instance metadata.
    CredentialsImds,
    /// IAM Identity Center.
    CredentialsSso,
    /// A sign-in session that a profile names.
    CredentialsProfileLogin,
    /// A profile, or a sign-in session whose provider a caller asks itself.
    CredentialsProfile,
    /// A role over a base, outside of a profile.
    CredentialsStsAssumeRole,
}

// What credentials and their copies share.
#[derive(PartialEq, Eq, Drop)]
struct SharedKeys {
    access_key_id: Text,
    secret_access_key: Text,
    session_token: Option<Text>,
    expiry: Option<Instant>,
    account_id: Option<AccountId>,
    provider_name: Text,
}

/// Keys that sign requests, with what is known of them. A copy shares them with its source.
#[derive(PartialEq, Eq)]
pub struct Credentials {
    keys: Shared<SharedKeys>,
    features: Seq<AwsCredentialFeature>,
}

impl Model for Credentials {
    ghost use Rattle.cfg_types.specs.Keys.{Keys};

    ghost Value = { Keys };

    ghost view = { λ c. record {
      access_key_id = c.keys.access_key_id;
      secret_access_key = c.keys.secret_access_key;
      session_token = c.keys.session_token;
      expiry = c.keys.expiry;
      account_id = c.keys.account_id;
      provider_name = c.keys.provider_name;
      features = c.features;
    } };

    ghost inverse = { λ k. record {
      keys = record {
        access_key_id = k.access_key_id;
        secret_access_key = k.secret_access_key;
        session_token = k.session_token;
        expiry = k.expiry;
        account_id = k.account_id;
        provider_name = k.provider_name;
      };
      features = k.features;
    } };
}

// A call, and not the cases of its fields, where a caller lets credentials go.
impl Drop for Credentials {
    fn drop(self) {
        let Credentials {
            keys: _,
            features: _,
        } = self;
    }
}

impl Credentials {
    /// The id of the access key.
    pub fn access_key_id(&self) -> &str
        ensures chars { characters result.now ≡ self.now.access_key_id }
        ensures bytes { result.now ≡ encode_utf8_all self.now.access_key_id }
    {
        self.keys.get().access_key_id.as_str()
    }

    /// The secret of the access key.
    pub fn secret_access_key(&self) -> &str
        ensures chars { characters result.now ≡ self.now.secret_access_key }
        ensures bytes { result.now ≡ encode_utf8_all self.now.secret_access_key }
    {
        self.keys.get().secret_access_key.as_str()
    }

    /// The session token, where there is one.
    pub fn session_token(&self) -> Option<&str>
        ensures chars { option_map (λ t. characters t.now) result ≡ self.now.session_token }
        ensures bytes { option_map (λ t. t.now) result ≡ option_map encode_utf8_all self.now.session_token }
    {
        match &self.keys.get().session_token {
            None => None,
            Some(token) => Some(token.as_str()),
        }
    }

    /// When the credentials expire, where they do.
    pub fn expiry(&self) -> Option<Instant>
        ensures { result ≡ self.now.expiry }
    {
        self.keys.get().expiry
    }

    /// The account that they belong to, where it is known.
    pub fn account_id(&self) -> Option<&AccountId>
        ensures { option_map (λ a. a.now) result ≡ self.now.account_id }
    {
        self.keys.get().account_id.as_ref()
    }

    // The text of the account's id, where the account is known.
    fn account_text(&self) -> Option<&Text>
        ensures { option_map (λ t. t.now) result ≡ self.now.account_id }
    {
        match &self.keys.get().account_id {
            None => None,
            Some(account) => Some(account.text()),
        }
    }

    /// The name of the provider that gave them.
    pub fn provider_name(&self) -> &str
        ensures chars { characters result.now ≡ self.now.provider_name }
        ensures bytes { result.now ≡ encode_utf8_all self.now.provider_name }
    {
        self.keys.get().provider_name.as_str()
    }

    /// Where they came from, the feature that was added last at the end.
    pub fn features(&self) -> &[AwsCredentialFeature]
        ensures { result.now ≡ self.now.features }
    {
        self.features.as_slice()
    }

    /// One feature more that the credentials come by, at the end. `OutOfMemory` where memory runs out;
    /// they stay as they were then.
    pub fn add_feature(&mut self, feature: AwsCredentialFeature) -> Result<(), OutOfMemory>
        ensures ok { OnOk result (self.new ≡ record self.old { features = self.old.features ++ feature ∷ [] }) }
        ensures err { OnErr result (self.new ≡ self.old) }
    {
        self.features.push(feature)
    }
}

// The text depends on neither the secret nor the session token.
impl fmt::Debug for Credentials {
    ghost use Rattle.std.specs.Prelude.{Some};
    ghost use Rattle.cfg_types.specs.DebugTexts.{shown_credentials};

    ghost debug_output = { λ c. Some (shown_credentials c.provider_name c.access_key_id c.expiry c.account_id) };

    fn fmt<W: fmt::Write>(&self, f: &mut fmt::Formatter<W>) -> fmt::Result {
        let keys = ShownKey {
            provider: &self.keys.get().provider_name,
            id: &self.keys.get().access_key_id,
        };
        let end = ShownExpiry(self.expiry());
        let account = ShownAccount(self.account_text());
        write!(f, "Credentials {{ {keys}{end}{account} }}")
    }
}

#[derive(Drop)]
struct ShownKey<'a> {
    provider: &'a Text,
    id: &'a Text,
}

impl fmt::Display for ShownKey<'_> {
    ghost use Rattle.std.specs.Prelude.{Some};
    ghost use Rattle.cfg_types.specs.DebugTexts.{shown_key};

    ghost output = { λ k. Some (shown_key k.provider.now k.id.now) };

    fn fmt<W: fmt::Write>(&self, f: &mut fmt::Formatter<W>) -> fmt::Result {
        let provider = self.provider.as_str();
        let id = self.id.as_str();
        write!(
            f,
            "provider_name: \"{provider}\", access_key_id: \"{id}\", secret_access_key: \"** redacted **\", "
        )
    }
}

/// How a Debug text tells when something expires.
#[derive(Drop)]
pub(crate) struct ShownExpiry(pub(crate) Option<Instant>);

impl fmt::Display for ShownExpiry {
    ghost use Rattle.std.specs.Prelude.{Some};
    ghost use Rattle.cfg_types.specs.DebugTexts.{shown_expiry};

    ghost output = { λ e. Some (shown_expiry e.0) };

    fn fmt<W: fmt::Write>(&self, f: &mut fmt::Formatter<W>) -> fmt::Result {
        match self.0 {
            None => write!(f, "expires_after: never"),
            Some(end) => {
                let seconds = end.seconds();
                let nanos = end.nanos();
                write!(f, "expires_after: {seconds} s {nanos} ns")
            }
        }
    }
}

/// How a Debug text shows the id of an account, where it is known: `, account_id: "ID"`, else nothing.
#[derive(Drop)]
pub struct ShownAccount<'a>(pub Option<&'a Text>);

impl fmt::Display for ShownAccount<'_> {
    ghost use Rattle.std.specs.Prelude.{Some};
    ghost use Rattle.cfg_types.specs.DebugTexts.{shown_account};

    ghost output = { λ a. Some (shown_account (option_map (λ t. t.now) a.0)) };

    fn fmt<W: fmt::Write>(&self, f: &mut fmt::Formatter<W>) -> fmt::Result {
        match self.0 {
            None => Ok(()),
            Some(account) => {
                let id = account.as_str();
                write!(f, ", account_id: \"{id}\"")
            }
        }
    }
}

impl TryCopy for Credentials {
    fn copy(&self, alloc: Global) -> Result<Credentials, OutOfMemory> {
        Ok(Credentials {
            keys: self.keys.copy(alloc)?,
            features: self.features.copy(alloc)?,
        })
    }
}

/// Puts credentials together. Each call changes what it is named for, and nothing else. A call that
/// runs out of memory gives the builder up.
#[derive(Drop)]
pub struct CredentialsBuilder {
    alloc: Global,
    keys: SharedKeys,
    features: Seq<AwsCredentialFeature>,
}

impl Model for CredentialsBuilder {
    ghost use Rattle.cfg_types.specs.Keys.{Keys};

    ghost Value = { Keys };

    ghost view = { λ b. record {
      access_key_id = b.keys.access_key_id;
      secret_access_key = b.keys.secret_access_key;
      session_token = b.keys.session_token;
      expiry = b.keys.expiry;
      account_id = b.keys.account_id;
      provider_name = b.keys.provider_name;
      features = b.features;
    } };
}

impl CredentialsBuilder {
    ghost use Rattle.cfg_types.specs.Keys.{bare_keys};

    /// Credentials of these keys, from the provider of this name, and nothing more. `OutOfMemory`
    /// where memory runs out.
    pub fn new(
        alloc: Global,
        access_key_id: &str,
        secret_access_key: &str,
        provider_name: &str,
    ) -> Result<CredentialsBuilder, OutOfMemory>
        ensures { IfOk result (λ b. b ≡ bare_keys (characters access_key_id.now) (characters secret_access_key.now) (characters provider_name.now)) }
    {
        let access_key_id = Text::of(alloc, access_key_id)?;
        let secret_access_key = Text::of(alloc, secret_access_key)?;
        CredentialsBuilder::of_keys(alloc, access_key_id, secret_access_key, provider_name)
    }

    /// As [`CredentialsBuilder::new`], of texts that are the credentials' own from then on.
    pub fn of_keys(
        alloc: Global,
        access_key_id: Text,
        secret_access_key: Text,
        provider_name: &str,
    ) -> Result<CredentialsBuilder, OutOfMemory>
        ensures { IfOk result (λ b. b ≡ bare_keys access_key_id secret_access_key (characters provider_name.now)) }
    {
        let provider_name = Text::of(alloc, provider_name)?;
        Ok(CredentialsBuilder {
            alloc,
            keys: SharedKeys {
                access_key_id,
                secret_access_key,
                session_token: None,
                expiry: None,
                account_id: None,
                provider_name,
            },
            features: Seq::of(Vec::new(alloc)),
        })
    }

    /// With this session token. `OutOfMemory` where memory runs out.
    pub fn session_token(mut self, token: &str) -> Result<CredentialsBuilder, OutOfMemory>
        ensures { IfOk result (λ b. b ≡ record self { session_token = Some (characters token.now) }) }
    {
        self.keys.session_token = Some(Text::of(self.alloc, token)?);
        Ok(self)
    }

    /// Sets the session token, or none.
    pub fn set_session_token(&mut self, token: Option<Text>) -> &mut CredentialsBuilder
        ensures value { result.now ≡ record self.old { session_token = token } }
        ensures lent { result.ghost_name ≡ self.entry.ghost_name }
    {
        self.keys.session_token = token;
        self
    }

    /// Sets the expiry, or none.
    pub fn set_expiry(&mut self, expiry: Option<Instant>) -> &mut CredentialsBuilder
        ensures value { result.now ≡ record self.old { expiry = expiry } }
        ensures lent { result.ghost_name ≡ self.entry.ghost_name }
    {
        self.keys.expiry = expiry;
        self
    }

    /// Sets the account, or none.
    pub fn set_account_id(&mut self, account_id: Option<AccountId>) -> &mut CredentialsBuilder
        ensures value { result.now ≡ record self.old { account_id = account_id } }
        ensures lent { result.ghost_name ≡ self.entry.ghost_name }
    {
        self.keys.account_id = account_id;
        self
    }

    /// With this expiry.
    pub fn expiry(mut self, expiry: Instant) -> CredentialsBuilder
        ensures { result ≡ record self { expiry = Some expiry } }
    {
        self.keys.expiry = Some(expiry);
        self
    }

    /// With this account.
    pub fn account_id(mut self, account_id: AccountId) -> CredentialsBuilder
        ensures { result ≡ record self { account_id = Some account_id } }
    {
        self.keys.account_id = Some(account_id);
        self
    }

    /// With these features, in place of those that it had.
    pub fn features(mut self, features: Seq<AwsCredentialFeature>) -> CredentialsBuilder
        ensures { result ≡ record self { features = features } }
    {
        self.features = features;
        self
    }

    /// The credentials. `OutOfMemory` where memory runs out.
    pub fn build(self) -> Result<Credentials, OutOfMemory>
        ensures built { IfOk result (λ credentials. credentials ≡ self) }
    {
        let CredentialsBuilder {
            alloc,
            keys,
            features,
        } = self;
        Ok(Credentials {
            keys: Shared::new(alloc, keys)?,
            features,
        })
    }
}

//! The document of a role's credentials that the instance metadata service gives.
ghost use Rattle.std.specs.Prelude.{◌≡◌, None as none, IfOk, true};
ghost use Rattle.cfg_world.specs.Leaves.{moment_of};
ghost use Rattle.cfg_imds.specs.Fetches.{is_get, entry_fault};
ghost use Rattle.cfg_imds.specs.Tokens.{in_ok};
ghost use Rattle.cfg_kept.specs.RoleDocuments.{bare_role, refused_role as refused_role_of, said_role as said_role_of, get_document as get_document_of, role_document as role_document_of, IsRoleDocument};
ghost use Rattle.cfg_kept.specs.Retrieved.{is_due as is_due_of};

use cfg_imds::steps::entry_text;
use cfg_json::{JsonCredentials, is_memory, parse_json_credentials};
use cfg_token::decision::is_before;
use cfg_types::{
    ConfigCause, CredentialsError, Instant, InvalidJsonCredentials, OutOfMemory, ProviderCause,
    Text, UnhandledCause,
};
use cfg_world::Receipt;
use std::alloc::Global;
use std::marker::Model;

/// A document of a role's credentials, with the receipt of the get that it was read from. Its keys and
/// its expiry are those that the document says.
pub struct RoleDocument {
    pub(crate) access_key_id: Text,
    pub(crate) secret_access_key: Text,
    pub(crate) session_token: Text,
    pub(crate) expiry: Instant,
    pub(crate) get: Receipt,
}

impl Model for RoleDocument {
    ghost use Rattle.cfg_kept.specs.RoleDocuments.{ReceiptedRole, IsRoleDocument};

    ghost Value = { ReceiptedRole };

    ghost view = { λ d. record {
      access_key_id = d.access_key_id;
      secret_access_key = d.secret_access_key;
      session_token = d.session_token;
      expiry = d.expiry;
      get = d.get;
    } };

    ghost invariant = { λ d. IsRoleDocument (record {
      access_key_id = d.access_key_id;
      secret_access_key = d.secret_access_key;
      session_token = d.session_token;
      expiry = d.expiry;
      get = d.get;
    }) };
}

impl Drop for RoleDocument {
    fn drop(self) {
        let RoleDocument {
            access_key_id: _,
            secret_access_key: _,
            session_token: _,
            expiry: _,
            get: _,
        } = self;
    }
}

// Such a document without its get.
#[derive(Drop)]
struct ReadRole {
    access_key_id: Text,
    secret_access_key: Text,
    session_token: Text,
    expiry: Instant,
}

impl Model for ReadRole {
    ghost use Rattle.cfg_kept.specs.RoleDocuments.{RoleKeys};

    ghost Value = { RoleKeys };

    ghost view = { λ d. record {
      access_key_id = d.access_key_id;
      secret_access_key = d.secret_access_key;
      session_token = d.session_token;
      expiry = d.expiry;
    } };
}

// What the text of a get is, as a document of credentials.
#[tactic(auto, unfolding(crate::specs::RoleDocuments::get_document))]
fn get_document(
    alloc: Global,
    get: &Receipt,
) -> Result<Result<JsonCredentials, InvalidJsonCredentials>, OutOfMemory>
    requires { entry_fault get.now ≡ none }
    ensures { IfOk result (λ said. said ≡ get_document_of get.now) }
{
    let text = entry_text(alloc, get)?;
    let said = parse_json_credentials(alloc, text.as_str());
    if is_memory(&said) {
        return Err(OutOfMemory);
    }
    Ok(said)
}

// What an error document means.
fn refused_role(code: Text, message: Text) -> CredentialsError
    ensures { result ≡ refused_role_of code message }
{
    if code.is("AssumeRoleUnauthorizedAccess") {
        CredentialsError::InvalidConfiguration(ConfigCause::MetadataRole { code, message })
    } else {
        CredentialsError::ProviderError(ProviderCause::ErrorDocument { code, message })
    }
}

fn said_role(
    said: Result<JsonCredentials, InvalidJsonCredentials>,
) -> Result<ReadRole, CredentialsError>
    ensures { result ≡ said_role_of said }
{
    match said {
        Ok(
            JsonCredentials::RefreshableCredentials {
                access_key_id,
                secret_access_key,
                session_token,
                account_id: _,
                expiration,
            },
        ) => Ok(ReadRole {
            access_key_id,
            secret_access_key,
            session_token,
            expiry: expiration,
        }),
        Ok(JsonCredentials::Error { code, message }) => Err(refused_role(code, message)),
        Err(error) => {
            let cause = UnhandledCause::NoDocument(error);
            Err(CredentialsError::Unhandled(cause))
        }
    }
}

#[tactic(auto, unfolding(crate::specs::RoleDocuments::role_document))]
fn read_role(
    alloc: Global,
    get: &Receipt,
) -> Result<Result<ReadRole, CredentialsError>, OutOfMemory>
    requires { entry_fault get.now ≡ none }
    ensures { IfOk result (λ role. role ≡ role_document_of get.now) }
{
    let said = get_document(alloc, get)?;
    Ok(said_role(said))
}

impl RoleDocument {
    /// The document that the text of a get is, or why there are no keys.
    ///
    /// # Errors
    ///
    /// - `InvalidConfiguration(MetadataRole)`: it is an error document of the code
    ///   `AssumeRoleUnauthorizedAccess`.
    /// - `ProviderError(ErrorDocument)`: it is an error document of another code.
    /// - `Unhandled(NoDocument)`: it is no document of credentials, as
    ///   [`parse_json_credentials`](cfg_json::parse_json_credentials) says.
    /// - `OutOfMemory`, as the outer error: memory runs out.
    pub fn read(
        alloc: Global,
        get: Receipt,
    ) -> Result<Result<RoleDocument, CredentialsError>, OutOfMemory>
        requires gets { is_get get.0 ≡ true }
        requires success { entry_fault get ≡ none }
        ensures { IfOk result (λ r. in_ok bare_role r ≡ role_document_of get) }
    {
        match read_role(alloc, &get)? {
            Ok(
                ReadRole {
                    access_key_id,
                    secret_access_key,
                    session_token,
                    expiry,
                },
            ) => Ok(Ok(RoleDocument {
                access_key_id,
                secret_access_key,
                session_token,
                expiry,
                get,
            })),
            Err(error) => Ok(Err(error)),
        }
    }

    /// When the document says that its keys end.
    pub fn expiry(&self) -> Instant
        ensures { result ≡ self.now.expiry }
    {
        self.expiry
    }

    /// The get that it was read from.
    pub fn get(&self) -> &Receipt
        ensures is { result.now ≡ self.now.get }
        ensures read { IsRoleDocument self.now }
    {
        &self.get
    }

    /// Whether its expiry is not after the reading of the clock. A jitter is asked for exactly then.
    pub fn is_due(&self, reading: &Receipt) -> bool
        ensures { result ≡ is_due_of self.now.expiry (moment_of reading.now.1) }
    {
        !is_before(reading.moment(), self.expiry)
    }
}

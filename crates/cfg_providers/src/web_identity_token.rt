//! Credentials by a web identity token.
ghost use Rattle.std.specs.Prelude.{◌≡◌, IfOk, OnErr, Some, None, true, false, map, option_map, string_bytes};
ghost use Rattle.cfg_base.specs.Text.{characters};
ghost use Rattle.cfg_types.specs.Environment.{variable, text_read};
ghost use Rattle.cfg_world.specs.Follows.{Follows};
ghost use Rattle.cfg_profile.specs.Configuration.{nothing_configured};
ghost use Rattle.cfg_providers.specs.Gives.{GivesAnswer};
ghost use Rattle.cfg_types.specs.Classes.{is_memory};
ghost use Rattle.cfg_providers.specs.Provides.{Provides, Interrupted};
ghost use Rattle.cfg_providers.specs.WebIdentities.{needed as needed_of, identity_in as identity_in_of, identity_of, token_in as token_in_of, identity_token as identity_token_of, no_policies, request as request_of, by_web_identity, identity_answer as identity_answer_of, with_token as with_token_of, assuming, assumes_by_web_identity, web_identity as web_identity_of};
ghost use Rattle.cfg_providers.specs.WebIdentitySetups.{asks_identity, why_none, text_of_string};

use crate::session_name::session_name;
use crate::sts::credentials_of;
use cfg_json::utf8_text;
use cfg_profile::{ProviderConfig, call_settings};
use cfg_types::{
    AssumeRoleWithWebIdentity, AwsCredentialFeature, Bytes, Credentials, CredentialsError, Env,
    FailKind, NotLoadedCause, OutOfMemory, ProviderCause, Seq, StsReply, Text, TryCopy,
    UnhandledCause, copy_option, texts,
};
use cfg_world::{
    Asking, Devices, Halt, NotGranted, Stop, World, assume_role_with_web_identity, read_file,
};
use std::alloc::Global;
use std::marker::Model;

/// A role, and the file of the token that it is assumed with.
#[derive(Debug)]
pub struct WebIdentity {
    /// The path of the file that holds the token.
    pub web_identity_token_file: Text,
    /// The ARN of the role.
    pub role_arn: Text,
    /// The name of the session, where one is given.
    pub session_name: Option<Text>,
}

impl Drop for WebIdentity {
    fn drop(self) {
        let WebIdentity {
            web_identity_token_file: _,
            role_arn: _,
            session_name: _,
        } = self;
    }
}

/// A web identity that stands in place of the environment's.
#[derive(Debug)]
pub struct StaticConfiguration {
    /// The path of the file that holds the token.
    pub web_identity_token_file: Text,
    /// The ARN of the role.
    pub role_arn: Text,
    /// The name of the session.
    pub session_name: Text,
}

impl Drop for StaticConfiguration {
    fn drop(self) {
        let StaticConfiguration {
            web_identity_token_file: _,
            role_arn: _,
            session_name: _,
        } = self;
    }
}

impl TryCopy for StaticConfiguration {
    fn copy(&self, alloc: Global) -> Result<StaticConfiguration, OutOfMemory> {
        Ok(StaticConfiguration {
            web_identity_token_file: self.web_identity_token_file.copy(alloc)?,
            role_arn: self.role_arn.copy(alloc)?,
            session_name: self.session_name.copy(alloc)?,
        })
    }
}

/// What limits the sessions of a role, as AWS STS has it under session policies: a session may do what
/// both its role and these policies allow. With none it may do what its role allows.
#[derive(Debug)]
pub struct SessionPolicies {
    /// A policy of its own, a text in JSON. It is sent as it is.
    pub policy: Option<Text>,
    /// The ARNs of managed policies, in the order in which they are sent.
    pub policy_arns: Option<Seq<Text>>,
}

impl Drop for SessionPolicies {
    fn drop(self) {
        let SessionPolicies {
            policy: _,
            policy_arns: _,
        } = self;
    }
}

impl SessionPolicies {
    /// No policy, and no ARNs.
    pub fn none() -> SessionPolicies
        ensures { result ≡ no_policies }
    {
        SessionPolicies {
            policy: None,
            policy_arns: None,
        }
    }
}

/// Assumes the given web identity, or else the one that the environment names, for a session under
/// these policies. A session without a name gets one from a reading of the clock:
/// `web-identity-token-` and the milliseconds. The errors are those of
/// [`WebIdentityTokenCredentialsProvider::provide_credentials`], and memory that runs out is a stop.
#[tactic(auto, using(crate::proofs::QuietSteps::quiet_steps), unfolding(crate::specs::WebIdentities::web_identity))]
pub fn web_identity<A: Asking>(
    alloc: Global,
    config: &ProviderConfig,
    given: &Option<StaticConfiguration>,
    policies: &SessionPolicies,
    asking: &mut A,
) -> Result<Result<Credentials, CredentialsError>, Stop>
    ensures { Follows ⟦<A as Asking>⟧ (web_identity_of config.now given.now policies.now) asking.old asking.new result }
{
    match identity(alloc, config.env(), given) {
        Ok(identity) => assume_by_web_identity(
            alloc,
            config,
            "web-identity-token",
            &identity,
            policies,
            asking,
        ),
        Err(Halt::Refused(error)) => Ok(Err(error)),
        Err(Halt::Stopped(_)) => Err(Stop::OutOfMemory),
    }
}

fn identity(
    alloc: Global,
    env: &Env,
    given: &Option<StaticConfiguration>,
) -> Result<WebIdentity, Halt<CredentialsError>>
    ensures { GivesAnswer (λ i. i) result (identity_of env.now given.now) }
{
    match given {
        None => identity_in(alloc, env),
        Some(given) => Ok(WebIdentity {
            web_identity_token_file: given.web_identity_token_file.copy(alloc)?,
            role_arn: given.role_arn.copy(alloc)?,
            session_name: Some(given.session_name.copy(alloc)?),
        }),
    }
}

#[tactic(auto, unfolding(crate::specs::WebIdentities::identity_in))]
fn identity_in(alloc: Global, env: &Env) -> Result<WebIdentity, Halt<CredentialsError>>
    ensures { GivesAnswer (λ i. i) result (identity_in_of env.now) }
{
    let web_identity_token_file = needed(alloc, env, "AWS_WEB_IDENTITY_TOKEN_FILE")?;
    let role_arn = needed(alloc, env, "AWS_ROLE_ARN")?;
    let session_name = readable(alloc, env, "AWS_ROLE_SESSION_NAME")?;
    Ok(WebIdentity {
        web_identity_token_file,
        role_arn,
        session_name,
    })
}

// What a variable is set to, where that is a text. The empty text counts: aws-config tests only whether the
// variable is there.
fn readable(alloc: Global, env: &Env, name: &str) -> Result<Option<Text>, OutOfMemory>
    ensures { IfOk result (λ text. text ≡ text_read (variable env.now name.now)) }
{
    match env.get(name) {
        Ok(text) => Ok(Some(Text::of(alloc, text)?)),
        Err(_) => Ok(None),
    }
}

// A variable that has to be set to a text, if an empty one.
fn needed(alloc: Global, env: &Env, name: &str) -> Result<Text, Halt<CredentialsError>>
    ensures { GivesAnswer (λ text. text) result (needed_of (characters name.now) (variable env.now name.now)) }
{
    match env.get(name) {
        Ok(text) => Ok(Text::of(alloc, text)?),
        Err(_) => {
            let name = Text::of(alloc, name)?;
            let cause = NotLoadedCause::NotSet(name);
            Err(Halt::Refused(CredentialsError::CredentialsNotLoaded(cause)))
        }
    }
}

/// Assumes this web identity: a name for its session, then its file, then one
/// `AssumeRoleWithWebIdentity`, which sends these policies along. A session without a name gets one from
/// a reading of the clock: `base`, a hyphen and the milliseconds. The errors are those of
/// [`WebIdentityTokenCredentialsProvider::provide_credentials`] but for `CredentialsNotLoaded`, and memory
/// that runs out is a stop.
#[tactic(auto, using(cfg_world::proofs::Inquiries::asking_steps), unfolding(crate::specs::WebIdentities::assumes_by_web_identity))]
pub fn assume_by_web_identity<A: Asking>(
    alloc: Global,
    config: &ProviderConfig,
    base: &str,
    identity: &WebIdentity,
    policies: &SessionPolicies,
    asking: &mut A,
) -> Result<Result<Credentials, CredentialsError>, Stop>
    ensures { Follows ⟦<A as Asking>⟧ (assumes_by_web_identity config.now base.now identity.now policies.now) asking.old asking.new result }
{
    let name = session_name(alloc, base, &identity.session_name, asking)?;
    let token = identity_token(alloc, &identity.web_identity_token_file, asking)?;
    let outcome = with_token(alloc, config, identity, policies, name, token, asking)?;
    Ok(outcome)
}

// The token that a file holds, or why it holds none.
#[tactic(auto, using(cfg_world::proofs::Inquiries::asking_steps, crate::proofs::QuietSteps::quiet_steps), unfolding(crate::specs::WebIdentities::identity_token))]
fn identity_token<A: Asking>(
    alloc: Global,
    file: &Text,
    asking: &mut A,
) -> Result<Result<Text, CredentialsError>, Stop>
    ensures { Follows ⟦<A as Asking>⟧ (identity_token_of file.now) asking.old asking.new result }
{
    let contents = read_file(alloc, file, asking)?;
    let token = token_in(alloc, file, contents)?;
    Ok(token)
}

#[tactic(auto, unfolding(crate::specs::WebIdentities::token_in))]
fn token_in(
    alloc: Global,
    file: &Text,
    contents: Result<Bytes, FailKind>,
) -> Result<Result<Text, CredentialsError>, OutOfMemory>
    ensures { IfOk result (λ r. token_in_of file.now contents ≡ r) }
{
    let Ok(bytes) = contents else {
        let cause = ProviderCause::File(file.copy(alloc)?);
        return Ok(Err(CredentialsError::ProviderError(cause)));
    };
    match utf8_text(bytes.as_slice()) {
        // The whole text is the token, white space and line ends too.
        Some(text) => Ok(Ok(Text::of(alloc, text)?)),
        None => Ok(Err(CredentialsError::Unhandled(UnhandledCause::NotUtf8))),
    }
}

// One request with the token, where there is one.
#[tactic(auto, using(cfg_world::proofs::Inquiries::asking_steps, crate::proofs::QuietSteps::quiet_steps), unfolding(crate::specs::WebIdentities::with_token))]
fn with_token<A: Asking>(
    alloc: Global,
    config: &ProviderConfig,
    identity: &WebIdentity,
    policies: &SessionPolicies,
    session_name: Text,
    token: Result<Text, CredentialsError>,
    asking: &mut A,
) -> Result<Result<Credentials, CredentialsError>, Stop>
    ensures { Follows ⟦<A as Asking>⟧ (with_token_of config.now identity.now policies.now session_name token) asking.old asking.new result }
{
    match token {
        Err(error) => Ok(Err(error)),
        Ok(token) => {
            let answer = send(
                alloc,
                config,
                identity,
                policies,
                session_name,
                token,
                asking,
            )?;
            let outcome = identity_answer(alloc, answer)?;
            Ok(outcome)
        }
    }
}

#[tactic(auto, using(cfg_world::proofs::Inquiries::asking_steps))]
fn send<A: Asking>(
    alloc: Global,
    config: &ProviderConfig,
    identity: &WebIdentity,
    policies: &SessionPolicies,
    session_name: Text,
    token: Text,
    asking: &mut A,
) -> Result<Result<StsReply, NotGranted>, Stop>
    ensures { Follows ⟦<A as Asking>⟧ (assuming config.now identity.now policies.now session_name token) asking.old asking.new result }
{
    let request = request(alloc, config, identity, policies, session_name, token)?;
    assume_role_with_web_identity(alloc, request, asking)
}

fn request(
    alloc: Global,
    config: &ProviderConfig,
    identity: &WebIdentity,
    policies: &SessionPolicies,
    session_name: Text,
    token: Text,
) -> Result<AssumeRoleWithWebIdentity, OutOfMemory>
    ensures { IfOk result (λ r. r ≡ request_of config.now identity.now policies.now session_name token) }
{
    let role_arn = identity.role_arn.copy(alloc)?;
    let policy = copy_option(alloc, &policies.policy)?;
    let policy_arns = copy_option(alloc, &policies.policy_arns)?;
    let settings = call_settings(alloc, config)?;
    Ok(AssumeRoleWithWebIdentity {
        role_arn,
        session_name,
        token,
        policy,
        policy_arns,
        settings,
    })
}

// What a reply gives, or why it gives nothing.
#[tactic(auto, unfolding(crate::specs::WebIdentities::identity_answer))]
fn identity_answer(
    alloc: Global,
    answer: Result<StsReply, NotGranted>,
) -> Result<Result<Credentials, CredentialsError>, OutOfMemory>
    ensures { IfOk result (λ r. identity_answer_of answer ≡ r) }
{
    match answer {
        Ok(reply) => match credentials_of(alloc, reply, "WebIdentityToken")? {
            Ok(credentials) => Ok(Ok(mark(credentials)?)),
            Err(error) => Ok(Err(error)),
        },
        Err(NotGranted::Refused(refusal)) => {
            let cause = ProviderCause::Refused(refusal);
            Ok(Err(CredentialsError::ProviderError(cause)))
        }
        Err(NotGranted::Failed(kind)) => {
            Ok(Err(CredentialsError::ProviderError(ProviderCause::Sent(kind))))
        }
    }
}

// Credentials by web identity, marked as such.
fn mark(credentials: Credentials) -> Result<Credentials, OutOfMemory>
    ensures { IfOk result (λ c. c ≡ by_web_identity credentials) }
{
    let mut credentials = credentials;
    credentials.add_feature(AwsCredentialFeature::CredentialsProfileStsWebIdToken)?;
    Ok(credentials)
}

/// Sets up a provider of web identity. Contracts see its configuration, the web identity that was
/// given, and the policies of its sessions. A setter changes its field alone.
pub struct Builder {
    alloc: Global,
    config: ProviderConfig,
    given: Option<StaticConfiguration>,
    policies: SessionPolicies,
}

impl Drop for Builder {
    fn drop(self) {
        let Builder {
            alloc: _,
            config: _,
            given: _,
            policies: _,
        } = self;
    }
}

impl Model for Builder {
    ghost use Rattle.cfg_providers.specs.WebIdentitySetups.{WebIdentitySetup, web_identity_setup_code};

    ghost Value = { WebIdentitySetup };

    ghost coded = { web_identity_setup_code };

    ghost view = { λ b. record { configuration = b.config; given = b.given; policies = b.policies } };
}

impl Builder {
    /// With a copy of this configuration, in place of the one that it had. Its variables name the web
    /// identity where none is given, and its settings say how AWS STS is called. `OutOfMemory` where memory
    /// runs out.
    pub fn configure(mut self, config: &ProviderConfig) -> Result<Builder, OutOfMemory>
        ensures { IfOk result (λ b. b ≡ record self { configuration = config.now }) }
    {
        self.config = config.copy(self.alloc)?;
        Ok(self)
    }

    /// With this web identity in place of the environment's.
    pub fn static_configuration(mut self, given: StaticConfiguration) -> Builder
        ensures { result ≡ record self { given = Some given } }
    {
        self.given = Some(given);
        self
    }

    /// With this policy, a text in JSON, for its sessions, in place of the one that it had. It is not read
    /// here, and stands beside the ARNs. `OutOfMemory` where memory runs out.
    pub fn policy(mut self, policy: &str) -> Result<Builder, OutOfMemory>
        ensures { IfOk result (λ b. b ≡ record self { policies = record self.policies { policy = Some (characters policy.now) } }) }
    {
        self.policies.policy = Some(Text::of(self.alloc, policy)?);
        Ok(self)
    }

    /// With the managed policies of these ARNs for its sessions, in place of those that it had. They
    /// are sent in this order, and none is read here. `OutOfMemory` where memory runs out.
    pub fn policy_arns(mut self, policy_arns: Vec<String>) -> Result<Builder, OutOfMemory>
        ensures { IfOk result (λ b. b ≡ record self { policies = record self.policies { policy_arns = Some (map text_of_string policy_arns.items) } }) }
    {
        self.policies.policy_arns = Some(texts(self.alloc, policy_arns)?);
        Ok(self)
    }

    /// The provider. The variables are looked at in its calls alone. It takes no memory, and answers no error.
    pub fn build(self) -> Result<WebIdentityTokenCredentialsProvider, OutOfMemory>
        ensures built { IfOk result (λ p. p ≡ self) }
        ensures always { OnErr result ⊥ }
    {
        let Builder {
            alloc,
            config,
            given,
            policies,
        } = self;
        Ok(WebIdentityTokenCredentialsProvider {
            alloc,
            config,
            given,
            policies,
        })
    }
}

/// Credentials by a web identity token, for the role that the environment or a static configuration
/// names. Contracts see its configuration, the web identity that was given, and the policies of its
/// sessions.
pub struct WebIdentityTokenCredentialsProvider {
    alloc: Global,
    config: ProviderConfig,
    given: Option<StaticConfiguration>,
    policies: SessionPolicies,
}

impl Drop for WebIdentityTokenCredentialsProvider {
    fn drop(self) {
        let WebIdentityTokenCredentialsProvider {
            alloc: _,
            config: _,
            given: _,
            policies: _,
        } = self;
    }
}

impl Model for WebIdentityTokenCredentialsProvider {
    ghost use Rattle.cfg_providers.specs.WebIdentitySetups.{WebIdentitySetup, web_identity_setup_code};

    ghost Value = { WebIdentitySetup };

    ghost coded = { web_identity_setup_code };

    ghost view = { λ p. record { configuration = p.config; given = p.given; policies = p.policies } };
}

impl WebIdentityTokenCredentialsProvider {
    /// A builder with no variables, no region, no static configuration and no policies. `OutOfMemory` where
    /// memory runs out.
    pub fn builder(alloc: Global) -> Result<Builder, OutOfMemory>
        ensures { IfOk result (λ b. b ≡ record { configuration = nothing_configured true; given = None; policies = no_policies }) }
    {
        Ok(Builder {
            alloc,
            config: ProviderConfig::without_region(alloc)?,
            given: None,
            policies: SessionPolicies::none(),
        })
    }

    /// The body of [`Self::provide_credentials`], over anything that can be asked.
    pub fn follow<A: Asking>(
        &self,
        asking: &mut A,
    ) -> Result<Result<Credentials, CredentialsError>, Stop>
        ensures { Follows ⟦<A as Asking>⟧ (asks_identity self.now) asking.old asking.new result }
    {
        web_identity(
            self.alloc,
            &self.config,
            &self.given,
            &self.policies,
            asking,
        )
    }

    /// Reads the file of the token, and assumes the role with it by one `AssumeRoleWithWebIdentity`, by the
    /// provider's name `WebIdentityToken`. Before that the clock is read where the session has no name,
    /// which is then `web-identity-token-` and the milliseconds. The token is sent as the file holds it.
    ///
    /// # Errors
    ///
    /// - `CredentialsNotLoaded(NotSet)`: without a static configuration, `AWS_WEB_IDENTITY_TOKEN_FILE`
    ///   or else `AWS_ROLE_ARN` is not set to a text. Nothing is asked then.
    /// - `ProviderError(File)`: the file could not be read. It has the path.
    /// - `Unhandled(NotUtf8)`: what it holds is not UTF-8.
    /// - `ProviderError(Sent)`, `ProviderError(Refused)`: the request failed or was refused.
    /// - `Unhandled(StsNoCredentials)`, `Unhandled(StsArn)`: its reply has no credentials, or has an ARN of
    ///   fewer than five parts.
    /// - `OutOfMemory` where memory runs out. The journal then has gained the beginning of such a part.
    pub fn provide_credentials<D: Devices>(
        &self,
        world: &mut World<D>,
    ) -> Result<Credentials, CredentialsError>
        ensures provides { is_memory result ≡ false → Provides ⟦<D as Devices>⟧ (asks_identity self.now) (why_none self.now) world.old world.new result }
        ensures stays { is_memory result ≡ true → Interrupted ⟦<D as Devices>⟧ (asks_identity self.now) world.old world.new }
    {
        match self.follow(world) {
            Ok(outcome) => outcome,
            Err(_) => Err(CredentialsError::OutOfMemory),
        }
    }
}

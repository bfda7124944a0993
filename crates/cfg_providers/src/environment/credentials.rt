//! Credentials in environment variables.
ghost use Rattle.std.specs.Prelude.{◌≡◌, IfOk, option_map, false};
ghost use Rattle.std.specs.Result.{result_err};
ghost use Rattle.cfg_base.specs.Text.{characters};
ghost use Rattle.cfg_types.specs.Environment.{variable};
ghost use Rattle.cfg_world.specs.Follows.{Follows};
ghost use Rattle.cfg_providers.specs.Gives.{GivesAnswer};
ghost use Rattle.cfg_types.specs.Classes.{is_memory};
ghost use Rattle.cfg_providers.specs.EnvironmentKeys.{required, usable, secret as secret_of, optional as optional_of, environment, by_environment};
ghost use Rattle.cfg_providers.specs.EnvironmentCauses.{why_environment};

use cfg_types::{
    AccountId, AwsCredentialFeature, Credentials, CredentialsBuilder, CredentialsError, Env,
    NotLoadedCause, OutOfMemory, Seq, Text, TryCopy, UnhandledCause, VarError, is_blank, trimmed,
};
use cfg_world::{Asking, Devices, Halt, Stop, World};
use std::alloc::Global;
use std::marker::Model;

/// The keys that the variables of the AWS SDKs and tools hold: `AWS_ACCESS_KEY_ID`,
/// `AWS_SECRET_ACCESS_KEY` with its older name `SECRET_ACCESS_KEY`, `AWS_SESSION_TOKEN` and
/// `AWS_ACCOUNT_ID`. The last two may be absent, blank or not Unicode, and are used without the white
/// space at their ends; the keys are used as they are. There is no expiry. The refusals are the errors of
/// [`EnvironmentVariableCredentialsProvider::provide_credentials`], and memory that runs out is a stop.
#[tactic(auto, unfolding(crate::specs::EnvironmentKeys::environment))]
pub fn environment_credentials(
    alloc: Global,
    env: &Env,
) -> Result<Credentials, Halt<CredentialsError>>
    ensures { GivesAnswer (λ c. c) result (environment env.now) }
{
    let id = required_variable(alloc, env, "AWS_ACCESS_KEY_ID")?;
    let secret = secret_key(alloc, env)?;
    let token = text_of(alloc, optional_variable(env, "AWS_SESSION_TOKEN"))?;
    let account = account_of(alloc, optional_variable(env, "AWS_ACCOUNT_ID"))?;
    let origin = Seq::of_slice(alloc, &[AwsCredentialFeature::CredentialsEnvVars])?;
    let mut builder = CredentialsBuilder::new(alloc, id, secret, "EnvironmentVariable")?;
    builder.set_session_token(token).set_account_id(account);
    Ok(builder.features(origin).build()?)
}

/// The keys that the variables hold, as a provider's answer. Nothing is asked for them. The errors are
/// those of [`EnvironmentVariableCredentialsProvider::provide_credentials`], and memory that runs out is a
/// stop.
#[tactic(auto, using(crate::proofs::QuietSteps::quiet_steps))]
pub fn follow_environment<A: Asking>(
    alloc: Global,
    env: &Env,
    _asking: &mut A,
) -> Result<Result<Credentials, CredentialsError>, Stop>
    ensures { Follows ⟦<A as Asking>⟧ (by_environment env.now) _asking.old _asking.new result }
{
    match environment_credentials(alloc, env) {
        Ok(credentials) => Ok(Ok(credentials)),
        Err(Halt::Refused(error)) => Ok(Err(error)),
        Err(Halt::Stopped(_)) => Err(Stop::OutOfMemory),
    }
}

// A variable's text, where it can be read and is not blank.
fn usable_variable<'a>(env: &'a Env, name: &str) -> Option<&'a str>
    ensures { option_map (λ t. characters t.now) result ≡ usable (variable env.now name.now) }
{
    match env.get(name) {
        Ok(text) if !is_blank(text) => Some(text),
        _ => None,
    }
}

// A variable that has to be there, and not blank. It is not trimmed.
fn required_variable<'a>(
    alloc: Global,
    env: &'a Env,
    name: &str,
) -> Result<&'a str, Halt<CredentialsError>>
    ensures { GivesAnswer (λ t. characters t.now) result (required (characters name.now) (variable env.now name.now)) }
{
    match env.get(name) {
        Ok(text) if !is_blank(text) => Ok(text),
        Err(VarError::NotUnicode) => {
            let name = Text::of(alloc, name)?;
            let cause = UnhandledCause::NotUnicode(name);
            Err(Halt::Refused(CredentialsError::Unhandled(cause)))
        }
        _ => {
            let name = Text::of(alloc, name)?;
            let cause = NotLoadedCause::NotSet(name);
            Err(Halt::Refused(CredentialsError::CredentialsNotLoaded(cause)))
        }
    }
}

// The secret. An older name stands in where the first one cannot be used, also where that is not Unicode:
// aws-config goes on after any error of the first. So a missing secret is told by the older name, which is
// looked at last.
fn secret_key<'a>(alloc: Global, env: &'a Env) -> Result<&'a str, Halt<CredentialsError>>
    ensures { GivesAnswer (λ t. characters t.now) result (secret_of env.now) }
{
    match usable_variable(env, "AWS_SECRET_ACCESS_KEY") {
        Some(text) => Ok(text),
        None => required_variable(alloc, env, "SECRET_ACCESS_KEY"),
    }
}

// A variable that may be missing: its text without the white space at its ends, if any is left.
fn optional_variable<'a>(env: &'a Env, name: &str) -> Option<&'a str>
    ensures { option_map (λ t. characters t.now) result ≡ optional_of (variable env.now name.now) }
{
    match usable_variable(env, name) {
        Some(text) => Some(trimmed(text)),
        None => None,
    }
}

fn text_of(alloc: Global, text: Option<&str>) -> Result<Option<Text>, OutOfMemory>
    ensures { IfOk result (λ o. o ≡ option_map (λ t. characters t.now) text.entry) }
{
    match text {
        None => Ok(None),
        Some(text) => Ok(Some(Text::of(alloc, text)?)),
    }
}

fn account_of(alloc: Global, id: Option<&str>) -> Result<Option<AccountId>, OutOfMemory>
    ensures { IfOk result (λ o. o ≡ option_map (λ t. characters t.now) id.entry) }
{
    match id {
        None => Ok(None),
        Some(id) => Ok(Some(AccountId::new(alloc, id)?)),
    }
}

/// Credentials by environment variables. Contracts see the variables.
pub struct EnvironmentVariableCredentialsProvider {
    alloc: Global,
    env: Env,
}

impl Drop for EnvironmentVariableCredentialsProvider {
    fn drop(self) {
        let EnvironmentVariableCredentialsProvider { alloc: _, env: _ } = self;
    }
}

impl Model for EnvironmentVariableCredentialsProvider {
    ghost use Rattle.cfg_base.specs.TextMap.{named_code};
    ghost use Rattle.cfg_types.specs.Environment.{Variables};
    ghost use Rattle.cfg_types.specs.contracts.environment.EnvText.{the_row};

    ghost Value = { Variables };

    ghost coded = { named_code the_row.coded };

    ghost view = { λ p. p.env };
}

impl EnvironmentVariableCredentialsProvider {
    /// A provider over these variables.
    pub fn new(alloc: Global, env: Env) -> EnvironmentVariableCredentialsProvider
        ensures { result ≡ env }
    {
        EnvironmentVariableCredentialsProvider { alloc, env }
    }

    /// The body of [`Self::provide_credentials`], over anything that can be asked. Nothing is asked.
    pub fn follow<A: Asking>(
        &self,
        asking: &mut A,
    ) -> Result<Result<Credentials, CredentialsError>, Stop>
        ensures { Follows ⟦<A as Asking>⟧ (by_environment self.now) asking.old asking.new result }
    {
        follow_environment(self.alloc, &self.env, asking)
    }

    /// The keys that the variables hold, by the provider's name `EnvironmentVariable`. The world is asked
    /// nothing, and stays as it was.
    ///
    /// # Errors
    ///
    /// - `CredentialsNotLoaded(NotSet)`: `AWS_ACCESS_KEY_ID` is absent or blank, or else
    ///   `SECRET_ACCESS_KEY` is, and `AWS_SECRET_ACCESS_KEY` cannot be used. It names the variable.
    /// - `Unhandled(NotUnicode)`: the same variables, where the value is not Unicode.
    /// - `OutOfMemory` where memory runs out.
    pub fn provide_credentials<D: Devices>(
        &self,
        _world: &mut World<D>,
    ) -> Result<Credentials, CredentialsError>
        ensures answer { is_memory result ≡ false → environment self.now ≡ result }
        ensures cause { is_memory result ≡ false → result_err result ≡ why_environment self.now }
        ensures world { _world.new ≡ _world.old }
    {
        self.answer()
    }

    fn answer(&self) -> Result<Credentials, CredentialsError>
        ensures { is_memory result ≡ false → environment self.now ≡ result }
    {
        match environment_credentials(self.alloc, &self.env) {
            Ok(credentials) => Ok(credentials),
            Err(Halt::Refused(error)) => Err(error),
            Err(Halt::Stopped(_)) => Err(CredentialsError::OutOfMemory),
        }
    }
}

impl TryCopy for EnvironmentVariableCredentialsProvider {
    fn copy(&self, alloc: Global) -> Result<EnvironmentVariableCredentialsProvider, OutOfMemory> {
        let env = self.env.copy(alloc)?;
        Ok(EnvironmentVariableCredentialsProvider { alloc, env })
    }
}

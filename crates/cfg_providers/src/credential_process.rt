//! Credentials that a process prints.
ghost use Rattle.std.specs.Prelude.{◌≡◌, IfOk, option_map, None, true, false};
ghost use Rattle.cfg_base.specs.Text.{characters};
ghost use Rattle.cfg_world.specs.Follows.{Follows};
ghost use Rattle.cfg_types.specs.Classes.{is_memory as is_memory_answer};
ghost use Rattle.cfg_providers.specs.Provides.{Provides, Interrupted};
ghost use Rattle.cfg_providers.specs.ProcessDocuments.{process_document};
ghost use Rattle.cfg_providers.specs.Processes.{by_process, output_credentials as output_credentials_of, run_credentials as run_credentials_of, process_answer as process_answer_of, credential_process as credential_process_of};
ghost use Rattle.cfg_providers.specs.ProcessSetups.{asks_process, why_none};

use crate::utf8::text_in;
use cfg_json::{is_memory, parse_credential_process_json_credentials, utf8_text};
use cfg_types::{
    AccountId, AwsCredentialFeature, CommandWithSensitiveArgs, Credentials, CredentialsError,
    FailKind, Finished, InvalidJsonCredentials, OutOfMemory, ProcessCause, ProviderCause, Text,
};
use cfg_world::{Asking, Devices, Stop, World, run_command};
use std::alloc::Global;
use std::marker::Model;

/// Runs this command once, and answers the credentials that it prints, by the provider's name
/// `CredentialProcess`. The account is the one that its document names, or else this one. The errors
/// are those of [`CredentialProcessProvider::provide_credentials`], and memory that runs out is a stop.
#[tactic(auto, using(cfg_world::proofs::Inquiries::asking_steps, crate::proofs::QuietSteps::quiet_steps), unfolding(crate::specs::Processes::credential_process))]
pub fn follow_credential_process<A: Asking>(
    alloc: Global,
    command: &CommandWithSensitiveArgs,
    account_id: Option<&AccountId>,
    asking: &mut A,
) -> Result<Result<Credentials, CredentialsError>, Stop>
    ensures { Follows ⟦<A as Asking>⟧ (credential_process_of command.now (option_map (λ a. a.now) account_id.entry)) asking.old asking.new result }
{
    let finished = run_command(alloc, command, asking)?;
    let answer = process_answer(alloc, finished, account_id)?;
    Ok(answer)
}

#[tactic(auto, unfolding(crate::specs::Processes::process_answer))]
fn process_answer(
    alloc: Global,
    finished: Result<Finished, FailKind>,
    account_id: Option<&AccountId>,
) -> Result<Result<Credentials, CredentialsError>, OutOfMemory>
    ensures { IfOk result (λ r. process_answer_of (option_map (λ a. a.now) account_id.entry) finished ≡ r) }
{
    match run_credentials(alloc, finished, account_id)? {
        Ok(credentials) => Ok(Ok(credentials)),
        Err(cause) => Ok(Err(CredentialsError::ProviderError(ProviderCause::Process(cause)))),
    }
}

// The credentials that a run of the command printed, or why there are none.
fn run_credentials(
    alloc: Global,
    finished: Result<Finished, FailKind>,
    account_id: Option<&AccountId>,
) -> Result<Result<Credentials, ProcessCause>, OutOfMemory>
    ensures { IfOk result (λ r. r ≡ run_credentials_of (option_map (λ a. a.now) account_id.entry) finished) }
{
    let Ok(finished) = finished else {
        return Ok(Err(ProcessCause::NotRun));
    };
    // The status comes first: beside another one than 0, not even a document of credentials counts.
    if finished.status == 0 {
        return output_credentials(alloc, utf8_text(finished.output.as_slice()), account_id);
    }
    let errors = text_in(alloc, finished.errors.as_slice())?;
    Ok(Err(ProcessCause::Status {
        code: finished.status,
        errors,
    }))
}

// The credentials in an output that is a text, or none.
fn output_credentials(
    alloc: Global,
    output: Option<&str>,
    account_id: Option<&AccountId>,
) -> Result<Result<Credentials, ProcessCause>, OutOfMemory>
    ensures { IfOk result (λ r. r ≡ output_credentials_of (option_map (λ a. a.now) account_id.entry) (option_map (λ t. t.now) output.entry)) }
{
    let Some(text) = output else {
        return Ok(Err(ProcessCause::NotUtf8));
    };
    match document_credentials(alloc, text, account_id)? {
        Ok(credentials) => {
            let credentials = mark(credentials)?;
            Ok(Ok(credentials))
        }
        Err(error) => Ok(Err(ProcessCause::Document(error))),
    }
}

// What the document of a process says, or why the text is none.
fn document_credentials(
    alloc: Global,
    text: &str,
    account_id: Option<&AccountId>,
) -> Result<Result<Credentials, InvalidJsonCredentials>, OutOfMemory>
    ensures { IfOk result (λ said. said ≡ process_document text.now (option_map (λ a. a.now) account_id.entry)) }
{
    let said = parse_credential_process_json_credentials(alloc, text, account_id);
    if is_memory(&said) {
        return Err(OutOfMemory);
    }
    Ok(said)
}

// Credentials that a process printed, marked as such.
fn mark(credentials: Credentials) -> Result<Credentials, OutOfMemory>
    ensures { IfOk result (λ c. c ≡ by_process credentials) }
{
    let mut credentials = credentials;
    credentials.add_feature(AwsCredentialFeature::CredentialsProcess)?;
    Ok(credentials)
}

/// Credentials by a process: a command that prints a document of them. Contracts see the command, and
/// the account that its credentials are of where the document names none.
pub struct CredentialProcessProvider {
    alloc: Global,
    command: CommandWithSensitiveArgs,
    account_id: Option<AccountId>,
}

impl Drop for CredentialProcessProvider {
    fn drop(self) {
        let CredentialProcessProvider {
            alloc: _,
            command: _,
            account_id: _,
        } = self;
    }
}

impl Model for CredentialProcessProvider {
    ghost use Rattle.cfg_providers.specs.ProcessSetups.{ProcessSetup};

    ghost Value = { ProcessSetup };

    ghost view = { λ p. record { command = p.command; account_id = p.account_id } };
}

impl CredentialProcessProvider {
    /// A provider over the command of this text, which a shell runs, without an account. `OutOfMemory`
    /// where memory runs out.
    pub fn new(alloc: Global, command: &str) -> Result<CredentialProcessProvider, OutOfMemory>
        ensures { IfOk result (λ p. p ≡ record { command = characters command.now; account_id = None }) }
    {
        let command = CommandWithSensitiveArgs::new(Text::of(alloc, command)?);
        Ok(CredentialProcessProvider {
            alloc,
            command,
            account_id: None,
        })
    }

    /// With the account that its credentials are of where their document names none, in place of one that
    /// was set before.
    pub fn with_account_id(mut self, account_id: AccountId) -> CredentialProcessProvider
        ensures { result ≡ record self { account_id = Some account_id } }
    {
        self.account_id = Some(account_id);
        self
    }

    /// The body of [`Self::provide_credentials`], over anything that can be asked.
    pub fn follow<A: Asking>(
        &self,
        asking: &mut A,
    ) -> Result<Result<Credentials, CredentialsError>, Stop>
        ensures { Follows ⟦<A as Asking>⟧ (asks_process self.now) asking.old asking.new result }
    {
        follow_credential_process(self.alloc, &self.command, self.account_id.as_ref(), asking)
    }

    /// Runs the command once, and answers the credentials that it prints, by the provider's name
    /// `CredentialProcess`. See [Process credential
    /// provider](https://docs.aws.amazon.com/sdkref/latest/guide/feature-process-credentials.html).
    ///
    /// # Errors
    ///
    /// `ProviderError(Process)`: the command did not run (`NotRun`), it ended with a status other than
    /// 0 (`Status`, with what it wrote to standard error where that is UTF-8), or what it printed is
    /// not UTF-8 (`NotUtf8`) or no document of credentials (`Document`). `OutOfMemory` where memory
    /// runs out. The journal then has gained the beginning of such a part.
    pub fn provide_credentials<D: Devices>(
        &self,
        world: &mut World<D>,
    ) -> Result<Credentials, CredentialsError>
        ensures provides { is_memory_answer result ≡ false → Provides ⟦<D as Devices>⟧ (asks_process self.now) (why_none self.now) world.old world.new result }
        ensures stays { is_memory_answer result ≡ true → Interrupted ⟦<D as Devices>⟧ (asks_process self.now) world.old world.new }
    {
        match self.follow(world) {
            Ok(outcome) => outcome,
            Err(_) => Err(CredentialsError::OutOfMemory),
        }
    }
}

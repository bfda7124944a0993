//! How a call of the default chain came to its end: which members were passed over, and whose answer ended it.
ghost use Rattle.std.specs.Prelude.{◌≡◌, IfOk, Some, None, Err, if◌then◌else◌};
ghost use Rattle.std.specs.Option.{option_copied};
ghost use Rattle.std.specs.Result.{result_err};
ghost use Rattle.cfg_base.specs.Text.{characters};
ghost use Rattle.cfg_types.specs.declared.errors.NotLoadedCause.{out-NotLoadedCause};
ghost use Rattle.cfg_types.specs.declared.errors.ProviderCause.{out-ProviderCause};
ghost use Rattle.cfg_providers.specs.EnvironmentKeys.{environment, not_set as not_set_of};
ghost use Rattle.cfg_providers.specs.WebIdentities.{identity_in};
ghost use Rattle.cfg_chain.specs.Members.{default_members};
ghost use Rattle.cfg_chain.specs.Settings.{names_of as names_of_sources};
ghost use Rattle.cfg_chain.specs.Views.{chain_of};
ghost use Rattle.cfg_chain.specs.profile.Plans.{plan};
ghost use Rattle.cfg_explain.specs.Reasons.{not_loaded as not_loaded_of, without_plan as without_plan_of, without_address as without_address_of, is_token_fault as is_token_fault_of, is_file_fault as is_file_fault_of, is_token_answer as is_token_answer_of, is_metadata_cause, last_attempt as last_attempt_in, metadata_error as metadata_error_of, without_metadata as without_metadata_of, why_passed_over as why_passed_over_of, reasons_among as reasons_among_of, reasons_of as reasons_by, own_part as own_part_of, behind_token_file as behind_token_file_of};

use cfg_chain::profile::plan::plan_of;
use cfg_chain::{DefaultCredentialsChain, Member};
use cfg_profile::ProviderConfig;
use cfg_providers::steps::{environment_credentials, names_of};
use cfg_types::{
    ConfigCause, Credentials, CredentialsError, Env, NotLoadedCause, OutOfMemory, ProfileFileError,
    ProviderAttempt, ProviderCause, Seq, Text,
};
use cfg_world::{Entry, Halt};
use std::alloc::Global;

/// A member of the chain that was passed over.
#[derive(Drop)]
pub struct PassedOver {
    /// The member.
    pub member: Member,
    /// Why it was not loaded.
    pub error: CredentialsError,
}

/// How a call came to its end: the members before the one whose answer it is.
#[derive(Drop)]
pub struct Reasons {
    /// The members that were passed over, in the chain's order.
    pub passed_over: Seq<PassedOver>,
    /// The member that gave the credentials, or whose error ended the call; none where no member was loaded.
    pub answered: Option<Member>,
}

const MEMBERS: [Member; 5] = [
    Member::Environment,
    Member::Profile,
    Member::WebIdentityToken,
    Member::EcsContainer,
    Member::Ec2InstanceMetadata,
];

/// Why a call of the chain that came to this answer did: which members it passed over, each with its error, and which one
/// it has the credentials or the error of. What the chain is over and the answer decide it, so that nothing is asked. Of an
/// answer of no call of this chain it tells nothing.
///
/// # Errors
///
/// `OutOfMemory` where memory runs out.
pub fn reasons_of(
    alloc: Global,
    chain: &DefaultCredentialsChain,
    answer: &Result<Credentials, CredentialsError>,
) -> Result<Reasons, OutOfMemory>
    ensures { IfOk result (λ r. r ≡ reasons_by (chain_of value repeated chain.now) answer.now) }
{
    reasons_among(alloc, chain, answer, &MEMBERS)
}

// The same of these members.
fn reasons_among(
    alloc: Global,
    chain: &DefaultCredentialsChain,
    answer: &Result<Credentials, CredentialsError>,
    members: &[Member],
) -> Result<Reasons, OutOfMemory>
    ensures { IfOk result (λ r. r ≡ reasons_among_of (chain_of value repeated chain.now) answer.now members.now) }
{
    let mut passed_over = Vec::new(alloc);
    for member in members {
        match why_passed_over(alloc, chain, answer, *member)? {
            Some(error) => passed_over.push(PassedOver {
                member: *member,
                error,
            })?,
            None => return Ok(told(passed_over, Some(*member))),
        }
    }
    Ok(told(passed_over, None))
}

fn told(passed_over: Vec<PassedOver>, answered: Option<Member>) -> Reasons
    ensures { result ≡ record { passed_over = passed_over.items; answered = answered } }
{
    Reasons {
        passed_over: Seq::of(passed_over),
        answered,
    }
}

// Why the member is passed over by a call that came to this answer, if it is.
fn why_passed_over(
    alloc: Global,
    chain: &DefaultCredentialsChain,
    answer: &Result<Credentials, CredentialsError>,
    member: Member,
) -> Result<Option<CredentialsError>, OutOfMemory>
    ensures { IfOk result (λ e. e ≡ why_passed_over_of (chain_of value repeated chain.now) answer.now member) }
{
    let env = chain.core.config().env();
    match member {
        Member::Environment => without_keys(alloc, env),
        Member::Profile => without_plan(alloc, chain),
        Member::WebIdentityToken => without_identity(alloc, env),
        Member::EcsContainer => Ok(without_container(env, answer)),
        Member::Ec2InstanceMetadata => Ok(without_metadata(answer)),
    }
}

fn without_keys(alloc: Global, env: &Env) -> Result<Option<CredentialsError>, OutOfMemory>
    ensures { IfOk result (λ e. e ≡ not_loaded_of (result_err (environment env.now))) }
{
    match environment_credentials(alloc, env) {
        Ok(_) => Ok(None),
        Err(Halt::Refused(error)) => Ok(not_loaded(error)),
        Err(Halt::Stopped(_)) => Err(OutOfMemory),
    }
}

// The error, where it says that nothing was loaded.
fn not_loaded(error: CredentialsError) -> Option<CredentialsError>
    ensures { result ≡ not_loaded_of (Some error) }
{
    match &error {
        CredentialsError::CredentialsNotLoaded(_) => Some(error),
        _ => None,
    }
}

fn without_plan(
    alloc: Global,
    chain: &DefaultCredentialsChain,
) -> Result<Option<CredentialsError>, OutOfMemory>
    ensures { let over = chain_of value repeated chain.now in
        IfOk result (λ e. e ≡ without_plan_of (plan over.configuration (names_of_sources over.sources))) }
{
    let names = names_of(alloc, chain.custom_sources.as_slice())?;
    without_plan_among(alloc, chain.core.config(), names.as_slice())
}

// The same of a configuration, where the caller has sources of these names.
fn without_plan_among(
    alloc: Global,
    config: &ProviderConfig,
    sources: &[Text],
) -> Result<Option<CredentialsError>, OutOfMemory>
    ensures { IfOk result (λ e. e ≡ without_plan_of (plan config.now sources.now)) }
{
    match plan_of(alloc, config, sources) {
        Ok(_) => Ok(None),
        Err(Halt::Refused(error)) => Ok(not_planned(error)),
        Err(Halt::Stopped(_)) => Err(OutOfMemory),
    }
}

// Why the profile is passed over for this error, if it is.
fn not_planned(error: ProfileFileError) -> Option<CredentialsError>
    ensures { result ≡ without_plan_of (Err error) }
{
    match &error {
        ProfileFileError::NoProfilesDefined
        | ProfileFileError::ProfileDidNotContainCredentials { .. }
        | ProfileFileError::MissingProfile { .. }
        | ProfileFileError::TokenProviderConfig => Some(CredentialsError::CredentialsNotLoaded(
            NotLoadedCause::Profile(error),
        )),
        _ => None,
    }
}

#[tactic(auto, unfolding(cfg_providers::specs::WebIdentities::identity_in))]
fn without_identity(alloc: Global, env: &Env) -> Result<Option<CredentialsError>, OutOfMemory>
    ensures { IfOk result (λ e. e ≡ result_err (identity_in env.now)) }
{
    let Some(_) = env.readable("AWS_WEB_IDENTITY_TOKEN_FILE") else {
        return Ok(Some(not_set(alloc, "AWS_WEB_IDENTITY_TOKEN_FILE")?));
    };
    let Some(_) = env.readable("AWS_ROLE_ARN") else {
        return Ok(Some(not_set(alloc, "AWS_ROLE_ARN")?));
    };
    Ok(None)
}

fn not_set(alloc: Global, name: &str) -> Result<CredentialsError, OutOfMemory>
    ensures { IfOk result (λ e. e ≡ not_set_of (characters name.now)) }
{
    let name = Text::of(alloc, name)?;
    Ok(CredentialsError::CredentialsNotLoaded(NotLoadedCause::NotSet(name)))
}

fn without_container(
    env: &Env,
    answer: &Result<Credentials, CredentialsError>,
) -> Option<CredentialsError>
    ensures { result ≡ (if is_token_answer_of answer.now then None else without_address_of env.now) }
{
    if is_token_answer(answer) {
        return None;
    }
    without_address(env)
}

// Whether the call ended in the error of a container's token.
fn is_token_answer(answer: &Result<Credentials, CredentialsError>) -> bool
    ensures { result ≡ is_token_answer_of answer.now }
{
    match answer {
        Err(CredentialsError::InvalidConfiguration(cause)) => is_token_fault(cause),
        Err(CredentialsError::ProviderError(cause)) => is_file_fault(cause),
        _ => false,
    }
}

fn is_token_fault(cause: &ConfigCause) -> bool
    ensures { result ≡ is_token_fault_of cause.now }
{
    matches!(cause, ConfigCause::AuthToken)
}

fn is_file_fault(cause: &ProviderCause) -> bool
    ensures { result ≡ is_file_fault_of (out-ProviderCause cause.now) }
{
    matches!(cause, ProviderCause::File(_))
}

fn without_address(env: &Env) -> Option<CredentialsError>
    ensures { result ≡ without_address_of env.now }
{
    match (
        env.readable("AWS_CONTAINER_CREDENTIALS_RELATIVE_URI"),
        env.readable("AWS_CONTAINER_CREDENTIALS_FULL_URI"),
    ) {
        (Some(_), _) => None,
        (None, Some(_)) => None,
        (None, None) => Some(CredentialsError::CredentialsNotLoaded(NotLoadedCause::NotConfigured)),
    }
}

// Why instance metadata is passed over: the answer tells it, of the last member.
fn without_metadata(answer: &Result<Credentials, CredentialsError>) -> Option<CredentialsError>
    ensures { result ≡ without_metadata_of answer.now }
{
    metadata_error(last_attempt(answer))
}

// What the answer tells of the last member, where none was loaded.
fn last_attempt(
    answer: &Result<Credentials, CredentialsError>,
) -> Option<&ProviderAttempt<CredentialsError>>
    ensures { option_copied result ≡ last_attempt_in answer.now }
{
    match answer {
        Err(CredentialsError::CredentialsNotLoaded(NotLoadedCause::Chain(all))) => {
            all.attempts().last()
        }
        _ => None,
    }
}

fn metadata_error(attempt: Option<&ProviderAttempt<CredentialsError>>) -> Option<CredentialsError>
    ensures { result ≡ metadata_error_of (option_copied attempt.entry) }
{
    match attempt?.error() {
        CredentialsError::CredentialsNotLoaded(cause) => Some(
            CredentialsError::CredentialsNotLoaded(metadata_cause(cause)?),
        ),
        _ => None,
    }
}

// The cause, where instance metadata was not loaded by it.
fn metadata_cause(cause: &NotLoadedCause) -> Option<NotLoadedCause>
    ensures { result ≡ (if is_metadata_cause (out-NotLoadedCause cause.now) then Some cause.now else None) }
{
    match cause {
        NotLoadedCause::MetadataDisabled => Some(NotLoadedCause::MetadataDisabled),
        NotLoadedCause::MetadataNoRole => Some(NotLoadedCause::MetadataNoRole),
        NotLoadedCause::MetadataUnreachable => Some(NotLoadedCause::MetadataUnreachable),
        _ => None,
    }
}

/// The entries that the member whose answer ended the call asked, of its journal. The others are of a container that was
/// passed over, whose token's file was read.
pub fn own_part<'a>(env: &Env, answered: Member, journal: &'a [Entry]) -> &'a [Entry]
    ensures { result.now ≡ own_part_of env.now answered journal.now }
{
    match answered {
        Member::Ec2InstanceMetadata => behind_token_file(env, journal),
        _ => journal,
    }
}

// The entries behind the reading of the token's file, where a variable names one.
fn behind_token_file<'a>(env: &Env, journal: &'a [Entry]) -> &'a [Entry]
    ensures { result.now ≡ behind_token_file_of env.now journal.now }
{
    match env.readable("AWS_CONTAINER_AUTHORIZATION_TOKEN_FILE") {
        None => journal,
        Some(_) => match journal.split_first() {
            Some((_, rest)) => rest,
            None => journal,
        },
    }
}

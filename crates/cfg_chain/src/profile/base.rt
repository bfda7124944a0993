//! The first credentials of a profile.
ghost use Rattle.std.specs.Prelude.{◌≡◌, IfOk, None};
ghost use Rattle.cfg_world.specs.Follows.{Follows};
ghost use Rattle.cfg_imds.specs.Clients.{client_rules};
ghost use Rattle.cfg_imds.specs.Setups.{client_of};
ghost use Rattle.cfg_imds_credentials.specs.Metadata.{metadata};
ghost use Rattle.cfg_providers.specs.CustomSources.{last_named};
ghost use Rattle.cfg_providers.specs.Processes.{credential_process as credential_process_of};
ghost use Rattle.cfg_providers.specs.WebIdentities.{no_policies, assumes_by_web_identity};
ghost use Rattle.cfg_login.specs.SignIns.{sign_in_credentials};
ghost use Rattle.cfg_sso.specs.Tokens.{HasKey, key_by};
ghost use Rattle.cfg_sso.specs.SsoCredentials.{sso_credentials};
ghost use Rattle.cfg_chain.specs.Follows.{FollowsTree};
ghost use Rattle.cfg_chain.specs.Settings.{chain_metadata};
ghost use Rattle.cfg_chain.specs.Views.{named_sources, view};
ghost use Rattle.cfg_chain.specs.profile.Bases.{unknown_source as unknown_source_of, by_container, built_in_source, named_source, profile_session, signed_on, without_role as without_role_of, base_tree, in_base as in_base_of, based, metadata_by};
ghost use Rattle.cfg_chain.specs.profile.Plans.{key_of_base};

use crate::call::ChainCall;
use crate::profile::plan::refusal;
use cfg_exchange::steps::{ContainerSettings, follow_container};
use cfg_imds::Client;
use cfg_imds::steps::{client_at, is_disabled};
use cfg_imds_credentials::steps::follow_metadata;
use cfg_kept::{Keeper, Place};
use cfg_login::AskedBy;
use cfg_login::steps::follow_login;
use cfg_profile::{BaseProvider, is_alike};
use cfg_providers::CustomSource;
use cfg_providers::steps::{
    SessionPolicies, WebIdentity, assume_by_web_identity, follow_credential_process,
    follow_environment, provide_by_name,
};
use cfg_sso::SsoProviderConfig;
use cfg_sso::steps::follow_sso;
use cfg_types::{
    AccountId, Boxed, CommandWithSensitiveArgs, Credentials, CredentialsError, OutOfMemory,
    ProfileFileError, ProviderCause, Region, Text, TryCopy, copy_option, is_memory,
};
use cfg_world::{Asking, Stop};
use std::alloc::Global;

/// The first credentials of a plan. An error of its base, whatever it is, stands in `ProviderError(Base)`.
#[tactic(auto, using(cfg_kept::proofs::HoldingSteps::holding_steps), unfolding(crate::specs::profile::Bases::based))]
pub(crate) fn follow_based<P: Keeper, A: Asking>(
    call: &ChainCall,
    base: &BaseProvider,
    keeper: &mut P,
    asking: &mut A,
) -> Result<Result<Credentials, CredentialsError>, Stop>
    requires { HasKey (key_of_base base.now) (P.key_held keeper.old) }
    ensures follows { FollowsTree ⟦<A as Asking>⟧ ⟦<P as Keeper>⟧ (based (view value repeated call.now) base.now)
        asking.old asking.new keeper.old keeper.new result }
    ensures key { P.key_held keeper.new ≡ P.key_held keeper.old }
{
    let given = follow_base(call, base, keeper, asking)?;
    let outcome = in_base(call.alloc, given)?;
    Ok(outcome)
}

#[tactic(auto, unfolding(crate::specs::profile::Bases::in_base))]
fn in_base(
    alloc: Global,
    given: Result<Credentials, CredentialsError>,
) -> Result<Result<Credentials, CredentialsError>, OutOfMemory>
    ensures { IfOk result (λ r. in_base_of given ≡ r) }
{
    match given {
        Ok(credentials) => Ok(Ok(credentials)),
        Err(error) => {
            let error = Boxed::new(alloc, error)?;
            Ok(Err(CredentialsError::ProviderError(ProviderCause::Base(error))))
        }
    }
}

#[tactic(auto, using(cfg_kept::proofs::HoldingSteps::holding_steps), unfolding(crate::specs::profile::Bases::base_tree))]
fn follow_base<P: Keeper, A: Asking>(
    call: &ChainCall,
    base: &BaseProvider,
    keeper: &mut P,
    asking: &mut A,
) -> Result<Result<Credentials, CredentialsError>, Stop>
    requires { HasKey (key_of_base base.now) (P.key_held keeper.old) }
    ensures follows { FollowsTree ⟦<A as Asking>⟧ ⟦<P as Keeper>⟧ (base_tree (view value repeated call.now) base.now)
        asking.old asking.new keeper.old keeper.new result }
    ensures key { P.key_held keeper.new ≡ P.key_held keeper.old }
{
    match base {
        BaseProvider::AccessKey(keys) => {
            let keys = keys.copy(call.alloc)?;
            Ok(Ok(keys))
        }
        BaseProvider::NamedSource(name) => { follow_source(call, name, keeper, asking) }
        BaseProvider::WebIdentityTokenRole {
            role_arn,
            web_identity_token_file: file,
            session_name,
        } => {
            let outcome = follow_identity(call, role_arn, file, session_name, asking)?;
            Ok(outcome)
        }
        BaseProvider::CredentialProcess {
            command,
            account_id,
        } => {
            let outcome = follow_process(call.alloc, command, account_id, asking)?;
            Ok(outcome)
        }
        BaseProvider::Sso {
            sso_session_name: session,
            sso_region: region,
            sso_start_url: url,
            sso_account_id: Some(account),
            sso_role_name: Some(role),
        } => {
            let sso = sign_on(call.alloc, session, region, url, account, role)?;
            follow_sso(call.alloc, call.config, &sso, keeper, asking)
        }
        BaseProvider::LoginSession {
            login_session_arn: session,
        } => {
            let (alloc, config) = (call.alloc, call.config);
            follow_login(alloc, config, session, AskedBy::Profile, keeper, asking)
        },
        _ => Ok(without_role()),
    }
}

// IAM Identity Center without an account or a role, as it is answered where the plan is made.
#[tactic(auto, unfolding(crate::specs::profile::Bases::without_role))]
fn without_role() -> Result<Credentials, CredentialsError>
    ensures { without_role_of ≡ result }
{
    Err(refusal(ProfileFileError::TokenProviderConfig))
}

// What IAM Identity Center is asked for.
fn sign_on(
    alloc: Global,
    session: &Option<Text>,
    region: &Text,
    url: &Text,
    account: &Text,
    role: &Text,
) -> Result<SsoProviderConfig, OutOfMemory>
    ensures { IfOk result (λ sso. sso ≡ signed_on session.now region.now url.now account.now role.now) }
{
    Ok(SsoProviderConfig {
        account_id: account.copy(alloc)?,
        role_name: role.copy(alloc)?,
        region: Region::new(alloc, region.as_str())?,
        start_url: url.copy(alloc)?,
        session_name: copy_option(alloc, session)?,
    })
}

#[tactic(auto, using(cfg_world::proofs::Inquiries::asking_steps))]
fn follow_identity<A: Asking>(
    call: &ChainCall,
    role_arn: &Text,
    file: &Text,
    session_name: &Option<Text>,
    asking: &mut A,
) -> Result<Result<Credentials, CredentialsError>, Stop>
    ensures { Follows ⟦<A as Asking>⟧ (assumes_by_web_identity call.now.config.now profile_session
        (record { web_identity_token_file = file.now; role_arn = role_arn.now; session_name = session_name.now }) no_policies)
        asking.old asking.new result }
{
    let identity = identity_of(call.alloc, role_arn, file, session_name)?;
    let outcome = assume_by_web_identity(
        call.alloc,
        call.config,
        "web-identity-token-profile",
        &identity,
        &SessionPolicies::none(),
        asking,
    )?;
    Ok(outcome)
}

fn identity_of(
    alloc: Global,
    role_arn: &Text,
    file: &Text,
    session_name: &Option<Text>,
) -> Result<WebIdentity, OutOfMemory>
    ensures { IfOk result (λ i. i ≡ record { web_identity_token_file = file.now; role_arn = role_arn.now; session_name = session_name.now }) }
{
    Ok(WebIdentity {
        web_identity_token_file: file.copy(alloc)?,
        role_arn: role_arn.copy(alloc)?,
        session_name: copy_option(alloc, session_name)?,
    })
}

#[tactic(auto, using(cfg_world::proofs::Inquiries::asking_steps))]
fn follow_process<A: Asking>(
    alloc: Global,
    command: &CommandWithSensitiveArgs,
    account_id: &Option<Text>,
    asking: &mut A,
) -> Result<Result<Credentials, CredentialsError>, Stop>
    ensures { Follows ⟦<A as Asking>⟧ (credential_process_of command.now account_id.now) asking.old asking.new result }
{
    let account = account_of(alloc, account_id)?;
    let outcome = follow_credential_process(alloc, command, account.as_ref(), asking)?;
    Ok(outcome)
}

fn account_of(alloc: Global, id: &Option<Text>) -> Result<Option<AccountId>, OutOfMemory>
    ensures { IfOk result (λ account. account ≡ id.now) }
{
    match id {
        None => Ok(None),
        Some(id) => Ok(Some(AccountId::new(alloc, id.as_str())?)),
    }
}

// The source of this name: the last of the caller's own that has it, else the one that is always there.
#[tactic(auto, using(cfg_kept::proofs::HoldingSteps::holding_steps), unfolding(crate::specs::profile::Bases::named_source))]
fn follow_source<P: Keeper, A: Asking>(
    call: &ChainCall,
    name: &Text,
    keeper: &mut P,
    asking: &mut A,
) -> Result<Result<Credentials, CredentialsError>, Stop>
    ensures follows { FollowsTree ⟦<A as Asking>⟧ ⟦<P as Keeper>⟧ (named_source (view value repeated call.now) name.now)
        asking.old asking.new keeper.old keeper.new result }
    ensures key { P.key_held keeper.new ≡ P.key_held keeper.old }
{
    match own_source(call.custom_sources, name)? {
        Some(answer) => Ok(answer),
        None => follow_built_in(call, name, keeper, asking),
    }
}

// What the caller's own source of this name answers, where there is one.
fn own_source(
    sources: &[CustomSource],
    name: &Text,
) -> Result<Option<Result<Credentials, CredentialsError>>, OutOfMemory>
    ensures { IfOk result (λ answer. last_named name.now (named_sources value sources.now) ≡ answer) }
{
    match provide_by_name(sources, name) {
        None => Ok(None),
        Some(answer) => {
            if is_memory(&answer) {
                return Err(OutOfMemory);
            }
            Ok(Some(answer))
        }
    }
}

#[tactic(auto, using(cfg_kept::proofs::HoldingSteps::holding_steps), unfolding(crate::specs::profile::Bases::built_in_source))]
fn follow_built_in<P: Keeper, A: Asking>(
    call: &ChainCall,
    name: &Text,
    keeper: &mut P,
    asking: &mut A,
) -> Result<Result<Credentials, CredentialsError>, Stop>
    ensures follows { FollowsTree ⟦<A as Asking>⟧ ⟦<P as Keeper>⟧ (built_in_source (view value repeated call.now) name.now)
        asking.old asking.new keeper.old keeper.new result }
    ensures key { P.key_held keeper.new ≡ P.key_held keeper.old }
{
    if is_alike(name, "Environment") {
        let outcome = follow_environment(call.alloc, call.config.env(), asking)?;
        return Ok(outcome);
    }
    if is_alike(name, "EcsContainer") {
        let outcome = ask_container(call, asking)?;
        return Ok(outcome);
    }
    if is_alike(name, "Ec2InstanceMetadata") {
        return ask_own_metadata(call, Place::Named, keeper, asking);
    }
    let answer = unknown_source(call.alloc, name)?;
    Ok(answer)
}

// A source that nobody has, as it is answered where the plan is made.
#[tactic(auto, unfolding(crate::specs::profile::Bases::unknown_source))]
fn unknown_source(
    alloc: Global,
    name: &Text,
) -> Result<Result<Credentials, CredentialsError>, OutOfMemory>
    ensures { IfOk result (λ r. unknown_source_of name.now ≡ r) }
{
    let name = name.copy(alloc)?;
    Ok(Err(refusal(ProfileFileError::UnknownProvider { name })))
}

/// The credentials of the role that the instance metadata service lists, by the client that the chain was given, and
/// else by the configuration's.
pub(crate) fn ask_chain_metadata<P: Keeper, A: Asking>(
    call: &ChainCall,
    keeper: &mut P,
    asking: &mut A,
) -> Result<Result<Credentials, CredentialsError>, Stop>
    ensures follows { FollowsTree ⟦<A as Asking>⟧ ⟦<P as Keeper>⟧ (metadata (chain_metadata (view value repeated call.now)))
        asking.old asking.new keeper.old keeper.new result }
    ensures key { P.key_held keeper.new ≡ P.key_held keeper.old }
{
    match call.imds_client {
        Some(client) => ask_metadata(call, client, Place::Chain, keeper, asking),
        None => ask_own_metadata(call, Place::Chain, keeper, asking),
    }
}

// The same by the configuration's client, which is made now. It asks where the chain has it.
#[tactic(auto, using(cfg_kept::proofs::HoldingSteps::holding_steps))]
fn ask_own_metadata<P: Keeper, A: Asking>(
    call: &ChainCall,
    place: Place,
    keeper: &mut P,
    asking: &mut A,
) -> Result<Result<Credentials, CredentialsError>, Stop>
    ensures follows { FollowsTree ⟦<A as Asking>⟧ ⟦<P as Keeper>⟧
        (metadata_by call.now.config.now (client_of call.now.settled.now.imds_endpoint) place)
        asking.old asking.new keeper.old keeper.new result }
    ensures key { P.key_held keeper.new ≡ P.key_held keeper.old }
{
    let endpoint = call.settled.imds_endpoint.copy(call.alloc)?;
    let client = client_at(call.alloc, endpoint);
    ask_metadata(call, &client, place, keeper, asking)
}

// The same by this client.
fn ask_metadata<P: Keeper, A: Asking>(
    call: &ChainCall,
    client: &Client,
    place: Place,
    keeper: &mut P,
    asking: &mut A,
) -> Result<Result<Credentials, CredentialsError>, Stop>
    ensures follows { FollowsTree ⟦<A as Asking>⟧ ⟦<P as Keeper>⟧ (metadata_by call.now.config.now (client_rules repeated client.now) place)
        asking.old asking.new keeper.old keeper.new result }
    ensures key { P.key_held keeper.new ≡ P.key_held keeper.old }
{
    let disabled = is_disabled(call.config.env());
    follow_metadata(disabled, client, &None, place, keeper, asking)
}

/// A container's credentials, at the address that the variables name. There is a resolver, 2 seconds to
/// connect and 5 seconds to read, as aws-config has them.
pub(crate) fn ask_container<A: Asking>(
    call: &ChainCall,
    asking: &mut A,
) -> Result<Result<Credentials, CredentialsError>, Stop>
    ensures { Follows ⟦<A as Asking>⟧ (by_container call.now.config.now call.now.settled.now.container) asking.old asking.new result }
{
    let settings = ContainerSettings::new(true, call.config.sleep_impl());
    follow_container(
        call.alloc,
        call.config.env(),
        &settings,
        &call.settled.container,
        asking,
    )
}

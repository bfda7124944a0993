//! What no clause says: worked examples of a role over a base, and that calls succeed.
use crate::setup::{Setup, answer_words, set_up};
use cfg_assume_role::{AssumeRoleProvider, AssumeRoleProviderBuilder, RoleBase};
use cfg_profile::ProviderConfig;
use cfg_providers::{EnvironmentVariableCredentialsProvider, ProvideCredentials};
use cfg_types::{
    AssumeRole, Credentials, CredentialsBuilder, CredentialsError, OutOfMemory, Outcome, Region,
    Request, Text, TryCopy,
};
use cfg_world::{Entry, Question, ScriptDevices, World};
use std::alloc::{AllocError, Global};
use std::test::Fail;

fn request_words(alloc: Global, request: &AssumeRole) -> Result<String, AllocError> {
    let signer = request.signer.access_key_id();
    let role = request.role_arn.as_str();
    let session = request.session_name.as_str();
    let external = &request.external_id;
    let policy = &request.policy;
    let arns = &request.policy_arns;
    let length = request.duration_seconds;
    let region = &request.settings.region;
    format!(in alloc;
        " {signer} {role} {session} {external:?} {policy:?} {arns:?} {length:?} {region:?}"
    )
}

fn journal_words(alloc: Global, journal: &[Entry]) -> Result<String, AllocError> {
    let mut words = String::new(alloc);
    for entry in journal {
        let question = question_words(alloc, entry.question())?;
        words.push_str(question.as_str())?;
    }
    Ok(words)
}

fn question_words(alloc: Global, question: &Question) -> Result<String, AllocError> {
    if let Question::Send(request) = question
        && let Request::AssumeRole(request) = request.get()
    {
        return request_words(alloc, request);
    }
    format!(in alloc; " {question:?}")
}

// Everything set.
fn all_set(alloc: Global) -> Result<AssumeRoleProviderBuilder, OutOfMemory> {
    let tags = vec![in alloc; (String::from_str(alloc, "k")?, String::from_str(alloc, "v")?)]?;
    let arns = vec![in alloc;
        String::from_str(alloc, "a")?,
        String::from_str(alloc, "b")?,
    ]?;
    let builder = AssumeRoleProvider::builder(alloc, "r")?.session_name("s")?;
    let builder = builder.external_id("e")?.policy("p")?.policy_arns(arns)?;
    let builder = builder.session_length(900).tags(tags)?;
    Ok(builder.region(Region::new(alloc, "eu-west-1")?))
}

// What a provider answers, and what was asked since the world was new.
fn answered(
    alloc: Global,
    provider: &AssumeRoleProvider,
    world: &mut World<ScriptDevices>,
) -> Result<String, OutOfMemory> {
    let mut kept = provider.new_kept()?;
    let outcome = Outcome {
        answer: provider.provide_credentials(&mut kept, world),
    };
    let answer = answer_words(alloc, &outcome.answer)?;
    let questions = journal_words(alloc, world.journal())?;
    Ok(format!(in alloc; "{answer};{questions}")?)
}

// A role alone in its region, over fixed credentials.
fn over_fixed(alloc: Global, world: &mut World<ScriptDevices>) -> Result<String, OutOfMemory> {
    let keys = CredentialsBuilder::new(alloc, "F", "SF", "Own")?.build()?;
    let region = Region::new(alloc, "eu-west-1")?;
    let builder = AssumeRoleProvider::builder(alloc, "r")?.region(region);
    let provider = builder.build_from_provider(RoleBase::Fixed(keys), world)?;
    answered(alloc, &provider, world)
}

// A caller's source that has no time.
struct Late {}

impl Drop for Late {
    fn drop(self) {
        let Late {} = self;
    }
}

impl ProvideCredentials for Late {
    ghost use Rattle.std.specs.Prelude.{None, Err};
    ghost use Rattle.cfg_types.specs.declared.errors.CredentialsError.TheVariants.{ProviderTimedOut};

    ghost value = { λ s. Err ProviderTimedOut };

    ghost fallback = { λ s. None };

    fn provide_credentials(&self) -> Result<Credentials, CredentialsError> {
        Err(CredentialsError::ProviderTimedOut)
    }

    fn fallback_on_interrupt(&self) -> Result<Option<Credentials>, OutOfMemory> {
        Ok(None)
    }
}

fn over_own_source(alloc: Global, world: &mut World<ScriptDevices>) -> Result<String, OutOfMemory> {
    let late = Box::new(alloc, Late {})?;
    let provider = all_set(alloc)?.build_from_provider(RoleBase::Custom(late), world)?;
    answered(alloc, &provider, world)
}

fn over_environment(
    alloc: Global,
    config: ProviderConfig,
    world: &mut World<ScriptDevices>,
) -> Result<String, OutOfMemory> {
    let env = config.env().copy(alloc)?;
    let base = RoleBase::Environment(EnvironmentVariableCredentialsProvider::new(alloc, env));
    let builder = all_set(alloc)?.configure(config);
    let provider = builder.build_from_provider(base, world)?;
    answered(alloc, &provider, world)
}

fn over_default_chain(
    alloc: Global,
    config: ProviderConfig,
    world: &mut World<ScriptDevices>,
) -> Result<String, OutOfMemory> {
    let provider = all_set(alloc)?.configure(config).build(world)?;
    answered(alloc, &provider, world)
}

// In the region of the default region chain.
fn over_asked_region(
    alloc: Global,
    config: ProviderConfig,
    world: &mut World<ScriptDevices>,
) -> Result<String, OutOfMemory> {
    let builder = AssumeRoleProvider::builder(alloc, "r")?.configure(config);
    let provider = builder.build(world)?;
    answered(alloc, &provider, world)
}

fn words_of(alloc: Global, base: &str, setup: Setup) -> Result<String, OutOfMemory> {
    let Setup { config, mut world } = setup;
    match base {
        "fixed" => over_fixed(alloc, &mut world),
        "own" => over_own_source(alloc, &mut world),
        "environment" => over_environment(alloc, config, &mut world),
        "asked region" => over_asked_region(alloc, config, &mut world),
        _ => over_default_chain(alloc, config, &mut world),
    }
}

#[test]
fn bases_of_a_role(rt: HostRuntime) -> Result<(), Fail> {
    let table: &[(&str, &str, &str)] = &[
        (
            "fixed",
            r#"{"clock":[7],"replies":{"assume-role":[{"refused":"RegionDisabled","message":"m"}]}}"#,
            "InvalidConfiguration(AssumeRole(RegionDisabled)); Now F r assume-role-provider-7000 None None None None Some(\"eu-west-1\")",
        ),
        (
            "fixed",
            r#"{"clock":[7],"replies":{"assume-role":[{"refused":"Other","message":"m"}]}}"#,
            "ProviderError(Refused(Refusal { kind: Other, message: \"m\" })); Now F r assume-role-provider-7000 None None None None Some(\"eu-west-1\")",
        ),
        ("own", "{}", "ProviderError(Base(ProviderTimedOut));"),
        (
            "environment",
            r#"{"variables":[["AWS_ACCESS_KEY_ID","F"],["AWS_SECRET_ACCESS_KEY","S"]]}"#,
            "ProviderError(Sent(Dispatch)); F r s Some(\"e\") Some(\"p\") Some([\"a\", \"b\"]) Some(900) Some(\"eu-west-1\")",
        ),
        (
            "asked region",
            r#"{"clock":[7],"variables":[["AWS_ACCESS_KEY_ID","F"],["AWS_SECRET_ACCESS_KEY","S"],["AWS_REGION","e"]]}"#,
            "ProviderError(Sent(Dispatch)); Now F r assume-role-provider-7000 None None None None Some(\"e\")",
        ),
        (
            "default chain",
            r#"{"variables":[["AWS_ACCESS_KEY_ID","F"],["AWS_SECRET_ACCESS_KEY","S"]],"replies":{"assume-role":[{"id":"X","secret":"SX","token":"TX","expires":9}]}}"#,
            "X AssumeRoleProvider [CredentialsStsAssumeRole]; F r s Some(\"e\") Some(\"p\") Some([\"a\", \"b\"]) Some(900) Some(\"eu-west-1\")",
        ),
    ];
    for (base, script, want) in table {
        let setup = set_up(rt.alloc(), script)?;
        let words = words_of(rt.alloc(), base, setup)?;
        assert_eq!(rt; words.as_str(), *want, "{base}");
    }
    Ok(())
}

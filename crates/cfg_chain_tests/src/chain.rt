//! What no clause says: worked examples of the definitions, and that calls succeed. A row's
//! configuration and devices stand in a script, as the program reads them.
use crate::setup::{Setup, answered, questions, set_up};
use cfg_types::OutOfMemory;
use cfg_world::World;
use std::alloc::Global;
use std::test::Fail;

// What a call of the chain answers, and what it asked.
fn words_of(alloc: Global, setup: Setup) -> Result<String, OutOfMemory> {
    let Setup { chain, devices } = setup;
    let mut world = World::new(alloc, devices);
    let answer = answered(alloc, &chain, &mut world)?;
    let questions = questions(alloc, world.journal())?;
    Ok(format!(in alloc; "{answer}{questions}")?)
}

#[test]
fn calls(rt: HostRuntime) -> Result<(), Fail> {
    let table: &[(&str, &str)] = &[
        // The environment.
        (
            r#"{"variables":[["AWS_ACCESS_KEY_ID","A"],["AWS_ACCESS_KEY_ID"," B "],["AWS_SECRET_ACCESS_KEY"," \u2003"],["SECRET_ACCESS_KEY"," o "],["AWS_SESSION_TOKEN"," t\u00a0"],["AWS_ACCOUNT_ID","\t7 "]]}"#,
            r#"Credentials { provider_name: "EnvironmentVariable", access_key_id: " B ", secret_access_key: "** redacted **", expires_after: never, account_id: "7" }  o  Some("t") [CredentialsEnvVars]"#,
        ),
        // A profile: two roles over keys, assumed from the end of the path.
        (
            r#"{"profiles":[["default",[["role_arn","r"],["source_profile","b"]]],["b",[["role_arn","q"],["source_profile","c"],["role_session_name","s"],["external_id","x"]]],["c",[["aws_access_key_id","K"],["aws_secret_access_key","S"],["role_arn","p"]]]],"clock":[5],"replies":{"assume-role":[{"id":"KB","secret":"SB","token":"TB","expires":1000},{"id":"KA","secret":"SA","token":"TA","expires":2000,"arn":"a:b:c:d:e:f"}]}}"#,
            r#"Credentials { provider_name: "AssumeRoleProvider", access_key_id: "KA", secret_access_key: "** redacted **", expires_after: 2000 s 0 ns, account_id: "e" } SA Some("TA") [CredentialsProfile] Send(AssumeRole(AssumeRole { signer: Credentials { provider_name: "ProfileFile", access_key_id: "K", secret_access_key: "** redacted **", expires_after: never }, role_arn: "q", session_name: "s", external_id: Some("x"), policy: None, policy_arns: None, duration_seconds: None, tags: None, settings: CallSettings { region: Some("eu-west-1"), use_fips: None, use_dual_stack: None, max_attempts: 3, timeouts: Timeouts { connect_ms: None, read_ms: None, operation_ms: None, attempt_ms: None } } })) Now Send(AssumeRole(AssumeRole { signer: Credentials { provider_name: "AssumeRoleProvider", access_key_id: "KB", secret_access_key: "** redacted **", expires_after: 1000 s 0 ns }, role_arn: "r", session_name: "assume-role-from-profile-5000", external_id: None, policy: None, policy_arns: None, duration_seconds: None, tags: None, settings: CallSettings { region: Some("eu-west-1"), use_fips: None, use_dual_stack: None, max_attempts: 3, timeouts: Timeouts { connect_ms: None, read_ms: None, operation_ms: None, attempt_ms: None } } }))"#,
        ),
        // The later of a caller's own sources.
        (
            r#"{"profiles":[["default",[["role_arn","r"],["credential_source","ECSCONTAINER"],["role_session_name","s"]]]]}"#,
            r#"ProviderError(Role(ProviderError(Sent(Dispatch)))) Send(AssumeRole(AssumeRole { signer: Credentials { provider_name: "Own", access_key_id: "SECOND", secret_access_key: "** redacted **", expires_after: never }, role_arn: "r", session_name: "s", external_id: None, policy: None, policy_arns: None, duration_seconds: None, tags: None, settings: CallSettings { region: Some("eu-west-1"), use_fips: None, use_dual_stack: None, max_attempts: 3, timeouts: Timeouts { connect_ms: None, read_ms: None, operation_ms: None, attempt_ms: None } } }))"#,
        ),
        // Sections that were refused.
        (
            r#"{"refused":"line 3"}"#,
            r#"InvalidConfiguration(Profile(InvalidProfile("line 3")))"#,
        ),
        // No member.
        (
            r#"{"variables":[["AWS_EC2_METADATA_DISABLED","true"]],"profiles":[["default",[]]]}"#,
            r#"CredentialsNotLoaded(Chain(ProviderChainError { attempts: [ProviderAttempt { name: "Environment", error: CredentialsNotLoaded(NotSet("AWS_ACCESS_KEY_ID")) }, ProviderAttempt { name: "Profile", error: CredentialsNotLoaded(Profile(ProfileDidNotContainCredentials { profile: "default" })) }, ProviderAttempt { name: "WebIdentityToken", error: CredentialsNotLoaded(NotSet("AWS_WEB_IDENTITY_TOKEN_FILE")) }, ProviderAttempt { name: "EcsContainer", error: CredentialsNotLoaded(NotConfigured) }, ProviderAttempt { name: "Ec2InstanceMetadata", error: CredentialsNotLoaded(MetadataDisabled) }] }))"#,
        ),
    ];
    for (script, want) in table {
        let setup = set_up(rt.alloc(), script)?;
        let words = words_of(rt.alloc(), setup)?;
        assert_eq!(rt; words.as_str(), *want, "{script}");
    }
    Ok(())
}

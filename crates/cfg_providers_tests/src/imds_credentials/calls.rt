//! Calls on one kept state, by their places and roles.
use crate::imds_credentials::setup::words_over;
use cfg_script::read_script;
use std::test::Fail;

#[test]
fn calls(rt: HostRuntime) -> Result<(), Fail> {
    let table: &[(&[&str], &str, &str)] = &[
        (
            // Nothing is kept; then a refusal, and what was retrieved stands in.
            &["off", "chain", "chain", "off"],
            r#"{"clock":[1456380212],"jitter":[4000],"replies":{"imds-token":[[200,[["x-aws-ec2-metadata-token-ttl-seconds","21600"]],"tok"]],"imds-get":[[200,[],"role"],[200,[],"{\"AccessKeyId\":\"K\",\"SecretAccessKey\":\"S\",\"Token\":\"T\",\"Expiration\":\"2016-02-25T06:03:31Z\"}"],[404,[],""]]}}"#,
            "CredentialsNotLoaded(MetadataDisabled) 0
Credentials { provider_name: \"IMDSv2\", access_key_id: \"K\", secret_access_key: \"** redacted **\", expires_after: 1456381112 s 0 ns } S Some(\"T\") [CredentialsImds] 8
Credentials { provider_name: \"IMDSv2\", access_key_id: \"K\", secret_access_key: \"** redacted **\", expires_after: 1456381112 s 0 ns } S Some(\"T\") [] 2
Credentials { provider_name: \"IMDSv2\", access_key_id: \"K\", secret_access_key: \"** redacted **\", expires_after: 1456381112 s 0 ns } S Some(\"T\") [] 0
",
        ),
        (
            // A named source has a session token and keys of its own.
            &["role", "named", "chain"],
            r#"{"clock":[100],"replies":{"imds-token":[[200,[["x-aws-ec2-metadata-token-ttl-seconds","21600"]],"tok"],[200,[["x-aws-ec2-metadata-token-ttl-seconds","21600"]],"tok"]],"imds-get":[[200,[],"{\"AccessKeyId\":\"K\",\"SecretAccessKey\":\"S\",\"Token\":\"T\",\"Expiration\":\"2016-02-25T06:03:31Z\"}"],[200,[],"role"],[200,[],"{\"Code\":\"AssumeRoleUnauthorizedAccess\"}"],[404,[],""]]}}"#,
            "Credentials { provider_name: \"IMDSv2\", access_key_id: \"K\", secret_access_key: \"** redacted **\", expires_after: 1456380211 s 0 ns } S Some(\"T\") [CredentialsImds] 5
InvalidConfiguration(MetadataRole { code: \"AssumeRoleUnauthorizedAccess\", message: \"no message\" }) 6
Credentials { provider_name: \"IMDSv2\", access_key_id: \"K\", secret_access_key: \"** redacted **\", expires_after: 1456380211 s 0 ns } S Some(\"T\") [] 2
",
        ),
    ];
    for (calls, text, want) in table {
        let script = read_script(rt.alloc(), text.as_bytes())?;
        let words = words_over(rt.alloc(), script, calls)?;
        assert_eq!(rt; words.as_str(), *want, "{text}");
    }
    Ok(())
}

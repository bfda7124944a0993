//! Calls of providers over devices of which one call fails.
use crate::program::faults::{Case, first_unlike};
use std::test::Fail;

const ROLES_AND_CONTAINERS: &[Case] = &[
    Case {
        what: "a role over keys",
        command: "resolve",
        script: r#"{"profiles":[["default",[["role_arn","r"],["source_profile","b"]]],["b",[["aws_access_key_id","K"],["aws_secret_access_key","S"]]]],"clock":[7],"replies":{"assume-role":[{"id":"KA","secret":"SKA","token":"TKA","expires":2000}]}}"#,
        whole: "credentials =KA =AssumeRoleProvider 2000.000000000 now,assume-role\n",
        faults: &[(
            "error ProviderError now,assume-role!\n",
            "the role's request ends the call",
        )],
    },
    Case {
        what: "a role over keys, without a reply",
        command: "resolve",
        script: r#"{"profiles":[["default",[["role_arn","r"],["source_profile","b"]]],["b",[["aws_access_key_id","K"],["aws_secret_access_key","S"]]]],"clock":[7]}"#,
        whole: "error ProviderError now,assume-role!\n",
        faults: &[(
            "error ProviderError now,assume-role!\n",
            "it fails as one without a reply does",
        )],
    },
    Case {
        what: "two roles over keys, the deeper one first",
        command: "resolve",
        script: r#"{"profiles":[["default",[["role_arn","arn:aws:iam::1:role/A"],["source_profile","b"]]],["b",[["role_arn","arn:aws:iam::1:role/B"],["source_profile","c"],["role_session_name","sb"]]],["c",[["aws_access_key_id","KC"],["aws_secret_access_key","SC"],["role_arn","arn:aws:iam::1:role/C"]]]],"clock":[5],"replies":{"assume-role":[{"id":"KB","secret":"SKB","token":"TKB","expires":1000},{"id":"KA","secret":"SKA","token":"TKA","expires":2000,"arn":"arn:aws:sts::111122223333:assumed-role/A/x"}]}}"#,
        whole: "credentials =KA =AssumeRoleProvider 2000.000000000 assume-role,now,assume-role\n",
        faults: &[
            (
                "error ProviderError assume-role!\n",
                "the deeper role's request ends the call, and the other role is not asked for",
            ),
            (
                "error ProviderError assume-role,now,assume-role!\n",
                "the other role's request, behind the clock for its session's name",
            ),
        ],
    },
    Case {
        what: "a container's token file that is not there",
        command: "resolve",
        script: r#"{"variables":[["AWS_CONTAINER_AUTHORIZATION_TOKEN_FILE","/t"]]}"#,
        whole: "error ProviderError read!\n",
        faults: &[(
            "error ProviderError read!\n",
            "it fails as one that is not there does",
        )],
    },
    Case {
        what: "a container whose first reply is no document",
        command: "resolve",
        script: r#"{"variables":[["AWS_CONTAINER_CREDENTIALS_FULL_URI","http://127.0.0.1:8080/c"]],"replies":{"http":[[200,[],"not json"],[200,[],"{\"AccessKeyId\":\"MUA...\",\"SecretAccessKey\":\"/7PC5om....\",\"Token\":\"AQoDY....=\",\"Expiration\":\"2016-02-25T06:03:31Z\"}"]]}}"#,
        whole: "credentials =MUA... =EcsContainer 1456380211.000000000 http,http\n",
        faults: &[
            (
                "credentials =MUA... =EcsContainer 1456380211.000000000 http!,http,http\n",
                "three attempts: the one that fails, the reply without a document, the document",
            ),
            (
                "credentials =MUA... =EcsContainer 1456380211.000000000 http,http!,http\n",
                "the third attempt has the document that the second one did not take",
            ),
        ],
    },
    Case {
        what: "the same, where sleeping is not allowed",
        command: "resolve",
        script: r#"{"variables":[["AWS_CONTAINER_CREDENTIALS_FULL_URI","http://127.0.0.1:8080/c"]],"replies":{"http":[[200,[],"not json"],[200,[],"{\"AccessKeyId\":\"MUA...\",\"SecretAccessKey\":\"/7PC5om....\",\"Token\":\"AQoDY....=\",\"Expiration\":\"2016-02-25T06:03:31Z\"}"]]},"sleep":false}"#,
        whole: "error Unhandled http\n",
        faults: &[(
            "error Unhandled http!\n",
            "one attempt, whose failing is the error",
        )],
    },
    Case {
        what: "a container that fails once",
        command: "resolve",
        script: r#"{"variables":[["AWS_CONTAINER_CREDENTIALS_FULL_URI","http://127.0.0.1:8080/c"]],"replies":{"http":[[500,[],"it broke"],[200,[],"{\"AccessKeyId\":\"MUA...\",\"SecretAccessKey\":\"/7PC5om....\",\"Token\":\"AQoDY....=\",\"Expiration\":\"2016-02-25T06:03:31Z\"}"]]}}"#,
        whole: "credentials =MUA... =EcsContainer 1456380211.000000000 http,http\n",
        faults: &[
            (
                "credentials =MUA... =EcsContainer 1456380211.000000000 http!,http,http\n",
                "three attempts: the one that fails, the status 500, the document",
            ),
            (
                "credentials =MUA... =EcsContainer 1456380211.000000000 http,http!,http\n",
                "the third attempt has the document that the second one did not take",
            ),
        ],
    },
    Case {
        what: "a container that refuses with a document of an error",
        command: "resolve",
        script: r#"{"variables":[["AWS_CONTAINER_CREDENTIALS_FULL_URI","http://127.0.0.1:8080/c"]],"replies":{"http":[[400,[],"{\"Code\":\"Error\"}"]]}}"#,
        whole: "error ProviderError http\n",
        faults: &[(
            "error ProviderError http!,http\n",
            "the second attempt is refused for good",
        )],
    },
    Case {
        what: "a container's relative address with a query",
        command: "resolve",
        script: r#"{"variables":[["AWS_CONTAINER_CREDENTIALS_RELATIVE_URI","/v2/x?y"]],"replies":{"http":[[200,[],"{\"AccessKeyId\":\"MUA...\",\"SecretAccessKey\":\"/7PC5om....\",\"Token\":\"AQoDY....=\",\"Expiration\":\"2016-02-25T06:03:31Z\"}"]]}}"#,
        whole: "credentials =MUA... =EcsContainer 1456380211.000000000 http\n",
        faults: &[(
            "credentials =MUA... =EcsContainer 1456380211.000000000 http!,http\n",
            "the second attempt has the document",
        )],
    },
    Case {
        what: "a container whose host cannot be looked up",
        command: "resolve",
        script: r#"{"variables":[["AWS_CONTAINER_CREDENTIALS_FULL_URI","http://n/c"]],"lookups":["fail"]}"#,
        whole: "error InvalidConfiguration lookup!\n",
        faults: &[(
            "error InvalidConfiguration lookup!\n",
            "it fails as one that is not found does",
        )],
    },
];

const METADATA: &[Case] = &[
    Case {
        what: "metadata that fails in the second call",
        command: "resolve",
        script: r#"{"calls":2,"clock":[100],"replies":{"imds-token":[[200,[["x-aws-ec2-metadata-token-ttl-seconds","21600"]],"tok"]],"imds-get":[[200,[],"role"],[200,[],"{\"AccessKeyId\":\"MUA...\",\"SecretAccessKey\":\"/7PC5om....\",\"Token\":\"AQoDY....=\",\"Expiration\":\"2016-02-25T06:03:31Z\"}"],[500,[],""],[500,[],""],[500,[],""],[500,[],""]]}}"#,
        whole: "credentials =MUA... =IMDSv2 1456380211.000000000 now,imds-token,now,imds-get,now,imds-get,now\ncredentials =MUA... =IMDSv2 1456380211.000000000 now,imds-get,imds-get,imds-get,imds-get\n",
        faults: &[
            (
                "error CredentialsNotLoaded now,imds-token!,now\ncredentials =MUA... =IMDSv2 1456380211.000000000 now,imds-token,now,imds-get,now,imds-get,now\n",
                "the member is passed over, nothing is kept, and the second call is as a first one",
            ),
            (
                "error ProviderError now,imds-token,now,imds-get!\ncredentials =MUA... =IMDSv2 1456380211.000000000 now,imds-get,now,imds-get,now\n",
                "the listing fails, and the session token is kept",
            ),
            (
                "error ProviderError now,imds-token,now,imds-get,now,imds-get!\nerror ProviderError now,imds-get,now,imds-get,imds-get,imds-get,imds-get\n",
                "the second call takes the document for its listing, which is a path all the same, and the path has the status 500 four times",
            ),
            (
                "credentials =MUA... =IMDSv2 1456380211.000000000 now,imds-token,now,imds-get,now,imds-get,now\ncredentials =MUA... =IMDSv2 1456380211.000000000 now,imds-get!\n",
                "what was retrieved is the answer, and a request that was not sent is not made again",
            ),
            (
                "credentials =MUA... =IMDSv2 1456380211.000000000 now,imds-token,now,imds-get,now,imds-get,now\ncredentials =MUA... =IMDSv2 1456380211.000000000 now,imds-get,imds-get!\n",
                "the same in the second attempt",
            ),
            (
                "credentials =MUA... =IMDSv2 1456380211.000000000 now,imds-token,now,imds-get,now,imds-get,now\ncredentials =MUA... =IMDSv2 1456380211.000000000 now,imds-get,imds-get,imds-get!\n",
                "the same in the third attempt",
            ),
            (
                "credentials =MUA... =IMDSv2 1456380211.000000000 now,imds-token,now,imds-get,now,imds-get,now\ncredentials =MUA... =IMDSv2 1456380211.000000000 now,imds-get,imds-get,imds-get,imds-get!\n",
                "the same in the fourth attempt, which is the last anyway",
            ),
        ],
    },
    Case {
        what: "a document of metadata that has ended",
        command: "resolve",
        script: r#"{"clock":[1456380212],"jitter":[4000],"replies":{"imds-token":[[200,[["x-aws-ec2-metadata-token-ttl-seconds","21600"]],"tok"]],"imds-get":[[200,[],"role"],[200,[],"{\"AccessKeyId\":\"MUA...\",\"SecretAccessKey\":\"/7PC5om....\",\"Token\":\"AQoDY....=\",\"Expiration\":\"2016-02-25T06:03:31Z\"}"]]}}"#,
        whole: "credentials =MUA... =IMDSv2 1456381112.000000000 now,imds-token,now,imds-get,now,imds-get,now,jitter\n",
        faults: &[
            (
                "error CredentialsNotLoaded now,imds-token!,now\n",
                "the member is passed over",
            ),
            (
                "error ProviderError now,imds-token,now,imds-get!\n",
                "the listing fails, which does not pass over",
            ),
            (
                "error ProviderError now,imds-token,now,imds-get,now,imds-get!\n",
                "there is no document, so that no jitter is asked",
            ),
        ],
    },
    Case {
        what: "an empty script",
        command: "resolve",
        script: r#"{}"#,
        whole: "error CredentialsNotLoaded now,imds-token!,now\n",
        faults: &[(
            "error CredentialsNotLoaded now,imds-token!,now\n",
            "it fails as one without a reply does",
        )],
    },
    Case {
        what: "metadata without a role",
        command: "resolve",
        script: r#"{"clock":[100],"replies":{"imds-token":[[200,[["x-aws-ec2-metadata-token-ttl-seconds","21600"]],"tok"]],"imds-get":[[404,[],""]]}}"#,
        whole: "error CredentialsNotLoaded now,imds-token,now,imds-get\n",
        faults: &[
            (
                "error CredentialsNotLoaded now,imds-token!,now\n",
                "the member is passed over, as by the listing's status",
            ),
            (
                "error ProviderError now,imds-token,now,imds-get!\n",
                "the listing has no status, which does not pass over",
            ),
        ],
    },
];

const PROCESSES_AND_OTHERS: &[Case] = &[
    Case {
        what: "a process",
        command: "resolve",
        script: r#"{"profiles":[["default",[["credential_process","/opt/creds --user helen"]]]],"commands":[[0,"{\"Version\":1,\"AccessKeyId\":\"ASIARTESTID\",\"SecretAccessKey\":\"TESTSECRETKEY\",\"Expiration\":\"2022-05-02T18:36:00+02:00\"}",""]]}"#,
        whole: "credentials =ASIARTESTID =CredentialProcess 1651509360.000000000 run\n",
        faults: &[(
            "error ProviderError run!\n",
            "the command's failing ends the call",
        )],
    },
    Case {
        what: "a process that fails",
        command: "resolve",
        script: r#"{"profiles":[["default",[["credential_process","/opt/creds --user helen"]]]],"commands":[[3,"","bad"]]}"#,
        whole: "error ProviderError run\n",
        faults: &[(
            "error ProviderError run!\n",
            "a command that is not run ends the call, too",
        )],
    },
    Case {
        what: "a web identity",
        command: "resolve",
        script: r#"{"variables":[["AWS_WEB_IDENTITY_TOKEN_FILE","/j"],["AWS_ROLE_ARN","a"]],"files":[["/j","jwt"]],"clock":[1],"replies":{"web-identity":[{"id":"W","secret":"SW","token":"TW","expires":900}]}}"#,
        whole: "credentials =W =WebIdentityToken 900.000000000 now,read,web-identity\n",
        faults: &[
            (
                "error ProviderError now,read!\n",
                "the token's file has to be read",
            ),
            (
                "error ProviderError now,read,web-identity!\n",
                "the request ends the call",
            ),
        ],
    },
    Case {
        what: "a web identity whose ARN has four parts",
        command: "resolve",
        script: r#"{"variables":[["AWS_WEB_IDENTITY_TOKEN_FILE","/j"],["AWS_ROLE_ARN","a"]],"files":[["/j","jwt"]],"clock":[1],"replies":{"web-identity":[{"id":"W","secret":"SW","token":"TW","expires":900,"arn":"a:b:c:d"}]}}"#,
        whole: "error Unhandled now,read,web-identity\n",
        faults: &[
            (
                "error ProviderError now,read!\n",
                "the token's file has to be read",
            ),
            (
                "error ProviderError now,read,web-identity!\n",
                "there is no reply whose ARN could be read",
            ),
        ],
    },
    Case {
        what: "a session token of metadata that is refused",
        command: "resolve",
        script: r#"{"clock":[100],"replies":{"imds-token":[[403,[],""]]}}"#,
        whole: "error ProviderError now,imds-token,now\n",
        faults: &[(
            "error CredentialsNotLoaded now,imds-token!,now\n",
            "a request that was not sent passes over, where the refusal does not",
        )],
    },
    Case {
        what: "the program's own source",
        command: "resolve",
        script: r#"{"profiles":[["default",[["role_arn","x"],["credential_source","FIXED"]]]],"clock":[7],"replies":{"assume-role":[{"id":"KA","secret":"SKA","token":"TKA","expires":2000}]}}"#,
        whole: "credentials =KA =AssumeRoleProvider 2000.000000000 now,assume-role\n",
        faults: &[(
            "error ProviderError now,assume-role!\n",
            "the role's request ends the call",
        )],
    },
    Case {
        what: "a region of metadata",
        command: "region",
        script: r#"{"clock":[0],"replies":{"imds-token":[[200,[["x-aws-ec2-metadata-token-ttl-seconds","21600"]],"tok"]],"imds-get":[[200,[],"eu-west-1"]]}}"#,
        whole: "region =eu-west-1 now,imds-token,now,imds-get\n",
        faults: &[
            (
                "region none now,imds-token!,now\n",
                "an error of the client is no region",
            ),
            (
                "region none now,imds-token,now,imds-get!\n",
                "an error of the client is no region",
            ),
        ],
    },
    Case {
        what: "a token of a session",
        command: "token",
        script: r#"{"variables":[["HOME","/home/u"]],"profiles":[["default",[["sso_session","abc"]]]],"sessions":[["abc",[["sso_region","us-east-1"],["sso_start_url","u"]]]],"files":[["/home/u/.aws/sso/cache/a9993e364706816aba3e25717850c26c9cd0d89d.json","{\"accessToken\":\"t\",\"expiresAt\":\"1970-01-01T01:00:00Z\"}"]],"clock":[0]}"#,
        whole: "token 3600.000000000 now,read,now\n",
        faults: &[(
            "error ProviderError now,read!\n",
            "the session's file has to be read",
        )],
    },
];

#[test]
fn roles_and_containers_may_fail(rt: HostRuntime) -> Result<(), Fail> {
    assert_eq!(rt; first_unlike(rt.alloc(), ROLES_AND_CONTAINERS)?, None);
    Ok(())
}

#[test]
fn metadata_may_fail(rt: HostRuntime) -> Result<(), Fail> {
    assert_eq!(rt; first_unlike(rt.alloc(), METADATA)?, None);
    Ok(())
}

#[test]
fn processes_and_others_may_fail(rt: HostRuntime) -> Result<(), Fail> {
    assert_eq!(rt; first_unlike(rt.alloc(), PROCESSES_AND_OTHERS)?, None);
    Ok(())
}

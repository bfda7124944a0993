//! Calls over token files, sessions and sign-ins, of whose devices one call fails.
use crate::program::faults::{Case, first_unlike};
use std::test::Fail;

const REFRESHES: &[Case] = &[
    Case {
        what: "a kept token of IAM Identity Center, used until 300 seconds are left",
        command: "resolve",
        script: r#"{"variables":[["HOME","/home/u"]],"profiles":[["default",[["sso_session","abc"],["sso_account_id","1"],["sso_role_name","r"]]]],"sessions":[["abc",[["sso_region","us-east-1"],["sso_start_url","u"]]]],"files":[["/home/u/.aws/sso/cache/a9993e364706816aba3e25717850c26c9cd0d89d.json","{\"accessToken\":\"t\",\"expiresAt\":\"1970-01-01T01:00:00Z\"}"]],"calls":3,"clock":[0,0,3299,3300,3300],"replies":{"role-credentials":[{"id":"R1","secret":"S","token":"T","expires_ms":5000000},{"id":"R2","secret":"S","token":"T","expires_ms":5000000},{"id":"R3","secret":"S","token":"T","expires_ms":5000000}]}}"#,
        whole: "credentials =R1 =SSO 5000.000000000 now,read,now,role-credentials\ncredentials =R2 =SSO 5000.000000000 now,role-credentials\ncredentials =R3 =SSO 5000.000000000 now,read,now,role-credentials\n",
        faults: &[
            (
                "error ProviderError now,read!\ncredentials =R1 =SSO 5000.000000000 now,read,now,role-credentials\ncredentials =R2 =SSO 5000.000000000 now,read,now,role-credentials\n",
                "nothing is kept, the second call loads the token, and the third finds 300 seconds left",
            ),
            (
                "error ProviderError now,read,now,role-credentials!\ncredentials =R1 =SSO 5000.000000000 now,role-credentials\ncredentials =R2 =SSO 5000.000000000 now,read,now,role-credentials\n",
                "the token is kept all the same",
            ),
            (
                "credentials =R1 =SSO 5000.000000000 now,read,now,role-credentials\nerror ProviderError now,role-credentials!\ncredentials =R2 =SSO 5000.000000000 now,read,now,role-credentials\n",
                "the reply that was not taken is the third call's",
            ),
            (
                "credentials =R1 =SSO 5000.000000000 now,read,now,role-credentials\ncredentials =R2 =SSO 5000.000000000 now,role-credentials\nerror ProviderError now,read!\n",
                "the token that is kept is not one for the third call",
            ),
            (
                "credentials =R1 =SSO 5000.000000000 now,read,now,role-credentials\ncredentials =R2 =SSO 5000.000000000 now,role-credentials\nerror ProviderError now,read,now,role-credentials!\n",
                "the third call's credentials",
            ),
        ],
    },
    Case {
        what: "a refresh of an expired token that is always refused, tried again after 30 seconds, by the rule",
        command: "resolve",
        script: r#"{"variables":[["HOME","/home/u"]],"profiles":[["default",[["sso_session","abc"],["sso_account_id","1"],["sso_role_name","r"]]]],"sessions":[["abc",[["sso_region","us-east-1"],["sso_start_url","u"]]]],"files":[["/home/u/.aws/sso/cache/a9993e364706816aba3e25717850c26c9cd0d89d.json","{\"accessToken\":\"t\",\"expiresAt\":\"1970-01-01T00:15:00Z\",\"clientId\":\"i\",\"clientSecret\":\"s\",\"refreshToken\":\"r\",\"registrationExpiresAt\":\"1970-01-02T00:00:00Z\"}"]],"calls":4,"clock":[1000,1000,1029,1029,990,990,1030,1030],"replies":{"create-token":[{"refused":"Other","message":"m"},{"refused":"Other","message":"m"},{"refused":"Other","message":"m"},{"refused":"Other","message":"m"}]}}"#,
        whole: "error ProviderError now,read,now,create-token\nerror ProviderError now,read,now\nerror ProviderError now,read,now\nerror ProviderError now,read,now,create-token\n",
        faults: &[
            (
                "error ProviderError now,read!\nerror ProviderError now,read,now,create-token\nerror ProviderError now,read,now\nerror ProviderError now,read,now\n",
                "the second call is refused at 1029, and 30 seconds later it is 1059, behind all other readings",
            ),
            (
                "error ProviderError now,read,now,create-token!\nerror ProviderError now,read,now\nerror ProviderError now,read,now\nerror ProviderError now,read,now,create-token\n",
                "a failed refresh is noted as a refusal is",
            ),
            (
                "error ProviderError now,read,now,create-token\nerror ProviderError now,read!\nerror ProviderError now,read,now\nerror ProviderError now,read,now,create-token\n",
                "the second call has no file, and refreshes nothing",
            ),
            (
                "error ProviderError now,read,now,create-token\nerror ProviderError now,read,now\nerror ProviderError now,read!\nerror ProviderError now,read,now,create-token\n",
                "the third call has no file, and refreshes nothing",
            ),
            (
                "error ProviderError now,read,now,create-token\nerror ProviderError now,read,now\nerror ProviderError now,read,now\nerror ProviderError now,read!\n",
                "the fourth call has no file",
            ),
            (
                "error ProviderError now,read,now,create-token\nerror ProviderError now,read,now\nerror ProviderError now,read,now\nerror ProviderError now,read,now,create-token!\n",
                "the fourth call's refresh",
            ),
        ],
    },
    Case {
        what: "a refresh that is granted for no second, in both calls, by the rule",
        command: "resolve",
        script: r#"{"variables":[["HOME","/home/u"]],"profiles":[["default",[["sso_session","abc"],["sso_account_id","1"],["sso_role_name","r"]]]],"sessions":[["abc",[["sso_region","us-east-1"],["sso_start_url","u"]]]],"files":[["/home/u/.aws/sso/cache/a9993e364706816aba3e25717850c26c9cd0d89d.json","{\"accessToken\":\"t\",\"expiresAt\":\"1970-01-01T00:15:00Z\",\"clientId\":\"i\",\"clientSecret\":\"s\",\"refreshToken\":\"r\",\"registrationExpiresAt\":\"1970-01-02T00:00:00Z\"}"]],"calls":2,"clock":[1000,1000,1029,1029],"replies":{"create-token":[{"access":"t2","expires_in":0},{"access":"t2","expires_in":0}]}}"#,
        whole: "error ProviderError now,read,now,create-token\nerror ProviderError now,read,now,create-token\n",
        faults: &[
            (
                "error ProviderError now,read!\nerror ProviderError now,read,now,create-token\n",
                "the second call is granted one for no second",
            ),
            (
                "error ProviderError now,read,now,create-token!\nerror ProviderError now,read,now\n",
                "a failed refresh is noted, where the grant would not be",
            ),
            (
                "error ProviderError now,read,now,create-token\nerror ProviderError now,read!\n",
                "the second call has no file",
            ),
            (
                "error ProviderError now,read,now,create-token\nerror ProviderError now,read,now,create-token!\n",
                "the second call's refresh",
            ),
        ],
    },
];

const SESSIONS: &[Case] = &[
    Case {
        what: "a refresh that is granted for no second, by the rule",
        command: "resolve",
        script: r#"{"variables":[["HOME","/home/u"]],"profiles":[["default",[["sso_session","abc"],["sso_account_id","1"],["sso_role_name","r"]]]],"sessions":[["abc",[["sso_region","us-east-1"],["sso_start_url","u"]]]],"files":[["/home/u/.aws/sso/cache/a9993e364706816aba3e25717850c26c9cd0d89d.json","{\"accessToken\":\"t\",\"expiresAt\":\"1970-01-01T00:15:00Z\",\"clientId\":\"i\",\"clientSecret\":\"s\",\"refreshToken\":\"r\",\"registrationExpiresAt\":\"1970-01-02T00:00:00Z\"}"]],"clock":[1000],"replies":{"create-token":[{"access":"t2","expires_in":0}]}}"#,
        whole: "error ProviderError now,read,now,create-token\n",
        faults: &[
            (
                "error ProviderError now,read!\n",
                "the session's file has to be read",
            ),
            (
                "error ProviderError now,read,now,create-token!\n",
                "a failed refresh ends the call where the token has expired",
            ),
        ],
    },
    Case {
        what: "a granted refresh of a file that cannot be written",
        command: "resolve",
        script: r#"{"variables":[["HOME","/home/u"]],"profiles":[["default",[["sso_session","abc"],["sso_account_id","1"],["sso_role_name","r"]]]],"sessions":[["abc",[["sso_region","us-east-1"],["sso_start_url","u"]]]],"files":[["/home/u/.aws/sso/cache/a9993e364706816aba3e25717850c26c9cd0d89d.json","{\"accessToken\":\"t\",\"expiresAt\":\"1970-01-01T00:15:00Z\",\"clientId\":\"i\",\"clientSecret\":\"s\",\"refreshToken\":\"r\",\"registrationExpiresAt\":\"1970-01-02T00:00:00Z\"}"]],"clock":[1000],"unwritable":["/home/u/.aws/sso/cache/a9993e364706816aba3e25717850c26c9cd0d89d.json"],"replies":{"create-token":[{"access":"t2","expires_in":3600}]}}"#,
        whole: "error ProviderError now,read,now,create-token,write!\n",
        faults: &[
            (
                "error ProviderError now,read!\n",
                "the session's file has to be read",
            ),
            (
                "error ProviderError now,read,now,create-token!\n",
                "a failed refresh ends the call where the token has expired",
            ),
            (
                "error ProviderError now,read,now,create-token,write!\n",
                "it fails as one that is refused does",
            ),
        ],
    },
    Case {
        what: "a start URL, and the token in its file",
        command: "resolve",
        script: r#"{"variables":[["HOME","/home/u"]],"profiles":[["default",[["sso_account_id","1"],["sso_role_name","r"],["sso_region","us-east-1"],["sso_start_url","abc"]]]],"files":[["/home/u/.aws/sso/cache/a9993e364706816aba3e25717850c26c9cd0d89d.json","{\"accessToken\":\"t\",\"expiresAt\":\"1970-01-01T01:00:00Z\"}"]],"replies":{"role-credentials":[{"id":"R1","secret":"S","token":"T","expires_ms":5000000}]}}"#,
        whole: "credentials =R1 =SSO 5000.000000000 read,now,role-credentials\n",
        faults: &[
            (
                "error ProviderError read!\n",
                "the file comes before any reading of the clock",
            ),
            (
                "error ProviderError read,now,role-credentials!\n",
                "the credentials' request ends the call",
            ),
        ],
    },
    Case {
        what: "a clock that goes back behind a kept token",
        command: "resolve",
        script: r#"{"variables":[["HOME","/home/u"]],"profiles":[["default",[["sso_session","abc"],["sso_account_id","1"],["sso_role_name","r"]]]],"sessions":[["abc",[["sso_region","us-east-1"],["sso_start_url","u"]]]],"files":[["/home/u/.aws/sso/cache/a9993e364706816aba3e25717850c26c9cd0d89d.json","{\"accessToken\":\"t\",\"expiresAt\":\"1970-01-01T01:00:00Z\"}"]],"calls":2,"clock":[3300,3300,0],"replies":{"role-credentials":[{"id":"R1","secret":"S","token":"T","expires_ms":5000000},{"id":"R2","secret":"S","token":"T","expires_ms":5000000}]}}"#,
        whole: "credentials =R1 =SSO 5000.000000000 now,read,now,role-credentials\ncredentials =R2 =SSO 5000.000000000 now,role-credentials\n",
        faults: &[
            (
                "error ProviderError now,read!\ncredentials =R1 =SSO 5000.000000000 now,read,now,role-credentials\n",
                "nothing is kept, and the second call loads the token",
            ),
            (
                "error ProviderError now,read,now,role-credentials!\ncredentials =R1 =SSO 5000.000000000 now,role-credentials\n",
                "the token is kept all the same",
            ),
            (
                "credentials =R1 =SSO 5000.000000000 now,read,now,role-credentials\nerror ProviderError now,role-credentials!\n",
                "the second call's credentials",
            ),
        ],
    },
    Case {
        what: "a refresh that is granted past the last moment, by the rule",
        command: "resolve",
        script: r#"{"variables":[["HOME","/home/u"]],"profiles":[["default",[["sso_session","abc"],["sso_account_id","1"],["sso_role_name","r"]]]],"sessions":[["abc",[["sso_region","us-east-1"],["sso_start_url","u"]]]],"files":[["/home/u/.aws/sso/cache/a9993e364706816aba3e25717850c26c9cd0d89d.json","{\"accessToken\":\"t\",\"expiresAt\":\"1970-01-01T00:04:00Z\",\"clientId\":\"i\",\"clientSecret\":\"s\",\"refreshToken\":\"r\",\"registrationExpiresAt\":\"1970-01-02T00:00:00Z\"}"]],"clock":[1000],"replies":{"create-token":[{"access":"t2","expires_in":9223372036854775807}]}}"#,
        whole: "error ProviderError now,read,now,create-token\n",
        faults: &[
            (
                "error ProviderError now,read!\n",
                "the session's file has to be read",
            ),
            (
                "error ProviderError now,read,now,create-token!\n",
                "a failed refresh ends the call where the token has expired",
            ),
        ],
    },
    Case {
        what: "a refresh that is granted past the last year",
        command: "resolve",
        script: r#"{"variables":[["HOME","/home/u"]],"profiles":[["default",[["sso_session","abc"],["sso_account_id","1"],["sso_role_name","r"]]]],"sessions":[["abc",[["sso_region","us-east-1"],["sso_start_url","u"]]]],"files":[["/home/u/.aws/sso/cache/a9993e364706816aba3e25717850c26c9cd0d89d.json","{\"accessToken\":\"t\",\"expiresAt\":\"1970-01-01T00:04:00Z\",\"clientId\":\"i\",\"clientSecret\":\"s\",\"refreshToken\":\"r\",\"registrationExpiresAt\":\"1970-01-02T00:00:00Z\"}"]],"clock":[0],"replies":{"create-token":[{"access":"t2","expires_in":9223372036854775807}]}}"#,
        whole: "error ProviderError now,read,now,create-token\n",
        faults: &[
            (
                "error ProviderError now,read!\n",
                "the session's file has to be read",
            ),
            (
                "error ProviderError now,read,now,create-token!,role-credentials!\n",
                "the file's token is used while it lasts, and its request has no reply",
            ),
        ],
    },
];

const FILES_AND_SIGN_INS: &[Case] = &[
    Case {
        what: "a role over a session of IAM Identity Center",
        command: "resolve",
        script: r#"{"variables":[["HOME","/home/u"]],"profiles":[["default",[["role_arn","arn:aws:iam::1:role/app"],["source_profile","sso"],["region","eu-west-1"]]],["sso",[["sso_session","abc"],["sso_account_id","1"],["sso_role_name","r"]]]],"sessions":[["abc",[["sso_region","us-east-1"],["sso_start_url","u"]]]],"files":[["/home/u/.aws/sso/cache/a9993e364706816aba3e25717850c26c9cd0d89d.json","{\"accessToken\":\"t\",\"expiresAt\":\"1970-01-01T00:40:00Z\"}"]],"clock":[0],"replies":{"role-credentials":[{"id":"R","secret":"S","token":"T","expires_ms":5000000}],"assume-role":[{"id":"ASIAROLE","secret":"SASIAROLE","token":"TASIAROLE","expires":3600}]}}"#,
        whole: "credentials =ASIAROLE =AssumeRoleProvider 3600.000000000 now,read,now,role-credentials,now,assume-role\n",
        faults: &[
            (
                "error ProviderError now,read!\n",
                "the session's file has to be read",
            ),
            (
                "error ProviderError now,read,now,role-credentials!\n",
                "no role is asked for",
            ),
            (
                "error ProviderError now,read,now,role-credentials,now,assume-role!\n",
                "the role's request ends the call",
            ),
        ],
    },
    Case {
        what: "a token's file of IAM Identity Center with bytes behind its object",
        command: "resolve",
        script: r#"{"variables":[["HOME","/home/u"]],"profiles":[["default",[["sso_session","abc"],["sso_account_id","1"],["sso_role_name","r"]]]],"sessions":[["abc",[["sso_region","us-east-1"],["sso_start_url","u"]]]],"files":[["/home/u/.aws/sso/cache/a9993e364706816aba3e25717850c26c9cd0d89d.json","{\"accessToken\":\"t\",\"expiresAt\":\"1970-01-01T01:00:00Z\"} x"]],"clock":[0]}"#,
        whole: "error ProviderError now,read\n",
        faults: &[(
            "error ProviderError now,read!\n",
            "the session's file has to be read",
        )],
    },
    Case {
        what: "a sign-in's file with bytes behind its object, which cannot be written",
        command: "resolve",
        script: r#"{"variables":[["AWS_LOGIN_CACHE_DIRECTORY","/c"]],"profiles":[["default",[["login_session","abc"]]]],"files":[["/c/ba7816bf8f01cfea414140de5dae2223b00361a396177a9cb410ff61f20015ad.json","{\"accessToken\":{\"accessKeyId\":\"AK\",\"secretAccessKey\":\"SK\",\"sessionToken\":\"ST\",\"accountId\":\"012345678901\",\"expiresAt\":\"1970-01-01T00:15:00Z\"},\"refreshToken\":\"rt\",\"clientId\":\"ci\",\"dpopKey\":\"dk\"} x"]],"clock":[1000],"unwritable":["/c/ba7816bf8f01cfea414140de5dae2223b00361a396177a9cb410ff61f20015ad.json"],"replies":{"sign-in":[{"id":"AK2","secret":"SK2","token":"ST2","refresh":"rt2","expires_in":900}]}}"#,
        whole: "credentials =AK2 =Login 1900.000000000 now,read,now,sign-in,write!\n",
        faults: &[
            (
                "error ProviderError now,read!\n",
                "the session's file has to be read",
            ),
            (
                "error ProviderError now,read,now,sign-in!\n",
                "a failed refresh of a sign-in ends the call",
            ),
            (
                "credentials =AK2 =Login 1900.000000000 now,read,now,sign-in,write!\n",
                "the writing of a sign-in's file is passed over where it fails",
            ),
        ],
    },
    Case {
        what: "a sign-in without its key",
        command: "resolve",
        script: r#"{"variables":[["AWS_LOGIN_CACHE_DIRECTORY","/c"]],"profiles":[["default",[["login_session","abc"]]]],"files":[["/c/ba7816bf8f01cfea414140de5dae2223b00361a396177a9cb410ff61f20015ad.json","{\"accessToken\":{\"accessKeyId\":\"AK\",\"secretAccessKey\":\"SK\",\"sessionToken\":\"ST\",\"accountId\":\"012345678901\",\"expiresAt\":\"1970-01-01T00:15:00Z\"},\"refreshToken\":\"rt\",\"clientId\":\"ci\"}"]],"clock":[1000]}"#,
        whole: "error ProviderError now,read\n",
        faults: &[(
            "error ProviderError now,read!\n",
            "the session's file has to be read",
        )],
    },
    Case {
        what: "a sign-in whose refresh is refused as expired",
        command: "resolve",
        script: r#"{"variables":[["AWS_LOGIN_CACHE_DIRECTORY","/c"]],"profiles":[["default",[["login_session","abc"]]]],"files":[["/c/ba7816bf8f01cfea414140de5dae2223b00361a396177a9cb410ff61f20015ad.json","{\"accessToken\":{\"accessKeyId\":\"AK\",\"secretAccessKey\":\"SK\",\"sessionToken\":\"ST\",\"accountId\":\"012345678901\",\"expiresAt\":\"1970-01-01T00:15:00Z\"},\"refreshToken\":\"rt\",\"clientId\":\"ci\",\"dpopKey\":\"dk\"}"]],"clock":[1000],"replies":{"sign-in":[{"refused":"TokenExpired","message":"m"}]}}"#,
        whole: "error ProviderError now,read,now,sign-in\n",
        faults: &[
            (
                "error ProviderError now,read!\n",
                "the session's file has to be read",
            ),
            (
                "error ProviderError now,read,now,sign-in!\n",
                "a failed refresh of a sign-in ends the call",
            ),
        ],
    },
    Case {
        what: "a sign-in that is granted to the last moment",
        command: "resolve",
        script: r#"{"variables":[["AWS_LOGIN_CACHE_DIRECTORY","/c"]],"profiles":[["default",[["login_session","abc"]]]],"files":[["/c/ba7816bf8f01cfea414140de5dae2223b00361a396177a9cb410ff61f20015ad.json","{\"accessToken\":{\"accessKeyId\":\"AK\",\"secretAccessKey\":\"SK\",\"sessionToken\":\"ST\",\"accountId\":\"012345678901\",\"expiresAt\":\"1970-01-01T00:04:00Z\"},\"refreshToken\":\"rt\",\"clientId\":\"ci\",\"dpopKey\":\"dk\"}"]],"clock":[0],"replies":{"sign-in":[{"id":"AK2","secret":"SK2","token":"ST2","refresh":"rt2","expires_in":9223372036854775807}]}}"#,
        whole: "credentials =AK2 =Login 9223372036854775807.000000000 now,read,now,sign-in\n",
        faults: &[
            (
                "error ProviderError now,read!\n",
                "the session's file has to be read",
            ),
            (
                "error ProviderError now,read,now,sign-in!\n",
                "the sign-in with 240 seconds left is not used",
            ),
        ],
    },
];

#[test]
fn refreshes_may_fail(rt: HostRuntime) -> Result<(), Fail> {
    assert_eq!(rt; first_unlike(rt.alloc(), REFRESHES)?, None);
    Ok(())
}

#[test]
fn sessions_may_fail(rt: HostRuntime) -> Result<(), Fail> {
    assert_eq!(rt; first_unlike(rt.alloc(), SESSIONS)?, None);
    Ok(())
}

#[test]
fn files_and_sign_ins_may_fail(rt: HostRuntime) -> Result<(), Fail> {
    assert_eq!(rt; first_unlike(rt.alloc(), FILES_AND_SIGN_INS)?, None);
    Ok(())
}

//! Scripts of chains and of callers. Each is both: a chain's variables and sections, and a caller's devices.

/// One role over keys, whose session has a name. Nothing is kept.
pub(crate) const ROLE: &str =
    r#"{"profiles":[["default",[["role_arn","r"],["source_profile","b"],["role_session_name","s"]]],["b",[["aws_access_key_id","K"],["aws_secret_access_key","S"]]]],"clock":[7],"replies":{"assume-role":[{"id":"KA","secret":"SA","token":"TA","expires":2000}]}}"#;

/// A caller of it with another reply.
pub(crate) const OTHER_ROLE: &str =
    r#"{"clock":[7],"replies":{"assume-role":[{"id":"KB","secret":"SB","token":"TB","expires":2000}]}}"#;

/// A session of IAM Identity Center, whose file has a token to 3600.
pub(crate) const SESSION: &str =
    r#"{"variables":[["HOME","/home/u"]],"profiles":[["default",[["sso_session","abc"],["sso_account_id","1"],["sso_role_name","r"]]]],"sessions":[["abc",[["sso_region","us-east-1"],["sso_start_url","u"]]]],"files":[["/home/u/.aws/sso/cache/a9993e364706816aba3e25717850c26c9cd0d89d.json","{\"accessToken\":\"t\",\"expiresAt\":\"1970-01-01T01:00:00Z\"}"]],"clock":[0],"replies":{"role-credentials":[{"id":"R","secret":"S","token":"T","expires_ms":5000000}]}}"#;

/// A caller of it for whose clock the token is used up.
pub(crate) const LATE: &str =
    r#"{"files":[["/home/u/.aws/sso/cache/a9993e364706816aba3e25717850c26c9cd0d89d.json","{\"accessToken\":\"t\",\"expiresAt\":\"1970-01-01T01:00:00Z\"}"]],"clock":[3300],"replies":{"role-credentials":[{"id":"L","secret":"S","token":"T","expires_ms":5000000}]}}"#;

/// A caller of it whose requests are not answered.
pub(crate) const UNANSWERED: &str =
    r#"{"files":[["/home/u/.aws/sso/cache/a9993e364706816aba3e25717850c26c9cd0d89d.json","{\"accessToken\":\"t\",\"expiresAt\":\"1970-01-01T01:00:00Z\"}"]],"clock":[0]}"#;

/// A caller of it that has no file.
pub(crate) const WITHOUT_FILE: &str =
    r#"{"clock":[0],"replies":{"role-credentials":[{"id":"Q","secret":"S","token":"T","expires_ms":5000000}]}}"#;

/// The same session, with keys in the environment.
pub(crate) const KEYS: &str =
    r#"{"variables":[["HOME","/home/u"],["AWS_ACCESS_KEY_ID","access"],["AWS_SECRET_ACCESS_KEY","secret"]],"profiles":[["default",[["sso_session","abc"],["sso_account_id","1"],["sso_role_name","r"]]]],"sessions":[["abc",[["sso_region","us-east-1"],["sso_start_url","u"]]]],"clock":[0]}"#;

/// The same session, whose token is refreshed.
pub(crate) const REFRESHED: &str =
    r#"{"variables":[["HOME","/home/u"]],"profiles":[["default",[["sso_session","abc"],["sso_account_id","1"],["sso_role_name","r"]]]],"sessions":[["abc",[["sso_region","us-east-1"],["sso_start_url","u"]]]],"files":[["/home/u/.aws/sso/cache/a9993e364706816aba3e25717850c26c9cd0d89d.json","{\"accessToken\":\"t\",\"expiresAt\":\"1970-01-01T00:15:00Z\",\"clientId\":\"i\",\"clientSecret\":\"s\",\"refreshToken\":\"r\",\"registrationExpiresAt\":\"1970-01-02T00:00:00Z\"}"]],"clock":[700],"replies":{"create-token":[{"access":"t2","expires_in":3600}],"role-credentials":[{"id":"R","secret":"S","token":"T","expires_ms":5000000}]}}"#;

/// A role over a sign-in session, whose token is refreshed.
pub(crate) const SIGN_IN: &str =
    r#"{"variables":[["AWS_LOGIN_CACHE_DIRECTORY","/c"]],"profiles":[["default",[["role_arn","r"],["source_profile","b"],["role_session_name","s"]]],["b",[["login_session","abc"]]]],"files":[["/c/ba7816bf8f01cfea414140de5dae2223b00361a396177a9cb410ff61f20015ad.json","{\"accessToken\":{\"accessKeyId\":\"AK\",\"secretAccessKey\":\"SK\",\"sessionToken\":\"ST\",\"accountId\":\"012345678901\",\"expiresAt\":\"1970-01-01T00:15:00Z\"},\"refreshToken\":\"rt\",\"clientId\":\"ci\",\"dpopKey\":\"dk\"}"]],"clock":[1000],"replies":{"sign-in":[{"id":"AK2","secret":"SK2","token":"ST2","refresh":"rt2","expires_in":900}],"assume-role":[{"id":"KA","secret":"SA","token":"TA","expires":2000}]}}"#;

/// Instance metadata.
pub(crate) const METADATA: &str =
    r#"{"clock":[100],"replies":{"imds-token":[[200,[["x-aws-ec2-metadata-token-ttl-seconds","21600"]],"tok"]],"imds-get":[[200,[],"role"],[200,[],"{\"AccessKeyId\":\"MUA\",\"SecretAccessKey\":\"S\",\"Token\":\"T\",\"Expiration\":\"2016-02-25T06:03:31Z\"}"]]}}"#;

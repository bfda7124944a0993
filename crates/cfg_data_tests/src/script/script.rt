//! What no clause says: that the definition is the script that was meant, what is told of bytes that are
//! none, and that reading succeeds.
use cfg_script::{ScriptError, ServiceConfig, find_fault, read_script};
use cfg_types::{OutOfMemory, Timeouts};
use std::alloc::Global;
use std::test::Fail;

fn fault_line(alloc: Global, bytes: &[u8]) -> Result<String, OutOfMemory> {
    match find_fault(alloc, bytes)? {
        Some(fault) => Ok(format!(in alloc; "{fault}")?),
        None => Ok(String::from_str(alloc, "no fault")?),
    }
}

// That the bytes are a script, or why they are none.
fn words_of(alloc: Global, bytes: &[u8]) -> Result<String, OutOfMemory> {
    match read_script(alloc, bytes) {
        Ok(_) => Ok(String::from_str(alloc, "script")?),
        Err(ScriptError::NoScript) => fault_line(alloc, bytes),
        Err(ScriptError::OutOfMemory) => Err(OutOfMemory),
    }
}

const TABLE: &[(&[u8], &str)] = &[
    (b" \t\r\n{ } \n", "script"),
    (
        b"{\"calls\":100,\"variables\":[[\"A\",\"\\u00e9\"],[\"B\",null]],\"sleep\":false,\"selected\":\"\\u0000\\ud83d\\ude00\x7f\",\"region\":\"\"}",
        "script",
    ),
    (
        b"{\"profiles\":[[\"p\",[]],[\"p\",[[\"k\",\"v\"],[\"k\",\"w\"]]]],\"sessions\":[[\"t\",[]]]}",
        "script",
    ),
    (
        b"{\"refused\":\"m\",\"files\":[[\"/t\",\"x\"],[\"/u\",null],[\"/v\",{\"hex\":\"fF00\"}]],\"unwritable\":[\"/t\"]}",
        "script",
    ),
    (
        b"{\"clock\":[0,9223372036854775807,[0,999999999]],\"jitter\":[18446744073709551615],\"commands\":[\"fail\",[-2147483648,\"\",{\"hex\":\"\"}]],\"lookups\":[\"fail\",[\"1.2.3.4\",\"::1\"],[]]}",
        "script",
    ),
    (
        b"{\"replies\":{\"http\":[\"dispatch\",\"timeout\",\"broken\",[100,[[\"a\",\"v\\n\"]],\"\"]],\"imds-token\":[[599,[],\"\"]],\"imds-get\":[]}}",
        "script",
    ),
    (
        b"{\"replies\":{\"assume-role\":[null,{\"refused\":\"TokenExpired\",\"message\":\"m\"},{\"id\":\"i\",\"secret\":\"s\",\"token\":\"t\",\"expires\":[-5,7]}],\"web-identity\":[{\"id\":\"i\",\"secret\":\"s\",\"token\":\"t\",\"expires\":3,\"arn\":\"a\"}],\"role-credentials\":[null,{\"expires_ms\":-1}],\"create-token\":[{\"access\":\"a\",\"expires_in\":0}],\"sign-in\":[null,{\"id\":\"i\",\"secret\":\"s\",\"token\":\"t\",\"refresh\":\"r\",\"expires_in\":1}]}}",
        "script",
    ),
    // the later of two members of a name counts, also where the earlier one has another form
    (b"{\"\\u0073elected\":1,\"selected\":\"a\"}", "script"),
    (
        b"{\"selected\":[[[[[[[[[[[[[[[[[[[[[[[[[[[[[[[[[[[[[[[[[[[[[[[[[[[[[[[[[[[[[[[[[[[[[[[[[[[[[[[[[[[[[[[[[[[[[[[[[[[[[[[[[[[[[[[[[[[[[[[[[[[[[[]]]]]]]]]]]]]]]]]]]]]]]]]]]]]]]]]]]]]]]]]]]]]]]]]]]]]]]]]]]]]]]]]]]]]]]]]]]]]]]]]]]]]]]]]]]]]]]]]]]]]]]]]]]]]]]]]]]]]]]]]]]]]],\"selected\":\"a\"}",
        "script",
    ),
    (
        b"{\"selected\":[[[[[[[[[[[[[[[[[[[[[[[[[[[[[[[[[[[[[[[[[[[[[[[[[[[[[[[[[[[[[[[[[[[[[[[[[[[[[[[[[[[[[[[[[[[[[[[[[[[[[[[[[[[[[[[[[[[[[[[[[[[[[[[]]]]]]]]]]]]]]]]]]]]]]]]]]]]]]]]]]]]]]]]]]]]]]]]]]]]]]]]]]]]]]]]]]]]]]]]]]]]]]]]]]]]]]]]]]]]]]]]]]]]]]]]]]]]]]]]]]]]]]]]]]]]]]],\"selected\":\"a\"}",
        "line 1, column 140: no JSON",
    ),
    (b"", "line 1, column 0: no JSON"),
    (b"{\n  \"clock\": [1,]\n}", "line 2, column 15: no JSON"),
    (b"\xef\xbb\xbf{}", "line 1, column 1: no JSON"),
    (b"{\"selected\":\"\xff\"}", "line 1, column 14: no JSON"),
    (b"{} {}", "line 1, column 4: no JSON"),
    (b"[]", "a script is one JSON object"),
    (
        b"{\"selected\":1,\"a\\nb\":1}",
        "\"a\\nb\": no member of this name belongs here",
    ),
    // of two faults the first of the table's rows is told
    (
        b"{\"region\":1,\"selected\":null}",
        "selected: a text is wanted",
    ),
    (b"{\"sleep\":1}", "sleep: true or false is wanted"),
    (
        b"{\"service\":[]}",
        "service: service is an object of settings",
    ),
    (
        b"{\"service\":null}",
        "service: service is an object of settings",
    ),
    (
        b"{\"service\":{\"region\":\"eu-west-1\"}}",
        "service.region: no member of this name belongs here",
    ),
    (
        b"{\"service\":{\"use_fips\":1}}",
        "service.use_fips: true or false is wanted",
    ),
    (
        b"{\"service\":{\"use_dual_stack\":null}}",
        "service.use_dual_stack: true or false is wanted",
    ),
    (
        b"{\"service\":{\"max_attempts\":4294967296}}",
        "service.max_attempts: attempts are a whole number of 32 bits without sign",
    ),
    (
        b"{\"service\":{\"max_attempts\":-1}}",
        "service.max_attempts: attempts are a whole number of 32 bits without sign",
    ),
    (
        b"{\"service\":{\"max_attempts\":\"3\"}}",
        "service.max_attempts: attempts are a whole number of 32 bits without sign",
    ),
    (
        b"{\"service\":{\"timeouts\":5000}}",
        "service.timeouts: timeouts are an object of times in milliseconds",
    ),
    (
        b"{\"service\":{\"timeouts\":{\"connect\":1}}}",
        "service.timeouts.connect: no member of this name belongs here",
    ),
    (
        b"{\"service\":{\"timeouts\":{\"connect_ms\":-1}}}",
        "service.timeouts.connect_ms: a whole number of 64 bits without sign is wanted",
    ),
    (
        b"{\"service\":{\"timeouts\":{\"read_ms\":18446744073709551616}}}",
        "service.timeouts.read_ms: a whole number of 64 bits without sign is wanted",
    ),
    (
        b"{\"service\":{\"timeouts\":{\"operation_ms\":1.5}}}",
        "service.timeouts.operation_ms: a whole number of 64 bits without sign is wanted",
    ),
    (
        b"{\"service\":{\"timeouts\":{\"attempt_ms\":null}}}",
        "service.timeouts.attempt_ms: a whole number of 64 bits without sign is wanted",
    ),
    // the settings are read before the calls are, and in the order of their table
    (
        b"{\"calls\":0,\"service\":{\"timeouts\":{\"attempt_ms\":-1,\"connect_ms\":-1},\"max_attempts\":0.5}}",
        "service.max_attempts: attempts are a whole number of 32 bits without sign",
    ),
    (
        b"{\"calls\":101}",
        "calls: calls are a whole number from 1 to 100",
    ),
    (
        b"{\"refused\":\"m\",\"profiles\":[]}",
        "refused: no profiles and no sessions stand beside refused",
    ),
    (
        b"{\"variables\":[[\"A\",\"a\"],[\"B\"]]}",
        "variables[1]: a variable is [name, text] or [name, null]",
    ),
    (
        b"{\"variables\":[[\"A\",2]]}",
        "variables[0][1]: a text or null is wanted",
    ),
    (
        b"{\"sessions\":[[\"s\"]]}",
        "sessions[0]: a section is [name, list of properties]",
    ),
    (
        b"{\"profiles\":[[\"p\",2]]}",
        "profiles[0][1]: a list is wanted",
    ),
    (
        b"{\"profiles\":[[\"p\",[]],[\"q\",[[\"k\",\"v\"],[]]]]}",
        "profiles[1][1][1]: a property is [key, value]",
    ),
    (
        b"{\"files\":[[\"/t\"]]}",
        "files[0]: a file is [path, content] or [path, null]",
    ),
    (
        b"{\"files\":[[\"/t\",{\"hex\":\"0\"}]]}",
        "files[0][1].hex: two hexadecimal digits for each byte are wanted",
    ),
    (
        b"{\"files\":[[\"/t\",7]]}",
        "files[0][1]: a content is a text or {\"hex\": digits}",
    ),
    (
        b"{\"clock\":[1,-1]}",
        "clock[1]: a moment of the clock is whole seconds or [seconds, nanos], from 0 on",
    ),
    (
        b"{\"clock\":[[1,1000000000]]}",
        "clock[0]: a moment of the clock is whole seconds or [seconds, nanos], from 0 on",
    ),
    (
        b"{\"clock\":[1.0]}",
        "clock[0]: a moment of the clock is whole seconds or [seconds, nanos], from 0 on",
    ),
    (
        b"{\"jitter\":[-1]}",
        "jitter[0]: a whole number of 64 bits without sign is wanted",
    ),
    (
        b"{\"commands\":[\"failed\"]}",
        "commands[0]: a command is [status, output, errors] or \"fail\"",
    ),
    (
        b"{\"commands\":[[2147483648,\"\",\"\"]]}",
        "commands[0][0]: a status is a whole number of 32 bits with sign",
    ),
    (
        b"{\"lookups\":[[\"::1\",\"1::2::3\"]]}",
        "lookups[0][1]: an address is wanted",
    ),
    (
        b"{\"lookups\":[7]}",
        "lookups[0]: a look-up is a list of addresses or \"fail\"",
    ),
    (
        b"{\"replies\":[]}",
        "replies: replies are an object of lists",
    ),
    (
        b"{\"replies\":{\"sts\":[]}}",
        "replies.sts: no member of this name belongs here",
    ),
    (
        b"{\"replies\":{\"http\":[\"slow\"]}}",
        "replies.http[0]: a reply of HTTP is [status, headers, content], \"dispatch\", \"timeout\" or \"broken\"",
    ),
    (
        b"{\"replies\":{\"http\":[[99,[],\"\"]]}}",
        "replies.http[0][0]: a status of HTTP is a whole number from 100 to 599",
    ),
    (
        b"{\"replies\":{\"imds-get\":[[200,[[\"a\"]],\"\"]]}}",
        "replies.imds-get[0][1][0]: a header is [name, value]",
    ),
    (
        b"{\"replies\":{\"imds-token\":[[200,[[\"a b\",\"v\"]],\"\"]]}}",
        "replies.imds-token[0][1][0][0]: a header name is wanted",
    ),
    (
        b"{\"replies\":{\"assume-role\":[7]}}",
        "replies.assume-role[0]: a reply is what the service grants, a refusal, null where it may be, \"dispatch\", \"timeout\" or \"broken\"",
    ),
    (
        b"{\"replies\":{\"assume-role\":[{\"id\":\"i\",\"secret\":\"s\",\"token\":\"t\",\"expires\":1.5}]}}",
        "replies.assume-role[0].expires: a moment is whole seconds or [seconds, nanos]",
    ),
    (
        b"{\"replies\":{\"web-identity\":[null,{\"id\":\"i\",\"message\":1}]}}",
        "replies.web-identity[1].message: no member of this name belongs here",
    ),
    (
        b"{\"replies\":{\"role-credentials\":[{\"expires_ms\":1.5}]}}",
        "replies.role-credentials[0].expires_ms: a whole number of 64 bits with sign is wanted",
    ),
    (
        b"{\"replies\":{\"create-token\":[null]}}",
        "replies.create-token[0]: a reply is what the service grants, a refusal, null where it may be, \"dispatch\", \"timeout\" or \"broken\"",
    ),
    (
        b"{\"replies\":{\"sign-in\":[{\"refused\":\"other\"}]}}",
        "replies.sign-in[0].refused: a refusal is RegionDisabled, MalformedPolicyDocument, InsufficientPermissions, TokenExpired, UserCredentialsChanged or Other",
    ),
    (
        b"{\"replies\":{\"sign-in\":[{\"refused\":\"Other\"}]}}",
        "replies.sign-in[0].message: this member has to be there",
    ),
];

#[test]
fn bytes_that_are_a_script_and_others(rt: HostRuntime) -> Result<(), Fail> {
    for (bytes, want) in TABLE {
        let words = words_of(rt.alloc(), bytes)?;
        assert_eq!(rt; words.as_str(), *want, "{bytes:?}");
    }
    let words = words_of(rt.alloc(), b"{\"selected\":1e400,\"selected\":\"a\"}")?;
    assert!(rt; words.as_str().ends_with(": no JSON"), "{words}");
    Ok(())
}

const UNSET: ServiceConfig = ServiceConfig {
    use_fips: None,
    use_dual_stack: None,
    max_attempts: None,
    timeouts: None,
};

const NO_LIMITS: Timeouts = Timeouts {
    connect_ms: None,
    read_ms: None,
    operation_ms: None,
    attempt_ms: None,
};

const SERVICES: &[(&str, ServiceConfig)] = &[
    (r#"{}"#, UNSET),
    (r#"{"service":{}}"#, UNSET),
    (
        r#"{"service":{"use_fips":true}}"#,
        ServiceConfig {
            use_fips: Some(true),
            ..UNSET
        },
    ),
    (
        r#"{"service":{"use_dual_stack":false}}"#,
        ServiceConfig {
            use_dual_stack: Some(false),
            ..UNSET
        },
    ),
    (
        r#"{"service":{"max_attempts":0}}"#,
        ServiceConfig {
            max_attempts: Some(0),
            ..UNSET
        },
    ),
    (
        r#"{"service":{"timeouts":{}}}"#,
        ServiceConfig {
            timeouts: Some(NO_LIMITS),
            ..UNSET
        },
    ),
    (
        r#"{"service":{"timeouts":{"read_ms":0,"attempt_ms":18446744073709551615},"max_attempts":4294967295}}"#,
        ServiceConfig {
            max_attempts: Some(4_294_967_295),
            timeouts: Some(Timeouts {
                read_ms: Some(0),
                attempt_ms: Some(18_446_744_073_709_551_615),
                ..NO_LIMITS
            }),
            ..UNSET
        },
    ),
    (
        r#"{"service":{"use_fips":false,"use_dual_stack":true,"max_attempts":1,"timeouts":{"connect_ms":1,"read_ms":2,"operation_ms":3,"attempt_ms":4}}}"#,
        ServiceConfig {
            use_fips: Some(false),
            use_dual_stack: Some(true),
            max_attempts: Some(1),
            timeouts: Some(Timeouts {
                connect_ms: Some(1),
                read_ms: Some(2),
                operation_ms: Some(3),
                attempt_ms: Some(4),
            }),
        },
    ),
];

#[test]
fn settings_of_calls(rt: HostRuntime) -> Result<(), Fail> {
    for (text, want) in SERVICES {
        let script = read_script(rt.alloc(), text.as_bytes())?;
        assert_eq!(rt; script.service, *want, "{text}");
    }
    assert_eq!(rt; ServiceConfig::unset(), UNSET);
    Ok(())
}

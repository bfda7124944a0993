//! The names of members, each a type.
ghost use Rattle.std.specs.Prelude.{codes};

use crate::members::Name;

pub(crate) struct Variables;

impl Name for Variables {
    ghost name = { codes "variables" };

    fn name() -> &'static str {
        "variables"
    }
}

pub(crate) struct Profiles;

impl Name for Profiles {
    ghost name = { codes "profiles" };

    fn name() -> &'static str {
        "profiles"
    }
}

pub(crate) struct Sessions;

impl Name for Sessions {
    ghost name = { codes "sessions" };

    fn name() -> &'static str {
        "sessions"
    }
}

pub(crate) struct Refused;

impl Name for Refused {
    ghost name = { codes "refused" };

    fn name() -> &'static str {
        "refused"
    }
}

pub(crate) struct Selected;

impl Name for Selected {
    ghost name = { codes "selected" };

    fn name() -> &'static str {
        "selected"
    }
}

pub(crate) struct Region;

impl Name for Region {
    ghost name = { codes "region" };

    fn name() -> &'static str {
        "region"
    }
}

pub(crate) struct Sleep;

impl Name for Sleep {
    ghost name = { codes "sleep" };

    fn name() -> &'static str {
        "sleep"
    }
}

pub(crate) struct Service;

impl Name for Service {
    ghost name = { codes "service" };

    fn name() -> &'static str {
        "service"
    }
}

pub(crate) struct UseFips;

impl Name for UseFips {
    ghost name = { codes "use_fips" };

    fn name() -> &'static str {
        "use_fips"
    }
}

pub(crate) struct UseDualStack;

impl Name for UseDualStack {
    ghost name = { codes "use_dual_stack" };

    fn name() -> &'static str {
        "use_dual_stack"
    }
}

pub(crate) struct MaxAttempts;

impl Name for MaxAttempts {
    ghost name = { codes "max_attempts" };

    fn name() -> &'static str {
        "max_attempts"
    }
}

pub(crate) struct TimeLimits;

impl Name for TimeLimits {
    ghost name = { codes "timeouts" };

    fn name() -> &'static str {
        "timeouts"
    }
}

pub(crate) struct ConnectMs;

impl Name for ConnectMs {
    ghost name = { codes "connect_ms" };

    fn name() -> &'static str {
        "connect_ms"
    }
}

pub(crate) struct ReadMs;

impl Name for ReadMs {
    ghost name = { codes "read_ms" };

    fn name() -> &'static str {
        "read_ms"
    }
}

pub(crate) struct OperationMs;

impl Name for OperationMs {
    ghost name = { codes "operation_ms" };

    fn name() -> &'static str {
        "operation_ms"
    }
}

pub(crate) struct AttemptMs;

impl Name for AttemptMs {
    ghost name = { codes "attempt_ms" };

    fn name() -> &'static str {
        "attempt_ms"
    }
}

pub(crate) struct Calls;

impl Name for Calls {
    ghost name = { codes "calls" };

    fn name() -> &'static str {
        "calls"
    }
}

pub(crate) struct Callers;

impl Name for Callers {
    ghost name = { codes "callers" };

    fn name() -> &'static str {
        "callers"
    }
}

pub(crate) struct Journal;

impl Name for Journal {
    ghost name = { codes "journal" };

    fn name() -> &'static str {
        "journal"
    }
}

pub(crate) struct Files;

impl Name for Files {
    ghost name = { codes "files" };

    fn name() -> &'static str {
        "files"
    }
}

pub(crate) struct Unwritable;

impl Name for Unwritable {
    ghost name = { codes "unwritable" };

    fn name() -> &'static str {
        "unwritable"
    }
}

pub(crate) struct Clock;

impl Name for Clock {
    ghost name = { codes "clock" };

    fn name() -> &'static str {
        "clock"
    }
}

pub(crate) struct Jitter;

impl Name for Jitter {
    ghost name = { codes "jitter" };

    fn name() -> &'static str {
        "jitter"
    }
}

pub(crate) struct Commands;

impl Name for Commands {
    ghost name = { codes "commands" };

    fn name() -> &'static str {
        "commands"
    }
}

pub(crate) struct Lookups;

impl Name for Lookups {
    ghost name = { codes "lookups" };

    fn name() -> &'static str {
        "lookups"
    }
}

pub(crate) struct Replies;

impl Name for Replies {
    ghost name = { codes "replies" };

    fn name() -> &'static str {
        "replies"
    }
}

pub(crate) struct Http;

impl Name for Http {
    ghost name = { codes "http" };

    fn name() -> &'static str {
        "http"
    }
}

pub(crate) struct ImdsToken;

impl Name for ImdsToken {
    ghost name = { codes "imds-token" };

    fn name() -> &'static str {
        "imds-token"
    }
}

pub(crate) struct ImdsGet;

impl Name for ImdsGet {
    ghost name = { codes "imds-get" };

    fn name() -> &'static str {
        "imds-get"
    }
}

pub(crate) struct AssumeRole;

impl Name for AssumeRole {
    ghost name = { codes "assume-role" };

    fn name() -> &'static str {
        "assume-role"
    }
}

pub(crate) struct WebIdentity;

impl Name for WebIdentity {
    ghost name = { codes "web-identity" };

    fn name() -> &'static str {
        "web-identity"
    }
}

pub(crate) struct RoleCredentials;

impl Name for RoleCredentials {
    ghost name = { codes "role-credentials" };

    fn name() -> &'static str {
        "role-credentials"
    }
}

pub(crate) struct CreateToken;

impl Name for CreateToken {
    ghost name = { codes "create-token" };

    fn name() -> &'static str {
        "create-token"
    }
}

pub(crate) struct SignIn;

impl Name for SignIn {
    ghost name = { codes "sign-in" };

    fn name() -> &'static str {
        "sign-in"
    }
}

pub(crate) struct Id;

impl Name for Id {
    ghost name = { codes "id" };

    fn name() -> &'static str {
        "id"
    }
}

pub(crate) struct Secret;

impl Name for Secret {
    ghost name = { codes "secret" };

    fn name() -> &'static str {
        "secret"
    }
}

pub(crate) struct Token;

impl Name for Token {
    ghost name = { codes "token" };

    fn name() -> &'static str {
        "token"
    }
}

pub(crate) struct Expires;

impl Name for Expires {
    ghost name = { codes "expires" };

    fn name() -> &'static str {
        "expires"
    }
}

pub(crate) struct Arn;

impl Name for Arn {
    ghost name = { codes "arn" };

    fn name() -> &'static str {
        "arn"
    }
}

pub(crate) struct ExpiresMs;

impl Name for ExpiresMs {
    ghost name = { codes "expires_ms" };

    fn name() -> &'static str {
        "expires_ms"
    }
}

pub(crate) struct Access;

impl Name for Access {
    ghost name = { codes "access" };

    fn name() -> &'static str {
        "access"
    }
}

pub(crate) struct Refresh;

impl Name for Refresh {
    ghost name = { codes "refresh" };

    fn name() -> &'static str {
        "refresh"
    }
}

pub(crate) struct ExpiresIn;

impl Name for ExpiresIn {
    ghost name = { codes "expires_in" };

    fn name() -> &'static str {
        "expires_in"
    }
}

pub(crate) struct Message;

impl Name for Message {
    ghost name = { codes "message" };

    fn name() -> &'static str {
        "message"
    }
}

pub(crate) struct Mode;

impl Name for Mode {
    ghost name = { codes "mode" };

    fn name() -> &'static str {
        "mode"
    }
}

pub(crate) struct Role;

impl Name for Role {
    ghost name = { codes "role" };

    fn name() -> &'static str {
        "role"
    }
}

pub(crate) struct ForgetAfter;

impl Name for ForgetAfter {
    ghost name = { codes "forget_after" };

    fn name() -> &'static str {
        "forget_after"
    }
}

pub(crate) struct Hex;

impl Name for Hex {
    ghost name = { codes "hex" };

    fn name() -> &'static str {
        "hex"
    }
}

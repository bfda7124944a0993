use super::Same;
use cfg_types::{
    Address, FailKind, Finished, Header, HttpReply, Refusal, RefusalKind, Reply, RoleCredentials,
    RoleReply, SignInReply, SignInToken, StsCredentials, StsReply, TokenReply,
};

impl Same for Address {
    fn same(&self, other: &Address) -> bool {
        match (self, other) {
            (Address::V4(one), Address::V4(other)) => *one == *other,
            (Address::V6(one), Address::V6(other)) => *one == *other,
            _ => false,
        }
    }
}

impl Same for FailKind {
    fn same(&self, other: &FailKind) -> bool {
        *self == *other
    }
}

impl Same for RefusalKind {
    fn same(&self, other: &RefusalKind) -> bool {
        *self == *other
    }
}

impl Same for Refusal {
    fn same(&self, other: &Refusal) -> bool {
        self.kind.same(&other.kind) && self.message.same(&other.message)
    }
}

impl Same for Finished {
    fn same(&self, other: &Finished) -> bool {
        self.status.same(&other.status)
            && self.output.same(&other.output)
            && self.errors.same(&other.errors)
    }
}

impl Same for Header {
    fn same(&self, other: &Header) -> bool {
        self.name.same(&other.name) && self.value.same(&other.value)
    }
}

impl Same for HttpReply {
    fn same(&self, other: &HttpReply) -> bool {
        self.status.same(&other.status)
            && self.headers.same(&other.headers)
            && self.body.same(&other.body)
    }
}

impl Same for StsCredentials {
    fn same(&self, other: &StsCredentials) -> bool {
        self.access_key_id.same(&other.access_key_id)
            && self.secret_access_key.same(&other.secret_access_key)
            && self.session_token.same(&other.session_token)
            && self.expiration.same(&other.expiration)
    }
}

impl Same for StsReply {
    fn same(&self, other: &StsReply) -> bool {
        self.credentials.same(&other.credentials) && self.arn.same(&other.arn)
    }
}

impl Same for RoleCredentials {
    fn same(&self, other: &RoleCredentials) -> bool {
        self.access_key_id.same(&other.access_key_id)
            && self.secret_access_key.same(&other.secret_access_key)
            && self.session_token.same(&other.session_token)
            && self.expiration_ms.same(&other.expiration_ms)
    }
}

impl Same for RoleReply {
    fn same(&self, other: &RoleReply) -> bool {
        self.credentials.same(&other.credentials)
    }
}

impl Same for TokenReply {
    fn same(&self, other: &TokenReply) -> bool {
        self.access_token.same(&other.access_token)
            && self.refresh_token.same(&other.refresh_token)
            && self.expires_in.same(&other.expires_in)
    }
}

impl Same for SignInToken {
    fn same(&self, other: &SignInToken) -> bool {
        self.access_key_id.same(&other.access_key_id)
            && self.secret_access_key.same(&other.secret_access_key)
            && self.session_token.same(&other.session_token)
            && self.refresh_token.same(&other.refresh_token)
            && self.expires_in.same(&other.expires_in)
    }
}

impl Same for SignInReply {
    fn same(&self, other: &SignInReply) -> bool {
        self.token.same(&other.token)
    }
}

impl Same for Reply {
    fn same(&self, other: &Reply) -> bool {
        match (self, other) {
            (Reply::Http(one), Reply::Http(other)) => one.same(other),
            (Reply::Sts(one), Reply::Sts(other)) => one.same(other),
            (Reply::Role(one), Reply::Role(other)) => one.same(other),
            (Reply::Token(one), Reply::Token(other)) => one.same(other),
            (Reply::SignIn(one), Reply::SignIn(other)) => one.same(other),
            (Reply::Refused(one), Reply::Refused(other)) => one.same(other),
            _ => false,
        }
    }
}

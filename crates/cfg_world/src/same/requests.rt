use super::Same;
use cfg_types::{
    AssumeRole, AssumeRoleWithWebIdentity, CreateOAuth2Token, CreateToken, GetRoleCredentials,
    Http, MetadataGet, MetadataToken, Request, Tag,
};

impl Same for Tag {
    fn same(&self, other: &Tag) -> bool {
        self.key.same(&other.key) && self.value.same(&other.value)
    }
}

impl Same for Http {
    fn same(&self, other: &Http) -> bool {
        self.endpoint.same(&other.endpoint)
            && self.path.same(&other.path)
            && self.authorization.same(&other.authorization)
            && self.timeouts.same(&other.timeouts)
    }
}

impl Same for MetadataToken {
    fn same(&self, other: &MetadataToken) -> bool {
        self.endpoint.same(&other.endpoint)
            && self.ttl_seconds.same(&other.ttl_seconds)
            && self.timeouts.same(&other.timeouts)
    }
}

impl Same for MetadataGet {
    fn same(&self, other: &MetadataGet) -> bool {
        self.endpoint.same(&other.endpoint)
            && self.path.same(&other.path)
            && self.token.same(&other.token)
            && self.timeouts.same(&other.timeouts)
    }
}

impl Same for AssumeRole {
    fn same(&self, other: &AssumeRole) -> bool {
        self.signer.same(&other.signer)
            && self.role_arn.same(&other.role_arn)
            && self.session_name.same(&other.session_name)
            && self.external_id.same(&other.external_id)
            && self.policy.same(&other.policy)
            && self.policy_arns.same(&other.policy_arns)
            && self.duration_seconds.same(&other.duration_seconds)
            && self.tags.same(&other.tags)
            && self.settings.same(&other.settings)
    }
}

impl Same for AssumeRoleWithWebIdentity {
    fn same(&self, other: &AssumeRoleWithWebIdentity) -> bool {
        self.role_arn.same(&other.role_arn)
            && self.session_name.same(&other.session_name)
            && self.token.same(&other.token)
            && self.policy.same(&other.policy)
            && self.policy_arns.same(&other.policy_arns)
            && self.settings.same(&other.settings)
    }
}

impl Same for GetRoleCredentials {
    fn same(&self, other: &GetRoleCredentials) -> bool {
        self.role_name.same(&other.role_name)
            && self.account_id.same(&other.account_id)
            && self.access_token.same(&other.access_token)
            && self.settings.same(&other.settings)
    }
}

impl Same for CreateToken {
    fn same(&self, other: &CreateToken) -> bool {
        self.client_id.same(&other.client_id)
            && self.client_secret.same(&other.client_secret)
            && self.refresh_token.same(&other.refresh_token)
            && self.settings.same(&other.settings)
    }
}

impl Same for CreateOAuth2Token {
    fn same(&self, other: &CreateOAuth2Token) -> bool {
        self.client_id.same(&other.client_id)
            && self.refresh_token.same(&other.refresh_token)
            && self.dpop_key.same(&other.dpop_key)
            && self.settings.same(&other.settings)
    }
}

impl Same for Request {
    fn same(&self, other: &Request) -> bool {
        match (self, other) {
            (Request::Http(call), Request::Http(other)) => call.same(other),
            (Request::MetadataToken(call), Request::MetadataToken(other)) => call.same(other),
            (Request::MetadataGet(call), Request::MetadataGet(other)) => call.same(other),
            (Request::AssumeRole(call), Request::AssumeRole(other)) => call.same(other),
            (Request::AssumeRoleWithWebIdentity(call), Request::AssumeRoleWithWebIdentity(other)) =>
                call.same(other),
            (Request::GetRoleCredentials(call), Request::GetRoleCredentials(other)) => call.same(
                other,
            ),
            (Request::CreateToken(call), Request::CreateToken(other)) => call.same(other),
            (Request::CreateOAuth2Token(call), Request::CreateOAuth2Token(other)) => call.same(
                other,
            ),
            _ => false,
        }
    }
}

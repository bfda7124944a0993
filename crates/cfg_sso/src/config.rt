//! What is asked of IAM Identity Center.
use cfg_types::{Region, Text};

/// A role of an account, and where its users sign in.
#[derive(Debug)]
pub struct SsoProviderConfig {
    /// The account whose role it is.
    pub account_id: Text,
    /// The name of the role.
    pub role_name: Text,
    /// Where IAM Identity Center is.
    pub region: Region,
    /// Where users sign in. It names the file of the token where no session is named.
    pub start_url: Text,
    /// The session whose token is used, where one is named.
    pub session_name: Option<Text>,
}

impl Drop for SsoProviderConfig {
    fn drop(self) {
        let SsoProviderConfig {
            account_id: _,
            role_name: _,
            region: _,
            start_url: _,
            session_name: _,
        } = self;
    }
}

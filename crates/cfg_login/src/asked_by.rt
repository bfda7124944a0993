/// Who asks for the credentials of a session, which their feature tells.
#[derive(Clone, Copy, Debug, PartialEq, Eq)]
pub enum AskedBy {
    /// A profile with the key `login_session`. The feature is `CredentialsProfileLogin`.
    Profile,
    /// A provider of the caller's own. The feature is `CredentialsProfile`.
    Caller,
}

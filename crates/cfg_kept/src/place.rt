//! For whom the instance metadata service is asked.

/// For whom a metadata client asks: the default chain's member, or a named source of a profile. What is
/// kept for the one is apart from what is kept for the other.
#[derive(Clone, Copy, Debug, PartialEq, Eq)]
pub enum Place {
    /// The default chain's member.
    Chain,
    /// A named source of a profile.
    Named,
}

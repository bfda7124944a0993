/// What a line of what an error tells is.
#[derive(Clone, Copy, Debug, PartialEq, Eq)]
pub enum LineKind {
    /// The text of an error or of a cause.
    Cause,
    /// What else the value of the error or the cause before it holds, in words. It belongs below that text.
    Detail,
    /// The name of a chain's member. What the member answered follows, deeper by one.
    Member,
}

//! Members of an object. Their values may be secrets, so no type here has a Debug text.
use crate::text::JsonText;
use cfg_types::Seq;

/// What a member of an object holds.
#[derive(Drop)]
pub enum MemberValue<'t> {
    /// A string, unescaped.
    Text(JsonText<'t>),
    /// A number, as it is written.
    Number(JsonText<'t>),
    /// An object, by the place of its opening brace and the place after its closing one. Places are counted
    /// in bytes, from the first one that was read.
    Object { from: usize, to: usize },
    /// An array, and whether an object stands in it at any depth.
    Array { has_object: bool },
    /// `true`, `false` or `null`.
    Other,
}

/// A member of an object.
pub struct Member<'t> {
    /// Its key, unescaped.
    pub key: JsonText<'t>,
    /// What it holds.
    pub value: MemberValue<'t>,
}

impl<'t> Drop for Member<'t> {
    fn drop(self) {
        let Member { key: _, value: _ } = self;
    }
}

/// The members of an object in their order, repeats kept, and how many bytes the object takes with
/// what stands before it.
#[derive(Drop)]
pub struct Members<'t> {
    /// The members.
    pub list: Seq<Member<'t>>,
    /// The place after the closing brace, in bytes.
    pub end: usize,
}

//! The name of a token's file, which is made once for its session.
ghost use Rattle.std.specs.Prelude.{◌≡◌, IfOk, IfSome};
ghost use Rattle.cfg_token.specs.FileNames.{IsNameBy};

use crate::file_token::FileToken;
use cfg_types::{OutOfMemory, Shared, Text, TryCopy};
use cfg_world::same::Same;
use std::alloc::Global;

/// The name of the file of one session's token.
#[derive(Drop)]
pub struct FileName {
    /// The session.
    pub session: Text,
    /// The name, which stands in the folder of its kind of token.
    pub name: String,
}

/// The name of the file of this session's token: the one that was made before, where that was for this
/// session, or else a new one. `OutOfMemory` where memory runs out.
pub fn file_name<T: FileToken>(
    alloc: Global,
    made: &Option<Shared<FileName>>,
    session: &Text,
) -> Result<Shared<FileName>, OutOfMemory>
    requires { IfSome made.now (IsNameBy T.name_of) }
    ensures session { IfOk result (λ name. name.session ≡ session.now) }
    ensures name { IfOk result (IsNameBy T.name_of) }
{
    match made {
        Some(name) if name.get().session.same(session) => name.copy(alloc),
        _ => {
            let name = T::file_name(alloc, session)?;
            let session = session.copy(alloc)?;
            Shared::new(alloc, FileName { session, name })
        }
    }
}

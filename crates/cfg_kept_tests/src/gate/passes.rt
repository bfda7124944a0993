//! Passes that are split.
ghost use Rattle.std.specs.Prelude.{◌≡◌};

use crate::gate::tokens::token;
use cfg_gate::{GatedToken, new_gate};
use cfg_token::FileToken;
use cfg_types::OutOfMemory;
use std::alloc::Global;
use std::test::Fail;

// What splitting this share off an allowance of 3 gives, and what is left.
fn split_words<T: FileToken>(
    alloc: Global,
    token: GatedToken<T>,
    share: u64,
) -> Result<String, OutOfMemory>
    requires { token.loads ≡ 0 }
{
    let (gate, mut pass) = new_gate(alloc, token, 3)?;
    match pass.split(&gate, share) {
        Ok(other) => {
            let given = other.allowance();
            let seen = other.seen();
            Ok(format!(in alloc; "{given} that has seen {seen}, left {}", pass.allowance())?)
        }
        Err(fault) => Ok(format!(in alloc; "{fault}, left {}", pass.allowance())?),
    }
}

const SHARES: &[(u64, &str)] = &[
    (0, "0 that has seen 0, left 3"),
    (1, "1 that has seen 0, left 2"),
    (3, "3 that has seen 0, left 0"),
    (4, "the allowance is spent, left 3"),
    (18446744073709551615, "the allowance is spent, left 3"),
];

#[test]
fn shares_of_an_allowance_of_three(rt: HostRuntime) -> Result<(), Fail> {
    for (share, want) in SHARES {
        let words = split_words(rt.alloc(), token(rt.alloc())?, *share)?;
        assert_eq!(rt; words.as_str(), *want);
    }
    Ok(())
}

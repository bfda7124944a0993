//! How far a string stands for itself, sixteen bytes at a time.
ghost use Rattle.std.specs.Prelude.{◌≡◌, ◌≤◌, ◌+◌, length, drop, map};
ghost use Rattle.std.specs.List.{prefix_len};
ghost use Rattle.std.specs.Simd.Lanes.{mask_l};
ghost use Rattle.cfg_json.specs.Characters.{is_plain as is_plain_character};
ghost use Rattle.cfg_json.specs.Scans.{is_stop};

use std::simd::prelude::*;

const WIDTH: usize = 16;

fn is_plain(byte: u8) -> bool
    ensures { result ≡ is_plain_character byte }
{
    byte >= b' ' && byte != b'"' && byte != b'\\'
}

// A bit for each byte that does not stand for itself.
fn stops(bytes: u8x16) -> u64
    ensures { result ≡ mask_l (map is_stop bytes) }
{
    let marks = bytes.simd_eq(u8x16::splat(b'"')) | bytes.simd_eq(u8x16::splat(b'\\'));
    (marks | bytes.simd_lt(u8x16::splat(b' '))).to_bitmask()
}

fn plain_run_from(text: &[u8], from: usize) -> usize
    requires { from ≤ length text.now }
    ensures value { result ≡ from + prefix_len is_plain_character (drop from text.now) }
    ensures within { result ≤ length text.now }
{
    let mut i = from;
    while i < text.len() && is_plain(text[i]) {
        i += 1;
    }
    i
}

/// How many bytes at the front stand for themselves in a string.
pub fn plain_run(text: &[u8]) -> usize
    ensures value { result ≡ prefix_len is_plain_character text.now }
    ensures within { result ≤ length text.now }
{
    let mut i = 0;
    while text.len() - i >= WIDTH {
        let found = stops(u8x16::from_slice(&text[i..]));
        if found != 0 {
            return i + found.trailing_zeros() as usize;
        }
        i += WIDTH;
    }
    plain_run_from(text, i)
}

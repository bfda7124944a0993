//! Values that nest (RFC 8259, sections 3 to 5), and keys. What is passed over takes no memory.
ghost use Rattle.std.specs.Prelude.{◌≡◌, option_map, length};
ghost use Rattle.cfg_json.specs.Reads.{Reads};
ghost use Rattle.cfg_json.specs.Values.{close_of};
ghost use Rattle.cfg_json.specs.ReadingValues.{scalar_at, leaf_at, key_at, padded_at, item_at, turn_at, items_at, inside_at, value_at};
ghost use Rattle.cfg_json.specs.Scans.{SkipsKey};

use crate::numbers::{skip_number, skip_word};
use crate::strings::{read_string, skip_string};
use crate::text::JsonText;
use crate::white_space::{skip_mark, skip_white_space};
use cfg_types::JsonError;
use std::alloc::Global;

#[tactic(auto, unfolding(crate::specs::ReadingValues::scalar_at))]
fn skip_scalar(text: &[u8]) -> Option<&[u8]>
    ensures { option_map (λ r. r.now) result ≡ scalar_at text.now }
{
    if let Some(rest) = skip_word(text) {
        return Some(rest);
    }
    skip_number(text)
}

#[tactic(auto, unfolding(crate::specs::ReadingValues::leaf_at))]
fn skip_leaf(text: &[u8]) -> Option<(bool, &[u8])>
    ensures { option_map (λ p. (p.0, p.1.now)) result ≡ leaf_at text.now }
{
    let (x, inside) = text.split_first()?;
    if *x == b'"' {
        let rest = skip_string(inside)?;
        return Some((false, rest));
    }
    let rest = skip_scalar(text)?;
    Some((false, rest))
}

/// The key at the front, unescaped, and what follows its colon. `Syntax` where there is none, `OutOfMemory`
/// where memory runs out.
#[tactic(auto, unfolding(crate::specs::ReadingValues::key_at))]
pub fn read_key<'t>(alloc: Global, text: &'t [u8]) -> Result<(JsonText<'t>, &'t [u8]), JsonError>
    ensures { Reads (λ p. (p.0, p.1.now)) result (key_at text.now) }
{
    let Some(inside) = skip_mark(b'"', skip_white_space(text)) else {
        return Err(JsonError::Syntax);
    };
    let (key, rest) = read_string(alloc, inside)?;
    let Some(value) = skip_mark(b':', skip_white_space(rest)) else {
        return Err(JsonError::Syntax);
    };
    Ok((key, value))
}

// What follows the key at the front and its colon.
#[tactic(auto, unfolding(crate::specs::ReadingValues::key_at))]
fn skip_key(text: &[u8]) -> Option<&[u8]>
    ensures { SkipsKey text.now (option_map (λ r. r.now) result) }
{
    let inside = skip_mark(b'"', skip_white_space(text))?;
    let rest = skip_string(inside)?;
    skip_mark(b':', skip_white_space(rest))
}

fn closing(keyed: bool) -> u8
    ensures { result ≡ close_of keyed }
{
    if keyed { b'}' } else { b']' }
}

/// Passes over the value at the front, which nests to the depth at most: whether it is an object or one
/// stands in it, and what follows. None where there is no such value.
#[cycle(nesting)]
#[tactic(auto, unfolding(crate::specs::ReadingValues::value_at))]
pub fn skip_value(text: &[u8], depth: u8) -> Option<(bool, &[u8])>
    ensures { option_map (λ p. (p.0, p.1.now)) result ≡ value_at depth text.now }
{
    let (x, inside) = text.split_first()?;
    if depth == 0 {
        return skip_leaf(text);
    }
    if *x == b'[' {
        return skip_inside(inside, depth - 1, false);
    }
    if *x == b'{' {
        let (_, rest) = skip_inside(inside, depth - 1, true)?;
        return Some((true, rest));
    }
    skip_leaf(text)
}

#[cycle(nesting)]
#[tactic(auto, unfolding(crate::specs::ReadingValues::inside_at))]
fn skip_inside(text: &[u8], depth: u8, keyed: bool) -> Option<(bool, &[u8])>
    ensures { option_map (λ p. (p.0, p.1.now)) result ≡ inside_at keyed (value_at depth) text.now }
{
    let (x, rest) = skip_white_space(text).split_first()?;
    if *x == closing(keyed) {
        return Some((false, rest));
    }
    skip_items(text, depth, keyed)
}

#[cycle(nesting)]
fn skip_items(text: &[u8], depth: u8, keyed: bool) -> Option<(bool, &[u8])>
    ensures { option_map (λ p. (p.0, p.1.now)) result ≡ items_at keyed (value_at depth) (length text.now) text.now }
{
    let mut has = false;
    let mut rest = text;
    for _ in 0..text.len() {
        let (here, ends, next) = skip_turn(rest, depth, keyed)?;
        has = has | here;
        if ends {
            return Some((has, next));
        }
        rest = next;
    }
    None
}

#[cycle(nesting)]
#[tactic(auto, unfolding(crate::specs::ReadingValues::turn_at))]
fn skip_turn(text: &[u8], depth: u8, keyed: bool) -> Option<(bool, bool, &[u8])>
    ensures { option_map (λ p. (p.0, p.1, p.2.now)) result ≡ turn_at keyed (value_at depth) text.now }
{
    let (has, after) = skip_item(text, depth, keyed)?;
    let (x, next) = after.split_first()?;
    if *x == closing(keyed) {
        Some((has, true, next))
    } else if *x == b',' {
        Some((has, false, next))
    } else {
        None
    }
}

#[cycle(nesting)]
#[tactic(auto, unfolding(crate::specs::ReadingValues::item_at))]
fn skip_item(text: &[u8], depth: u8, keyed: bool) -> Option<(bool, &[u8])>
    ensures { option_map (λ p. (p.0, p.1.now)) result ≡ item_at keyed (value_at depth) text.now }
{
    if !keyed {
        return skip_padded(text, depth);
    }
    let value = skip_key(text)?;
    skip_padded(value, depth)
}

#[cycle(nesting)]
#[tactic(auto, unfolding(crate::specs::ReadingValues::padded_at))]
fn skip_padded(text: &[u8], depth: u8) -> Option<(bool, &[u8])>
    ensures { option_map (λ p. (p.0, p.1.now)) result ≡ padded_at (value_at depth) text.now }
{
    let (has, rest) = skip_value(skip_white_space(text), depth)?;
    Some((has, skip_white_space(rest)))
}

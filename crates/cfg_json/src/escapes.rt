//! Escapes (RFC 8259, section 7). Each is spelled in ASCII.
ghost use Rattle.std.specs.Prelude.{◌≡◌, ◌<◌, ◌+◌, ◌≤◌, length, IfSome};
ghost use Rattle.cfg_json.specs.Characters.{short_escape, code_unit, hex_digit};
ghost use Rattle.cfg_json.specs.Reading.{hex_at, low_at, unit_at, escape_at};

#[tactic(auto, unfolding(crate::specs::Characters::short_escape))]
fn short_character(x: u8) -> Option<char>
    ensures { result ≡ short_escape x }
{
    match x {
        b'"' => Some('"'),
        b'\\' => Some('\\'),
        b'/' => Some('/'),
        b'b' => Some('\u{8}'),
        b'f' => Some('\u{c}'),
        b'n' => Some('\n'),
        b'r' => Some('\r'),
        b't' => Some('\t'),
        _ => None,
    }
}

fn hex_value(c: u8) -> Option<u32>
    ensures value { result ≡ hex_digit c }
    ensures small { IfSome result (λ d. d < 16) }
{
    (c as char).to_digit(16)
}

// Each escape is read here, so a call would be dear.
#[inline(always)]
#[tactic(auto, unfolding(crate::specs::Characters::code_unit))]
fn four_digits(a: u8, b: u8, c: u8, d: u8) -> Option<u32>
    ensures value { result ≡ code_unit a b c d }
    ensures small { IfSome result (λ u. u < 65536) }
{
    let a = hex_value(a)?;
    let b = hex_value(b)?;
    let c = hex_value(c)?;
    let d = hex_value(d)?;
    Some(a * 4096 + b * 256 + c * 16 + d)
}

#[inline(always)]
#[tactic(auto, unfolding(crate::specs::Reading::hex_at))]
fn code_unit_at(text: &[u8]) -> Option<u32>
    ensures value { result ≡ hex_at text.now }
    ensures small { IfSome result (λ u. u < 65536) }
    ensures within { IfSome result (λ _. 4 ≤ length text.now) }
{
    match text {
        [] | [_] | [_, _] | [_, _, _] => None,
        [a, b, c, d, ..] => four_digits(*a, *b, *c, *d),
    }
}

#[tactic(auto, unfolding(crate::specs::Reading::low_at))]
fn low_surrogate_at(text: &[u8]) -> Option<u32>
    ensures value { result ≡ low_at text.now }
    ensures low { IfSome result (λ u. (0xdc00 ≤ u) × (u < 0xe000)) }
    ensures within { IfSome result (λ _. 6 ≤ length text.now) }
{
    let [x, y, rest @ ..] = text else {
        return None;
    };
    if *x != b'\\' || *y != b'u' {
        return None;
    }
    let u = code_unit_at(rest)?;
    if 0xdc00 <= u && u < 0xe000 {
        Some(u)
    } else {
        None
    }
}

#[tactic(auto, unfolding(crate::specs::Reading::unit_at))]
fn unicode_escape(text: &[u8]) -> Option<(char, usize)>
    ensures value { result ≡ unit_at text.now }
    ensures within { IfSome result (λ p. p.1 < length text.now + 2) }
{
    let u = code_unit_at(text)?;
    if 0xd800 <= u && u < 0xdc00 {
        let l = low_surrogate_at(&text[4..])?;
        let c = char::from_u32(0x10000 + (u - 0xd800) * 1024 + (l - 0xdc00))?;
        return Some((c, 11));
    }
    if 0xdc00 <= u && u < 0xe000 {
        return None;
    }
    let c = char::from_u32(u)?;
    Some((c, 5))
}

/// The character that an escape stands for whose backslash was read, and how many bytes spell it. None where
/// there is no such escape.
#[tactic(auto, unfolding(crate::specs::Reading::escape_at))]
pub fn escape(text: &[u8]) -> Option<(char, usize)>
    ensures value { result ≡ escape_at text.now }
    ensures within { IfSome result (λ p. p.1 < length text.now + 1) }
{
    let [x, rest @ ..] = text else {
        return None;
    };
    if *x == b'u' {
        return unicode_escape(rest);
    }
    let c = short_character(*x)?;
    Some((c, 1))
}

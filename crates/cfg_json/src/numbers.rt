//! Numbers (RFC 8259, section 6) and the three words.
ghost use Rattle.std.specs.Prelude.{◌≡◌, option_map};
ghost use Rattle.cfg_json.specs.Reading.{after_digits, digits_at, after_minus, after_sign, whole_at, fraction_at, exponent_at, number_at, after_front, word_at};

fn skip_digits(text: &[u8]) -> &[u8]
    ensures { result.now ≡ after_digits text.now }
{
    let mut rest = text;
    while let Some((x, after)) = rest.split_first() {
        if !x.is_ascii_digit() {
            break;
        }
        rest = after;
    }
    rest
}

#[tactic(auto, unfolding(crate::specs::Reading::digits_at))]
fn skip_some_digits(text: &[u8]) -> Option<&[u8]>
    ensures { option_map (λ r. r.now) result ≡ digits_at text.now }
{
    let (x, rest) = text.split_first()?;
    if x.is_ascii_digit() {
        Some(skip_digits(rest))
    } else {
        None
    }
}

#[tactic(auto, unfolding(crate::specs::Reading::after_minus))]
fn skip_minus(text: &[u8]) -> &[u8]
    ensures { result.now ≡ after_minus text.now }
{
    match text.split_first() {
        Some((&b'-', rest)) => rest,
        _ => text,
    }
}

#[tactic(auto, unfolding(crate::specs::Reading::after_sign))]
fn skip_sign(text: &[u8]) -> &[u8]
    ensures { result.now ≡ after_sign text.now }
{
    match text.split_first() {
        Some((x, rest)) if *x == b'+' || *x == b'-' => rest,
        _ => text,
    }
}

#[tactic(auto, unfolding(crate::specs::Reading::whole_at))]
fn skip_whole(text: &[u8]) -> Option<&[u8]>
    ensures { option_map (λ r. r.now) result ≡ whole_at text.now }
{
    let (x, rest) = text.split_first()?;
    if *x == b'0' {
        Some(rest)
    } else {
        skip_some_digits(text)
    }
}

#[tactic(auto, unfolding(crate::specs::Reading::fraction_at))]
fn skip_fraction(text: &[u8]) -> Option<&[u8]>
    ensures { option_map (λ r. r.now) result ≡ fraction_at text.now }
{
    match text.split_first() {
        Some((&b'.', rest)) => skip_some_digits(rest),
        _ => Some(text),
    }
}

#[tactic(auto, unfolding(crate::specs::Reading::exponent_at))]
fn skip_exponent(text: &[u8]) -> Option<&[u8]>
    ensures { option_map (λ r. r.now) result ≡ exponent_at text.now }
{
    let Some((x, rest)) = text.split_first() else {
        return Some(text);
    };
    if *x == b'e' || *x == b'E' {
        skip_some_digits(skip_sign(rest))
    } else {
        Some(text)
    }
}

/// What follows the number at the front; none where there is none.
#[tactic(auto, unfolding(crate::specs::Reading::number_at))]
pub fn skip_number(text: &[u8]) -> Option<&[u8]>
    ensures { option_map (λ r. r.now) result ≡ number_at text.now }
{
    let rest = skip_whole(skip_minus(text))?;
    let rest = skip_fraction(rest)?;
    skip_exponent(rest)
}

#[tactic(auto, unfolding(crate::specs::Reading::after_front))]
fn skip_front<'a>(front: &[u8], text: &'a [u8]) -> Option<&'a [u8]>
    ensures { option_map (λ r. r.now) result ≡ after_front front.now text.now }
{
    if text.starts_with(front) {
        Some(text.split_at(front.len()).1)
    } else {
        None
    }
}

/// What follows `true`, `false` or `null` at the front; none where none of them stands there.
#[tactic(auto, unfolding(crate::specs::Reading::word_at))]
pub fn skip_word(text: &[u8]) -> Option<&[u8]>
    ensures { option_map (λ r. r.now) result ≡ word_at text.now }
{
    if let Some(rest) = skip_front(b"true", text) {
        return Some(rest);
    }
    if let Some(rest) = skip_front(b"false", text) {
        return Some(rest);
    }
    skip_front(b"null", text)
}

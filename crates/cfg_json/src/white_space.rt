//! White space (RFC 8259, section 2), and marks.
ghost use Rattle.std.specs.Prelude.{◌≡◌, option_map};
ghost use Rattle.cfg_json.specs.WhiteSpace.{is_json_white_space as is_white_space_byte};
ghost use Rattle.cfg_json.specs.Reading.{after_white_space, mark_at};

/// Whether it is a space, a tab, a line feed or a carriage return.
pub fn is_json_white_space(byte: u8) -> bool
    ensures { result ≡ is_white_space_byte byte }
{
    byte == b' ' || byte == b'\t' || byte == b'\n' || byte == b'\r'
}

/// What follows the white space at the front, if there is some.
pub fn skip_white_space(text: &[u8]) -> &[u8]
    ensures { result.now ≡ after_white_space text.now }
{
    let mut rest = text;
    while let Some((x, after)) = rest.split_first() {
        if !is_json_white_space(*x) {
            break;
        }
        rest = after;
    }
    rest
}

/// What follows the byte, which has to stand at the front; none where it does not.
#[tactic(auto, unfolding(crate::specs::Reading::mark_at))]
pub fn skip_mark(byte: u8, text: &[u8]) -> Option<&[u8]>
    ensures { option_map (λ r. r.now) result ≡ mark_at byte text.now }
{
    let (x, rest) = text.split_first()?;
    if *x == byte { Some(rest) } else { None }
}

ghost use Rattle.std.specs.Prelude.{◌≡◌};
ghost use Rattle.cfg_exchange.specs.HeaderValues.{is_header_byte as is_byte_of_value, is_header_value as is_value};

fn is_header_byte(byte: u8) -> bool
    ensures { result ≡ is_byte_of_value byte }
{
    byte == b'\t' || (byte >= b' ' && byte <= b'~') || byte >= 128
}

/// Whether the bytes can be the value of a header (RFC 9110, section 5.5): tabs, and bytes that are no
/// control characters. Bytes above 127 are such. Blanks may stand at both ends, and no bytes at all are
/// a value.
pub fn is_header_value(bytes: &[u8]) -> bool
    ensures { result ≡ is_value bytes.now }
{
    bytes.iter().all(|byte| is_header_byte(*byte))
}

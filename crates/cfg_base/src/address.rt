//! Addresses of IP, read from their texts.
ghost use Rattle.std.specs.Prelude.{◌≡◌, IfSome, IfNone, Some};
ghost use Rattle.cfg_base.specs.declared.address.Address.{Address};
ghost use Rattle.cfg_base.specs.Addresses.{IsAddress};
ghost use Rattle.cfg_base.specs.Text.{characters};

use std::net::IpAddr;

/// An address of version 4 or 6 as one number, the first part of its text counting most:
/// `127.0.0.1` is 0x7f00_0001, and `::1` is 1.
#[derive(Clone, Copy, Debug, PartialEq, Eq)]
pub enum Address {
    /// An address of 32 bits.
    V4(u32),
    /// An address of 128 bits.
    V6(u128),
}

impl Address {
    /// The address that the text stands for, by RFC 4291, section 2.2. Version 4 is four numbers
    /// up to 255 without leading zeros, joined by `.`. Version 6 is eight groups of one to four
    /// hexadecimal digits, joined by `:`; one `::` may stand for one or more groups of zeros, and
    /// a text of version 4 for the last two groups. None exactly where the text is neither: no
    /// zone, bracket or white space is read. It takes no memory.
    pub fn parse(text: &str) -> Option<Address>
        ensures found { IfSome result (IsAddress (characters text.now)) }
        ensures none { IfNone result ((address : Address) → IsAddress (characters text.now) address → ⊥) }
        ensures only { (address : Address) → IsAddress (characters text.now) address → result ≡ Some address }
    {
        match text.parse() {
            Ok(IpAddr::V4(address)) => Some(Address::V4(address.to_bits())),
            Ok(IpAddr::V6(address)) => Some(Address::V6(address.to_bits())),
            Err(_) => None,
        }
    }
}

//! Addresses that were configured, as texts show them.
ghost use Rattle.std.specs.Prelude.{◌≡◌, ◌==◌};
ghost use Rattle.std.specs.List.{before_first};
ghost use Rattle.std.specs.Fmt.{WritesOnOk};
ghost use Rattle.cfg_types.specs.Addresses.{before_query as before_query_of, has_no_query as has_no_query_of, without_query, behind_user};

use cfg_base::Text;
use std::fmt;

/// An address without what stands before its last `@`, and without what stands behind its first `?` or `#`: `..`
/// stands in the place of each. Where that `@` stands behind one of these, `..` stands for all.
#[derive(Drop)]
pub struct ShownAddress<'a>(pub &'a Text);

impl fmt::Display for ShownAddress<'_> {
    ghost use Rattle.std.specs.Prelude.{Some};
    ghost use Rattle.std.specs.Str.{encode_utf8_all};
    ghost use Rattle.cfg_types.specs.Addresses.{shown_address};

    ghost output = { λ a. Some (shown_address (encode_utf8_all a.0.now)) };

    fn fmt<W: fmt::Write>(&self, f: &mut fmt::Formatter<W>) -> fmt::Result {
        let address = self.0.as_str();
        match address.rsplit_once('@') {
            None => write_without_query(f, address),
            Some((user, rest)) => write_behind_user(f, user, rest),
        }
    }
}

// A `?` before the last `@` may belong to a password, and the `@` to a query.
fn write_behind_user<W: fmt::Write>(
    f: &mut fmt::Formatter<W>,
    user: &str,
    rest: &str,
) -> fmt::Result
    ensures { WritesOnOk W.write_str_gives f.old result (behind_user user.now rest.now) f.new }
{
    if has_no_query(user) {
        f.write_str("..@")?;
        write_without_query(f, rest)
    } else {
        f.write_str("..")
    }
}

fn write_without_query<W: fmt::Write>(f: &mut fmt::Formatter<W>, text: &str) -> fmt::Result
    ensures { WritesOnOk W.write_str_gives f.old result (without_query text.now) f.new }
{
    if has_no_query(text) {
        f.write_str(text)
    } else {
        f.write_str(before_query(text))?;
        f.write_str("..")
    }
}

fn has_no_query(text: &str) -> bool
    ensures { result ≡ has_no_query_of text.now }
{
    before_query(text).len() == text.len()
}

fn before_query(text: &str) -> &str
    ensures { result.now ≡ before_query_of text.now }
{
    before_fragment(before_mark(text))
}

// What stands before the first `?`.
fn before_mark(text: &str) -> &str
    ensures { result.now ≡ before_first (λ b. b == 63) text.now }
{
    match text.split_once('?') {
        Some((before, _)) => before,
        None => text,
    }
}

// What stands before the first `#`.
fn before_fragment(text: &str) -> &str
    ensures { result.now ≡ before_first (λ b. b == 35) text.now }
{
    match text.split_once('#') {
        Some((before, _)) => before,
        None => text,
    }
}

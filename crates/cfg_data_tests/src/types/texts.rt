//! What no clause says: which characters are white space.
use cfg_types::{is_blank, trimmed};
use std::test::Fail;

// White_Space of Unicode's PropList.txt.
const WHITE: &str =
    "\u{9}\u{a}\u{b}\u{c}\u{d}\u{20}\u{85}\u{a0}\u{1680}\u{2000}\u{2001}\u{2002}\u{2003}\u{2004}\u{2005}\u{2006}\u{2007}\u{2008}\u{2009}\u{200a}\u{2028}\u{2029}\u{202f}\u{205f}\u{3000}";

#[test]
fn white_space_is_that_of_unicode(rt: HostRuntime) -> Result<(), Fail> {
    let others: &[&str] = &[
        "\0", "\u{1c}", "\u{1d}", "\u{1e}", "\u{1f}", "\u{180e}", "\u{200b}", "\u{2060}",
        "\u{feff}",
    ];
    assert!(rt; is_blank(WHITE));
    for other in others {
        assert!(rt; !is_blank(other), "{other:?}");
        let around = format!(in rt.alloc(); "{WHITE}{other}{WHITE}")?;
        assert_eq!(rt; trimmed(around.as_str()), *other);
    }
    Ok(())
}

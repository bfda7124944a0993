//! Addresses that have to have a scheme.
ghost use Rattle.std.specs.Prelude.{◌≡◌};
ghost use Rattle.cfg_error_report.specs.Addresses.{has_scheme as has_scheme_of};

/// Whether there is a `://`, as behind a scheme.
pub fn has_scheme(text: &str) -> bool
    ensures { result ≡ has_scheme_of text.now }
{
    text.contains("://")
}

//! What the keys of a section say of it.
ghost use Rattle.std.specs.Prelude.{◌≡◌};
ghost use Rattle.cfg_profile.specs.Properties.{has_both_keys as has_both, is_role as role, source as source_by_keys, has_key as key_of};
ghost use Rattle.cfg_profile.specs.Seen.{seen_source};

use crate::sections::Section;

/// Where a role's credentials come from.
#[derive(Clone, Copy)]
pub(crate) enum Source<'a> {
    Both,
    Neither,
    Own,
    Named(&'a str),
}

/// Whether a section has this key.
pub(crate) fn has_key(section: &Section, key: &str) -> bool
    ensures { result ≡ key_of section.now key.now }
{
    section.get(key).is_some()
}

/// Whether a section has an access key and its secret.
pub(crate) fn has_both_keys(section: &Section) -> bool
    ensures { result ≡ has_both section.now }
{
    has_key(section, "aws_access_key_id") && has_key(section, "aws_secret_access_key")
}

/// Whether a section is a role: it has `role_arn` and no `web_identity_token_file`.
pub(crate) fn is_role(section: &Section) -> bool
    ensures { result ≡ role section.now }
{
    has_key(section, "role_arn") && section.get("web_identity_token_file").is_none()
}

/// Where a role's credentials come from.
pub(crate) fn source_of(section: &Section) -> Source
    ensures { seen_source result ≡ source_by_keys section.now }
{
    match (
        section.get("source_profile"),
        section.get("credential_source"),
    ) {
        (Some(_), Some(_)) => Source::Both,
        (None, None) => Source::Neither,
        (None, Some(_)) => Source::Own,
        (Some(name), None) => {
            if name == section.name() {
                Source::Own
            } else {
                Source::Named(name)
            }
        }
    }
}

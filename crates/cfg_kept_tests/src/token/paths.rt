//! Where a token's file lies, with the digests that FIPS 180 and sha1sum give.
use cfg_token::cached_sso_token_path;
use std::test::Fail;

const PATHS: &[(&str, &str, &str)] = &[
    (
        "abc",
        "/home/u/",
        "/home/u/.aws/sso/cache/a9993e364706816aba3e25717850c26c9cd0d89d.json",
    ),
    (
        "",
        "h",
        "h/.aws/sso/cache/da39a3ee5e6b4b0d3255bfef95601890afd80709.json",
    ),
    (
        "a/../b",
        "",
        ".aws/sso/cache/b2f10bc2fc49584f6f277ffe817319ede1530fb1.json",
    ),
    (
        "\u{e9}\u{1f600}\n",
        "\u{e9}",
        "\u{e9}/.aws/sso/cache/fab3eca87761dd776a0a44a7c934ef2b8d8c8bc0.json",
    ),
];

#[test]
fn paths_of_sessions(rt: HostRuntime) -> Result<(), Fail> {
    for (identifier, home, path) in PATHS {
        let found = cached_sso_token_path(rt.alloc(), identifier, home)?;
        assert_eq!(rt; found.as_str(), *path);
    }
    Ok(())
}

//! Where a token's file lies, with the digests that FIPS 180 and sha256sum give.
use cfg_login_token::cached_login_token_path;
use std::test::Fail;

const PATHS: &[(&str, &str, &str)] = &[
    (
        "/home/someuser/.aws/login/cache",
        "  arn:aws:iam::0123456789012:user/Admin  ",
        "/home/someuser/.aws/login/cache/36db1d138ff460920374e4c3d8e01f53f9f73537e89c88d639f68393df0e2726.json",
    ),
    (
        "",
        "\u{3000}abc\u{a0}",
        "ba7816bf8f01cfea414140de5dae2223b00361a396177a9cb410ff61f20015ad.json",
    ),
    (
        "/",
        "",
        "/e3b0c44298fc1c149afbf4c8996fb92427ae41e4649b934ca495991b7852b855.json",
    ),
];

#[test]
fn paths_of_sessions(rt: HostRuntime) -> Result<(), Fail> {
    for (cache, session, path) in PATHS {
        let found = cached_login_token_path(rt.alloc(), cache, session)?;
        assert_eq!(rt; found.as_str(), *path);
    }
    Ok(())
}

//! Chains over given members.
use crate::token_chain::own::{Having, Lacking, Late};
use crate::token_chain::setup::{FILES, SESSIONS, Setup, asked, set_up, token_words};
use cfg_profile::ProviderConfig;
use cfg_sso::SsoTokenProvider;
use cfg_token_chain::{ProfileFileTokenProvider, TokenMember, TokenProviderChain};
use cfg_types::{OutOfMemory, Outcome, Region, Text, Token, TryCopy};
use cfg_world::{ScriptDevices, World};
use std::alloc::Global;
use std::test::Fail;

// What a call answers and asks.
fn call_words(
    alloc: Global,
    chain: &TokenProviderChain,
    world: &mut World<ScriptDevices>,
) -> Result<String, OutOfMemory> {
    let mut kept = chain.new_kept()?;
    let outcome = Outcome {
        answer: chain.provide_token(kept.as_mut_slice(), world),
    };
    let answer = token_words(alloc, &outcome)?;
    let questions = asked(alloc, world)?;
    Ok(format!(in alloc; "{answer}{questions}")?)
}

// A session whose token no file holds.
fn session(alloc: Global, config: &ProviderConfig) -> Result<SsoTokenProvider, OutOfMemory> {
    let builder = SsoTokenProvider::builder(alloc)?
        .configure(config)?
        .region(Region::new(alloc, "us-east-1")?)
        .session_name("b")?
        .start_url("u")?;
    builder.build()
}

fn profile(
    alloc: Global,
    config: &ProviderConfig,
) -> Result<ProfileFileTokenProvider, OutOfMemory> {
    let builder = ProfileFileTokenProvider::builder(alloc)?.configure(config)?;
    builder.build()
}

// A chain of the members that the letters name: what making it asks, and a call.
fn chain_words(alloc: Global, setup: Setup, letters: &str) -> Result<String, OutOfMemory> {
    let Setup { config, devices } = setup;
    let mut world = World::new(alloc, devices);
    let mut chain = TokenProviderChain::empty(alloc);
    for letter in letters.chars() {
        chain = match letter {
            'F' => {
                let token = Token::new(alloc, "given", None)?;
                chain.or_else("Given", TokenMember::Fixed(token))?
            }
            'P' => {
                let member = TokenMember::Profile(profile(alloc, &config)?);
                chain.or_else("Selected", member)?
            }
            'S' => {
                let member = TokenMember::Sso(session(alloc, &config)?);
                chain.or_else("Session", member)?
            }
            _ => {
                let config = config.copy(alloc)?;
                chain.or_default_provider(config, &mut world)?
            }
        };
    }
    let making = asked(alloc, &mut world)?;
    let call = call_words(alloc, &chain, &mut world)?;
    Ok(format!(in alloc; "{making}; {call}")?)
}

#[test]
fn members_in_order(rt: HostRuntime) -> Result<(), Fail> {
    let table: &[(&str, &str)] = &[
        (
            "",
            "; TokenNotLoaded(Chain(ProviderChainError { attempts: [] }))",
        ),
        ("PF", "; =t now read now"),
        (
            "SF",
            r#"; ProviderError(FailedToLoadToken(IoError { what: Read, path: "/home/u/.aws/sso/cache/e9d71f5ee7c92d6dc9e92ffdad17b8bd49418f98.json" })) now read"#,
        ),
        ("FS", "; =given"),
        ("D", " now imds-token now; =t now read now"),
    ];
    let script = format!(in rt.alloc();
        r#"{{"variables":[["HOME","/home/u"]],"profiles":[["default",[["sso_session","abc"]]]],{SESSIONS},{FILES}}}"#
    )?;
    for (letters, want) in table {
        let setup = set_up(rt.alloc(), script.as_str())?;
        let words = chain_words(rt.alloc(), setup, *letters)?;
        assert_eq!(rt; words.as_str(), *want, "{letters}");
    }
    Ok(())
}

#[test]
fn members_without_a_session(rt: HostRuntime) -> Result<(), Fail> {
    let script =
        r#"{"variables":[["AWS_REGION","x"]],"profiles":[["default",[["aws_access_key_id","k"],["aws_secret_access_key","s"]]]]}"#;
    let table: &[(&str, &str)] = &[
        (
            "PD",
            r#"; TokenNotLoaded(Chain(ProviderChainError { attempts: [ProviderAttempt { name: "Selected", error: TokenNotLoaded(NoSession) }, ProviderAttempt { name: "DefaultProviderChain", error: TokenNotLoaded(Chain(ProviderChainError { attempts: [ProviderAttempt { name: "Profile", error: TokenNotLoaded(NoSession) }] })) }] }))"#,
        ),
        ("DPF", "; =given"),
    ];
    for (letters, want) in table {
        let setup = set_up(rt.alloc(), script)?;
        let words = chain_words(rt.alloc(), setup, *letters)?;
        assert_eq!(rt; words.as_str(), *want, "{letters}");
    }
    Ok(())
}

// A source of the test's own that is not loaded, one that is too slow where it is asked for, and one that
// has a token.
fn own_words(alloc: Global, setup: Setup, is_late: bool) -> Result<String, OutOfMemory> {
    let Setup { config: _, devices } = setup;
    let mut world = World::new(alloc, devices);
    let reason = Text::of(alloc, "r")?;
    let lacking = Box::new(alloc, Lacking { alloc, reason })?;
    let token = Token::new(alloc, "own", None)?;
    let having = Box::new(alloc, Having { alloc, token })?;
    let chain = TokenProviderChain::first_try(alloc, "Lacking", TokenMember::Custom(lacking))?;
    let chain = if is_late {
        let late = Box::new(alloc, Late {})?;
        chain.or_else("Late", TokenMember::Custom(late))?
    } else {
        chain
    };
    let chain = chain.or_else("Having", TokenMember::Custom(having))?;
    call_words(alloc, &chain, &mut world)
}

#[test]
fn sources_of_a_callers_own(rt: HostRuntime) -> Result<(), Fail> {
    let table: &[(bool, &str)] = &[(false, "=own"), (true, "ProviderTimedOut")];
    for (is_late, want) in table {
        let setup = set_up(rt.alloc(), "{}")?;
        let words = own_words(rt.alloc(), setup, *is_late)?;
        assert_eq!(rt; words.as_str(), *want, "{is_late}");
    }
    Ok(())
}

//! The call over the variables and the world that are handed in.
ghost use Rattle.std.specs.Prelude.{◌≡◌, IfOk, OnErr, map};
ghost use Rattle.cfg_base.specs.TextMap.{named as variable};
ghost use Rattle.cfg_chain.specs.Settings.{with_sources};
ghost use Rattle.cfg_chain.specs.Views.{named_sources, chain_of};
ghost use Rattle.cfg_program.specs.Local.{local_configuration, GrowsByCall, StopsInCall};

use crate::causes::Below;
use crate::lines::LineForm;
use crate::outcome::{Answered, tell};
use crate::resolve::chain_over;
use cfg_chain::DefaultCredentialsChain;
use cfg_profile::ProviderConfig;
use cfg_providers::CustomSource;
use cfg_types::{Env, EnvText, OutOfMemory, Outcome};
use cfg_world::{Devices, World};
use std::alloc::Global;

/// Makes one call of the default chain over these variables, the caller's own sources and this world, without
/// sections and without a region. The world's journal gains the questions of the call. `OutOfMemory` where memory
/// runs out; the journal then gained the first of them, or none, or all.
pub fn call_locally<D: Devices>(
    alloc: Global,
    variables: Vec<(String, EnvText)>,
    custom: Vec<CustomSource>,
    world: &mut World<D>,
) -> Result<Answered, OutOfMemory>
    ensures made { let over = with_sources (local_configuration (map variable variables.items)) (named_sources value custom.items) in
        IfOk result (λ a. GrowsByCall ⟦<D as Devices>⟧ over world.old world.new a.is_ok a.lines.items) }
    ensures stopped { let over = with_sources (local_configuration (map variable variables.items)) (named_sources value custom.items) in
        OnErr result (StopsInCall ⟦<D as Devices>⟧ over world.old world.new) }
{
    let chain = chain_without_sections(alloc, variables, custom)?;
    call(alloc, &chain, world)
}

/// The default chain of these variables and the caller's own sources, without sections and without a region. Nothing is
/// asked. `OutOfMemory` where memory runs out.
pub fn chain_without_sections(
    alloc: Global,
    variables: Vec<(String, EnvText)>,
    custom: Vec<CustomSource>,
) -> Result<DefaultCredentialsChain, OutOfMemory>
    ensures { let over = with_sources (local_configuration (map variable variables.items)) (named_sources value custom.items) in
        IfOk result (λ chain. chain_of value repeated chain ≡ over) }
{
    let env = Env::new(alloc, variables)?;
    let config = ProviderConfig::without_region(alloc)?.with_env(env);
    chain_over(alloc, config, None, custom)
}

// One call of the chain, and its line. The entries that the journal had before are not among its questions.
fn call<D: Devices>(
    alloc: Global,
    chain: &DefaultCredentialsChain,
    world: &mut World<D>,
) -> Result<Answered, OutOfMemory>
    ensures made { IfOk result (λ a. GrowsByCall ⟦<D as Devices>⟧ (chain_of value repeated chain.now) world.old world.new a.is_ok a.lines.items) }
    ensures stopped { OnErr result (StopsInCall ⟦<D as Devices>⟧ (chain_of value repeated chain.now) world.old world.new) }
{
    let before = world.journal().len();
    let mut kept = chain.new_kept()?;
    let outcome = Outcome {
        answer: chain.provide_credentials(&mut kept, world),
    };
    let mut lines = Vec::new(alloc);
    let is_ok = tell(
        &mut lines,
        LineForm::Call(Below::Nothing),
        &outcome.answer,
        &world.journal()[before..],
    )?;
    Ok(Answered { is_ok, lines })
}

//! The calls of the program.
ghost use Rattle.std.specs.Prelude.{◌≡◌, IfOk, OnOk, string_bytes};
ghost use Rattle.cfg_kept.specs.KeptStates.{states_of, kept_key};
ghost use Rattle.cfg_chain.specs.Views.{chain_of};
ghost use Rattle.cfg_chain.specs.profile.Plans.{key_of};
ghost use Rattle.caller.specs.FileAnswers.{HoldsToken};
ghost use Rattle.caller.specs.Reports.{IsReport, TellsCall};

use crate::configuration::{TOKEN, TOKEN_PATH, chain_for};
use crate::devices::OneFile;
use crate::lines::call_line;
use aws_config::default_provider::credentials::DefaultCredentialsChain;
use aws_config::devices::World;
use aws_config::kept::Kept;
use aws_config::{OutOfMemory, Outcome};
use std::alloc::Global;

/// The lines of three calls: two for the profile of a sign-in session, the second on what the first one left
/// kept, and one for the profile of a role, on a kept state of its own. `OutOfMemory` where memory runs out.
pub fn report(alloc: Global) -> Result<String, OutOfMemory>
    ensures { IfOk result (λ lines. IsReport (string_bytes lines)) }
{
    let mut world = World::new(
        alloc,
        OneFile {
            alloc,
            path: TOKEN_PATH,
            content: TOKEN,
            failures: 0,
        },
    );
    let mut lines = String::new(alloc);
    let reader = chain_for(alloc, "reader")?;
    let mut kept = reader.new_kept()?;
    call(alloc, &reader, &mut kept, &mut world, &mut lines)?;
    // The token is kept by now.
    call(alloc, &reader, &mut kept, &mut world, &mut lines)?;
    let auditor = chain_for(alloc, "auditor")?;
    let mut kept = auditor.new_kept()?;
    call(alloc, &auditor, &mut kept, &mut world, &mut lines)?;
    Ok(lines)
}

// One call on what is kept, and its line behind the others: who gave its answer, and over which part of the
// journal. The journal of the call before it is given up.
fn call(
    alloc: Global,
    chain: &DefaultCredentialsChain,
    kept: &mut Kept,
    world: &mut World<OneFile>,
    lines: &mut String,
) -> Result<(), OutOfMemory>
    requires key { kept_key kept.old ≡ key_of chain.now.core }
    requires holds { HoldsToken world.old.devices.path.now world.old.devices.content.now }
    ensures tells { OnOk result (TellsCall (chain_of value repeated chain.now) (states_of kept.old) (states_of kept.new)
        (string_bytes lines.old) (string_bytes lines.new)) }
    ensures key { kept_key kept.new ≡ kept_key kept.old }
    ensures holds { OnOk result (HoldsToken world.new.devices.path.now world.new.devices.content.now) }
{
    world.clear_journal();
    let outcome = Outcome {
        answer: chain.provide_credentials(kept, world),
    };
    if aws_config::is_memory(&outcome.answer) {
        return Err(OutOfMemory);
    }
    let line = call_line(alloc, &outcome.answer, world.journal())?;
    lines.push_str(line.as_str())?;
    Ok(())
}

//! Counts of faults, as devices keep them.
ghost use Rattle.std.specs.Prelude.{◌≡◌};
ghost use Rattle.cfg_world.specs.Tallies.{no_faults, one_more, Small};

use std::marker::Model;

// How often each kind of device has failed. A count that is full stands still, so that a fault after
// 18,446,744,073,709,551,615 others is still told.
#[derive(Drop)]
pub(crate) struct Tally {
    files: u64,
    transport: u64,
    commands: u64,
    lookups: u64,
}

impl Model for Tally {
    ghost use Rattle.cfg_world.specs.Faults.{Faults};
    ghost use Rattle.cfg_world.specs.Tallies.{Small};

    ghost Value = { Faults };

    ghost view = { λ c. record { files = c.files; transport = c.transport; commands = c.commands; lookups = c.lookups } };

    ghost invariant = { λ c. Small (record { files = c.files; transport = c.transport; commands = c.commands; lookups = c.lookups }) };
}

impl Tally {
    // No device has failed.
    pub(crate) fn none() -> Tally
        ensures { result ≡ no_faults }
    {
        Tally {
            files: 0,
            transport: 0,
            commands: 0,
            lookups: 0,
        }
    }

    pub(crate) fn raise_files(&mut self)
        ensures raised { self.new ≡ record self.old { files = one_more self.old.files } }
        ensures small { Small self.old }
    {
        self.files = self.files.saturating_add(1);
    }

    pub(crate) fn raise_transport(&mut self)
        ensures raised { self.new ≡ record self.old { transport = one_more self.old.transport } }
        ensures small { Small self.old }
    {
        self.transport = self.transport.saturating_add(1);
    }

    pub(crate) fn raise_commands(&mut self)
        ensures raised { self.new ≡ record self.old { commands = one_more self.old.commands } }
        ensures small { Small self.old }
    {
        self.commands = self.commands.saturating_add(1);
    }

    pub(crate) fn raise_lookups(&mut self)
        ensures raised { self.new ≡ record self.old { lookups = one_more self.old.lookups } }
        ensures small { Small self.old }
    {
        self.lookups = self.lookups.saturating_add(1);
    }
}

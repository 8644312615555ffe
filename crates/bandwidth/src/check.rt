// Checks 1 to 3.
ghost use Rattle.std.specs.Prelude.{◌≡◌, List, ℕ};
ghost use Rattle.bandwidth_model.specs.View.{Ranges};
ghost use Rattle.bandwidth_model.specs.Model.{lengths_ok};
ghost use Rattle.bandwidth_setup.specs.View.{setup_of};
ghost use Rattle.bandwidth_wellformed.specs.Tables.{TablesChecked};
ghost use Rattle.bandwidth.specs.View.{state};
ghost use Rattle.bandwidth.specs.Checked.{StateChecked, Checked};

use crate::Record;
use access::Refusal;
use bandwidth_settings::registers_ok;
use bandwidth_setup::Setup;
use bandwidth_wellformed::{Totals, tables_ok};
use monitor::control_ok;

impl Record {
    // Check 2, by a set-up.
    pub fn lengths_ok(
        &self,
        setup: Setup,
        active: &[u32],
        configured: &[u32],
        used: &[u32],
        counters: &[u64],
        events: &[u16],
        waiters: &[u64],
    ) -> bool
        requires { Ranges (setup_of setup) }
        ensures { result ≡ lengths_ok (setup_of setup) (state self.now active.now configured.now used.now counters.now events.now waiters.now) }
    {
        let pairs = setup.pairs() as usize;
        let nm = setup.nm as usize;
        let nr = setup.nr as usize;
        (active.len() == pairs)
            & (configured.len() == pairs)
            & (used.len() == pairs)
            & (counters.len() == nm)
            & (events.len() == nm)
            & (waiters.len() == nr)
    }

    // Check 3, by what is found of the tables: their totals where it passes.
    pub fn state_ok(&self, tables: Option<Totals>) -> Option<Totals>
        requires { Ranges (setup_of self.now.setup) }
        ensures { (active configured used counters events waiters : List ℕ) → TablesChecked (setup_of self.now.setup) active configured used counters events waiters tables → StateChecked (state self.now active configured used counters events waiters) result }
    {
        let totals = tables?;
        let setup = self.setup;
        let left = setup.nbwblks.saturating_sub(totals.active) * setup.q;
        let registers = registers_ok(setup, self.alloc_ctl, self.bw_alloc)
            & control_ok(setup.na, self.mon_ctl);
        ((self.pool <= left) & registers).then_some(totals)
    }

    // The first of checks 1 to 3 that fails, or the totals.
    pub fn check(
        &self,
        active: &[u32],
        configured: &[u32],
        used: &[u32],
        counters: &[u64],
        events: &[u16],
        waiters: &[u64],
    ) -> Result<Totals, Refusal>
        ensures { Checked (state self.now active.now configured.now used.now counters.now events.now waiters.now) result }
    {
        let setup = self.setup;
        if !setup.in_range() {
            return Err(Refusal::Setup);
        }
        if !self.lengths_ok(setup, active, configured, used, counters, events, waiters) {
            return Err(Refusal::Length);
        }
        let tables = tables_ok(setup, active, configured, used, counters, events, waiters);
        self.state_ok(tables).ok_or(Refusal::State)
    }
}

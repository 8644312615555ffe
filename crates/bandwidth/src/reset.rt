// Resets.
ghost use Rattle.std.specs.Prelude.{◌≡◌, length};
ghost use Rattle.bandwidth_model.specs.View.{Ranges, Sized};
ghost use Rattle.bandwidth_model.specs.Calls.{reset};
ghost use Rattle.bandwidth_model.specs.Rules.{pairs, reset_table};
ghost use Rattle.bandwidth_model.specs.Model.{step};
ghost use Rattle.bandwidth_setup.specs.View.{setup_of};
ghost use Rattle.bandwidth.specs.View.{state, outcome, ack_of, reset_row};
ghost use Rattle.bandwidth.specs.Checked.{Fresh};

use crate::{Answered, Record};
use access::Refusal;
use bandwidth_setup::Setup;
use fields::BwAlloc;
use tables::put;

// The Mweight that RCID 0 has after a reset.
const RESET_WEIGHT: u64 = 1;

// The words of RCID 0 after a reset: its first AT holds, the others share it.
pub fn reset_row(setup: Setup, row: &mut [u32])
    requires { Ranges (setup_of setup) }
    ensures { row.new ≡ reset_row (setup_of setup) (length row.old) }
{
    let holder = BwAlloc {
        rbwb: setup.mrbwb,
        mweight: RESET_WEIGHT,
        sharedat: 0,
        useshared: 0,
    }
    .pack();
    let sharer = BwAlloc {
        rbwb: 0,
        mweight: 0,
        sharedat: 0,
        useshared: 1,
    }
    .pack();
    row.fill(sharer as u32);
    put(row, 0, holder as u32);
}

// The settings of a reset.
fn reset_table(setup: Setup, table: &mut [u32])
    requires { Ranges (setup_of setup) × (length table.old ≡ pairs (setup_of setup)) }
    ensures { table.new ≡ reset_table (setup_of setup) }
{
    let na = setup.na as usize;
    table.fill(0);
    reset_row(setup, &mut table[..na]);
}

// All tables of a reset.
fn reset_tables(
    setup: Setup,
    active: &mut [u32],
    configured: &mut [u32],
    used: &mut [u32],
    counters: &mut [u64],
    events: &mut [u16],
    waiters: &mut [u64],
)
    requires { Ranges (setup_of setup) × Sized (setup_of setup) active.old configured.old used.old counters.old events.old waiters.old }
    ensures { Fresh (setup_of setup) active.new configured.new used.new counters.new events.new waiters.new }
{
    reset_table(setup, configured);
    active.copy_from_slice(configured);
    used.fill(0);
    counters.fill(0);
    events.fill(0);
    waiters.fill(0);
}

impl Record {
    // The record after a reset: its registers are 0, and the pool gave nothing.
    pub fn fresh(setup: Setup) -> Record
        ensures { result ≡ record { setup = setup; mon_ctl = 0; mon_ctr_val = 0; alloc_ctl = 0; bw_alloc = 0; pool = 0 } }
    {
        Record {
            setup,
            mon_ctl: 0,
            mon_ctr_val: 0,
            alloc_ctl: 0,
            bw_alloc: 0,
            pool: 0,
        }
    }

    pub fn reset(
        self,
        active: &mut [u32],
        configured: &mut [u32],
        used: &mut [u32],
        counters: &mut [u64],
        events: &mut [u16],
        waiters: &mut [u64],
        setup: Setup,
    ) -> Answered<()>
        ensures { outcome (ack_of result.answer) (state result.«record» active.new configured.new used.new counters.new events.new waiters.new) ≡ step (state self active.old configured.old used.old counters.old events.old waiters.old) (reset (setup_of setup)) }
    {
        if !setup.in_range() {
            return self.refused(Refusal::Setup);
        }
        if !self.lengths_ok(setup, active, configured, used, counters, events, waiters) {
            return self.refused(Refusal::Length);
        }
        reset_tables(setup, active, configured, used, counters, events, waiters);
        Record::fresh(setup).answered(())
    }
}

// Check 3 over the lent tables of a bandwidth controller, by sums of rows that must be 0 or small.
#![tactic(auto)]

mod parts;
mod rows;
mod settings;
mod usage;

ghost use Rattle.std.specs.Prelude.{List, ℕ};
ghost use Rattle.bandwidth_model.specs.View.{Ranges, Sized};
ghost use Rattle.bandwidth_setup.specs.View.{setup_of};
ghost use Rattle.bandwidth_wellformed.specs.Tables.{SummedTables, TablesChecked};

use bandwidth_setup::Setup;
use bandwidth_waiters::waiters_ok;
use codes::Resource;
use monitor::{counters_ok, events_ok};
pub use parts::{Span, span_at};
pub use settings::{Sums, TableSums, add_sums, no_sums, sum_rows};
use settings::{sum_tables, table_ok};

// The blocks that the holders in force and the holders configured reserve.
#[derive(Clone, Copy)]
pub struct Totals {
    pub active: u64,
    pub configured: u64,
}

// The totals of well-formed tables, from the sums of all rows and the checks of counters, counter settings and waiters.
pub fn tables_by(
    setup: Setup,
    sums: Sums,
    counters_ok: bool,
    events_ok: bool,
    waiters_ok: bool,
) -> Option<Totals>
    ensures { (active configured used counters events waiters : List ℕ) → SummedTables (setup_of setup) active configured used counters events waiters sums counters_ok events_ok waiters_ok → TablesChecked (setup_of setup) active configured used counters events waiters result }
{
    let active = sums.active;
    let configured = sums.configured;
    let a = table_ok(active, setup.mrbwb);
    let c = table_ok(configured, setup.mrbwb);
    let ok = a & c & (sums.over == 0) & counters_ok & events_ok & waiters_ok;
    ok.then_some(Totals {
        active: active.blocks as u64,
        configured: configured.blocks as u64,
    })
}

// The same of whole tables.
pub fn tables_ok(
    setup: Setup,
    active: &[u32],
    configured: &[u32],
    used: &[u32],
    counters: &[u64],
    events: &[u16],
    waiters: &[u64],
) -> Option<Totals>
    requires { Ranges (setup_of setup) × Sized (setup_of setup) active.now configured.now used.now counters.now events.now waiters.now }
    ensures { TablesChecked (setup_of setup) active.now configured.now used.now counters.now events.now waiters.now result }
{
    let sums = sum_tables(
        active,
        configured,
        used,
        setup.nr as usize,
        setup.na as u32,
        setup.q as u32,
    );
    let k = counters_ok(Resource::Bandwidth, counters, setup.w as u32);
    let e = events_ok(events, setup.na as u16, Resource::Bandwidth);
    let w = waiters_ok(setup, waiters);
    tables_by(setup, sums, k, e, w)
}

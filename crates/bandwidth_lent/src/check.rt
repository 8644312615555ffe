// Checks 1 to 3 on bytes.
ghost use Rattle.bandwidth_lent.specs.Bytes.{lent};
ghost use Rattle.bandwidth_lent.specs.View.{Checked};

use crate::lent::load_lent;
use crate::sums::sum_bytes;
use crate::waiters::waiters_ok;
use access::Refusal;
use bandwidth::{Record, Totals};
use bandwidth_wellformed::tables_by;
use codes::Resource;
use monitor_bytes::{counters_ok, events_ok};

// The record that the bytes hold, and what the settings tables reserve.
#[derive(Clone, Copy)]
pub struct Held {
    pub record: Record,
    pub totals: Totals,
}

// What a call goes on from, where checks 1 to 3 pass.
pub fn checked(
    record: &[u8],
    active: &[u8],
    configured: &[u8],
    used: &[u8],
    counters: &[u8],
    events: &[u8],
    waiters: &[u8],
) -> Result<Held, Refusal>
    ensures { Checked (lent «record».now active.now configured.now used.now counters.now events.now waiters.now) result }
{
    let given = load_lent(record, active, configured, used, counters, events, waiters)?;
    let setup = given.setup;
    let sums = sum_bytes(
        active,
        configured,
        used,
        setup.nr as usize,
        setup.na as u32,
        setup.q as u32,
    );
    let k = counters_ok(Resource::Bandwidth, counters, setup.w as u32);
    let e = events_ok(events, setup.na as u16, Resource::Bandwidth);
    let w = waiters_ok(setup, waiters);
    let tables = tables_by(setup, sums, k, e, w);
    let totals = given.state_ok(tables).ok_or(Refusal::State)?;
    Ok(Held {
        record: given,
        totals,
    })
}

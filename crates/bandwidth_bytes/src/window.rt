// Window ends on bytes.
ghost use Rattle.std.specs.Prelude.{◌≡◌, [], length};
ghost use Rattle.access.specs.View.{refusal_in};
ghost use Rattle.replies.specs.Replies.{reply};
ghost use Rattle.bandwidth_model.specs.Calls.{end_window};
ghost use Rattle.bandwidth_lent.specs.Bytes.{lent, step_bytes};
ghost use Rattle.bandwidth_lent.specs.View.{Passing};

use access::Refusal;
use bandwidth_lent::{Held, checked};
use bandwidth_service::{serve_all, weights_of};
use words::{put, union64};

// Copies bytes over as many others. The library's copy calls memmove, and the C library calls nothing but memcpy and memset.
fn copy_bytes(to: &mut [u8], from: &[u8])
    requires { length to.old ≡ length from.now }
    ensures { to.new ≡ from.now }
{
    for i in 0..to.len() {
        to[i] = from[i];
    }
}

// Takes the settings configured into force, with nothing used, and serves the waiters, if there are any.
fn open_window(
    held: Held,
    record: &mut [u8],
    active: &mut [u8],
    configured: &[u8],
    used: &mut [u8],
    counters: &mut [u8],
    events: &[u8],
    waiters: &mut [u8],
)
    requires { Passing (lent «record».old active.old configured.now used.old counters.old events.now waiters.old) held }
    ensures { reply 0 [] (lent «record».new active.new configured.now used.new counters.new events.now waiters.new) ≡ step_bytes (lent «record».old active.old configured.now used.old counters.old events.now waiters.old) end_window }
{
    let given = held.record;
    let totals = held.totals;
    let setup = given.setup;
    copy_bytes(active, configured);
    used.fill(0);
    if union64(waiters) == 0 {
        put(record, 11, 0u64);
        return;
    }
    let size = setup.nbwblks.saturating_sub(totals.configured) * setup.q;
    let weights = weights_of(setup, configured, waiters);
    let pool = serve_all(
        setup, configured, used, counters, events, waiters, size, weights,
    );
    put(record, 11, pool);
}

pub fn end_window(
    record: &mut [u8],
    active: &mut [u8],
    configured: &[u8],
    used: &mut [u8],
    counters: &mut [u8],
    events: &[u8],
    waiters: &mut [u8],
) -> Result<(), Refusal>
    ensures { reply (refusal_in result) [] (lent «record».new active.new configured.now used.new counters.new events.now waiters.new) ≡ step_bytes (lent «record».old active.old configured.now used.old counters.old events.now waiters.old) end_window }
{
    let held = checked(record, active, configured, used, counters, events, waiters)?;
    open_window(
        held, record, active, configured, used, counters, events, waiters,
    );
    Ok(())
}

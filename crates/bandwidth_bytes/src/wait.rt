// Requests that wait, on bytes.
ghost use Rattle.std.specs.Prelude.{◌≡◌, []};
ghost use Rattle.access.specs.View.{refusal_in};
ghost use Rattle.replies.specs.Replies.{reply, value_in};
ghost use Rattle.bandwidth_model.specs.Calls.{wait, need};
ghost use Rattle.bandwidth_lent.specs.Bytes.{lent, step_bytes};

use access::Refusal;
use bandwidth_lent::checked;
use bandwidth_waiters::{check_wait, need_of, put_word};
use words::{put, word};

pub fn wait(
    record: &[u8],
    active: &[u8],
    configured: &[u8],
    used: &[u8],
    counters: &[u8],
    events: &[u8],
    waiters: &mut [u8],
    rcid: u64,
    mcid: u64,
    at: u64,
    kind: u64,
    bytes: u32,
) -> Result<(), Refusal>
    ensures { reply (refusal_in result) [] (lent «record».now active.now configured.now used.now counters.now events.now waiters.new) ≡ step_bytes (lent «record».now active.now configured.now used.now counters.now events.now waiters.old) (wait rcid mcid at kind bytes) }
{
    let held = checked(record, active, configured, used, counters, events, waiters)?;
    let setup = held.record.setup;
    let i = rcid as usize;
    check_wait(setup, word(waiters, i, 0), rcid, mcid, bytes)?;
    put(waiters, i, put_word(setup, mcid, at, kind, bytes));
    Ok(())
}

pub fn need(
    record: &[u8],
    active: &[u8],
    configured: &[u8],
    used: &[u8],
    counters: &[u8],
    events: &[u8],
    waiters: &[u8],
    rcid: u64,
) -> Result<u64, Refusal>
    ensures { reply (refusal_in result) (value_in result) (lent «record».now active.now configured.now used.now counters.now events.now waiters.now) ≡ step_bytes (lent «record».now active.now configured.now used.now counters.now events.now waiters.now) (need rcid) }
{
    let held = checked(record, active, configured, used, counters, events, waiters)?;
    let setup = held.record.setup;
    if setup.nr <= rcid {
        return Err(Refusal::Identifier);
    }
    Ok(need_of(word(waiters, rcid as usize, 0)))
}

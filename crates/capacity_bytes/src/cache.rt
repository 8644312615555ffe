// Cache events and flushes.
ghost use Rattle.std.specs.Prelude.{◌≡◌, cond, List, [], ℕ};
ghost use Rattle.words.specs.Words.{bytes_of_all, Holds};
ghost use Rattle.replies.specs.Replies.{reply};
ghost use Rattle.access.specs.View.{refusal_in};
ghost use Rattle.monitor.specs.Occupancy.{evicted};
ghost use Rattle.units.specs.Owners.{flushed_owners};
ghost use Rattle.units.specs.Counts.{flushed};
ghost use Rattle.capacity_model.specs.Calls.{fill, evict};
ghost use Rattle.capacity.specs.View.{filling_of};
ghost use Rattle.capacity_bytes.specs.Bytes.{lent, step_bytes};
ghost use Rattle.capacity_bytes.specs.View.{values_in};

use crate::check::checked;
use access::{Refusal, known_at};
use words::word;

// FLUSH_RCID where `flushes` holds.
pub fn flush_if(flushes: bool, owners: &mut [u8], counters: &mut [u8], events: &[u8], rcid: u64)
    ensures { (os ns es : List ℕ) → Holds 4 owners.old os → Holds 8 counters.old ns → Holds 2 events.now es
        → (owners.new ≡ bytes_of_all 4 (cond flushes (flushed_owners rcid os) os)) × (counters.new ≡ bytes_of_all 8 (cond flushes (flushed 0 es evicted rcid os ns) ns)) }
{
    if flushes {
        unit_bytes::flush(owners, counters, events, rcid);
    }
}

// Whether the fill is allowed.
pub fn fill(
    record: &[u8],
    masks: &[u8],
    counters: &mut [u8],
    events: &[u8],
    owners: &mut [u8],
    rcid: u64,
    mcid: u64,
    at: u64,
    unit: u64,
) -> Result<bool, Refusal>
    ensures { reply (refusal_in result) (values_in 1 (filling_of result)) (lent «record».now masks.now counters.new events.now owners.new) ≡ step_bytes (lent «record».now masks.now counters.old events.now owners.old) (fill rcid mcid at unit) }
{
    let held = checked(record, masks, counters, events, owners)?;
    let setup = held.setup;
    let mask = word(masks, setup.pair_at(rcid, at), 0);
    let allowed = held.filling(mask, rcid, mcid, unit)?;
    if allowed {
        let known = known_at(setup.na, at);
        let i = unit as usize;
        unit_bytes::fill(setup.w, owners, counters, events, rcid, mcid, known, i);
    }
    Ok(allowed)
}

pub fn evict(
    record: &[u8],
    masks: &[u8],
    counters: &mut [u8],
    events: &[u8],
    owners: &mut [u8],
    unit: u64,
) -> Result<(), Refusal>
    ensures { reply (refusal_in result) [] (lent «record».now masks.now counters.new events.now owners.new) ≡ step_bytes (lent «record».now masks.now counters.old events.now owners.old) (evict unit) }
{
    let held = checked(record, masks, counters, events, owners)?;
    held.evicting(unit)?;
    unit_bytes::evict(owners, counters, events, unit as usize);
    Ok(())
}

// Units of capacity in the lent owners and counters: evictions, fills and flushes, and check 3 over the owners.
#![tactic(auto)]

mod checks;
mod owner;

ghost use Rattle.std.specs.Prelude.{◌≡◌, cond, ◌^◌, ◌≤◌, ◌<◌, get_or, set};
ghost use Rattle.fields.specs.Layout.{get};
ghost use Rattle.fields.specs.Registers.{capacity_ctr};
ghost use Rattle.monitor.specs.Occupancy.{filled, evicted};
ghost use Rattle.units.specs.Owners.{owner_word, of_rcid, flushed_owners};
ghost use Rattle.units.specs.Counts.{noted, emptied, refilled, flushed};
ghost use Rattle.unit_tables.specs.View.{Identifiers, CountersOk};

pub use checks::{none_seen, owners_ok, seen_ok, with_owner};
use monitor::counted_fill;
pub use owner::{emptied_counter, is_of, owner_mcid, owner_word};
use tables::{put, word};

// Counts an emptied unit for its owner.
fn count_emptied(counters: &mut [u64], events: &[u16], owner: u32)
    ensures { counters.new ≡ emptied 0 events.now evicted counters.old owner }
{
    let i = owner_mcid(owner);
    let counter = emptied_counter(owner, word(counters, i, 0), word(events, i, 0));
    put(counters, i, counter);
}

// Counts a fill for its MCID.
fn count_filled(w: u64, counters: &mut [u64], events: &[u16], mcid: u64, at: u64)
    requires { (w ≤ 62) × (get capacity_ctr (get_or counters.old mcid 0) < 2 ^ w) }
    ensures { counters.new ≡ noted 0 events.now (filled w) counters.old mcid at }
{
    let i = mcid as usize;
    let counter = counted_fill(w, word(counters, i, 0), word(events, i, 0), at);
    put(counters, i, counter);
}

// An eviction: the unit counts for its owner and becomes free.
pub fn evict(owners: &mut [u32], counters: &mut [u64], events: &[u16], unit: usize)
    ensures { (owners.new ≡ set owners.old unit 0)
        × (counters.new ≡ emptied 0 events.now evicted counters.old (get_or owners.old unit 0)) }
{
    count_emptied(counters, events, word(owners, unit, 0));
    put(owners, unit, 0);
}

// An allowed fill: the unit counts for the owner it had, and then for its new one, which may have the same MCID.
pub fn fill(
    w: u64,
    owners: &mut [u32],
    counters: &mut [u64],
    events: &[u16],
    rcid: u64,
    mcid: u64,
    at: u64,
    unit: usize,
)
    requires { Identifiers rcid mcid at × CountersOk w counters.old }
    ensures { (owners.new ≡ set owners.old unit (owner_word rcid mcid at))
        × (counters.new ≡ refilled 0 events.now (filled w) evicted counters.old (get_or owners.old unit 0) mcid at) }
{
    let old = word(owners, unit, 0);
    count_emptied(counters, events, old);
    count_filled(w, counters, events, mcid, at);
    put(owners, unit, owner_word(rcid, mcid, at));
}

// An eviction where the RCID owns the unit.
fn flush_unit(owner: &mut u32, counters: &mut [u64], events: &[u16], rcid: u64)
    ensures { (owner.new ≡ cond (of_rcid rcid owner.old) 0 owner.old)
        × (counters.new ≡ cond (of_rcid rcid owner.old) (emptied 0 events.now evicted counters.old owner.old) counters.old) }
{
    if is_of(*owner, rcid) {
        count_emptied(counters, events, *owner);
        *owner = 0;
    }
}

// FLUSH_RCID: every unit that the RCID owns becomes free, and counts for its owner.
pub fn flush(owners: &mut [u32], counters: &mut [u64], events: &[u16], rcid: u64)
    ensures { (owners.new ≡ flushed_owners rcid owners.old)
        × (counters.new ≡ flushed 0 events.now evicted rcid owners.old counters.old) }
{
    for owner in owners.iter_mut() {
        flush_unit(owner, counters, events, rcid);
    }
}

// Units of capacity where owners, counters and counter settings are lent as little-endian bytes: the operations of `unit_tables` on words that are loaded and stored.
#![tactic(auto)]

ghost use Rattle.std.specs.Prelude.{◌≡◌, cond, List, ℕ, ◌^◌, ◌≤◌, ◌<◌, length, get_or, set};
ghost use Rattle.fields.specs.Layout.{get};
ghost use Rattle.fields.specs.Registers.{capacity_ctr};
ghost use Rattle.tables.specs.Below.{all_below};
ghost use Rattle.words.specs.Words.{bytes_of_all, table_of, Holds};
ghost use Rattle.monitor.specs.Occupancy.{filled, evicted};
ghost use Rattle.units.specs.Owners.{owner_word, of_rcid, owner_ok, flushed_owners};
ghost use Rattle.units.specs.Counts.{noted, emptied, refilled, flushed};
ghost use Rattle.unit_tables.specs.View.{Limits, Identifiers, CountersOk};

use monitor::counted_fill;
use unit_tables::{emptied_counter, is_of, none_seen, owner_mcid, owner_word, seen_ok, with_owner};
use words::{LittleEndian, put, word};

// Whether every owner is well formed.
pub fn owners_ok(owners: &[u8], nr: u32, nm: u32, na: u32) -> bool
    requires { Limits nr nm na }
    ensures { result ≡ all_below (length (table_of 4 owners.now)) (λ i. owner_ok nr nm na (get_or (table_of 4 owners.now) i 0)) }
{
    let mut seen = none_seen();
    for i in 0..owners.len() / 4 {
        let owner = u32::load(owners, i * 4);
        seen = with_owner(seen, owner, nr, nm, na);
    }
    seen_ok(seen, nr, nm, na)
}

// Counts an emptied unit for its owner.
fn count_emptied(counters: &mut [u8], events: &[u8], owner: u32)
    ensures { table_of 8 counters.new ≡ emptied 0 (table_of 2 events.now) evicted (table_of 8 counters.old) owner }
{
    let i = owner_mcid(owner);
    let counter = emptied_counter(owner, word(counters, i, 0), word(events, i, 0));
    put(counters, i, counter);
}

// Counts a fill for its MCID.
fn count_filled(w: u64, counters: &mut [u8], events: &[u8], mcid: u64, at: u64)
    requires { (w ≤ 62) × (get capacity_ctr (get_or (table_of 8 counters.old) mcid 0) < 2 ^ w) }
    ensures { table_of 8 counters.new ≡ noted 0 (table_of 2 events.now) (filled w) (table_of 8 counters.old) mcid at }
{
    let i = mcid as usize;
    let counter = counted_fill(w, word(counters, i, 0), word(events, i, 0), at);
    put(counters, i, counter);
}

// An eviction: the unit counts for its owner and becomes free.
pub fn evict(owners: &mut [u8], counters: &mut [u8], events: &[u8], unit: usize)
    ensures { (os ns es : List ℕ) → Holds 4 owners.old os → Holds 8 counters.old ns → Holds 2 events.now es
        → (owners.new ≡ bytes_of_all 4 (set os unit 0)) × (counters.new ≡ bytes_of_all 8 (emptied 0 es evicted ns (get_or os unit 0))) }
{
    count_emptied(counters, events, word(owners, unit, 0));
    put(owners, unit, 0u32);
}

// An allowed fill: the unit counts for the owner it had, and then for its new one, which may have the same MCID.
pub fn fill(
    w: u64,
    owners: &mut [u8],
    counters: &mut [u8],
    events: &[u8],
    rcid: u64,
    mcid: u64,
    at: u64,
    unit: usize,
)
    requires { Identifiers rcid mcid at × CountersOk w (table_of 8 counters.old) }
    ensures { (os ns es : List ℕ) → Holds 4 owners.old os → Holds 8 counters.old ns → Holds 2 events.now es
        → (owners.new ≡ bytes_of_all 4 (set os unit (owner_word rcid mcid at))) × (counters.new ≡ bytes_of_all 8 (refilled 0 es (filled w) evicted ns (get_or os unit 0) mcid at)) }
{
    let old = word(owners, unit, 0);
    count_emptied(counters, events, old);
    count_filled(w, counters, events, mcid, at);
    put(owners, unit, owner_word(rcid, mcid, at));
}

// An eviction where the RCID owns the unit.
fn flush_unit(owners: &mut [u8], counters: &mut [u8], events: &[u8], rcid: u64, unit: usize)
    ensures { (table_of 4 owners.new ≡ cond (of_rcid rcid (get_or (table_of 4 owners.old) unit 0)) (set (table_of 4 owners.old) unit 0) (table_of 4 owners.old))
        × (table_of 8 counters.new ≡ cond (of_rcid rcid (get_or (table_of 4 owners.old) unit 0))
        (emptied 0 (table_of 2 events.now) evicted (table_of 8 counters.old) (get_or (table_of 4 owners.old) unit 0)) (table_of 8 counters.old)) }
{
    let owner = word(owners, unit, 0);
    if is_of(owner, rcid) {
        count_emptied(counters, events, owner);
        put(owners, unit, 0u32);
    }
}

// FLUSH_RCID: every unit that the RCID owns becomes free, and counts for its owner.
pub fn flush(owners: &mut [u8], counters: &mut [u8], events: &[u8], rcid: u64)
    ensures { (os ns es : List ℕ) → Holds 4 owners.old os → Holds 8 counters.old ns → Holds 2 events.now es
        → (owners.new ≡ bytes_of_all 4 (flushed_owners rcid os)) × (counters.new ≡ bytes_of_all 8 (flushed 0 es evicted rcid os ns)) }
{
    for i in 0..owners.len() / 4 {
        flush_unit(owners, counters, events, rcid, i);
    }
}

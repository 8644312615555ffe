// The capacity controller's functions for C, on bytes.
ghost use Rattle.std.specs.Prelude.{◌≡◌, [], ◌∷◌};
ghost use Rattle.capacity_model.specs.Calls.{reset, read, write, fill, evict};
ghost use Rattle.replies.specs.Replies.{reply};
ghost use Rattle.capacity_bytes.specs.Bytes.{setup_by, step_bytes, lent};

use crate::number;
use capacity_masks::Setup;

#[unsafe(no_mangle)]
pub extern "C" fn cbqri_capacity_reset(
    ncblks: u64,
    nr: u64,
    na: u64,
    nm: u64,
    w: u64,
    u: u64,
    record: &mut [u8],
    masks: &mut [u8],
    counters: &mut [u8],
    events: &mut [u8],
    owners: &mut [u8],
) -> u64
    ensures { reply result [] (lent «record».new masks.new counters.new events.new owners.new) ≡ step_bytes (lent «record».old masks.old counters.old events.old owners.old) (reset (setup_by ncblks nr na nm w u)) }
{
    let setup = Setup {
        ncblks,
        nr,
        na,
        nm,
        w,
        units: u,
    };
    number(capacity_bytes::reset::reset(setup, record, masks, counters, events, owners))
}

#[unsafe(no_mangle)]
pub extern "C" fn cbqri_capacity_read(
    record: &[u8],
    masks: &[u8],
    counters: &[u8],
    events: &[u8],
    owners: &[u8],
    size: u64,
    offset: u64,
    value: &mut u64,
) -> u64
    ensures { reply result (value.new ∷ []) (lent «record».now masks.now counters.now events.now owners.now) ≡ step_bytes (lent «record».now masks.now counters.now events.now owners.now) (read size offset) }
{
    match capacity_bytes::read(record, masks, counters, events, owners, size, offset) {
        Ok(word) => {
            *value = word;
            0
        }
        Err(why) => {
            *value = 0;
            u64::from(why)
        }
    }
}

#[unsafe(no_mangle)]
pub extern "C" fn cbqri_capacity_write(
    record: &mut [u8],
    masks: &mut [u8],
    counters: &mut [u8],
    events: &mut [u8],
    owners: &mut [u8],
    size: u64,
    offset: u64,
    value: u64,
) -> u64
    ensures { reply result [] (lent «record».new masks.new counters.new events.new owners.new) ≡ step_bytes (lent «record».old masks.old counters.old events.old owners.old) (write size offset value) }
{
    number(capacity_bytes::write(record, masks, counters, events, owners, size, offset, value))
}

#[unsafe(no_mangle)]
pub extern "C" fn cbqri_capacity_fill(
    record: &mut [u8],
    masks: &[u8],
    counters: &mut [u8],
    events: &[u8],
    owners: &mut [u8],
    rcid: u64,
    mcid: u64,
    at: u64,
    unit: u64,
    allowed: &mut u64,
) -> u64
    ensures { reply result (allowed.new ∷ []) (lent «record».new masks.now counters.new events.now owners.new) ≡ step_bytes (lent «record».old masks.now counters.old events.now owners.old) (fill rcid mcid at unit) }
{
    let filled = capacity_bytes::fill(
        record, masks, counters, events, owners, rcid, mcid, at, unit,
    );
    match filled {
        Ok(fits) => {
            *allowed = u64::from(fits);
            0
        }
        Err(why) => {
            *allowed = 0;
            u64::from(why)
        }
    }
}

#[unsafe(no_mangle)]
pub extern "C" fn cbqri_capacity_evict(
    record: &mut [u8],
    masks: &[u8],
    counters: &mut [u8],
    events: &[u8],
    owners: &mut [u8],
    unit: u64,
) -> u64
    ensures { reply result [] (lent «record».new masks.now counters.new events.now owners.new) ≡ step_bytes (lent «record».old masks.now counters.old events.now owners.old) (evict unit) }
{
    number(capacity_bytes::evict(record, masks, counters, events, owners, unit))
}

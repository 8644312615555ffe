// Reads and writes of the registers.
ghost use Rattle.std.specs.Prelude.{◌≡◌, []};
ghost use Rattle.access.specs.View.{refusal_in};
ghost use Rattle.replies.specs.Replies.{reply};
ghost use Rattle.capacity_model.specs.Calls.{read, write};
ghost use Rattle.capacity.specs.View.{reading_of};
ghost use Rattle.capacity_bytes.specs.Bytes.{lent, step_bytes};
ghost use Rattle.capacity_bytes.specs.View.{values_in};

use crate::cache::flush_if;
use crate::check::checked;
use crate::record::store_record;
use access::Refusal;
use capacity_masks::{named_pair, named_rcid};
use monitor::named_mcid;
use words::{put, word};

pub fn read(
    record: &[u8],
    masks: &[u8],
    counters: &[u8],
    events: &[u8],
    owners: &[u8],
    size: u64,
    offset: u64,
) -> Result<u64, Refusal>
    ensures { reply (refusal_in result) (values_in 1 (reading_of result)) (lent «record».now masks.now counters.now events.now owners.now) ≡ step_bytes (lent «record».now masks.now counters.now events.now owners.now) (read size offset) }
{
    let held = checked(record, masks, counters, events, owners)?;
    held.reading(size, offset)
}

pub fn write(
    record: &mut [u8],
    masks: &mut [u8],
    counters: &mut [u8],
    events: &mut [u8],
    owners: &mut [u8],
    size: u64,
    offset: u64,
    value: u64,
) -> Result<(), Refusal>
    ensures { reply (refusal_in result) [] (lent «record».new masks.new counters.new events.new owners.new) ≡ step_bytes (lent «record».old masks.old counters.old events.old owners.old) (write size offset value) }
{
    let held = checked(record, masks, counters, events, owners)?;
    let p = named_pair(held.setup, value);
    let i = named_mcid(value);
    let left = held.write_words(
        word(masks, p, 0),
        word(counters, i, 0),
        word(events, i, 0),
        size,
        offset,
        value,
    )?;
    put(masks, p, left.mask);
    put(counters, i, left.counter);
    put(events, i, left.setting);
    flush_if(left.flushes, owners, counters, events, named_rcid(value));
    store_record(left.record, record);
    Ok(())
}

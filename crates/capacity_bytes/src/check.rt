// Checks 1 to 3.
ghost use Rattle.std.specs.Prelude.{◌≡◌};
ghost use Rattle.words.specs.Words.{table_of};
ghost use Rattle.capacity_model.specs.View.{Ranges, Sized};
ghost use Rattle.capacity_model.specs.Model.{well_formed};
ghost use Rattle.capacity_masks.specs.View.{setup_of};
ghost use Rattle.capacity.specs.View.{state};
ghost use Rattle.capacity_bytes.specs.Bytes.{lent};
ghost use Rattle.capacity_bytes.specs.View.{Checked};

use crate::lent::load;
use access::Refusal;
use capacity::Record;
use capacity_masks::union_ok;
use codes::Resource;
use monitor_bytes::{counters_ok, events_ok};
use unit_bytes::owners_ok;
use words::union64;

// Check 3.
fn well_formed(held: &Record, masks: &[u8], counters: &[u8], events: &[u8], owners: &[u8]) -> bool
    requires { Ranges (setup_of held.now.setup) × Sized (setup_of held.now.setup) (table_of 8 masks.now) (table_of 8 counters.now) (table_of 2 events.now) (table_of 4 owners.now) }
    ensures { result ≡ well_formed (state held.now (table_of 8 masks.now) (table_of 8 counters.now) (table_of 2 events.now) (table_of 4 owners.now)) }
{
    let setup = held.setup;
    held.judge(
        union_ok(setup, union64(masks)),
        counters_ok(Resource::Capacity, counters, setup.w as u32),
        events_ok(events, setup.na as u16, Resource::Capacity),
        owners_ok(owners, setup.nr as u32, setup.nm as u32, setup.na as u32),
    )
}

// Checks 1 to 3: the record.
pub fn checked(
    record: &[u8],
    masks: &[u8],
    counters: &[u8],
    events: &[u8],
    owners: &[u8],
) -> Result<Record, Refusal>
    ensures { Checked (lent «record».now masks.now counters.now events.now owners.now) result }
{
    let held = load(record, masks, counters, events, owners)?;
    if well_formed(&held, masks, counters, events, owners) {
        Ok(held)
    } else {
        Err(Refusal::State)
    }
}

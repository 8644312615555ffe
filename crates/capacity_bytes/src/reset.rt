// Resets.
ghost use Rattle.std.specs.Prelude.{◌≡◌, [], ◌*◌, length};
ghost use Rattle.words.specs.Words.{bytes_of_all};
ghost use Rattle.access.specs.View.{refusal_in};
ghost use Rattle.replies.specs.Replies.{reply};
ghost use Rattle.capacity_model.specs.Calls.{reset};
ghost use Rattle.capacity_model.specs.View.{Ranges};
ghost use Rattle.capacity_model.specs.Rules.{pairs, reset_masks};
ghost use Rattle.capacity_masks.specs.View.{setup_of};
ghost use Rattle.capacity_bytes.specs.Bytes.{lent, step_bytes};

use crate::lent::check_lengths;
use crate::record::store_record;
use access::Refusal;
use capacity::Record;
use capacity_masks::{Setup, all_blocks};
use words::encode;

// The masks of a reset: every block for each AT of RCID 0, and else none.
fn reset_masks(setup: Setup, masks: &mut [u8])
    requires { Ranges (setup_of setup) × (length masks.old ≡ pairs (setup_of setup) * 8) }
    ensures { masks.new ≡ bytes_of_all 8 (reset_masks (setup_of setup)) }
{
    let na = setup.na as usize;
    let end = na * 8;
    let row = [all_blocks(setup); 8];
    masks.fill(0);
    encode(&row[..na], &mut masks[..end]);
}

pub fn reset(
    setup: Setup,
    record: &mut [u8],
    masks: &mut [u8],
    counters: &mut [u8],
    events: &mut [u8],
    owners: &mut [u8],
) -> Result<(), Refusal>
    ensures { reply (refusal_in result) [] (lent «record».new masks.new counters.new events.new owners.new) ≡ step_bytes (lent «record».old masks.old counters.old events.old owners.old) (reset (setup_of setup)) }
{
    check_lengths(setup, record, masks, counters, events, owners)?;
    store_record(Record::fresh(setup), record);
    reset_masks(setup, masks);
    counters.fill(0);
    events.fill(0);
    owners.fill(0);
    Ok(())
}

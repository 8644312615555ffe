// The lengths of the lent bytes.
ghost use Rattle.std.specs.Prelude.{◌≡◌, IfOk};
ghost use Rattle.words.specs.Words.{words_of};
ghost use Rattle.access.specs.View.{refusal_in};
ghost use Rattle.capacity_masks.specs.View.{setup_of};
ghost use Rattle.capacity_bytes.specs.Bytes.{lent, state_of, byte_refusal};
ghost use Rattle.capacity_bytes.specs.View.{words_in};

use crate::record::{RECORD_BYTES, load_record};
use access::Refusal;
use capacity::Record;
use capacity_masks::Setup;

// Checks 1 and 2.
pub fn check_lengths(
    setup: Setup,
    record: &[u8],
    masks: &[u8],
    counters: &[u8],
    events: &[u8],
    owners: &[u8],
) -> Result<(), Refusal>
    ensures { refusal_in result ≡ byte_refusal (setup_of setup) (lent «record».now masks.now counters.now events.now owners.now) }
{
    if record.len() != RECORD_BYTES {
        return Err(Refusal::Setup);
    }
    if !setup.in_range() {
        return Err(Refusal::Setup);
    }
    let pairs = setup.pairs() as usize;
    let nm = setup.nm as usize;
    let units = setup.unit_count() as usize;
    let fit = (masks.len() == pairs * 8)
        & (counters.len() == nm * 8)
        & (events.len() == nm * 2)
        & (owners.len() == units * 4);
    if fit { Ok(()) } else { Err(Refusal::Length) }
}

// Checks 1 and 2 by the set-up that the record holds: the record.
pub fn load(
    record: &[u8],
    masks: &[u8],
    counters: &[u8],
    events: &[u8],
    owners: &[u8],
) -> Result<Record, Refusal>
    ensures refusal { refusal_in result ≡ byte_refusal (state_of (lent «record».now masks.now counters.now events.now owners.now)).setup (lent «record».now masks.now counters.now events.now owners.now) }
    ensures loaded { IfOk result (λ r. words_in r ≡ words_of 8 10 «record».now) }
{
    if record.len() != RECORD_BYTES {
        return Err(Refusal::Setup);
    }
    let held = load_record(record);
    check_lengths(held.setup, record, masks, counters, events, owners)?;
    Ok(held)
}

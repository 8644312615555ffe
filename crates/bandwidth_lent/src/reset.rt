// Resets on bytes.
ghost use Rattle.std.specs.Prelude.{◌≡◌, [], ◌*◌, length};
ghost use Rattle.bandwidth_setup.specs.View.{setup_of};
ghost use Rattle.words.specs.Words.{bytes_of_all};
ghost use Rattle.access.specs.View.{refusal_in};
ghost use Rattle.replies.specs.Replies.{reply};
ghost use Rattle.bandwidth_model.specs.Rules.{pairs, reset_table};
ghost use Rattle.bandwidth_model.specs.View.{Ranges};
ghost use Rattle.bandwidth_model.specs.Calls.{reset};
ghost use Rattle.bandwidth_lent.specs.Bytes.{lent, step_bytes};
ghost use Rattle.bandwidth_lent.specs.View.{Tables, Fresh};

use crate::lent::check_lengths;
use crate::record::store_record;
use access::Refusal;
use bandwidth::{Record, reset_row};
use bandwidth_setup::Setup;
use words::store_part;

// The settings of a reset, with the words of RCID 0 set out in `row`.
fn fill_table(setup: Setup, table: &mut [u8], row: &mut [u32])
    requires { Ranges (setup_of setup) × ((length table.old ≡ pairs (setup_of setup) * 4) × (length row.old ≡ setup.na)) }
    ensures { table.new ≡ bytes_of_all 4 (reset_table (setup_of setup)) }
{
    reset_row(setup, row);
    table.fill(0);
    store_part(row, table, 0);
}

fn reset_table(setup: Setup, table: &mut [u8])
    requires { Ranges (setup_of setup) × (length table.old ≡ pairs (setup_of setup) * 4) }
    ensures { table.new ≡ bytes_of_all 4 (reset_table (setup_of setup)) }
{
    let na = setup.na as usize;
    let mut row = [0u32; 8];
    fill_table(setup, table, &mut row[..na]);
}

// The bytes of all tables of a reset.
fn reset_tables(
    setup: Setup,
    active: &mut [u8],
    configured: &mut [u8],
    used: &mut [u8],
    counters: &mut [u8],
    events: &mut [u8],
    waiters: &mut [u8],
)
    requires { Ranges (setup_of setup) × Tables (setup_of setup) active.old configured.old used.old counters.old events.old waiters.old }
    ensures { Fresh (setup_of setup) active.new configured.new used.new counters.new events.new waiters.new }
{
    reset_table(setup, active);
    reset_table(setup, configured);
    used.fill(0);
    counters.fill(0);
    events.fill(0);
    waiters.fill(0);
}

pub fn reset(
    record: &mut [u8],
    active: &mut [u8],
    configured: &mut [u8],
    used: &mut [u8],
    counters: &mut [u8],
    events: &mut [u8],
    waiters: &mut [u8],
    setup: Setup,
) -> Result<(), Refusal>
    ensures { reply (refusal_in result) [] (lent «record».new active.new configured.new used.new counters.new events.new waiters.new) ≡ step_bytes (lent «record».old active.old configured.old used.old counters.old events.old waiters.old) (reset (setup_of setup)) }
{
    check_lengths(
        setup, record, active, configured, used, counters, events, waiters,
    )?;
    store_record(Record::fresh(setup), record);
    reset_tables(setup, active, configured, used, counters, events, waiters);
    Ok(())
}

// Writes on bytes.
ghost use Rattle.std.specs.Prelude.{◌≡◌, List, [], ℕ, ◌+◌, ◌*◌, ◌≤◌, length};
ghost use Rattle.words.specs.Words.{bytes_of_all, Holds};
ghost use Rattle.bandwidth_setup.specs.View.{setup_of};
ghost use Rattle.bandwidth_settings.specs.View.{Ready};
ghost use Rattle.bandwidth_settings.specs.Rows.{Reserves};
ghost use Rattle.access.specs.View.{refusal_in};
ghost use Rattle.replies.specs.Replies.{reply};
ghost use Rattle.bandwidth_model.specs.Calls.{write};
ghost use Rattle.bandwidth_model.specs.Model.{write_alloc, write_at};
ghost use Rattle.bandwidth_lent.specs.Bytes.{lent, lent_of, step_bytes};
ghost use Rattle.bandwidth_lent.specs.View.{words_in, state_in, Passing};
ghost use Rattle.bandwidth_bytes.specs.View.{Wrote, Stores};

use access::{Refusal, check_write};
use bandwidth::Record;
use bandwidth_lent::{Held, checked, store_record};
use bandwidth_settings::{Written, bw_word, row_named, write_row};
use bandwidth_setup::Setup;
use codes::Resource;
use monitor::{Registers, mon_status};
use monitor_bytes::write_mon;
use words::{load_part, store_part};

// A write of v to alloc_ctl by n words of the RCID that it names from the word `from` on, with an array for them.
fn write_loaded(
    setup: Setup,
    configured: &mut [u8],
    from: usize,
    row: &mut [u32],
    n: usize,
    reserved: u64,
    bw: u64,
    v: u64,
) -> Written
    requires { Reserves (setup_of setup) reserved × (((from + n) * 4 ≤ length configured.old) × (length row.old ≡ n)) }
    ensures { Wrote (setup_of setup) configured.old from n reserved bw v configured.new result }
{
    load_part(configured, from, row);
    let done = write_row(setup, row, reserved, bw, v);
    store_part(row, configured, from);
    done
}

// The write of v to alloc_ctl.
fn write_alloc(setup: Setup, configured: &mut [u8], reserved: u64, bw: u64, v: u64) -> Written
    requires { Reserves (setup_of setup) reserved × (setup.nr * setup.na * 4 ≤ length configured.old) }
    ensures { (ws : List ℕ) → Holds 4 configured.old ws → Ready (setup_of setup) ws reserved → Stores (write_alloc (setup_of setup) bw ws v) result configured.new }
{
    let place = row_named(setup, v);
    let n = place.end - place.start;
    let mut row = [0u32; 8];
    write_loaded(
        setup,
        configured,
        place.start,
        &mut row[..n],
        n,
        reserved,
        bw,
        v,
    )
}

// Performs a write's operation on the tables, and returns the record with the registers after it.
fn store(
    held: Held,
    record: &[u8],
    active: &[u8],
    configured: &mut [u8],
    used: &[u8],
    counters: &mut [u8],
    events: &mut [u8],
    waiters: &[u8],
    offset: u64,
    value: u64,
) -> Record
    requires { Passing (lent «record».now active.now configured.old used.now counters.old events.old waiters.now) held }
    ensures { lent (bytes_of_all 8 (words_in result)) active.now configured.new used.now counters.new events.new waiters.now
        ≡ lent_of (write_at (state_in (lent «record».now active.now configured.old used.now counters.old events.old waiters.now) held.«record») offset value) }
{
    let mut next = held.record;
    let totals = held.totals;
    let setup = next.setup;
    match offset {
        24 => {
            let done = write_alloc(setup, configured, totals.configured, next.bw_alloc, value);
            next.alloc_ctl = done.ctl;
            next.bw_alloc = done.bw;
        }
        32 => {
            next.bw_alloc = bw_word(value);
        }
        8 => {
            let old = Registers {
                ctl: next.mon_ctl,
                value: next.mon_ctr_val,
            };
            let status = mon_status(Resource::Bandwidth, setup.na, setup.nm, value);
            let done = write_mon(setup.na, status, old, counters, events, value);
            next.mon_ctl = done.ctl;
            next.mon_ctr_val = done.value;
        }
        _ => {}
    }
    next
}

pub fn write(
    record: &mut [u8],
    active: &[u8],
    configured: &mut [u8],
    used: &[u8],
    counters: &mut [u8],
    events: &mut [u8],
    waiters: &[u8],
    size: u64,
    offset: u64,
    value: u64,
) -> Result<(), Refusal>
    ensures { reply (refusal_in result) [] (lent «record».new active.now configured.new used.now counters.new events.new waiters.now) ≡ step_bytes (lent «record».old active.now configured.old used.now counters.old events.old waiters.now) (write size offset value) }
{
    let held = checked(record, active, configured, used, counters, events, waiters)?;
    check_write(size, offset, value)?;
    let next = store(
        held, record, active, configured, used, counters, events, waiters, offset, value,
    );
    store_record(next, record);
    Ok(())
}

// Requests on bytes.
ghost use Rattle.std.specs.Prelude.{◌≡◌, false, ◌||◌, [], ◌∷◌, ℕ, ◌≤◌, leb, length};
ghost use Rattle.bandwidth_setup.specs.View.{setup_of};
ghost use Rattle.access.specs.View.{refusal_in};
ghost use Rattle.replies.specs.Replies.{reply};
ghost use Rattle.access.specs.Refusals.{number_of};
ghost use Rattle.bandwidth_model.specs.Calls.{Call, request, device_request};
ghost use Rattle.bandwidth_model.specs.View.{Requests};
ghost use Rattle.bandwidth_lent.specs.Bytes.{lent, step_bytes};
ghost use Rattle.bandwidth_lent.specs.View.{Passing};
ghost use Rattle.bandwidth_bytes.specs.View.{amounts_in, Asks, GiveFits, Gave};

use access::{Refusal, known_at};
use bandwidth_grants::{Given, Grant, give};
use bandwidth_lent::{Held, checked};
use bandwidth_setup::Setup;
use devices::{identifiers_in, out_of_range};
use monitor_bytes::count_bytes;
use tables::row_of;
use words::{load_part, put, store_part};

// A request by n words of its RCID from the word `from` on, with arrays for them.
fn give_loaded(
    setup: Setup,
    active: &[u8],
    used: &mut [u8],
    from: usize,
    row: &mut [u32],
    spent: &mut [u32],
    n: usize,
    pool: u64,
    reserved: u64,
    at: u64,
    bytes: u64,
) -> Given
    requires { GiveFits (setup_of setup) active.now used.old from n pool reserved at bytes × ((length row.old ≡ n) × (length spent.old ≡ n)) }
    ensures { Gave (setup_of setup) active.now used.old from n pool reserved at bytes used.new result }
{
    load_part(active, from, row);
    load_part(used, from, spent);
    let given = give(setup, row, spent, pool, reserved, at, bytes);
    store_part(spent, used, from);
    given
}

fn give_bytes(
    setup: Setup,
    active: &[u8],
    used: &mut [u8],
    from: usize,
    n: usize,
    pool: u64,
    reserved: u64,
    at: u64,
    bytes: u64,
) -> Given
    requires { GiveFits (setup_of setup) active.now used.old from n pool reserved at bytes × (n ≤ 8) }
    ensures { Gave (setup_of setup) active.now used.old from n pool reserved at bytes used.new result }
{
    let mut row = [0u32; 8];
    let mut spent = [0u32; 8];
    give_loaded(
        setup,
        active,
        used,
        from,
        &mut row[..n],
        &mut spent[..n],
        n,
        pool,
        reserved,
        at,
        bytes,
    )
}

// Grants a request bytes by the words of its RCID, and counts them.
fn serve(
    held: Held,
    record: &mut [u8],
    active: &[u8],
    configured: &[u8],
    used: &mut [u8],
    counters: &mut [u8],
    events: &[u8],
    waiters: &[u8],
    rcid: u64,
    mcid: u64,
    at: u64,
    kind: u64,
    bytes: u32,
) -> Grant
    requires { Passing (lent «record».old active.now configured.now used.old counters.old events.now waiters.now) held
        × ((leb held.«record».setup.nr rcid || leb held.«record».setup.nm mcid) ≡ false) }
    ensures { (c : Call) (n : ℕ) → Requests c n rcid mcid at kind bytes
        → reply 0 (result.reserved ∷ result.pool ∷ []) (lent «record».new active.now configured.now used.new counters.new events.now waiters.now) ≡ step_bytes (lent «record».old active.now configured.now used.old counters.old events.now waiters.now) c }
{
    let given = held.record;
    let totals = held.totals;
    let setup = given.setup;
    let at = known_at(setup.na, at);
    let place = row_of(setup.nr, setup.na, rcid);
    let gave = give_bytes(
        setup,
        active,
        used,
        place.start,
        place.end - place.start,
        given.pool,
        totals.active,
        at,
        bytes as u64,
    );
    put(record, 11, gave.pool);
    let sum = gave.sum;
    count_bytes(setup.w, counters, events, mcid, at, kind, sum);
    gave.grant
}

// A request with these identifiers that passed checks 1 to 3, refused for `unknown` where one of them is out of range.
fn request_by(
    held: Held,
    record: &mut [u8],
    active: &[u8],
    configured: &[u8],
    used: &mut [u8],
    counters: &mut [u8],
    events: &[u8],
    waiters: &[u8],
    rcid: u64,
    mcid: u64,
    unknown: Refusal,
    at: u64,
    kind: u64,
    bytes: u32,
) -> Result<Grant, Refusal>
    requires { Passing (lent «record».old active.now configured.now used.old counters.old events.now waiters.now) held }
    ensures { (c : Call) → Asks c (number_of unknown) rcid mcid at kind bytes
        → reply (refusal_in result) (amounts_in result) (lent «record».new active.now configured.now used.new counters.new events.now waiters.now) ≡ step_bytes (lent «record».old active.now configured.now used.old counters.old events.now waiters.now) c }
{
    let given = held.record;
    let setup = given.setup;
    if (setup.nr <= rcid) | (setup.nm <= mcid) {
        return Err(unknown);
    }
    let grant = serve(
        held, record, active, configured, used, counters, events, waiters, rcid, mcid, at, kind,
        bytes,
    );
    Ok(grant)
}

pub fn request(
    record: &mut [u8],
    active: &[u8],
    configured: &[u8],
    used: &mut [u8],
    counters: &mut [u8],
    events: &[u8],
    waiters: &[u8],
    rcid: u64,
    mcid: u64,
    at: u64,
    kind: u64,
    bytes: u32,
) -> Result<Grant, Refusal>
    ensures { reply (refusal_in result) (amounts_in result) (lent «record».new active.now configured.now used.new counters.new events.now waiters.now) ≡ step_bytes (lent «record».old active.now configured.now used.old counters.old events.now waiters.now) (request rcid mcid at kind bytes) }
{
    let held = checked(record, active, configured, used, counters, events, waiters)?;
    request_by(
        held,
        record,
        active,
        configured,
        used,
        counters,
        events,
        waiters,
        rcid,
        mcid,
        Refusal::Identifier,
        at,
        kind,
        bytes,
    )
}

// A device's request, by the IOMMU's mode and the word of its register or of the device context.
pub fn device_request(
    record: &mut [u8],
    active: &[u8],
    configured: &[u8],
    used: &mut [u8],
    counters: &mut [u8],
    events: &[u8],
    waiters: &[u8],
    mode: u64,
    word: u64,
    at: u64,
    kind: u64,
    bytes: u32,
) -> Result<Grant, Refusal>
    ensures { reply (refusal_in result) (amounts_in result) (lent «record».new active.now configured.now used.new counters.new events.now waiters.now) ≡ step_bytes (lent «record».old active.now configured.now used.old counters.old events.now waiters.now) (device_request mode word at kind bytes) }
{
    let held = checked(record, active, configured, used, counters, events, waiters)?;
    let ids = identifiers_in(mode, word);
    request_by(
        held,
        record,
        active,
        configured,
        used,
        counters,
        events,
        waiters,
        ids.rcid,
        ids.mcid,
        out_of_range(mode),
        at,
        kind,
        bytes,
    )
}

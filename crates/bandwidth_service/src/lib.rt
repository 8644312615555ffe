// All waiters served as a window opens, on bytes: the words of one RCID at a time are loaded and stored.
#![tactic(auto)]

ghost use Rattle.std.specs.Prelude.{◌≡◌, ◌+◌, ◌*◌, ◌≤◌, ◌<◌, length};
ghost use Rattle.tables.specs.View.{Small};
ghost use Rattle.words.specs.Words.{table_of};
ghost use Rattle.tables.specs.Parts.{part};
ghost use Rattle.bandwidth_model.specs.View.{Ranges};
ghost use Rattle.bandwidth_model.specs.Waiters.{held_word, share_weight, weights_below};
ghost use Rattle.bandwidth_grants.specs.Grants.{holder_in};
ghost use Rattle.bandwidth_setup.specs.View.{setup_of};
ghost use Rattle.bandwidth_waiters.specs.Turns.{weight_in, turn, turns};
ghost use Rattle.bandwidth_service.specs.Service.{tables_in, Weighs, ServeFits, Served, Turns, Turned, Begins};

use bandwidth_grants::Given;
use bandwidth_setup::Setup;
use bandwidth_waiters::{serve, served_word, share_weight};
use fields::Waiter;
use monitor_bytes::count_bytes;
use tables::row_of;
use words::{load_part, put, store_part, word};

// The weight of a waiter by n words of its RCID from the word `from` on, with an array for them.
fn weight_loaded(
    setup: Setup,
    active: &[u8],
    from: usize,
    row: &mut [u32],
    n: usize,
    at: u64,
    need: u64,
) -> u64
    requires { Ranges (setup_of setup) × (((from + n) * 4 ≤ length active.now) × (length row.old ≡ n)) }
    ensures { Small (share_weight (setup_of setup) (held_word (part from n (table_of 4 active.now)) (holder_in (part from n (table_of 4 active.now)) at)) need) 255 result }
{
    load_part(active, from, row);
    share_weight(setup, row, at, need)
}

// The weight of an RCID's waiter, 0 where none waits.
fn weight_at(setup: Setup, active: &[u8], waiters: &[u8], rcid: usize) -> u64
    requires { Weighs (setup_of setup) active.now waiters.now × (rcid < setup.nr) }
    ensures { Small (weight_in (setup_of setup) (table_of 4 active.now) (table_of 8 waiters.now) rcid) 255 result }
{
    let word = word(waiters, rcid, 0);
    if word == 0 {
        return 0;
    }
    let waiter = Waiter::unpack(word);
    let place = row_of(setup.nr, setup.na, rcid as u64);
    let n = place.end - place.start;
    let mut row = [0u32; 8];
    weight_loaded(
        setup,
        active,
        place.start,
        &mut row[..n],
        n,
        waiter.at,
        waiter.need,
    )
}

// The sum of the weights of all waiters.
pub fn weights_of(setup: Setup, active: &[u8], waiters: &[u8]) -> u64
    requires { Weighs (setup_of setup) active.now waiters.now }
    ensures { result ≡ weights_below (setup_of setup) (table_of 4 active.now) (table_of 8 waiters.now) setup.nr }
{
    let mut sum = 0u64;
    for rcid in 0..waiters.len() / 8 {
        sum += weight_at(setup, active, waiters, rcid);
    }
    sum
}

// A waiter by n words of its RCID from the word `from` on, with arrays for them.
fn serve_loaded(
    setup: Setup,
    active: &[u8],
    used: &mut [u8],
    from: usize,
    row: &mut [u32],
    spent: &mut [u32],
    n: usize,
    pool: u64,
    size: u64,
    weights: u64,
    at: u64,
    need: u64,
) -> Given
    requires { ServeFits (setup_of setup) active.now used.old from n pool size need × ((length row.old ≡ n) × (length spent.old ≡ n)) }
    ensures { Served (setup_of setup) active.now used.old from n pool size weights at need used.new result }
{
    load_part(active, from, row);
    load_part(used, from, spent);
    let given = serve(setup, row, spent, pool, size, weights, at, need);
    store_part(spent, used, from);
    given
}

fn serve_bytes(
    setup: Setup,
    active: &[u8],
    used: &mut [u8],
    from: usize,
    n: usize,
    pool: u64,
    size: u64,
    weights: u64,
    at: u64,
    need: u64,
) -> Given
    requires { ServeFits (setup_of setup) active.now used.old from n pool size need × (n ≤ 8) }
    ensures { Served (setup_of setup) active.now used.old from n pool size weights at need used.new result }
{
    let mut row = [0u32; 8];
    let mut spent = [0u32; 8];
    serve_loaded(
        setup,
        active,
        used,
        from,
        &mut row[..n],
        &mut spent[..n],
        n,
        pool,
        size,
        weights,
        at,
        need,
    )
}

// The turn of an RCID; returns what the pool gave then.
fn serve_at(
    setup: Setup,
    active: &[u8],
    used: &mut [u8],
    counters: &mut [u8],
    events: &[u8],
    waiters: &mut [u8],
    size: u64,
    weights: u64,
    pool: u64,
    rcid: usize,
) -> u64
    requires { Turns (setup_of setup) active.now used.old counters.old events.now waiters.old size pool rcid }
    ensures { Turned (turn (setup_of setup) (table_of 4 active.now) (table_of 2 events.now) size weights
        (tables_in used.old pool counters.old waiters.old) rcid) used.new result counters.new waiters.new }
{
    let word = word(waiters, rcid, 0);
    if word == 0 {
        return pool;
    }
    let waiter = Waiter::unpack(word);
    let place = row_of(setup.nr, setup.na, rcid as u64);
    let given = serve_bytes(
        setup,
        active,
        used,
        place.start,
        place.end - place.start,
        pool,
        size,
        weights,
        waiter.at,
        waiter.need,
    );
    let sum = given.sum;
    count_bytes(
        setup.w,
        counters,
        events,
        waiter.mcid,
        waiter.at,
        waiter.write,
        sum,
    );
    put(waiters, rcid, served_word(word, sum));
    given.pool
}

// The turns of all RCIDs, from a window in which nothing is used; returns what the pool gave.
pub fn serve_all(
    setup: Setup,
    active: &[u8],
    used: &mut [u8],
    counters: &mut [u8],
    events: &[u8],
    waiters: &mut [u8],
    size: u64,
    weights: u64,
) -> u64
    requires { Begins (setup_of setup) active.now used.old counters.old events.now waiters.old size weights }
    ensures { Turned (turns (setup_of setup) (table_of 4 active.now) (table_of 2 events.now) size weights
        (tables_in used.old 0 counters.old waiters.old) setup.nr) used.new result counters.new waiters.new }
{
    let mut pool = 0u64;
    for rcid in 0..setup.nr as usize {
        pool = serve_at(
            setup, active, used, counters, events, waiters, size, weights, pool, rcid,
        );
    }
    pool
}

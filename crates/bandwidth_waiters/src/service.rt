// All waiters served as a window opens, in two passes over the RCIDs: the sum of the weights, then the turn of each.
ghost use Rattle.std.specs.Prelude.{◌≡◌, ◌<◌, replicate};
ghost use Rattle.tables.specs.View.{Small};
ghost use Rattle.bandwidth_model.specs.Rules.{pairs, pool_of};
ghost use Rattle.bandwidth_model.specs.Waiters.{weights_below};
ghost use Rattle.bandwidth_setup.specs.View.{setup_of};
ghost use Rattle.bandwidth_waiters.specs.Turns.{tables, weight_in, turn, turns, Opens, Ready};

use crate::words::served_word;
use crate::{serve, share_weight};
use bandwidth_setup::Setup;
use fields::Waiter;
use monitor::count_bytes;
use std::ops::Range;
use tables::{put, row_of};

// The weight of an RCID's waiter, 0 where none waits.
fn weight_at(setup: Setup, active: &[u32], waiters: &[u64], rcid: usize) -> u64
    requires { Opens (setup_of setup) active.now waiters.now × (rcid < setup.nr) }
    ensures { Small (weight_in (setup_of setup) active.now waiters.now rcid) 255 result }
{
    let word = tables::word(waiters, rcid, 0);
    if word == 0 {
        return 0;
    }
    let waiter = Waiter::unpack(word);
    let row = row_of(setup.nr, setup.na, rcid as u64);
    share_weight(setup, &active[row], waiter.at, waiter.need)
}

// The sum of the weights of all waiters.
pub fn weights_of(setup: Setup, active: &[u32], waiters: &[u64]) -> u64
    requires { Opens (setup_of setup) active.now waiters.now }
    ensures { result ≡ weights_below (setup_of setup) active.now waiters.now setup.nr }
{
    let mut sum = 0u64;
    for rcid in 0..waiters.len() {
        sum += weight_at(setup, active, waiters, rcid);
    }
    sum
}

// The turn of an RCID; returns what the pool gave then.
fn serve_at(
    setup: Setup,
    active: &[u32],
    used: &mut [u32],
    counters: &mut [u64],
    events: &[u16],
    waiters: &mut [u64],
    size: u64,
    weights: u64,
    pool: u64,
    rcid: usize,
) -> u64
    requires { Ready (setup_of setup) active.now size (tables used.old pool counters.old waiters.old) rcid }
    ensures { tables used.new result counters.new waiters.new
        ≡ turn (setup_of setup) active.now events.now size weights (tables used.old pool counters.old waiters.old) rcid }
{
    let word = tables::word(waiters, rcid, 0);
    if word == 0 {
        return pool;
    }
    let waiter = Waiter::unpack(word);
    let Range { start, end } = row_of(setup.nr, setup.na, rcid as u64);
    let given = serve(
        setup,
        &active[start..end],
        &mut used[start..end],
        pool,
        size,
        weights,
        waiter.at,
        waiter.need,
    );
    let sum = given.sum;
    count_bytes(
        setup.w,
        counters,
        events,
        waiter.mcid,
        waiter.at,
        waiter.write,
        sum,
    );
    put(waiters, rcid, served_word(word, sum));
    given.pool
}

// The turns of all RCIDs, from a window in which nothing is used; returns what the pool gave.
pub fn serve_all(
    setup: Setup,
    active: &[u32],
    used: &mut [u32],
    counters: &mut [u64],
    events: &[u16],
    waiters: &mut [u64],
    size: u64,
    weights: u64,
) -> u64
    requires { Opens (setup_of setup) active.now waiters.old × ((used.old ≡ replicate (pairs (setup_of setup)) 0)
        × ((size ≡ pool_of (setup_of setup) active.now) × (weights ≡ weights_below (setup_of setup) active.now waiters.old setup.nr))) }
    ensures { tables used.new result counters.new waiters.new
        ≡ turns (setup_of setup) active.now events.now size weights (tables used.old 0 counters.old waiters.old) setup.nr }
{
    let mut pool = 0u64;
    for rcid in 0..waiters.len() {
        pool = serve_at(
            setup, active, used, counters, events, waiters, size, weights, pool, rcid,
        );
    }
    pool
}

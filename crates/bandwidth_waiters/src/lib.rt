// Requests that wait: the words of waiters, and what a waiter is served by the words of its RCID as a window opens.
#![tactic(auto)]

mod service;
mod words;

ghost use Rattle.std.specs.Prelude.{◌≡◌, ◌*◌, ◌/◌, ◌^◌, ◌≤◌};
ghost use Rattle.tables.specs.View.{Small};
ghost use Rattle.bandwidth_model.specs.View.{Ranges};
ghost use Rattle.bandwidth_model.specs.Waiters.{held_word, share_weight};
ghost use Rattle.bandwidth_setup.specs.View.{setup_of};
ghost use Rattle.bandwidth_grants.specs.View.{holder_from, grant_from};
ghost use Rattle.bandwidth_grants.specs.Grants.{holder_in};
ghost use Rattle.bandwidth_waiters.specs.Served.{Served, RowOpens, RowServed};

use bandwidth_grants::{Given, Grant, from_reservation, holder_of, spend};
use bandwidth_setup::Setup;
use fields::field;
pub use service::{serve_all, weights_of};
use tables::pick;
pub use words::{check_wait, need_of, put_word, served_word, waiter_ok, waiters_ok};

// A holder's word in force, by its RCID's words; 0 for nobody.
fn held_word(row: &[u32], holder: Option<u64>) -> u64
    ensures { result ≡ held_word row.now (holder_from holder) }
{
    match holder {
        None => 0,
        Some(i) => u64::from(tables::word(row, i as usize, 0)),
    }
}

// The weight by which a waiter with this holder's word shares the pool: none where the reservation meets its need.
fn weight_by(setup: Setup, word: u64, need: u64) -> u64
    requires { Ranges (setup_of setup) }
    ensures { Small (share_weight (setup_of setup) word need) 255 result }
{
    let own = from_reservation(setup, word, 0, need);
    pick(need - own == 0, 0, field(word, 20, 8))
}

// The same by the words of its RCID.
pub fn share_weight(setup: Setup, row: &[u32], at: u64, need: u64) -> u64
    requires { Ranges (setup_of setup) }
    ensures { Small (share_weight (setup_of setup) (held_word row.now (holder_in row.now at)) need) 255 result }
{
    let holder = holder_of(row, at);
    weight_by(setup, held_word(row, holder), need)
}

// The part of a pool that a weight has among the sum of all, rounded down.
fn share(size: u64, weight: u64, weights: u64) -> u64
    requires { (size ≤ 2 ^ 32) × (weight ≤ 255) }
    ensures { result ≡ size * weight / weights }
{
    if weights == 0 {
        0
    } else {
        size * weight / weights
    }
}

// Both amounts that a waiter is served, by its holder's word, of a pool of `size` bytes.
fn served_of(setup: Setup, size: u64, weights: u64, word: u64, need: u64) -> Grant
    requires { Ranges (setup_of setup) × (size ≤ 2 ^ 32) }
    ensures { Served (setup_of setup) size weights word need (grant_from result) }
{
    let own = from_reservation(setup, word, 0, need);
    let weight = weight_by(setup, word, need);
    Grant {
        reserved: own,
        pool: (need - own).min(share(size, weight, weights)),
    }
}

// Serves the waiter of an AT, by its RCID's words in force and used, none of which is used yet; `pool` is what the pool gave already.
pub fn serve(
    setup: Setup,
    row: &[u32],
    used: &mut [u32],
    pool: u64,
    size: u64,
    weights: u64,
    at: u64,
    need: u64,
) -> Given
    requires { RowOpens (setup_of setup) used.old pool size need }
    ensures { RowServed (setup_of setup) size weights row.now used.old pool at need used.new (grant_from result.grant) result.sum result.pool }
{
    let holder = holder_of(row, at);
    let grant = served_of(setup, size, weights, held_word(row, holder), need);
    let pool = spend(used, pool, holder, grant);
    Given {
        grant,
        sum: grant.reserved + grant.pool,
        pool,
    }
}

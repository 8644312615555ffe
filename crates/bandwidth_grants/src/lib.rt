// Requests by the words of one RCID: the holder that a request is led to, what it is granted, and what is used afterwards.
#![tactic(auto)]

ghost use Rattle.std.specs.Prelude.{◌≡◌, cond, List, ℕ, ◌-◌, ◌*◌, min, eqb};
ghost use Rattle.tables.specs.View.{Small};
ghost use Rattle.bandwidth_model.specs.Rules.{reserved, weight_of, shared_at_of};
ghost use Rattle.bandwidth_model.specs.View.{Ranges};
ghost use Rattle.bandwidth_model.specs.Model.{spend};
ghost use Rattle.bandwidth_setup.specs.View.{setup_of};
ghost use Rattle.bandwidth_grants.specs.View.{usage, holder_from, grant_from};
ghost use Rattle.bandwidth_grants.specs.Grants.{holder_in, Granted, Fits, RowFits, RowGiven};

use bandwidth_settings::{is_holder, is_sharer, reserved_blocks};
use bandwidth_setup::Setup;
use fields::field;
use tables::{pick, put};

// The bytes granted: reserved ones, of the holder's reservation, and those of the pool.
#[derive(Clone, Copy)]
pub struct Grant {
    pub reserved: u64,
    pub pool: u64,
}

// The AT that a sharer shares.
fn shared_at(word: u64) -> u64
    ensures { Small (shared_at_of word) 7 result }
{
    field(word, 28, 3)
}

// The AT of the holder that an AT is led to, by its RCID's words: itself, or the one that it shares.
pub fn holder_of(row: &[u32], at: u64) -> Option<u64>
    ensures { holder_from result ≡ holder_in row.now at }
{
    let word = u64::from(tables::word(row, at as usize, 0));
    let other = shared_at(word);
    if is_holder(word) {
        Some(at)
    } else if is_sharer(word) {
        Some(other)
    } else {
        None
    }
}

// What is left of the reservation of a holder with this word, up to `bytes`.
pub fn from_reservation(setup: Setup, word: u64, used: u64, bytes: u64) -> u64
    requires { Ranges (setup_of setup) }
    ensures { Small (min bytes (reserved word * setup.q - used)) bytes result }
{
    bytes.min((reserved_blocks(word) * setup.q).saturating_sub(used))
}

// What the pool has left for a holder with this word, up to `rest`.
fn from_pool(setup: Setup, word: u64, reserved: u64, pool: u64, rest: u64) -> u64
    requires { Ranges (setup_of setup) }
    ensures { Small (cond (eqb (weight_of word) 0) 0 (min rest ((setup.nbwblks - reserved) * setup.q - pool))) rest result }
{
    let size = setup.nbwblks.saturating_sub(reserved) * setup.q;
    pick(
        field(word, 20, 8) == 0,
        0,
        rest.min(size.saturating_sub(pool)),
    )
}

// What a holder is granted of `bytes`: `reserved` is what all holders in force reserve, `pool` what the pool gave already.
fn grant_of(
    setup: Setup,
    row: &[u32],
    used: &[u32],
    pool: u64,
    reserved: u64,
    holder: Option<u64>,
    bytes: u64,
) -> Grant
    requires { Ranges (setup_of setup) }
    ensures { Granted (setup_of setup) reserved row.now used.now pool (holder_from holder) bytes (grant_from result) }
{
    match holder {
        None => Grant {
            reserved: 0,
            pool: 0,
        },
        Some(i) => {
            let word = u64::from(tables::word(row, i as usize, 0));
            let before = u64::from(tables::word(used, i as usize, 0));
            let own = from_reservation(setup, word, before, bytes);
            Grant {
                reserved: own,
                pool: from_pool(setup, word, reserved, pool, bytes - own),
            }
        }
    }
}

// Adds a grant to the used bytes, and returns what the pool gave with it.
pub fn spend(used: &mut [u32], pool: u64, holder: Option<u64>, grant: Grant) -> u64
    requires { Fits used.old pool (holder_from holder) (grant_from grant) }
    ensures { (row : List ℕ) → usage row used.new result ≡ spend (usage row used.old pool) (holder_from holder) (grant_from grant) }
{
    match holder {
        None => pool,
        Some(i) => {
            let old = u64::from(tables::word(used, i as usize, 0));
            put(used, i as usize, (old + grant.reserved) as u32);
            pool + grant.pool
        }
    }
}

// What a request is granted and the sum of both amounts, and what the pool gave with them to all.
#[derive(Clone, Copy)]
pub struct Given {
    pub grant: Grant,
    pub sum: u64,
    pub pool: u64,
}

// A request of an AT for `bytes`, by its RCID's words in force and used.
pub fn give(
    setup: Setup,
    row: &[u32],
    used: &mut [u32],
    pool: u64,
    reserved: u64,
    at: u64,
    bytes: u64,
) -> Given
    requires { RowFits (setup_of setup) reserved row.now used.old pool at bytes }
    ensures { RowGiven (setup_of setup) reserved row.now used.old pool at bytes used.new (grant_from result.grant) result.sum result.pool }
{
    let holder = holder_of(row, at);
    let grant = grant_of(setup, row, used, pool, reserved, holder, bytes);
    let pool = spend(used, pool, holder, grant);
    Given {
        grant,
        sum: grant.reserved + grant.pool,
        pool,
    }
}

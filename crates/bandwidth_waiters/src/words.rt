// The words of waiters.
ghost use Rattle.std.specs.Prelude.{◌≡◌, List, ℕ, ◌<◌, length, get_or};
ghost use Rattle.fields.specs.View.{InRange, of_waiter};
ghost use Rattle.fields.specs.Registers as reg;
ghost use Rattle.tables.specs.Below.{all_below};
ghost use Rattle.access.specs.Checks.{first};
ghost use Rattle.access.specs.View.{refusal_in};
ghost use Rattle.bandwidth_model.specs.View.{Ranges};
ghost use Rattle.bandwidth_model.specs.Model.{wait_checks};
ghost use Rattle.bandwidth_model.specs.Waiters.{need_of, waiter_word, put_word, served_word, waiter_ok};
ghost use Rattle.bandwidth_setup.specs.View.{setup_of};

use access::{Refusal, known_at};
use bandwidth_setup::Setup;
use fields::Waiter;
use tables::pick;

// What a waiter needs.
pub fn need_of(word: u64) -> u64
    ensures { result ≡ need_of word }
{
    Waiter::unpack(word).need
}

// The word of a waiter; one that needs nothing leaves.
fn waiter_word(waiter: Waiter) -> u64
    requires { InRange reg.waiter (of_waiter waiter) }
    ensures { result ≡ waiter_word waiter.need waiter.mcid waiter.at waiter.write }
{
    if waiter.need == 0 { 0 } else { waiter.pack() }
}

// Checks 7, 10 and 11 of a request that is put to wait, by the word under its RCID.
pub fn check_wait(setup: Setup, word: u64, rcid: u64, mcid: u64, bytes: u32) -> Result<(), Refusal>
    ensures { (waiters : List ℕ) → word ≡ get_or waiters rcid 0 → refusal_in result ≡ first (wait_checks (setup_of setup) waiters rcid mcid bytes) 0 }
{
    if (setup.nr <= rcid) | (setup.nm <= mcid) {
        return Err(Refusal::Identifier);
    }
    if word != 0 {
        return Err(Refusal::AlreadyWaits);
    }
    if bytes == 0 {
        return Err(Refusal::NoBytes);
    }
    Ok(())
}

// The word of a request that is put to wait.
pub fn put_word(setup: Setup, mcid: u64, at: u64, kind: u64, bytes: u32) -> u64
    requires { Ranges (setup_of setup) × (mcid < setup.nm) }
    ensures { result ≡ put_word (setup_of setup) mcid at kind bytes }
{
    waiter_word(Waiter {
        need: u64::from(bytes),
        mcid,
        at: known_at(setup.na, at),
        write: pick(kind == 0, 0, 1),
    })
}

// The word of a waiter that was served `bytes`.
pub fn served_word(word: u64, bytes: u64) -> u64
    ensures { result ≡ served_word word bytes }
{
    let waiter = Waiter::unpack(word);
    waiter_word(Waiter {
        need: waiter.need.saturating_sub(bytes),
        mcid: waiter.mcid,
        at: waiter.at,
        write: waiter.write,
    })
}

// Whether a word is one that a call stores.
pub fn waiter_ok(setup: Setup, word: u64) -> bool
    ensures { result ≡ waiter_ok (setup_of setup) word }
{
    let waiter = Waiter::unpack(word);
    let stored = (1 <= waiter.need)
        & (waiter.mcid < setup.nm)
        & (waiter.at < setup.na)
        & (word >> 44 == 0);
    (word == 0) | stored
}

// Whether every word of a table is one that a call stores.
pub fn waiters_ok(setup: Setup, t: &[u64]) -> bool
    ensures { result ≡ all_below (length t.now) (λ i. waiter_ok (setup_of setup) (get_or t.now i 0)) }
{
    let mut ok = true;
    for w in t {
        ok &= waiter_ok(setup, *w);
    }
    ok
}

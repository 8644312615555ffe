// Check 3 over waiters.
ghost use Rattle.std.specs.Prelude.{◌≡◌, length, get_or};
ghost use Rattle.tables.specs.Below.{all_below};
ghost use Rattle.words.specs.Words.{table_of};
ghost use Rattle.bandwidth_model.specs.Waiters.{waiter_ok};
ghost use Rattle.bandwidth_setup.specs.View.{setup_of};

use bandwidth_setup::Setup;
use bandwidth_waiters::waiter_ok;
use words::{union64, word};

// Whether every word is one that a call stores; where none waits, the union of all tells.
pub fn waiters_ok(setup: Setup, t: &[u8]) -> bool
    ensures { result ≡ all_below (length (table_of 8 t.now)) (λ i. waiter_ok (setup_of setup) (get_or (table_of 8 t.now) i 0)) }
{
    if union64(t) == 0 {
        return true;
    }
    let mut ok = true;
    for i in 0..t.len() / 8 {
        ok &= waiter_ok(setup, word(t, i, 0));
    }
    ok
}

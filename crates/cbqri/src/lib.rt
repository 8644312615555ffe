// The controllers for C, on numbers and little-endian bytes.
#![tactic(auto)]

mod bandwidth_on_bytes;
mod capacity_on_bytes;
mod device_on_bytes;
mod waiters_on_bytes;

ghost use Rattle.std.specs.Prelude.{◌≡◌};
ghost use Rattle.access.specs.View.{refusal_in};

use access::Refusal;

// The number of a call without a value: 0, or the refusal's.
fn number(done: Result<(), Refusal>) -> u64
    ensures { result ≡ refusal_in done }
{
    match done {
        Ok(()) => 0,
        Err(why) => u64::from(why),
    }
}

// The bandwidth controller: its record, and the calls on it.
#![tactic(auto)]

ghost use Rattle.std.specs.Prelude.{◌≡◌, Ok, Err};

mod check;
mod registers;
mod request;
mod reset;
mod row;
mod wait;
mod window;

use access::Refusal;
use bandwidth_setup::Setup;
pub use bandwidth_wellformed::Totals;
pub use reset::reset_row;

// The set-up, the registers as they read, and the bytes that the pool gave.
#[derive(Clone, Copy)]
pub struct Record {
    pub setup: Setup,
    pub mon_ctl: u64,
    pub mon_ctr_val: u64,
    pub alloc_ctl: u64,
    pub bw_alloc: u64,
    pub pool: u64,
}

// What a call hands back: the record beside the answer.
pub type Answered<T> = access::Answered<Record, T>;

impl Record {
    // This record beside the value of an accepted call.
    fn answered<T>(self, value: T) -> Answered<T>
        ensures { result ≡ record { «record» = self; answer = Ok value } }
    {
        Answered {
            record: self,
            answer: Ok(value),
        }
    }

    // This record beside a refusal.
    fn refused<T>(self, why: Refusal) -> Answered<T>
        ensures { result ≡ record { «record» = self; answer = Err why } }
    {
        Answered {
            record: self,
            answer: Err(why),
        }
    }
}

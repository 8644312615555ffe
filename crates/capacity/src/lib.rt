// The capacity controller: its record, and the calls on it.
#![tactic(auto)]

ghost use Rattle.std.specs.Prelude.{◌≡◌, Ok, Err};

mod cache;
mod check;
mod registers;
mod reset;

use access::Refusal;
use capacity_masks::Setup;

// The set-up, and the registers as they read.
#[derive(Clone, Copy)]
pub struct Record {
    pub setup: Setup,
    pub mon_ctl: u64,
    pub mon_ctr_val: u64,
    pub alloc_ctl: u64,
    pub block_mask: u64,
}

// The record, the words of the pair and of the MCID that a written value names, and whether the units of the RCID that it names are flushed.
#[derive(Clone, Copy)]
pub struct WriteWords {
    pub record: Record,
    pub mask: u64,
    pub counter: u64,
    pub setting: u16,
    pub flushes: bool,
}

// What a call hands back: the record beside the answer.
pub type Answered<T> = access::Answered<Record, T>;

impl Record {
    // This record beside the value of an accepted call.
    fn answered<T>(self, value: T) -> Answered<T>
        ensures { result ≡ record { «record» = self; answer = Ok value } }
    {
        Answered {
            record: self,
            answer: Ok(value),
        }
    }

    // This record beside a refusal.
    fn refused<T>(self, why: Refusal) -> Answered<T>
        ensures { result ≡ record { «record» = self; answer = Err why } }
    {
        Answered {
            record: self,
            answer: Err(why),
        }
    }
}

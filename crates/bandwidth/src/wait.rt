// Requests that wait.
ghost use Rattle.std.specs.Prelude.{◌≡◌};
ghost use Rattle.bandwidth_model.specs.Calls.{wait, need};
ghost use Rattle.bandwidth_model.specs.Model.{step};
ghost use Rattle.bandwidth.specs.View.{state, outcome, ack_of, reading_of};

use crate::{Answered, Record};
use access::Refusal;
use bandwidth_waiters::{check_wait, need_of, put_word};
use tables::{put, word};

impl Record {
    // Puts a request to wait: nothing is granted before a window ends.
    pub fn wait(
        self,
        active: &[u32],
        configured: &[u32],
        used: &[u32],
        counters: &[u64],
        events: &[u16],
        waiters: &mut [u64],
        rcid: u64,
        mcid: u64,
        at: u64,
        kind: u64,
        bytes: u32,
    ) -> Answered<()>
        ensures { outcome (ack_of result.answer) (state result.«record» active.now configured.now used.now counters.now events.now waiters.new) ≡ step (state self active.now configured.now used.now counters.now events.now waiters.old) (wait rcid mcid at kind bytes) }
    {
        if let Err(why) = self.check(active, configured, used, counters, events, waiters) {
            return self.refused(why);
        }
        let setup = self.setup;
        let i = rcid as usize;
        if let Err(why) = check_wait(setup, word(waiters, i, 0), rcid, mcid, bytes) {
            return self.refused(why);
        }
        put(waiters, i, put_word(setup, mcid, at, kind, bytes));
        self.answered(())
    }

    // What the request needs that waits under an RCID, 0 where none does.
    pub fn need(
        self,
        active: &[u32],
        configured: &[u32],
        used: &[u32],
        counters: &[u64],
        events: &[u16],
        waiters: &[u64],
        rcid: u64,
    ) -> Answered<u64>
        ensures { outcome (reading_of result.answer) (state result.«record» active.now configured.now used.now counters.now events.now waiters.now) ≡ step (state self active.now configured.now used.now counters.now events.now waiters.now) (need rcid) }
    {
        if let Err(why) = self.check(active, configured, used, counters, events, waiters) {
            return self.refused(why);
        }
        if self.setup.nr <= rcid {
            return self.refused(Refusal::Identifier);
        }
        self.answered(need_of(word(waiters, rcid as usize, 0)))
    }
}

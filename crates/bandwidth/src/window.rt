// Window ends.
ghost use Rattle.std.specs.Prelude.{◌≡◌};
ghost use Rattle.bandwidth_model.specs.Calls.{end_window};
ghost use Rattle.bandwidth_model.specs.Model.{after_window, step};
ghost use Rattle.bandwidth.specs.View.{state, outcome, ack_of};
ghost use Rattle.bandwidth.specs.Checked.{Passes};

use crate::{Answered, Record};
use bandwidth_waiters::{serve_all, weights_of};
use bandwidth_wellformed::Totals;

impl Record {
    // Takes the settings configured into force, with nothing used, and serves the waiters.
    fn open_window(
        &mut self,
        active: &mut [u32],
        configured: &[u32],
        used: &mut [u32],
        counters: &mut [u64],
        events: &[u16],
        waiters: &mut [u64],
        totals: Totals,
    )
        requires { Passes (state self.old active.old configured.now used.old counters.old events.now waiters.old) totals }
        ensures { state self.new active.new configured.now used.new counters.new events.now waiters.new ≡ after_window (state self.old active.old configured.now used.old counters.old events.now waiters.old) }
    {
        let setup = self.setup;
        active.copy_from_slice(configured);
        used.fill(0);
        let size = setup.nbwblks.saturating_sub(totals.configured) * setup.q;
        let weights = weights_of(setup, configured, waiters);
        self.pool = serve_all(
            setup, configured, used, counters, events, waiters, size, weights,
        );
    }

    pub fn end_window(
        mut self,
        active: &mut [u32],
        configured: &[u32],
        used: &mut [u32],
        counters: &mut [u64],
        events: &[u16],
        waiters: &mut [u64],
    ) -> Answered<()>
        ensures { outcome (ack_of result.answer) (state result.«record» active.new configured.now used.new counters.new events.now waiters.new) ≡ step (state self active.old configured.now used.old counters.old events.now waiters.old) end_window }
    {
        let totals = match self.check(active, configured, used, counters, events, waiters) {
            Ok(totals) => totals,
            Err(why) => return self.refused(why),
        };
        self.open_window(active, configured, used, counters, events, waiters, totals);
        self.answered(())
    }
}

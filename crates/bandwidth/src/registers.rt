// Reads and writes of the registers.
ghost use Rattle.std.specs.Prelude.{◌≡◌, List, ℕ};
ghost use Rattle.bandwidth_model.specs.View.{Ranges};
ghost use Rattle.bandwidth_model.specs.Calls.{read, write};
ghost use Rattle.bandwidth_model.specs.Model.{capabilities, register, write_at, step};
ghost use Rattle.bandwidth_setup.specs.View.{setup_of};
ghost use Rattle.bandwidth.specs.View.{state, outcome, ack_of, reading_of};
ghost use Rattle.bandwidth.specs.Checked.{Passes};
ghost use Rattle.bandwidth_wellformed.specs.declared.Totals as totals;

use crate::{Answered, Record};
use access::{Refusal, check_read, check_write, part};
use bandwidth_settings::{bw_word, write_alloc};
use bandwidth_wellformed::Totals;
use codes::Resource;
use fields::BandwidthCapabilities;
use monitor::{Registers, mon_status, write_mon};

impl Record {
    // What capabilities reads.
    fn capabilities(&self) -> u64
        requires { Ranges (setup_of self.now.setup) }
        ensures { result ≡ capabilities (setup_of self.now.setup) }
    {
        BandwidthCapabilities {
            ver: 1,
            nbwblks: self.setup.nbwblks,
            mrbwb: self.setup.mrbwb,
        }
        .pack()
    }

    // The register that an offset lies in.
    fn register(&self, n: u64) -> u64
        requires { Ranges (setup_of self.now.setup) }
        ensures { (active configured used counters events waiters : List ℕ) → result ≡ register (state self.now active configured used counters events waiters) n }
    {
        match n {
            0 => self.capabilities(),
            1 => self.mon_ctl,
            2 => self.mon_ctr_val,
            3 => self.alloc_ctl,
            _ => self.bw_alloc,
        }
    }

    // The answer of a read that passes checks 1 to 3, whatever the tables are.
    pub fn reading(&self, size: u64, offset: u64) -> Result<u64, Refusal>
        requires { Ranges (setup_of self.now.setup) }
        ensures { (active configured used counters events waiters : List ℕ) (t : totals.Totals) → Passes (state self.now active configured used counters events waiters) t
            → outcome (reading_of result) (state self.now active configured used counters events waiters) ≡ step (state self.now active configured used counters events waiters) (read size offset) }
    {
        check_read(size, offset)?;
        Ok(part(size, offset, self.register(offset / 8)))
    }

    pub fn read(
        self,
        active: &[u32],
        configured: &[u32],
        used: &[u32],
        counters: &[u64],
        events: &[u16],
        waiters: &[u64],
        size: u64,
        offset: u64,
    ) -> Answered<u64>
        ensures { outcome (reading_of result.answer) (state result.«record» active.now configured.now used.now counters.now events.now waiters.now) ≡ step (state self active.now configured.now used.now counters.now events.now waiters.now) (read size offset) }
    {
        if let Err(why) = self.check(active, configured, used, counters, events, waiters) {
            return self.refused(why);
        }
        Answered {
            record: self,
            answer: self.reading(size, offset),
        }
    }

    // Stores what a write reaches, and performs its operation.
    fn store(
        &mut self,
        active: &[u32],
        configured: &mut [u32],
        used: &[u32],
        counters: &mut [u64],
        events: &mut [u16],
        waiters: &[u64],
        totals: Totals,
        offset: u64,
        value: u64,
    )
        requires { Passes (state self.old active.now configured.old used.now counters.old events.old waiters.now) totals }
        ensures { state self.new active.now configured.new used.now counters.new events.new waiters.now ≡ write_at (state self.old active.now configured.old used.now counters.old events.old waiters.now) offset value }
    {
        let setup = self.setup;
        match offset {
            24 => {
                let done = write_alloc(setup, configured, totals.configured, self.bw_alloc, value);
                self.alloc_ctl = done.ctl;
                self.bw_alloc = done.bw;
            }
            32 => {
                self.bw_alloc = bw_word(value);
            }
            8 => {
                let old = Registers {
                    ctl: self.mon_ctl,
                    value: self.mon_ctr_val,
                };
                let status = mon_status(Resource::Bandwidth, setup.na, setup.nm, value);
                let done = write_mon(setup.na, status, old, counters, events, value);
                self.mon_ctl = done.ctl;
                self.mon_ctr_val = done.value;
            }
            _ => {}
        }
    }

    pub fn write(
        mut self,
        active: &[u32],
        configured: &mut [u32],
        used: &[u32],
        counters: &mut [u64],
        events: &mut [u16],
        waiters: &[u64],
        size: u64,
        offset: u64,
        value: u64,
    ) -> Answered<()>
        ensures { outcome (ack_of result.answer) (state result.«record» active.now configured.new used.now counters.new events.new waiters.now) ≡ step (state self active.now configured.old used.now counters.old events.old waiters.now) (write size offset value) }
    {
        let totals = match self.check(active, configured, used, counters, events, waiters) {
            Ok(totals) => totals,
            Err(why) => return self.refused(why),
        };
        if let Err(why) = check_write(size, offset, value) {
            return self.refused(why);
        }
        self.store(
            active, configured, used, counters, events, waiters, totals, offset, value,
        );
        self.answered(())
    }
}

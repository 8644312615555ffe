// Cache events, fills and evictions, and flushes.
ghost use Rattle.std.specs.Prelude.{◌≡◌, cond, List, ℕ, ◌<◌};
ghost use Rattle.access.specs.Checks.{first};
ghost use Rattle.access.specs.Pairs.{word_at, known_at};
ghost use Rattle.access.specs.View.{refusal_in};
ghost use Rattle.monitor.specs.Occupancy.{evicted};
ghost use Rattle.units.specs.Owners.{flushed_owners};
ghost use Rattle.units.specs.Counts.{flushed};
ghost use Rattle.capacity_model.specs.View.{Ranges};
ghost use Rattle.capacity_model.specs.Calls.{fill, evict};
ghost use Rattle.capacity_model.specs.Model.{unit_checks, fill_checks, step};
ghost use Rattle.capacity_masks.specs.View.{setup_of};
ghost use Rattle.capacity.specs.View.{state, outcome, ack_of, filling_of};
ghost use Rattle.capacity.specs.Checked.{Passed, FillAnswered, evict_left};

use crate::{Answered, Record};
use access::{Refusal, known_at};
use capacity_masks::{Setup, has_block};
use tables::word;

// Check 8.
fn check_unit(setup: Setup, unit: u64) -> Result<(), Refusal>
    requires { Ranges (setup_of setup) }
    ensures { refusal_in result ≡ first (unit_checks (setup_of setup) unit) 0 }
{
    if setup.unit_count() <= unit {
        Err(Refusal::UnitNumber)
    } else {
        Ok(())
    }
}

// Checks 7 and 8.
fn check_fill(setup: Setup, rcid: u64, mcid: u64, unit: u64) -> Result<(), Refusal>
    requires { Ranges (setup_of setup) }
    ensures { refusal_in result ≡ first (fill_checks (setup_of setup) rcid mcid unit) 0 }
{
    if (setup.nr <= rcid) | (setup.nm <= mcid) {
        Err(Refusal::Identifier)
    } else {
        check_unit(setup, unit)
    }
}

// FLUSH_RCID where `flushes` holds.
pub fn flush_if(flushes: bool, owners: &mut [u32], counters: &mut [u64], events: &[u16], rcid: u64)
    ensures { (owners.new ≡ cond flushes (flushed_owners rcid owners.old) owners.old)
        × (counters.new ≡ cond flushes (flushed 0 events.now evicted rcid owners.old counters.old) counters.old) }
{
    if flushes {
        unit_tables::flush(owners, counters, events, rcid);
    }
}

impl Record {
    // Whether a fill is allowed in a state that passes checks 1 to 3, by the mask of its pair.
    pub fn filling(&self, mask: u64, rcid: u64, mcid: u64, unit: u64) -> Result<bool, Refusal>
        requires { Ranges (setup_of self.now.setup) }
        ensures { (ms ns es os : List ℕ) (at : ℕ) → Passed (state self.now ms ns es os) → (rcid < self.now.setup.nr → mask ≡ word_at self.now.setup.na ms rcid (known_at self.now.setup.na at))
            → FillAnswered (state self.now ms ns es os) rcid mcid at unit result }
    {
        let setup = self.setup;
        check_fill(setup, rcid, mcid, unit)?;
        Ok(has_block(mask, setup.block_of(unit)))
    }

    // The answer of an eviction in a state that passes checks 1 to 3.
    pub fn evicting(&self, unit: u64) -> Result<(), Refusal>
        requires { Ranges (setup_of self.now.setup) }
        ensures { (ms ns es os : List ℕ) → Passed (state self.now ms ns es os)
            → outcome (ack_of result) (evict_left (state self.now ms ns es os) unit result) ≡ step (state self.now ms ns es os) (evict unit) }
    {
        check_unit(self.setup, unit)
    }

    // Whether the fill is allowed.
    pub fn fill(
        self,
        masks: &[u64],
        counters: &mut [u64],
        events: &[u16],
        owners: &mut [u32],
        rcid: u64,
        mcid: u64,
        at: u64,
        unit: u64,
    ) -> Answered<bool>
        ensures { outcome (filling_of result.answer) (state result.«record» masks.now counters.new events.now owners.new) ≡ step (state self masks.now counters.old events.now owners.old) (fill rcid mcid at unit) }
    {
        if let Err(why) = self.check(masks, counters, events, owners) {
            return self.refused(why);
        }
        let setup = self.setup;
        let mask = word(masks, setup.pair_at(rcid, at), 0);
        let allowed = match self.filling(mask, rcid, mcid, unit) {
            Ok(allowed) => allowed,
            Err(why) => return self.refused(why),
        };
        if allowed {
            let known = known_at(setup.na, at);
            let i = unit as usize;
            unit_tables::fill(setup.w, owners, counters, events, rcid, mcid, known, i);
        }
        self.answered(allowed)
    }

    pub fn evict(
        self,
        masks: &[u64],
        counters: &mut [u64],
        events: &[u16],
        owners: &mut [u32],
        unit: u64,
    ) -> Answered<()>
        ensures { outcome (ack_of result.answer) (state result.«record» masks.now counters.new events.now owners.new) ≡ step (state self masks.now counters.old events.now owners.old) (evict unit) }
    {
        if let Err(why) = self.check(masks, counters, events, owners) {
            return self.refused(why);
        }
        if let Err(why) = self.evicting(unit) {
            return self.refused(why);
        }
        unit_tables::evict(owners, counters, events, unit as usize);
        self.answered(())
    }
}

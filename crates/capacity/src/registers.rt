// Reads and writes of the registers.
ghost use Rattle.std.specs.Prelude.{◌≡◌, List, ℕ};
ghost use Rattle.access.specs.Access.{registers_end, write_checks};
ghost use Rattle.access.specs.Checks.{first};
ghost use Rattle.capacity_model.specs.View.{Ranges};
ghost use Rattle.capacity_model.specs.Calls.{read, write};
ghost use Rattle.capacity_model.specs.Model.{capabilities, register, write_at, step};
ghost use Rattle.capacity_masks.specs.View.{setup_of};
ghost use Rattle.capacity.specs.View.{state, outcome, ack_of, reading_of};
ghost use Rattle.capacity.specs.Checked.{Passed, WordsIn, wrote, write_left};

use crate::cache::flush_if;
use crate::{Answered, Record, WriteWords};
use access::{Refusal, check_read, check_write, part, replaced};
use capacity_masks::{alloc_after, mask_of, named_pair, named_rcid};
use codes::Resource;
use fields::CapacityCapabilities;
use monitor::{mon_after, mon_status, named_mcid};
use tables::{put, word};

impl Record {
    // What capabilities reads; FRCID is 1.
    fn capabilities(&self) -> u64
        requires { Ranges (setup_of self.now.setup) }
        ensures { result ≡ capabilities (setup_of self.now.setup) }
    {
        CapacityCapabilities {
            ver: 1,
            ncblks: self.setup.ncblks,
            frcid: 1,
        }
        .pack()
    }

    // The register that an offset lies in.
    fn register(&self, n: u64) -> u64
        requires { Ranges (setup_of self.now.setup) }
        ensures { (ms ns es os : List ℕ) → result ≡ register (state self.now ms ns es os) n }
    {
        match n {
            0 => self.capabilities(),
            1 => self.mon_ctl,
            2 => self.mon_ctr_val,
            3 => self.alloc_ctl,
            _ => self.block_mask,
        }
    }

    // A read in a state that passes checks 1 to 3; it needs no word of a table.
    pub fn reading(&self, size: u64, offset: u64) -> Result<u64, Refusal>
        requires { Ranges (setup_of self.now.setup) }
        ensures { (ms ns es os : List ℕ) → Passed (state self.now ms ns es os) → outcome (reading_of result) (state self.now ms ns es os) ≡ step (state self.now ms ns es os) (read size offset) }
    {
        check_read(size, offset)?;
        Ok(part(size, offset, self.register(offset / 8)))
    }

    pub fn read(
        self,
        masks: &[u64],
        counters: &[u64],
        events: &[u16],
        owners: &[u32],
        size: u64,
        offset: u64,
    ) -> Answered<u64>
        ensures { outcome (reading_of result.answer) (state result.«record» masks.now counters.now events.now owners.now) ≡ step (state self masks.now counters.now events.now owners.now) (read size offset) }
    {
        if let Err(why) = self.check(masks, counters, events, owners) {
            return self.refused(why);
        }
        Answered {
            record: self,
            answer: self.reading(size, offset),
        }
    }

    // Stores what an accepted write reaches, and performs its operation on the words that its value names.
    fn store(
        mut self,
        mut mask: u64,
        mut counter: u64,
        mut setting: u16,
        size: u64,
        offset: u64,
        value: u64,
    ) -> WriteWords
        requires { Ranges (setup_of self.setup) × (first (write_checks registers_end size offset value) 0 ≡ 0) }
        ensures { (ms ns es os : List ℕ) → WordsIn (state self ms ns es os) value mask counter setting
            → wrote (setup_of self.setup) result ms ns es os value ≡ write_at (state self ms ns es os) size offset value }
    {
        let setup = self.setup;
        let mut flushes = false;
        match offset {
            24 => {
                let done = alloc_after(setup, self.block_mask, mask, value);
                self.alloc_ctl = done.ctl;
                self.block_mask = done.operand;
                mask = done.mask;
                flushes = done.flushes;
            }
            32 | 36 => {
                let word = replaced(size, offset, self.block_mask, value);
                self.block_mask = mask_of(setup, word);
            }
            8 => {
                let status = mon_status(Resource::Capacity, setup.na, setup.nm, value);
                let done = mon_after(setup.na, status, self.mon_ctr_val, counter, setting, value);
                self.mon_ctl = done.ctl;
                self.mon_ctr_val = done.value;
                counter = done.counter;
                setting = done.setting;
            }
            _ => {}
        }
        WriteWords {
            record: self,
            mask,
            counter,
            setting,
            flushes,
        }
    }

    // A write in a state that passes checks 1 to 3, on the words that its value names.
    pub fn write_words(
        &self,
        mask: u64,
        counter: u64,
        setting: u16,
        size: u64,
        offset: u64,
        value: u64,
    ) -> Result<WriteWords, Refusal>
        requires { Ranges (setup_of self.now.setup) }
        ensures { (ms ns es os : List ℕ) → Passed (state self.now ms ns es os) → WordsIn (state self.now ms ns es os) value mask counter setting
            → outcome (ack_of result) (write_left (state self.now ms ns es os) value result) ≡ step (state self.now ms ns es os) (write size offset value) }
    {
        check_write(size, offset, value)?;
        Ok(self.store(mask, counter, setting, size, offset, value))
    }

    pub fn write(
        mut self,
        masks: &mut [u64],
        counters: &mut [u64],
        events: &mut [u16],
        owners: &mut [u32],
        size: u64,
        offset: u64,
        value: u64,
    ) -> Answered<()>
        ensures { outcome (ack_of result.answer) (state result.«record» masks.new counters.new events.new owners.new) ≡ step (state self masks.old counters.old events.old owners.old) (write size offset value) }
    {
        if let Err(why) = self.check(masks, counters, events, owners) {
            return self.refused(why);
        }
        let p = named_pair(self.setup, value);
        let i = named_mcid(value);
        let left = match self.write_words(
            word(masks, p, 0),
            word(counters, i, 0),
            word(events, i, 0),
            size,
            offset,
            value,
        ) {
            Ok(left) => left,
            Err(why) => return self.refused(why),
        };
        put(masks, p, left.mask);
        put(counters, i, left.counter);
        put(events, i, left.setting);
        flush_if(left.flushes, owners, counters, events, named_rcid(value));
        self = left.record;
        self.answered(())
    }
}

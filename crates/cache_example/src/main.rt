// The source's worked example of capacity allocation (NCBLKS 8; RCID 5 with its own blocks for AT 0 and AT 1, RCIDs 3 and 6 with the same blocks for both),
// run on the capacity controller: each line is a call and its answer.
#![tactic(auto)]

use access::Refusal;
use capacity::Record;
use capacity_masks::Setup;
use std::io;

// A controller with its tables.
#[derive(Drop)]
struct Cache {
    record: Record,
    masks: [u64; 16],
    counters: [u64; 4],
    events: [u16; 4],
    owners: [u32; 16],
}

const MON_CTL: u64 = 8;

const MON_CTR_VAL: u64 = 16;

const ALLOC_CTL: u64 = 24;

const BLOCK_MASK: u64 = 32;

// The name of the register at an offset.
fn register(offset: u64) -> &'static str {
    match offset {
        0 => "capabilities",
        8 => "mon_ctl",
        16 => "mon_ctr_val",
        24 => "alloc_ctl",
        _ => "block_mask",
    }
}

// The end of a line: the answer of a call without a value.
fn acked(rt: &impl Print, answer: Result<(), Refusal>) -> io::Result<()> {
    match answer {
        Ok(()) => println!(rt; " ok"),
        Err(why) => println!(rt; " refused {}", u64::from(why)),
    }
}

impl Cache {
    // A controller after the reset with the example's set-up.
    fn reset(rt: &impl Print) -> io::Result<Cache> {
        print!(rt; "reset")?;
        let setup = Setup {
            ncblks: 8,
            nr: 8,
            na: 2,
            nm: 4,
            w: 24,
            units: 2,
        };
        let mut cache = Cache {
            record: Record::fresh(setup),
            masks: [0; 16],
            counters: [0; 4],
            events: [0; 4],
            owners: [0; 16],
        };
        let done = cache.record.reset(
            &mut cache.masks,
            &mut cache.counters,
            &mut cache.events,
            &mut cache.owners,
            setup,
        );
        cache.record = done.record;
        acked(rt, done.answer)?;
        Ok(cache)
    }

    fn write(&mut self, rt: &impl Print, offset: u64, value: u64) -> io::Result<()> {
        print!(rt; "write {} {value:016x}", register(offset))?;
        let done = self.record.write(
            &mut self.masks,
            &mut self.counters,
            &mut self.events,
            &mut self.owners,
            8,
            offset,
            value,
        );
        self.record = done.record;
        acked(rt, done.answer)
    }

    fn read(&mut self, rt: &impl Print, offset: u64) -> io::Result<()> {
        print!(rt; "read  {}", register(offset))?;
        let done = self.record.read(
            &self.masks,
            &self.counters,
            &self.events,
            &self.owners,
            8,
            offset,
        );
        self.record = done.record;
        match done.answer {
            Ok(word) => println!(rt; " {word:016x}"),
            Err(why) => println!(rt; " refused {}", u64::from(why)),
        }
    }

    // Sets the mask of a pair: block_mask, then CONFIG_LIMIT, and shows alloc_ctl.
    fn set(&mut self, rt: &impl Print, mask: u64, config: u64) -> io::Result<()> {
        self.write(rt, BLOCK_MASK, mask)?;
        self.write(rt, ALLOC_CTL, config)?;
        self.read(rt, ALLOC_CTL)
    }

    // A fill; the MCID is 0.
    fn fill(&mut self, rt: &impl Print, rcid: u64, at: u64, unit: u64) -> io::Result<()> {
        print!(rt; "fill  RCID {rcid} AT {at} unit {unit}")?;
        let done = self.record.fill(
            &self.masks,
            &mut self.counters,
            &self.events,
            &mut self.owners,
            rcid,
            0,
            at,
            unit,
        );
        self.record = done.record;
        match done.answer {
            Ok(true) => println!(rt; " allowed"),
            Ok(false) => println!(rt; " not allowed"),
            Err(why) => println!(rt; " refused {}", u64::from(why)),
        }
    }

    fn evict(&mut self, rt: &impl Print, unit: u64) -> io::Result<()> {
        print!(rt; "evict unit {unit}")?;
        let done = self.record.evict(
            &self.masks,
            &mut self.counters,
            &self.events,
            &mut self.owners,
            unit,
        );
        self.record = done.record;
        acked(rt, done.answer)
    }

    // The masks of RCIDs 5, 3 and 6.
    fn configure(&mut self, rt: &impl Print) -> io::Result<()> {
        self.set(rt, 0x03, 0x501)?;
        self.set(rt, 0x04, 0x521)?;
        self.set(rt, 0x18, 0x301)?;
        self.set(rt, 0x18, 0x321)?;
        self.set(rt, 0x18, 0x601)?;
        self.set(rt, 0x18, 0x621)
    }

    // Fills of RCID 5: blocks 0 and 1 for AT 0, block 2 for AT 1; each block has two units.
    fn fill_own(&mut self, rt: &impl Print) -> io::Result<()> {
        self.fill(rt, 5, 0, 0)?;
        self.fill(rt, 5, 0, 3)?;
        self.fill(rt, 5, 0, 4)?;
        self.fill(rt, 5, 1, 3)?;
        self.fill(rt, 5, 1, 4)
    }

    // Fills of RCIDs 3 and 6, which have the same blocks, of RCID 0, which has every block, of RCID 1, which has none, and of a unit that is not there.
    fn fill_shared(&mut self, rt: &impl Print) -> io::Result<()> {
        self.fill(rt, 3, 0, 6)?;
        self.fill(rt, 3, 1, 8)?;
        self.fill(rt, 3, 0, 10)?;
        self.fill(rt, 6, 0, 6)?;
        self.fill(rt, 6, 1, 9)?;
        self.fill(rt, 6, 1, 0)?;
        self.fill(rt, 0, 1, 15)?;
        self.fill(rt, 1, 0, 15)?;
        self.fill(rt, 5, 0, 16)
    }

    // READ_COUNTER of MCID 0.
    fn count(&mut self, rt: &impl Print) -> io::Result<()> {
        self.write(rt, MON_CTL, 2)?;
        self.read(rt, MON_CTR_VAL)
    }
}

fn main(rt: HostRuntime) -> io::Result<()> {
    let mut cache = Cache::reset(&rt)?;
    cache.read(&rt, 0)?;
    cache.configure(&rt)?;
    // CONFIG_EVENT: MCID 0 counts occupancy
    cache.write(&rt, MON_CTL, 0x100001)?;
    cache.fill_own(&rt)?;
    cache.fill_shared(&rt)?;
    cache.evict(&rt, 0)?;
    cache.count(&rt)?;
    // FLUSH_RCID: the units of RCID 5 are free before another job has it
    cache.write(&rt, ALLOC_CTL, 0x503)?;
    cache.read(&rt, ALLOC_CTL)?;
    cache.count(&rt)?;
    // READ_LIMIT
    cache.write(&rt, ALLOC_CTL, 0x522)?;
    cache.read(&rt, BLOCK_MASK)?;
    // a mask of 0 is a bad operand, and RCID 5 keeps its own
    cache.set(&rt, 0, 0x501)?;
    cache.fill(&rt, 5, 0, 2)?;
    // bits NCBLKS and above are held as 0
    cache.write(&rt, BLOCK_MASK, 0xffff_ffff_ffff_fff5)?;
    cache.read(&rt, BLOCK_MASK)
}

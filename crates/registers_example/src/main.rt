// The register words of rules P1 to P12 (P8 and P9 have none), each unpacked, written field by field and packed again.
// Lines `all` have every bit set, so that the bits that no field names are seen to be dropped; lines `cap` are the capacity controller's,
// lines `dev` the words of an IOMMU that name a device's RCID and MCID.
#![tactic(auto)]

ghost use Rattle.fields.specs.View.{InRange, of_alloc_ctl, of_mon_ctl};
ghost use Rattle.fields.specs.Registers.{alloc_ctl, mon_ctl};

use fields::{
    AllocCtl, BandwidthCapabilities, BandwidthCounter, BwAlloc, CapacityCapabilities,
    CapacityCounter, CounterSetting, DcTa, IommuQosid, MonCtl,
};
use std::io;

const ALL: u64 = 0xffff_ffff_ffff_ffff;

fn capabilities(rt: &impl Print, case: &str, word: u64) -> io::Result<()> {
    let f = BandwidthCapabilities::unpack(word);
    let packed = f.pack();
    println!(rt;
        "{case} capabilities   {word:016x} ver {} nbwblks {} mrbwb {} -> {packed:016x}",
        f.ver, f.nbwblks, f.mrbwb
    )
}

fn bw_alloc(rt: &impl Print, case: &str, word: u64) -> io::Result<()> {
    let f = BwAlloc::unpack(word);
    let packed = f.pack();
    println!(rt;
        "{case} bw_alloc       {word:016x} rbwb {} mweight {} sharedat {} useshared {} -> {packed:016x}",
        f.rbwb, f.mweight, f.sharedat, f.useshared
    )
}

// alloc_ctl's fields as they are held with `na` access types.
fn held_alloc_ctl(na: u64, word: u64) -> AllocCtl
    ensures { InRange alloc_ctl (of_alloc_ctl result) }
{
    AllocCtl::unpack(word).held(na)
}

fn alloc_ctl(rt: &impl Print, case: &str, na: u64, word: u64) -> io::Result<()> {
    let f = held_alloc_ctl(na, word);
    let packed = f.pack();
    println!(rt;
        "{case} alloc_ctl NA {na} {word:016x} op {} at {} rcid {} status {} busy {} -> {packed:016x}",
        f.op, f.at, f.rcid, f.status, f.busy
    )
}

// mon_ctl's fields as they are held with `na` access types.
fn held_mon_ctl(na: u64, word: u64) -> MonCtl
    ensures { InRange mon_ctl (of_mon_ctl result) }
{
    MonCtl::unpack(word).held(na)
}

fn mon_ctl(rt: &impl Print, case: &str, na: u64, word: u64) -> io::Result<()> {
    let f = held_mon_ctl(na, word);
    let packed = f.pack();
    println!(rt;
        "{case} mon_ctl NA {na}   {word:016x} op {} at {} mcid {} evtid {} atv {} status {} busy {} -> {packed:016x}",
        f.op, f.at, f.mcid, f.evtid, f.atv, f.status, f.busy
    )
}

fn setting(rt: &impl Print, case: &str, word: u64) -> io::Result<()> {
    let f = CounterSetting::unpack(word);
    let packed = f.pack();
    println!(rt;
        "{case} setting        {word:016x} evtid {} at {} atv {} -> {packed:016x}",
        f.evtid, f.at, f.atv
    )
}

fn mon_ctr_val(rt: &impl Print, case: &str, word: u64) -> io::Result<()> {
    let f = BandwidthCounter::unpack(word);
    let packed = f.pack();
    println!(rt;
        "{case} mon_ctr_val    {word:016x} ctr {} invalid {} ovf {} -> {packed:016x}",
        f.ctr, f.invalid, f.ovf
    )
}

fn capacity_capabilities(rt: &impl Print, case: &str, word: u64) -> io::Result<()> {
    let f = CapacityCapabilities::unpack(word);
    let packed = f.pack();
    println!(rt;
        "{case} capabilities   {word:016x} ver {} ncblks {} frcid {} -> {packed:016x}",
        f.ver, f.ncblks, f.frcid
    )
}

fn capacity_mon_ctr_val(rt: &impl Print, case: &str, word: u64) -> io::Result<()> {
    let f = CapacityCounter::unpack(word);
    let packed = f.pack();
    println!(rt;
        "{case} mon_ctr_val    {word:016x} ctr {} invalid {} -> {packed:016x}",
        f.ctr, f.invalid
    )
}

fn iommu_qosid(rt: &impl Print, case: &str, word: u64) -> io::Result<()> {
    let f = IommuQosid::unpack(word);
    let packed = f.pack();
    println!(rt;
        "{case} iommu_qosid    {word:016x} rcid {} mcid {} -> {packed:016x}",
        f.rcid, f.mcid
    )
}

fn dc_ta(rt: &impl Print, case: &str, word: u64) -> io::Result<()> {
    let f = DcTa::unpack(word);
    let packed = f.pack();
    println!(rt;
        "{case} DC.ta          {word:016x} rcid {} mcid {} -> {packed:016x}",
        f.rcid, f.mcid
    )
}

// A CONFIG_LIMIT: its operand in bw_alloc, and alloc_ctl after it.
fn limit(rt: &impl Print, case: &str, operand: u64, control: u64) -> io::Result<()> {
    bw_alloc(rt, case, operand)?;
    alloc_ctl(rt, case, 2, control)
}

// A counter's setting after a CONFIG_EVENT of an event other than 0: STATUS 1 stores the event, and AT only where ATV is 1; any other stores nothing.
fn configured(before: u64, control: u64) -> u64 {
    let f = MonCtl::unpack(control);
    if f.status != 1 {
        return before;
    }
    CounterSetting {
        evtid: f.evtid,
        at: if f.atv == 1 { f.at } else { 0 },
        atv: f.atv,
    }
    .pack()
}

// A CONFIG_EVENT: mon_ctl after it, and the counter's setting, which was `before`.
fn event(rt: &impl Print, case: &str, before: u64, control: u64) -> io::Result<u64> {
    mon_ctl(rt, case, 2, control)?;
    let after = configured(before, control);
    setting(rt, case, after)?;
    Ok(after)
}

fn allocation(rt: &impl Print) -> io::Result<()> {
    capabilities(rt, "P1 ", 0x50_0000_6401)?;
    limit(rt, "P2 ", 10, 0x5_0000_0101)?;
    limit(rt, "P3 ", 30, 0x1_0000_0001)?;
    limit(rt, "P4 ", 0x0050_001e, 0x1_0000_0101)?;
    limit(rt, "P5 ", 21, 0x5_0000_0201)?;
    limit(rt, "P5 ", 20, 0x1_0000_0201)?;
    alloc_ctl(rt, "P6 ", 2, 0x3_0000_0401)?;
    alloc_ctl(rt, "P6 ", 2, 0x2_0000_0403)?;
    limit(rt, "P7 ", 0x8000_0000, 0x1_0000_0121)?;
    limit(rt, "P7 ", 0x9000_0000, 0x5_0000_0121)
}

fn monitoring(rt: &impl Print) -> io::Result<()> {
    let after = event(rt, "P10", 0, 0x1_0010_0201)?;
    event(rt, "P10", after, 0x4_0040_0201)?;
    mon_ctr_val(rt, "P11", 16_777_000)?;
    mon_ctr_val(rt, "P11", 0x8000_0000_0000_0054)?;
    alloc_ctl(rt, "P12", 1, 0x121)
}

fn every_bit(rt: &impl Print) -> io::Result<()> {
    capabilities(rt, "all", ALL)?;
    bw_alloc(rt, "all", ALL)?;
    alloc_ctl(rt, "all", 2, ALL)?;
    alloc_ctl(rt, "all", 1, ALL)?;
    mon_ctl(rt, "all", 2, ALL)?;
    mon_ctl(rt, "all", 1, ALL)?;
    setting(rt, "all", ALL)?;
    mon_ctr_val(rt, "all", ALL)
}

fn capacity(rt: &impl Print) -> io::Result<()> {
    capacity_capabilities(rt, "cap", 0x801)?;
    capacity_capabilities(rt, "cap", ALL)?;
    capacity_mon_ctr_val(rt, "cap", 0x8000_0000_00ff_ffff)
}

fn devices(rt: &impl Print) -> io::Result<()> {
    iommu_qosid(rt, "dev", 0x2_0001)?;
    iommu_qosid(rt, "dev", ALL)?;
    dc_ta(rt, "dev", 0x0020_0100_0000_0000)?;
    dc_ta(rt, "dev", ALL)
}

fn main(rt: HostRuntime) -> io::Result<()> {
    allocation(&rt)?;
    monitoring(&rt)?;
    every_bit(&rt)?;
    capacity(&rt)?;
    devices(&rt)
}

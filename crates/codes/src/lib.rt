// Operation and event codes as the standard lists them: the rows of its tables, and the row in which a code stands.
#![tactic(auto)]

ghost use Rattle.std.specs.Prelude.{◌≤◌, ◌<◌, T};
ghost use Rattle.codes.specs.Codes.{◌has◌, alloc_ops, mon_ops, bandwidth_events, capacity_events};
ghost use Rattle.codes.specs.Claims.{Tables};

// OP of alloc_ctl: capacity (Table 6) and bandwidth (Table 12) allocation operations; FLUSH_RCID is one of capacity alone.
#[derive(Clone, Copy)]
pub enum AllocOp {
    ReservedZero,
    ConfigLimit,
    ReadLimit,
    FlushRcid,
    Reserved,
    Custom,
}

// OP of mon_ctl: usage monitoring operations (Tables 3 and 9).
#[derive(Clone, Copy)]
pub enum MonOp {
    ReservedZero,
    ConfigEvent,
    ReadCounter,
    Reserved,
    Custom,
}

// EVT_ID of the bandwidth controller: bandwidth monitoring event ID (Table 10).
#[derive(Clone, Copy)]
pub enum BandwidthEvent {
    None,
    TotalReadWrite,
    TotalRead,
    TotalWrite,
    Reserved,
    Custom,
}

// EVT_ID of the capacity controller: usage monitoring event ID (Table 4).
#[derive(Clone, Copy)]
pub enum CapacityEvent {
    None,
    Occupancy,
    Reserved,
    Custom,
}

// The two controllers by what they share out, as their tables of operations and of events differ.
#[derive(Clone, Copy)]
pub enum Resource {
    Bandwidth,
    Capacity,
}

// The row of OP 3 to 23 of alloc_ctl: where the tables of the two controllers differ.
fn upper_op(resource: Resource, op: u64) -> AllocOp
    requires { (3 ≤ op) × (op ≤ 23) }
    ensures { T (alloc_ops resource result has op) }
{
    match resource {
        Resource::Bandwidth => AllocOp::Reserved,
        Resource::Capacity => {
            if op == 3 {
                AllocOp::FlushRcid
            } else {
                AllocOp::Reserved
            }
        }
    }
}

// The row of an OP of alloc_ctl, which has five bits.
pub fn alloc_op(resource: Resource, op: u64) -> AllocOp
    requires { op < 32 }
    ensures { T (alloc_ops resource result has op) }
{
    match op {
        0 => AllocOp::ReservedZero,
        1 => AllocOp::ConfigLimit,
        2 => AllocOp::ReadLimit,
        3..=23 => upper_op(resource, op),
        24..=31 => AllocOp::Custom,
        _ => AllocOp::Custom,
    }
}

// The row of an OP of mon_ctl, which has five bits.
pub fn mon_op(op: u64) -> MonOp
    requires { op < 32 }
    ensures { T (mon_ops result has op) }
{
    match op {
        0 => MonOp::ReservedZero,
        1 => MonOp::ConfigEvent,
        2 => MonOp::ReadCounter,
        3..=23 => MonOp::Reserved,
        24..=31 => MonOp::Custom,
        _ => MonOp::Custom,
    }
}

// The row of an EVT_ID of the bandwidth controller, which has eight bits.
pub fn bandwidth_event(event: u64) -> BandwidthEvent
    requires { event < 256 }
    ensures { T (bandwidth_events result has event) }
{
    match event {
        0 => BandwidthEvent::None,
        1 => BandwidthEvent::TotalReadWrite,
        2 => BandwidthEvent::TotalRead,
        3 => BandwidthEvent::TotalWrite,
        4..=127 => BandwidthEvent::Reserved,
        128..=255 => BandwidthEvent::Custom,
        _ => BandwidthEvent::Custom,
    }
}

// The row of an EVT_ID of the capacity controller, which has eight bits.
pub fn capacity_event(event: u64) -> CapacityEvent
    requires { event < 256 }
    ensures { T (capacity_events result has event) }
{
    match event {
        0 => CapacityEvent::None,
        1 => CapacityEvent::Occupancy,
        2..=127 => CapacityEvent::Reserved,
        128..=255 => CapacityEvent::Custom,
        _ => CapacityEvent::Custom,
    }
}

// Does nothing. Its contract holds the claim, so that it cannot vanish unnoticed.
pub fn claims()
    ensures { Tables }
{}

// OP and EVT_ID of mon_ctl by the rows of their tables: the STATUS, by the first condition that applies, and what the operation does.
ghost use Rattle.std.specs.Prelude.{◌≡◌, cond, ◌&&◌, [], ◌∷◌, ◌<◌, leb, eqb};
ghost use Rattle.tables.specs.View.{Small};
ghost use Rattle.access.specs.Checks.{◌gives◌, first};
ghost use Rattle.codes.specs.Codes.{◌has◌, mon_ops};
ghost use Rattle.codes.specs.declared.Resource.TheVariants as resource;
ghost use Rattle.codes.specs.declared.MonOp.TheVariants as row;
ghost use Rattle.monitor.specs.Monitor.{invalid_op, unknown_event, mon_status};
ghost use Rattle.monitor.specs.View.{configures, reads, EffectOf};

use crate::unpack_held;
use codes::{
    BandwidthEvent, CapacityEvent, MonOp, Resource, bandwidth_event, capacity_event, mon_op,
};
use fields::MonCtl;
use tables::pick;

// The STATUS of CONFIG_EVENT by ATV and AT.
fn at_status(na: u64, ctl: MonCtl) -> u64
    ensures { result ≡ first (((eqb ctl.atv 1 && leb na ctl.at) gives 5) ∷ []) 1 }
{
    pick((ctl.atv == 1) & (na <= ctl.at), 5, 1)
}

// The STATUS of CONFIG_EVENT by EVT_ID, `otherwise` where the controller knows the event.
fn event_status(resource: Resource, event: u64, otherwise: u64) -> u64
    requires { event < 256 }
    ensures { result ≡ first ((unknown_event resource event gives 4) ∷ []) otherwise }
{
    match resource {
        Resource::Bandwidth => match bandwidth_event(event) {
            BandwidthEvent::None => otherwise,
            BandwidthEvent::TotalReadWrite => otherwise,
            BandwidthEvent::TotalRead => otherwise,
            BandwidthEvent::TotalWrite => otherwise,
            BandwidthEvent::Reserved => 4,
            BandwidthEvent::Custom => 4,
        },
        Resource::Capacity => match capacity_event(event) {
            CapacityEvent::None => otherwise,
            CapacityEvent::Occupancy => otherwise,
            CapacityEvent::Reserved => 4,
            CapacityEvent::Custom => 4,
        },
    }
}

// The STATUS by OP and MCID; `event` is the one by EVT_ID, ATV and AT, which count for CONFIG_EVENT alone.
fn op_status(nm: u64, ctl: MonCtl, event: u64) -> u64
    requires { ctl.op < 32 }
    ensures { result ≡ first ((invalid_op ctl.op gives 2) ∷ (leb nm ctl.mcid gives 3) ∷ []) (cond (mon_ops row.ConfigEvent has ctl.op) event 1) }
{
    let absent = nm <= ctl.mcid;
    match mon_op(ctl.op) {
        MonOp::ReservedZero => 2,
        MonOp::ConfigEvent => pick(absent, 3, event),
        MonOp::ReadCounter => pick(absent, 3, 1),
        MonOp::Reserved => 2,
        MonOp::Custom => 2,
    }
}

// The STATUS of a value written to mon_ctl.
pub fn mon_status(resource: Resource, na: u64, nm: u64, v: u64) -> u64
    ensures { Small (mon_status na nm resource v) 5 result }
{
    let ctl = unpack_held(na, v);
    op_status(
        nm,
        ctl,
        event_status(resource, ctl.evtid, at_status(na, ctl)),
    )
}

pub fn bandwidth_status(na: u64, nm: u64, v: u64) -> u64
    ensures { Small (mon_status na nm resource.Bandwidth v) 5 result }
{
    mon_status(Resource::Bandwidth, na, nm, v)
}

pub fn capacity_status(na: u64, nm: u64, v: u64) -> u64
    ensures { Small (mon_status na nm resource.Capacity v) 5 result }
{
    mon_status(Resource::Capacity, na, nm, v)
}

// What an operation does: nothing, configure a counter, or read one.
#[derive(Clone, Copy)]
pub enum Effect {
    Nothing,
    Configures,
    Reads,
}

impl Effect {
    pub fn configures(self) -> bool
        ensures { result ≡ configures self }
    {
        matches!(self, Effect::Configures)
    }

    pub fn reads(self) -> bool
        ensures { result ≡ reads self }
    {
        matches!(self, Effect::Reads)
    }
}

// What the operation of this OP does, where it ended with this STATUS.
pub fn effect_of(op: u64, status: u64) -> Effect
    requires { op < 32 }
    ensures { EffectOf op status result }
{
    let done = status == 1;
    if done {
        match mon_op(op) {
            MonOp::ReservedZero => Effect::Nothing,
            MonOp::ConfigEvent => Effect::Configures,
            MonOp::ReadCounter => Effect::Reads,
            MonOp::Reserved => Effect::Nothing,
            MonOp::Custom => Effect::Nothing,
        }
    } else {
        Effect::Nothing
    }
}

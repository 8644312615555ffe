// The bandwidth controller's functions for C on requests that wait, on bytes.
ghost use Rattle.std.specs.Prelude.{◌≡◌, [], ◌∷◌};
ghost use Rattle.bandwidth_model.specs.Calls.{wait};
ghost use Rattle.bandwidth_model.specs.Calls as calls;
ghost use Rattle.replies.specs.Replies.{reply};
ghost use Rattle.bandwidth_lent.specs.Bytes.{step_bytes, lent};

use crate::number;

#[unsafe(no_mangle)]
pub extern "C" fn cbqri_bandwidth_wait(
    record: &[u8],
    active: &[u8],
    configured: &[u8],
    used: &[u8],
    counters: &[u8],
    events: &[u8],
    waiters: &mut [u8],
    rcid: u64,
    mcid: u64,
    at: u64,
    kind: u64,
    bytes: u32,
) -> u64
    ensures { reply result [] (lent «record».now active.now configured.now used.now counters.now events.now waiters.new)
        ≡ step_bytes (lent «record».now active.now configured.now used.now counters.now events.now waiters.old) (wait rcid mcid at kind bytes) }
{
    number(bandwidth_bytes::wait::wait(
        record, active, configured, used, counters, events, waiters, rcid, mcid, at, kind, bytes,
    ))
}

#[unsafe(no_mangle)]
pub extern "C" fn cbqri_bandwidth_need(
    record: &[u8],
    active: &[u8],
    configured: &[u8],
    used: &[u8],
    counters: &[u8],
    events: &[u8],
    waiters: &[u8],
    rcid: u64,
    need: &mut u64,
) -> u64
    ensures { reply result (need.new ∷ []) (lent «record».now active.now configured.now used.now counters.now events.now waiters.now)
        ≡ step_bytes (lent «record».now active.now configured.now used.now counters.now events.now waiters.now) (calls.need rcid) }
{
    let asked = bandwidth_bytes::wait::need(
        record, active, configured, used, counters, events, waiters, rcid,
    );
    match asked {
        Ok(left) => {
            *need = left;
            0
        }
        Err(why) => {
            *need = 0;
            u64::from(why)
        }
    }
}

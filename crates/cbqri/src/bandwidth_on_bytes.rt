// The bandwidth controller's functions for C, on bytes.
ghost use Rattle.std.specs.Prelude.{◌≡◌, [], ◌∷◌};
ghost use Rattle.bandwidth_model.specs.Calls.{reset, read, write, request, end_window};
ghost use Rattle.replies.specs.Replies.{reply};
ghost use Rattle.bandwidth_lent.specs.Bytes.{setup_by, step_bytes, lent};

use crate::number;
use bandwidth_setup::Setup;

#[unsafe(no_mangle)]
pub extern "C" fn cbqri_bandwidth_reset(
    nbwblks: u64,
    mrbwb: u64,
    nr: u64,
    na: u64,
    nm: u64,
    q: u64,
    w: u64,
    record: &mut [u8],
    active: &mut [u8],
    configured: &mut [u8],
    used: &mut [u8],
    counters: &mut [u8],
    events: &mut [u8],
    waiters: &mut [u8],
) -> u64
    ensures { reply result [] (lent «record».new active.new configured.new used.new counters.new events.new waiters.new)
        ≡ step_bytes (lent «record».old active.old configured.old used.old counters.old events.old waiters.old) (reset (setup_by nbwblks mrbwb nr na nm q w)) }
{
    let setup = Setup {
        nbwblks,
        mrbwb,
        nr,
        na,
        nm,
        q,
        w,
    };
    number(bandwidth_lent::reset::reset(
        record, active, configured, used, counters, events, waiters, setup,
    ))
}

#[unsafe(no_mangle)]
pub extern "C" fn cbqri_bandwidth_read(
    record: &[u8],
    active: &[u8],
    configured: &[u8],
    used: &[u8],
    counters: &[u8],
    events: &[u8],
    waiters: &[u8],
    size: u64,
    offset: u64,
    value: &mut u64,
) -> u64
    ensures { reply result (value.new ∷ []) (lent «record».now active.now configured.now used.now counters.now events.now waiters.now)
        ≡ step_bytes (lent «record».now active.now configured.now used.now counters.now events.now waiters.now) (read size offset) }
{
    let read = bandwidth_bytes::read::read(
        record, active, configured, used, counters, events, waiters, size, offset,
    );
    match read {
        Ok(word) => {
            *value = word;
            0
        }
        Err(why) => {
            *value = 0;
            u64::from(why)
        }
    }
}

#[unsafe(no_mangle)]
pub extern "C" fn cbqri_bandwidth_write(
    record: &mut [u8],
    active: &[u8],
    configured: &mut [u8],
    used: &[u8],
    counters: &mut [u8],
    events: &mut [u8],
    waiters: &[u8],
    size: u64,
    offset: u64,
    value: u64,
) -> u64
    ensures { reply result [] (lent «record».new active.now configured.new used.now counters.new events.new waiters.now)
        ≡ step_bytes (lent «record».old active.now configured.old used.now counters.old events.old waiters.now) (write size offset value) }
{
    number(bandwidth_bytes::write::write(
        record, active, configured, used, counters, events, waiters, size, offset, value,
    ))
}

#[unsafe(no_mangle)]
pub extern "C" fn cbqri_bandwidth_request(
    record: &mut [u8],
    active: &[u8],
    configured: &[u8],
    used: &mut [u8],
    counters: &mut [u8],
    events: &[u8],
    waiters: &[u8],
    rcid: u64,
    mcid: u64,
    at: u64,
    kind: u64,
    bytes: u32,
    reserved: &mut u64,
    pool: &mut u64,
) -> u64
    ensures { reply result (reserved.new ∷ pool.new ∷ []) (lent «record».new active.now configured.now used.new counters.new events.now waiters.now)
        ≡ step_bytes (lent «record».old active.now configured.now used.old counters.old events.now waiters.now) (request rcid mcid at kind bytes) }
{
    let granted = bandwidth_bytes::request::request(
        record, active, configured, used, counters, events, waiters, rcid, mcid, at, kind, bytes,
    );
    match granted {
        Ok(grant) => {
            *reserved = grant.reserved;
            *pool = grant.pool;
            0
        }
        Err(why) => {
            *reserved = 0;
            *pool = 0;
            u64::from(why)
        }
    }
}

#[unsafe(no_mangle)]
pub extern "C" fn cbqri_bandwidth_end_window(
    record: &mut [u8],
    active: &mut [u8],
    configured: &[u8],
    used: &mut [u8],
    counters: &mut [u8],
    events: &[u8],
    waiters: &mut [u8],
) -> u64
    ensures { reply result [] (lent «record».new active.new configured.now used.new counters.new events.now waiters.new)
        ≡ step_bytes (lent «record».old active.old configured.now used.old counters.old events.now waiters.old) end_window }
{
    number(bandwidth_bytes::window::end_window(
        record, active, configured, used, counters, events, waiters,
    ))
}

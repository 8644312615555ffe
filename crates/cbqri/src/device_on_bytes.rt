// A device's request to the bandwidth controller for C, on bytes.
ghost use Rattle.std.specs.Prelude.{◌≡◌, [], ◌∷◌};
ghost use Rattle.bandwidth_model.specs.Calls.{device_request};
ghost use Rattle.replies.specs.Replies.{reply};
ghost use Rattle.bandwidth_lent.specs.Bytes.{step_bytes, lent};

#[unsafe(no_mangle)]
pub extern "C" fn cbqri_bandwidth_device_request(
    record: &mut [u8],
    active: &[u8],
    configured: &[u8],
    used: &mut [u8],
    counters: &mut [u8],
    events: &[u8],
    waiters: &[u8],
    mode: u64,
    word: u64,
    at: u64,
    kind: u64,
    bytes: u32,
    reserved: &mut u64,
    pool: &mut u64,
) -> u64
    ensures { reply result (reserved.new ∷ pool.new ∷ []) (lent «record».new active.now configured.now used.new counters.new events.now waiters.now)
        ≡ step_bytes (lent «record».old active.now configured.now used.old counters.old events.now waiters.now) (device_request mode word at kind bytes) }
{
    let granted = bandwidth_bytes::request::device_request(
        record, active, configured, used, counters, events, waiters, mode, word, at, kind, bytes,
    );
    match granted {
        Ok(grant) => {
            *reserved = grant.reserved;
            *pool = grant.pool;
            0
        }
        Err(why) => {
            *reserved = 0;
            *pool = 0;
            u64::from(why)
        }
    }
}

// Reads on bytes.
ghost use Rattle.std.specs.Prelude.{◌≡◌};
ghost use Rattle.access.specs.View.{refusal_in};
ghost use Rattle.replies.specs.Replies.{reply, value_in};
ghost use Rattle.bandwidth_model.specs.Calls.{read};
ghost use Rattle.bandwidth_lent.specs.Bytes.{lent, step_bytes};

use access::Refusal;
use bandwidth_lent::checked;

pub fn read(
    record: &[u8],
    active: &[u8],
    configured: &[u8],
    used: &[u8],
    counters: &[u8],
    events: &[u8],
    waiters: &[u8],
    size: u64,
    offset: u64,
) -> Result<u64, Refusal>
    ensures { reply (refusal_in result) (value_in result) (lent «record».now active.now configured.now used.now counters.now events.now waiters.now) ≡ step_bytes (lent «record».now active.now configured.now used.now counters.now events.now waiters.now) (read size offset) }
{
    let held = checked(record, active, configured, used, counters, events, waiters)?;
    held.record.reading(size, offset)
}

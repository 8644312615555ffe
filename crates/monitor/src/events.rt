// EVT_ID by the rows of each controller's table: what a counter counts.
ghost use Rattle.std.specs.Prelude.{◌≡◌, ◌<◌};
ghost use Rattle.codes.specs.Codes.{◌has◌, no_event};
ghost use Rattle.monitor.specs.Monitor.{counts_event};
ghost use Rattle.monitor.specs.Bytes.{counts_kind};

use codes::{BandwidthEvent, Resource, bandwidth_event};

// The rows of one code.
const NONE: u64 = 0;

const TOTAL_READ_WRITE: u64 = 1;

const TOTAL_READ: u64 = 2;

const TOTAL_WRITE: u64 = 3;

const OCCUPANCY: u64 = 1;

// Whether an event is None, which stands in the same row of both tables.
pub fn stops(event: u64) -> bool
    ensures { result ≡ (no_event has event) }
{
    event == NONE
}

// Whether a controller counts an event: all bytes, bytes read or bytes written; occupancy. Check 3 asks it of every counter setting, so it has no branches.
pub fn counts_event(resource: Resource, event: u64) -> bool
    ensures { result ≡ counts_event resource event }
{
    let bandwidth = (event == TOTAL_READ_WRITE) | (event == TOTAL_READ) | (event == TOTAL_WRITE);
    let capacity = event == OCCUPANCY;
    match resource {
        Resource::Bandwidth => bandwidth,
        Resource::Capacity => capacity,
    }
}

// Whether an event counts requests of a kind.
pub fn counts_kind(event: u64, kind: u64) -> bool
    requires { event < 256 }
    ensures { result ≡ counts_kind event kind }
{
    match bandwidth_event(event) {
        BandwidthEvent::None => false,
        BandwidthEvent::TotalReadWrite => true,
        BandwidthEvent::TotalRead => kind == 0,
        BandwidthEvent::TotalWrite => kind != 0,
        BandwidthEvent::Reserved => false,
        BandwidthEvent::Custom => false,
    }
}

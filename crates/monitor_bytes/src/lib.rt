// Monitoring where counters and their settings are lent as little-endian bytes: the operations of `monitor` on words that are loaded and stored.
#![tactic(auto)]

ghost use Rattle.std.specs.Prelude.{◌≡◌, cond, List, ℕ, ◌+◌, ◌*◌, ◌^◌, ◌≤◌, ◌<◌, length, get_or, set};
ghost use Rattle.tables.specs.Below.{all_below};
ghost use Rattle.tables.specs.Parts.{part};
ghost use Rattle.words.specs.Words.{bytes_of_all, table_of, Holds};
ghost use Rattle.monitor.specs.Monitor.{counter_fields, counter_ctr, counter_ok, setting_ok, mon_after};
ghost use Rattle.monitor.specs.Bytes.{counts_request, added};
ghost use Rattle.monitor.specs.View.{monitor_of};
ghost use Rattle.monitor_bytes.specs.Monitor.{Stores};

use codes::Resource;
use monitor::{Registers, counted_bytes, mon_after, named_mcid, union_ok};
use words::{load_part, put, union64, word};

// Whether every counter is well formed.
pub fn counters_ok(resource: Resource, t: &[u8], w: u32) -> bool
    requires { w ≤ 62 }
    ensures { result ≡ all_below (length (table_of 8 t.now)) (λ i. counter_ok (counter_fields resource) (counter_ctr resource) w (get_or (table_of 8 t.now) i 0)) }
{
    union_ok(resource, union64(t), w)
}

// Whether n counter settings from `from` on are well formed.
fn part_ok(t: &[u8], from: usize, n: usize, na: u16, resource: Resource) -> bool
    requires { (na ≤ 8) × ((n ≤ 64) × ((from + n) * 2 ≤ length t.now)) }
    ensures { result ≡ all_below n (λ i. setting_ok na resource (get_or (part from n (table_of 2 t.now)) i 0)) }
{
    let mut settings = [0u16; 64];
    load_part(t, from, &mut settings[..n]);
    monitor::events_ok(&settings[..n], na, resource)
}

// Whether every counter setting is well formed.
pub fn events_ok(t: &[u8], na: u16, resource: Resource) -> bool
    requires { na ≤ 8 }
    ensures { result ≡ all_below (length (table_of 2 t.now)) (λ i. setting_ok na resource (get_or (table_of 2 t.now) i 0)) }
{
    let words = t.len() / 2;
    let mut ok = true;
    let mut i = 0usize;
    while i < words {
        let n = (words - i).min(64);
        ok &= part_ok(t, i, n, na, resource);
        i += n;
    }
    ok
}

// Granted bytes added to the counter of an MCID where its setting matches.
pub fn count_bytes(
    w: u64,
    counters: &mut [u8],
    events: &[u8],
    mcid: u64,
    at: u64,
    kind: u64,
    bytes: u64,
)
    requires { (w ≤ 62) × (bytes < 2 ^ 63) }
    ensures { (ns es : List ℕ) → Holds 8 counters.old ns → Holds 2 events.now es
        → counters.new ≡ bytes_of_all 8 (cond (counts_request (get_or es mcid 0) at kind) (set ns mcid (added w bytes (get_or ns mcid 0))) ns) }
{
    let i = mcid as usize;
    let counter = counted_bytes(w, word(counters, i, 0), word(events, i, 0), at, kind, bytes);
    put(counters, i, counter);
}

// The write of v to mon_ctl with its operation's STATUS.
pub fn write_mon(
    na: u64,
    status: u64,
    registers: Registers,
    counters: &mut [u8],
    events: &mut [u8],
    v: u64,
) -> Registers
    requires { status < 128 }
    ensures { (ns es : List ℕ) → Holds 8 counters.old ns → Holds 2 events.old es
        → Stores (mon_after na status (monitor_of registers ns es) v) result counters.new events.new }
{
    let i = named_mcid(v);
    let left = mon_after(
        na,
        status,
        registers.value,
        word(counters, i, 0),
        word(events, i, 0),
        v,
    );
    put(counters, i, left.counter);
    put(events, i, left.setting);
    Registers {
        ctl: left.ctl,
        value: left.value,
    }
}

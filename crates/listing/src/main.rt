// Answers the lines of standard input: one read and one write for each chunk.
#![tactic(auto)]

ghost use Rattle.std.specs.Prelude.{◌≡◌, ◌*◌, ◌≤◌, IfOk, OnErr, length, take};
ghost use Rattle.print.specs.Print.{line_room};
ghost use Rattle.session.specs.View.{controller_of, Tables};
ghost use Rattle.stream.specs.Stream.{Fed};

use std::io;
use std::io::Read;
use stream::State;

// Reads once and answers the lines that end there: how many bytes were read, the first of `chunk`, and how many answer them. A read that fails changes nothing but `chunk`.
fn turn(
    input: &mut impl Read,
    state: &mut State,
    active: &mut [u32],
    configured: &mut [u32],
    used: &mut [u32],
    counters: &mut [u64],
    events: &mut [u16],
    waiters: &mut [u64],
    chunk: &mut [u8],
    out: &mut [u8],
) -> io::Result<(usize, usize)>
    requires { Tables active.old configured.old used.old counters.old events.old waiters.old × (line_room * length chunk.old ≤ length out.old) }
    ensures answers { IfOk result (λ r. Fed (controller_of state.old.«record» active.old configured.old used.old counters.old events.old waiters.old) (take state.old.len state.old.line) (take r.0 chunk.new)
        (controller_of state.new.«record» active.new configured.new used.new counters.new events.new waiters.new) (take state.new.len state.new.line) out.new r.1) }
    ensures failed { OnErr result ((state.new ≡ state.old) × (active.new ≡ active.old) × (configured.new ≡ configured.old) × (used.new ≡ used.old)
        × (counters.new ≡ counters.old) × (events.new ≡ events.old) × (waiters.new ≡ waiters.old) × (out.new ≡ out.old)) }
{
    let got = input.read(chunk)?;
    let end = state.feed(
        active,
        configured,
        used,
        counters,
        events,
        waiters,
        &chunk[..got],
        out,
    );
    Ok((got, end))
}

// Chunk after chunk until a read has no byte.
fn hear(
    input: &mut impl Read,
    output: &impl Print,
    state: &mut State,
    active: &mut [u32],
    configured: &mut [u32],
    used: &mut [u32],
    counters: &mut [u64],
    events: &mut [u16],
    waiters: &mut [u64],
    chunk: &mut [u8],
    out: &mut [u8],
) -> io::Result<()>
    requires { Tables active.old configured.old used.old counters.old events.old waiters.old × ((1 ≤ length chunk.old) × (line_room * length chunk.old ≤ length out.old)) }
{
    for _turn in 0..u64::MAX {
        let (got, end) = turn(
            input, state, active, configured, used, counters, events, waiters, chunk, out,
        )?;
        if got == 0 {
            break;
        }
        output.write_all(&out[..end])?;
    }
    Ok(())
}

// The whole input, and then its end, also where a read or a write failed. What failed first is the error.
fn listen(
    input: &mut impl Read,
    output: &impl Print,
    active: &mut [u32],
    configured: &mut [u32],
    used: &mut [u32],
    counters: &mut [u64],
    events: &mut [u16],
    waiters: &mut [u64],
    chunk: &mut [u8],
    out: &mut [u8],
) -> io::Result<()>
    requires { Tables active.old configured.old used.old counters.old events.old waiters.old × ((1 ≤ length chunk.old) × (line_room * length chunk.old ≤ length out.old)) }
{
    let mut state = State::start();
    let heard = hear(
        input, output, &mut state, active, configured, used, counters, events, waiters, chunk, out,
    );
    let end = state.finish(active, configured, used, counters, events, waiters, out);
    let wrote = output.write_all(&out[..end]);
    heard.and(wrote)
}

fn main(rt: HostRuntime) -> io::Result<()> {
    // A word for each of 256 RCIDs and 8 ATs.
    let mut active = [0; 2048];
    let mut configured = [0; 2048];
    let mut used = [0; 2048];

    // A word for each of 256 MCIDs or RCIDs.
    let mut counters = [0; 256];
    let mut events = [0; 256];
    let mut waiters = [0; 256];

    // Room for a line for each byte of a chunk.
    let mut chunk = [0; 8192];
    let mut out = [0; 344064];
    listen(
        &mut rt.stdin(),
        &rt,
        &mut active,
        &mut configured,
        &mut used,
        &mut counters,
        &mut events,
        &mut waiters,
        &mut chunk,
        &mut out,
    )
}

// Lines answered as they come in, however the input is cut into chunks.
#![tactic(auto)]

ghost use Rattle.std.specs.Prelude.{◌≡◌, ◌++◌, ◌+◌, ◌*◌, ◌≤◌, length, take};
ghost use Rattle.print.specs.Print.{line_room};
ghost use Rattle.session.specs.View.{controller_of, Tables, KeptFrom};
ghost use Rattle.stream.specs.Stream.{Ends, Kept, join_of, full_line, Started, Answered, Fed, Finished, KeptBeyond};
ghost use Rattle.stream.specs.Claim.{Claim};

use bandwidth::Record;
use bandwidth_setup::Setup;

// The controller's record, and the first bytes, at most 81, of the line that has not ended.
#[derive(Clone, Copy)]
pub struct State {
    pub record: Record,
    pub line: [u8; 81],
    pub len: usize,
}

// Answers one line at `at` of `out`, and returns where the answer ends. The room is that of the longest answer, and of the largest tables.
fn answer(
    record: &mut Record,
    active: &mut [u32],
    configured: &mut [u32],
    used: &mut [u32],
    counters: &mut [u64],
    events: &mut [u16],
    waiters: &mut [u64],
    line: &[u8],
    out: &mut [u8],
    at: usize,
) -> usize
    requires { Tables active.old configured.old used.old counters.old events.old waiters.old × (at + line_room ≤ length out.old) }
    ensures answers { Answered (controller_of «record».old active.old configured.old used.old counters.old events.old waiters.old) line.now out.old at
        (controller_of «record».new active.new configured.new used.new counters.new events.new waiters.new) out.new result }
    ensures tables { KeptFrom 2048 256 256 active.old configured.old used.old counters.old events.old waiters.old
        active.new configured.new used.new counters.new events.new waiters.new }
{
    let command = parse::parse(line);
    let reply = session::act(
        record, active, configured, used, counters, events, waiters, command,
    );
    print::put_line(reply, out, at)
}

// Where the line at `from` ends: at the next newline or the chunk's end.
fn line_end(chunk: &[u8], from: usize) -> usize
    requires { from ≤ length chunk.now }
    ensures { Ends chunk.now from result }
{
    for i in from..chunk.len() {
        if chunk[i] == b'\n' {
            return i;
        }
    }
    chunk.len()
}

// Puts `part` behind the `start` bytes held of a line, as far as 81 bytes go.
fn hold(line: &mut [u8; 81], start: usize, part: &[u8]) -> usize
    requires { (start ≤ 81) × (length line.old ≡ 81) }
    ensures { Kept line.old (take 81 (take start line.old ++ part.now)) line.new result }
{
    let more = part.len().min(81 - start);
    let end = start + more;
    line[start..end].copy_from_slice(&part[..more]);
    end
}

// The same where bytes are held; where none are, `part` is the line.
fn join(line: &mut [u8; 81], n: usize, part: &[u8]) -> usize
    requires { (n ≤ 81) × (length line.old ≡ 81) }
    ensures { Kept line.old (join_of (take n line.old) part.now) line.new result }
{
    if n > 0 { hold(line, n, part) } else { 0 }
}

// The line that ends with `part`.
fn full_line<'a>(held: &'a [u8], part: &'a [u8]) -> &'a [u8]
    ensures { result.now ≡ full_line held.now part.now }
{
    if held.is_empty() { part } else { held }
}

impl State {
    // Before the input.
    pub fn start() -> State
        ensures { Started result }
    {
        let setup = Setup {
            nbwblks: 0,
            mrbwb: 0,
            nr: 0,
            na: 0,
            nm: 0,
            q: 0,
            w: 0,
        };
        State {
            record: Record::fresh(setup),
            line: [0; 81],
            len: 0,
        }
    }

    // Answers every line that ends in `chunk`, from the start of `out` on, and returns where the answers end.
    pub fn feed(
        &mut self,
        active: &mut [u32],
        configured: &mut [u32],
        used: &mut [u32],
        counters: &mut [u64],
        events: &mut [u16],
        waiters: &mut [u64],
        chunk: &[u8],
        out: &mut [u8],
    ) -> usize
        requires { Tables active.old configured.old used.old counters.old events.old waiters.old × (line_room * length chunk.now ≤ length out.old) }
        ensures answers { Fed (controller_of self.old.«record» active.old configured.old used.old counters.old events.old waiters.old) (take self.old.len self.old.line) chunk.now
            (controller_of self.new.«record» active.new configured.new used.new counters.new events.new waiters.new) (take self.new.len self.new.line) out.new result }
        ensures lent { KeptBeyond active.old configured.old used.old counters.old events.old waiters.old out.old
            active.new configured.new used.new counters.new events.new waiters.new out.new result }
    {
        let mut n = self.len.min(81);
        let mut end = 0;
        let mut from = 0;
        let mut i = line_end(chunk, 0);
        while i < chunk.len() {
            let part = &chunk[from..i];
            n = join(&mut self.line, n, part);
            end = answer(
                &mut self.record,
                active,
                configured,
                used,
                counters,
                events,
                waiters,
                full_line(&self.line[..n], part),
                out,
                end,
            );
            n = 0;
            from = i + 1;
            i = line_end(chunk, from);
        }
        self.len = hold(&mut self.line, n, &chunk[from..]);
        end
    }

    // At the end of input: answers the line that no newline ended, if there is one.
    pub fn finish(
        mut self,
        active: &mut [u32],
        configured: &mut [u32],
        used: &mut [u32],
        counters: &mut [u64],
        events: &mut [u16],
        waiters: &mut [u64],
        out: &mut [u8],
    ) -> usize
        requires { Tables active.old configured.old used.old counters.old events.old waiters.old × (line_room ≤ length out.old) }
        ensures answers { Finished (controller_of self.«record» active.old configured.old used.old counters.old events.old waiters.old) (take self.len self.line) out.new result }
        ensures lent { KeptBeyond active.old configured.old used.old counters.old events.old waiters.old out.old
            active.new configured.new used.new counters.new events.new waiters.new out.new result }
    {
        if self.len == 0 {
            return 0;
        }
        self.feed(
            active, configured, used, counters, events, waiters, b"\n", out,
        )
    }
}

// The claim on whole inputs.
pub fn cuts_do_not_matter()
    ensures { Claim }
{}

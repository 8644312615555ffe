// Parts of a table: where one ends, and what all its words are at most.
ghost use Rattle.std.specs.Prelude.{◌≡◌, ◌-◌, ◌*◌, ◌<◌, ◌≤◌, T, length, get_or};
ghost use Rattle.bandwidth_wellformed.specs.Bits.{AtMost, SpanAt};

// The rows of a part: 64 words, or not much less.
fn part_rows(na: u32) -> usize
    requires { na ≤ 8 }
    ensures { (1 ≤ result) × (result * na ≤ 64) }
{
    match na {
        0 | 1 => 64,
        2 => 32,
        3 | 4 => 16,
        _ => 8,
    }
}

// Where a part that begins before the end ends.
fn part_end(from: usize, step: usize, end: usize) -> usize
    requires { (from < end) × (1 ≤ step) }
    ensures { (from < result) × ((result ≤ end) × (result - from ≤ step)) }
{
    from + step.min(end - from)
}

// A part: the row after it, and where its words begin and end.
#[derive(Clone, Copy)]
pub struct Span {
    pub next: usize,
    pub from: usize,
    pub to: usize,
}

// The part that begins at the row r.
pub fn span_at(r: usize, nr: usize, na: u32) -> Span
    requires { (r < nr) × ((na ≤ 8) × (nr * na ≤ 2048)) }
    ensures { SpanAt na nr r result.next result.from result.to }
{
    let next = part_end(r, part_rows(na), nr);
    Span {
        next,
        from: r * na as usize,
        to: next * na as usize,
    }
}

// A number that no word is above: all their bits.
fn union32(t: &[u32]) -> u32
    ensures { AtMost (λ k. get_or t.now k 0) (length t.now) result }
{
    let mut bits = 0u32;
    for w in t {
        bits |= w;
    }
    bits
}

// True only where every word is 0; the first word mostly tells.
pub fn all_zero(t: &[u32]) -> bool
    ensures { T result → AtMost (λ k. get_or t.now k 0) (length t.now) 0 }
{
    (tables::word(t, 0, 0) == 0) && (union32(t) == 0)
}

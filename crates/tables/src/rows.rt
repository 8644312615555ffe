// The words of an RCID in a table with a word for each pair.
ghost use Rattle.std.specs.Prelude.{◌≤◌};
ghost use Rattle.tables.specs.Parts.{RowAt};

use std::ops::Range;

// Where they begin and end. It can be copied, which a range can't.
#[derive(Clone, Copy)]
pub struct Row {
    pub from: usize,
    pub to: usize,
}

// The words of an RCID; none where there is no such RCID.
pub fn row_at(nr: u64, na: u64, rcid: u64) -> Row
    requires { (nr ≤ 256) × (na ≤ 8) }
    ensures { RowAt nr na rcid result.from result.to }
{
    if rcid < nr {
        let from = (rcid * na) as usize;
        Row {
            from,
            to: from + na as usize,
        }
    } else {
        Row { from: 0, to: 0 }
    }
}

// The same as a range, to take the part of a table by.
pub fn row_of(nr: u64, na: u64, rcid: u64) -> Range<usize>
    requires { (nr ≤ 256) × (na ≤ 8) }
    ensures { RowAt nr na rcid result.start result.end }
{
    let row = row_at(nr, na, rcid);
    row.from..row.to
}

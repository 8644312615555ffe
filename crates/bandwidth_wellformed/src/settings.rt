// The settings tables and the used bytes, by sums of rows: the form of words, their rows, the blocks reserved, the bytes used.
ghost use Rattle.std.specs.Prelude.{◌≡◌, ◌&&◌, List, ℕ, ◌+◌, ◌^◌, ◌≤◌, ◌<◌, eqb, leb, length};
ghost use Rattle.bandwidth_wellformed.specs.Bits.{form_bits, Scanned};
ghost use Rattle.bandwidth_wellformed.specs.Tables.{Table, Rows, TableSummed, Summed, TableAdded, Added, SumsFit};

use crate::parts::{Span, all_zero, span_at};
use crate::rows::rows_ok;
use crate::usage::over_bits;
use tables::pick;

// The bits of a settings word that may not be there.
fn form_bits(w: u32) -> u32
    ensures { result ≡ form_bits w }
{
    w & pick(w % 65536 == 0, 0x0fff_ffff, 0xf00f_0000)
}

#[derive(Clone, Copy)]
struct Scan {
    any: u32,
    form: u32,
    blocks: u32,
}

// The words one by one: all their bits, the bits that may not be there, and the blocks.
fn scan_words(t: &[u32]) -> Scan
    requires { length t.now ≤ 2048 }
    ensures { Scanned t.now (length t.now) result.any result.form result.blocks }
{
    let mut any = 0u32;
    let mut form = 0u32;
    let mut blocks = 0u32;
    for w in t {
        any |= w;
        form |= form_bits(*w);
        blocks += w % 65536;
    }
    Scan { any, form, blocks }
}

// What rows of a settings table hold: the bits that may not be there, whether each row is right, and the blocks.
#[derive(Clone, Copy)]
pub struct TableSums {
    pub form: u32,
    pub rows: bool,
    pub blocks: u32,
}

// What no rows hold, and rows that are all 0.
const NOTHING: TableSums = TableSums {
    form: 0,
    rows: true,
    blocks: 0,
};

// The rows of a table; one that is all 0 is passed over.
fn sum_table(t: &[u32], rows: usize, na: u32) -> TableSums
    requires { Table na rows t.now }
    ensures { TableSummed na t.now rows result }
{
    if all_zero(t) {
        return NOTHING;
    }
    let s = scan_words(t);
    let right = rows_ok(t, rows, na, s.any);
    TableSums {
        form: s.form,
        rows: right,
        blocks: s.blocks,
    }
}

// The same of the configured table, by the sums of the table in force where both have the same words.
fn sum_configured(
    active: &[u32],
    configured: &[u32],
    rows: usize,
    na: u32,
    sums: TableSums,
) -> TableSums
    requires { (Table na rows active.now × Table na rows configured.now) × TableSummed na active.now rows sums }
    ensures { TableSummed na configured.now rows result }
{
    if active == configured {
        sums
    } else {
        sum_table(configured, rows, na)
    }
}

// What rows of the tables in force, configured and used hold.
#[derive(Clone, Copy)]
pub struct Sums {
    pub active: TableSums,
    pub configured: TableSums,
    pub over: u32,
}

// The rows of three tables or of parts of them.
pub fn sum_rows(
    active: &[u32],
    configured: &[u32],
    used: &[u32],
    rows: usize,
    na: u32,
    q: u32,
) -> Sums
    requires { Rows na q rows active.now configured.now used.now }
    ensures { Summed na q active.now configured.now used.now rows result }
{
    let a = sum_table(active, rows, na);
    let c = sum_configured(active, configured, rows, na, a);
    let over = over_bits(active, used, q);
    Sums {
        active: a,
        configured: c,
        over,
    }
}

// The sums of no rows.
pub fn no_sums() -> Sums
    ensures { (na q : ℕ) (active configured used : List ℕ) → Summed na q active configured used 0 result }
{
    Sums {
        active: NOTHING,
        configured: NOTHING,
        over: 0,
    }
}

fn add_table(x: TableSums, y: TableSums) -> TableSums
    requires { x.blocks + y.blocks < 2 ^ 32 }
    ensures { TableAdded x y result }
{
    TableSums {
        form: x.form | y.form,
        rows: x.rows & y.rows,
        blocks: x.blocks + y.blocks,
    }
}

// The rows of x and those of y.
pub fn add_sums(x: Sums, y: Sums) -> Sums
    requires { SumsFit x y }
    ensures { Added x y result }
{
    let active = add_table(x.active, y.active);
    let configured = add_table(x.configured, y.configured);
    Sums {
        active,
        configured,
        over: x.over | y.over,
    }
}

// All rows, part by part.
pub fn sum_tables(
    active: &[u32],
    configured: &[u32],
    used: &[u32],
    nr: usize,
    na: u32,
    q: u32,
) -> Sums
    requires { Rows na q nr active.now configured.now used.now }
    ensures { Summed na q active.now configured.now used.now nr result }
{
    let mut sums = no_sums();
    let mut r = 0usize;
    while r < nr {
        let Span { next, from, to } = span_at(r, nr, na);
        let more = sum_rows(
            &active[from..to],
            &configured[from..to],
            &used[from..to],
            next - r,
            na,
            q,
        );
        sums = add_sums(sums, more);
        r = next;
    }
    sums
}

// Whether nothing is wrong in a table, and it reserves no more blocks than it may.
pub fn table_ok(sums: TableSums, most: u64) -> bool
    ensures { result ≡ (eqb sums.form 0 && sums.rows && leb sums.blocks most) }
{
    (sums.form == 0) & sums.rows & (sums.blocks as u64 <= most)
}

// The words of bw_alloc, and the operations of alloc_ctl.
#![tactic(auto)]

mod operand;

ghost use Rattle.std.specs.Prelude.{◌≡◌, cond, [], map, ◌<◌, ◌≤◌};
ghost use Rattle.fields.specs.Layout.{pack};
ghost use Rattle.tables.specs.View.{Small};
ghost use Rattle.tables.specs.Parts.{RowAt};
ghost use Rattle.allocation.specs.Allocation.{rcid_of};
ghost use Rattle.bandwidth_model.specs.Rules.{is_holder, is_sharer, reserved, holder_word, stored_form, bw_word, with_weight, settled_row};
ghost use Rattle.bandwidth_model.specs.View.{Ranges};
ghost use Rattle.bandwidth_model.specs.Model.{registers_ok, write_alloc};
ghost use Rattle.bandwidth_setup.specs.View.{setup_of};
ghost use Rattle.bandwidth_settings.specs.View.{allocation, Ready};
ghost use Rattle.bandwidth_settings.specs.Rows.{write_row, Reserves};

use crate::operand::bad_operand;
use allocation::{alloc_status, alloc_word, control_ok, effect_of, held_fields};
use bandwidth_setup::Setup;
use codes::Resource;
use fields::BwAlloc;
use std::ops::Range;
use tables::{pick, row_of, store};

pub fn is_holder(word: u64) -> bool
    ensures { result ≡ is_holder word }
{
    let f = BwAlloc::unpack(word);
    (word != 0) & (f.useshared == 0)
}

pub fn is_sharer(word: u64) -> bool
    ensures { result ≡ is_sharer word }
{
    let f = BwAlloc::unpack(word);
    f.useshared == 1
}

// The blocks that a word reserves.
pub fn reserved_blocks(word: u64) -> u64
    ensures { Small (reserved word) 65535 result }
{
    let f = BwAlloc::unpack(word);
    pick(is_holder(word), f.rbwb, 0)
}

// A holder's word in stored form.
fn holder_word(rbwb: u64, mweight: u64) -> u64
    requires { (rbwb < 65536) × (mweight < 256) }
    ensures { result ≡ holder_word rbwb mweight }
{
    let holder = BwAlloc {
        rbwb,
        mweight,
        sharedat: 0,
        useshared: 0,
    };
    holder.pack()
}

// The word that CONFIG_LIMIT stores: a holder's without sharedAT, a sharer's without Rbwb and Mweight.
pub fn stored_word(word: u64) -> u64
    ensures { Small (stored_form word) 4294967295 result }
{
    let f = BwAlloc::unpack(word);
    let holder = holder_word(f.rbwb, f.mweight);
    let sharer = BwAlloc {
        rbwb: 0,
        mweight: 0,
        sharedat: f.sharedat,
        useshared: 1,
    };
    pick(f.useshared == 0, holder, sharer.pack())
}

// A holder's word with this Mweight, and any other word as it is.
fn with_weight(weight: u64, word: u64) -> u64
    requires { (weight < 256) × (word ≤ 4294967295) }
    ensures { Small (with_weight weight word) 4294967295 result }
{
    let f = BwAlloc::unpack(word);
    pick(is_holder(word), holder_word(f.rbwb, weight), word)
}

// The Mweight at every holder of a row.
fn carry_weight(row: &mut [u32], weight: u64)
    requires { weight < 256 }
    ensures { row.new ≡ map (with_weight weight) row.old }
{
    for w in row.iter_mut() {
        *w = with_weight(weight, u64::from(*w)) as u32;
    }
}

// What a setting, if it is made, does to the words of its RCID.
fn settle_row(made: bool, row: &mut [u32], at: usize, word: u64)
    requires { word ≤ 4294967295 }
    ensures { row.new ≡ cond made (settled_row row.old at word) row.old }
{
    let f = BwAlloc::unpack(word);
    store(made, row, at, word as u32);
    if made & is_holder(word) {
        carry_weight(row, f.mweight);
    }
}

// bw_alloc after the write of a value.
pub fn bw_word(v: u64) -> u64
    ensures { Small (bw_word v) 4294967295 result }
{
    BwAlloc::unpack(v).pack()
}

// Whether alloc_ctl and bw_alloc hold only their fields, with BUSY 0.
pub fn registers_ok(setup: Setup, ctl: u64, bw: u64) -> bool
    ensures { result ≡ registers_ok (setup_of setup) (allocation ctl bw []) }
{
    control_ok(setup.na, ctl) & (bw == bw_word(bw))
}

// alloc_ctl and bw_alloc after an operation.
#[derive(Clone, Copy)]
pub struct Written {
    pub ctl: u64,
    pub bw: u64,
}

// Where the words of the RCID that v names stand; nowhere where there is no such RCID.
pub fn row_named(setup: Setup, v: u64) -> Range<usize>
    requires { Ranges (setup_of setup) }
    ensures { RowAt setup.nr setup.na (rcid_of v) result.start result.end }
{
    row_of(setup.nr, setup.na, held_fields(setup.na, v).rcid)
}

// The write of v to alloc_ctl by the words of the RCID that v names: stores the fields and performs the operation. `reserved` is what the configured table reserves.
pub fn write_row(setup: Setup, row: &mut [u32], reserved: u64, bw: u64, v: u64) -> Written
    requires { Reserves (setup_of setup) reserved }
    ensures { allocation result.ctl result.bw row.new ≡ write_row (setup_of setup) reserved bw row.old v }
{
    let f = held_fields(setup.na, v);
    let bad = bad_operand(setup, row, reserved, f.at, bw);
    let status = alloc_status(Resource::Bandwidth, setup.nr, setup.na, bad, v);
    let at = f.at as usize;
    let old = u64::from(tables::word(row, at, 0));
    let effect = effect_of(Resource::Bandwidth, f.op, status);
    settle_row(effect.sets(), row, at, stored_word(bw));
    Written {
        ctl: alloc_word(f, status),
        bw: pick(effect.reads(), old, bw),
    }
}

// The write of v to alloc_ctl, on the configured table.
pub fn write_alloc(setup: Setup, configured: &mut [u32], reserved: u64, bw: u64, v: u64) -> Written
    requires { Ready (setup_of setup) configured.old reserved }
    ensures { allocation result.ctl result.bw configured.new ≡ write_alloc (setup_of setup) bw configured.old v }
{
    let row = row_named(setup, v);
    write_row(setup, &mut configured[row], reserved, bw, v)
}

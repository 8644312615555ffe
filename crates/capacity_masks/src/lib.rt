// The set-up of a capacity controller, its block masks, and the operations of alloc_ctl on them.
#![tactic(auto)]

mod setup;

ghost use Rattle.std.specs.Prelude.{◌≡◌, ℕ, ◌<◌, length, get_or, eqb};
ghost use Rattle.tables.specs.Below.{all_below};
ghost use Rattle.tables.specs.View.{union_below};
ghost use Rattle.access.specs.Pairs.{pair};
ghost use Rattle.allocation.specs.Allocation.{rcid_of, at_of};
ghost use Rattle.capacity_model.specs.Rules.{mask_of, all_blocks, has_block};
ghost use Rattle.capacity_model.specs.View.{Ranges};
ghost use Rattle.capacity_masks.specs.View.{setup_of};
ghost use Rattle.capacity_masks.specs.Words.{AllocAfter};

use access::place;
use allocation::{alloc_status, alloc_word, effect_of, held_fields};
use codes::Resource;
use fields::{AllocCtl, ones};
pub use setup::Setup;
use tables::{pick, union64};

// Every block.
pub fn all_blocks(setup: Setup) -> u64
    requires { Ranges (setup_of setup) }
    ensures { result ≡ all_blocks (setup_of setup) }
{
    ones(setup.ncblks as u32)
}

// A value without bits NCBLKS and above.
pub fn mask_of(setup: Setup, v: u64) -> u64
    requires { Ranges (setup_of setup) }
    ensures { result ≡ mask_of (setup_of setup) v }
{
    v & all_blocks(setup)
}

// Whether no mask has a bit NCBLKS or above, by the union of the masks.
pub fn union_ok(setup: Setup, bits: u64) -> bool
    requires { Ranges (setup_of setup) }
    ensures { (n : ℕ) (f : ℕ → ℕ) → bits ≡ union_below n f → result ≡ all_below n (λ i. eqb (f i) (mask_of (setup_of setup) (f i))) }
{
    bits <= all_blocks(setup)
}

// Whether no mask has a bit NCBLKS or above.
pub fn masks_ok(setup: Setup, masks: &[u64]) -> bool
    requires { Ranges (setup_of setup) }
    ensures { result ≡ all_below (length masks.now) (λ i. eqb (get_or masks.now i 0) (mask_of (setup_of setup) (get_or masks.now i 0))) }
{
    union_ok(setup, union64(masks))
}

// Whether a mask has a block.
pub fn has_block(mask: u64, block: u64) -> bool
    requires { block < 64 }
    ensures { result ≡ has_block mask block }
{
    (mask >> block) % 2 == 1
}

// The place of the pair that a value written to alloc_ctl names; it may lie outside the table.
pub fn named_pair(setup: Setup, v: u64) -> usize
    requires { Ranges (setup_of setup) }
    ensures { result ≡ pair setup.na (rcid_of v) (at_of setup.na v) }
{
    let f = held_fields(setup.na, v);
    place(setup.na, f.rcid, f.at)
}

// The RCID that a value written to alloc_ctl names.
pub fn named_rcid(v: u64) -> u64
    ensures { result ≡ rcid_of v }
{
    AllocCtl::unpack(v).rcid
}

// alloc_ctl, block_mask, the mask of one pair, and whether the operation flushes an RCID.
#[derive(Clone, Copy)]
pub struct AllocWords {
    pub ctl: u64,
    pub operand: u64,
    pub mask: u64,
    pub flushes: bool,
}

// The write of v to alloc_ctl where block_mask is `operand`: stores the fields and performs the operation, on the mask of the pair that v names.
pub fn alloc_after(setup: Setup, operand: u64, mask: u64, v: u64) -> AllocWords
    requires { Ranges (setup_of setup) }
    ensures { AllocAfter (setup_of setup) operand mask v result }
{
    let f = held_fields(setup.na, v);
    let status = alloc_status(Resource::Capacity, setup.nr, setup.na, operand == 0, v);
    let effect = effect_of(Resource::Capacity, f.op, status);
    AllocWords {
        ctl: alloc_word(f, status),
        operand: pick(effect.reads(), mask, operand),
        mask: pick(effect.sets(), operand, mask),
        flushes: effect.flushes(),
    }
}

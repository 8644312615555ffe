// Used bytes: at most the blocks of each word times Q.
ghost use Rattle.std.specs.Prelude.{◌≡◌, cond, ◌*◌, ◌^◌, ◌<◌, ◌≤◌, leb, length};
ghost use Rattle.tables.specs.View.{union_below};
ghost use Rattle.bandwidth_wellformed.specs.Bits.{over_at, AtMost};

use crate::parts::all_zero;
use tables::pick;

// All ones where more than blocks * q bytes are used.
fn over(used: u32, blocks: u32, q: u32) -> u32
    requires { (blocks < 65536) × (q ≤ 65536) }
    ensures { result ≡ cond (leb used (blocks * q)) 0 4294967295 }
{
    pick(used <= blocks * q, 0, 0xffff_ffff)
}

// The same by a shift: quicker than a product.
fn over_shift(used: u32, blocks: u32, shift: u32) -> u32
    requires { (blocks < 65536) × ((shift < 32) × (2 ^ shift ≤ 65536)) }
    ensures { result ≡ cond (leb used (blocks * 2 ^ shift)) 0 4294967295 }
{
    pick(used <= blocks << shift, 0, 0xffff_ffff)
}

// 0 where no word has more bytes used than its blocks shifted.
fn over_roughly(active: &[u32], used: &[u32], shift: u32) -> u32
    requires { ((shift < 32) × (2 ^ shift ≤ 65536)) × (length active.now ≡ length used.now) }
    ensures { AtMost (over_at (2 ^ shift) active.now used.now) (length used.now) result }
{
    let mut bits = 0u32;
    for (u, a) in used.iter().zip(active) {
        bits |= over_shift(*u, a % 65536, shift);
    }
    bits
}

// All ones where some word has more bytes used than its blocks times q.
fn over_exactly(active: &[u32], used: &[u32], q: u32) -> u32
    requires { (q ≤ 65536) × (length active.now ≡ length used.now) }
    ensures { result ≡ union_below (length used.now) (over_at q active.now used.now) }
{
    let mut bits = 0u32;
    for (u, a) in used.iter().zip(active) {
        bits |= over(*u, a % 65536, q);
    }
    bits
}

// The same: a part of which nothing is used is passed over, and so is one within its blocks times the largest power of 2 up to q.
pub fn over_bits(active: &[u32], used: &[u32], q: u32) -> u32
    requires { ((1 ≤ q) × (q ≤ 65536)) × (length active.now ≡ length used.now) }
    ensures { result ≡ union_below (length used.now) (over_at q active.now used.now) }
{
    if all_zero(used) || over_roughly(active, used, q.ilog2()) == 0 {
        0
    } else {
        over_exactly(active, used, q)
    }
}

// The operand rules of CONFIG_LIMIT by the configured words of one RCID.
ghost use Rattle.std.specs.Prelude.{◌≡◌};
ghost use Rattle.tables.specs.Below.{any_below};
ghost use Rattle.bandwidth_setup.specs.View.{setup_of};
ghost use Rattle.bandwidth_settings.specs.Rows.{bad_holder_in, shares_in, bad_sharer_in, bad_operand_in, Reserves};

use crate::{is_holder, is_sharer, reserved_blocks};
use bandwidth_setup::Setup;
use fields::BwAlloc;

// Whether a holder's word has no blocks, or more than MRBWB with those of every other holder.
fn bad_holder(setup: Setup, row: &[u32], reserved: u64, at: u64, word: u64) -> bool
    requires { Reserves (setup_of setup) reserved }
    ensures { result ≡ bad_holder_in (setup_of setup) reserved row.now at word }
{
    let f = BwAlloc::unpack(word);
    let replaced = reserved_blocks(u64::from(tables::word(row, at as usize, 0)));
    (f.rbwb == 0) | (setup.mrbwb < f.rbwb + reserved.saturating_sub(replaced))
}

// Whether AT b is another than at, and shares it.
fn shares_at(row: &[u32], at: u64, b: u64) -> bool
    ensures { result ≡ shares_in row.now at b }
{
    let word = u64::from(tables::word(row, b as usize, 0));
    let f = BwAlloc::unpack(word);
    (b != at) & is_sharer(word) & (f.sharedat == at)
}

// Whether another AT below NA shares this one.
fn is_shared(na: u64, row: &[u32], at: u64) -> bool
    ensures { result ≡ any_below na (shares_in row.now at) }
{
    let mut found = false;
    for b in 0..na {
        found |= shares_at(row, at, b);
    }
    found
}

// Whether a sharer's word names itself, no AT or no holder, or its AT is shared.
fn bad_sharer(setup: Setup, row: &[u32], at: u64, word: u64) -> bool
    ensures { result ≡ bad_sharer_in (setup_of setup) row.now at word }
{
    let f = BwAlloc::unpack(word);
    let holder = is_holder(u64::from(tables::word(row, f.sharedat as usize, 0)));
    (f.sharedat == at) | (setup.na <= f.sharedat) | !holder | is_shared(setup.na, row, at)
}

// Whether CONFIG_LIMIT refuses a word for an AT.
pub fn bad_operand(setup: Setup, row: &[u32], reserved: u64, at: u64, word: u64) -> bool
    requires { Reserves (setup_of setup) reserved }
    ensures { result ≡ bad_operand_in (setup_of setup) reserved row.now at word }
{
    let f = BwAlloc::unpack(word);
    if f.useshared == 0 {
        bad_holder(setup, row, reserved, at, word)
    } else {
        bad_sharer(setup, row, at, word)
    }
}

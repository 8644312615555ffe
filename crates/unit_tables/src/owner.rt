// The word of a unit's owner, and the counter of the owner of an emptied unit.
ghost use Rattle.std.specs.Prelude.{◌≡◌, cond, ◌&&◌};
ghost use Rattle.fields.specs.Layout.{get};
ghost use Rattle.fields.specs.Registers.{owner_mcid, owner_at};
ghost use Rattle.monitor.specs.Occupancy.{counts_unit, evicted};
ghost use Rattle.units.specs.Owners.{owner_word, is_owned, of_rcid};
ghost use Rattle.unit_tables.specs.View.{Identifiers};

use fields::Owner;
use monitor::counted_evict;
use tables::pick;

// The word that a fill stores.
pub fn owner_word(rcid: u64, mcid: u64, at: u64) -> u32
    requires { Identifiers rcid mcid at }
    ensures { result ≡ owner_word rcid mcid at }
{
    let owner = Owner {
        rcid,
        mcid,
        at,
        owned: 1,
    };
    owner.pack() as u32
}

// The MCID of an owner.
pub fn owner_mcid(owner: u32) -> usize
    ensures { result ≡ get owner_mcid owner }
{
    Owner::unpack(owner as u64).mcid as usize
}

// Whether a unit is owned under this RCID.
pub fn is_of(owner: u32, rcid: u64) -> bool
    ensures { result ≡ of_rcid rcid owner }
{
    let owner = Owner::unpack(owner as u64);
    (owner.owned == 1) & (owner.rcid == rcid)
}

// The counter of a unit's owner after the unit is emptied; a free unit counts for nobody.
pub fn emptied_counter(owner: u32, counter: u64, setting: u16) -> u64
    ensures { result ≡ cond (is_owned owner && counts_unit setting (get owner_at owner)) (evicted counter) counter }
{
    let owner = Owner::unpack(owner as u64);
    pick(
        owner.owned == 1,
        counted_evict(counter, setting, owner.at),
        counter,
    )
}

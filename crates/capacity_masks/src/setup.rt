// The set-up of a capacity controller.
ghost use Rattle.std.specs.Prelude.{◌≡◌, ◌<◌};
ghost use Rattle.tables.specs.View.{Small};
ghost use Rattle.access.specs.Pairs.{pair, known_at};
ghost use Rattle.capacity_model.specs.Rules.{setup_ok, pairs, unit_count, block_of};
ghost use Rattle.capacity_model.specs.View.{Ranges};
ghost use Rattle.capacity_masks.specs.View.{setup_of};

use access::{known_at, place};

// NCBLKS, NR, NA, NM, W and U.
#[derive(Clone, Copy)]
pub struct Setup {
    pub ncblks: u64,
    pub nr: u64,
    pub na: u64,
    pub nm: u64,
    pub w: u64,
    pub units: u64,
}

impl Setup {
    // Whether each number lies in its range.
    pub fn in_range(self) -> bool
        ensures { result ≡ setup_ok (setup_of self) }
    {
        (1 <= self.ncblks)
            & (self.ncblks <= 64)
            & ((1 <= self.nr) & (self.nr <= 256))
            & ((1 <= self.na) & (self.na <= 8))
            & ((1 <= self.nm) & (self.nm <= 256))
            & ((24 <= self.w) & (self.w <= 62))
            & ((1 <= self.units) & (self.units <= 64))
    }

    // The masks of the table.
    pub fn pairs(self) -> u64
        requires { Ranges (setup_of self) }
        ensures { Small (pairs (setup_of self)) 2048 result }
    {
        self.nr * self.na
    }

    // The units of all blocks.
    pub fn unit_count(self) -> u64
        requires { Ranges (setup_of self) }
        ensures { Small (unit_count (setup_of self)) 4096 result }
    {
        self.ncblks * self.units
    }

    // The block of a unit.
    pub fn block_of(self, unit: u64) -> u64
        requires { Ranges (setup_of self) × (unit < unit_count (setup_of self)) }
        ensures { (result ≡ block_of (setup_of self) unit) × (result < 64) }
    {
        unit / self.units
    }

    // The place of a pair in the table; 0 where there is no such RCID.
    pub fn pair_at(self, rcid: u64, at: u64) -> usize
        requires { Ranges (setup_of self) }
        ensures { rcid < self.nr → result ≡ pair self.na rcid (known_at self.na at) }
    {
        if rcid < self.nr {
            place(self.na, rcid, known_at(self.na, at))
        } else {
            0
        }
    }
}

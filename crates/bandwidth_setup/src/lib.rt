// The set-up of a bandwidth controller.
#![tactic(auto)]

ghost use Rattle.std.specs.Prelude.{◌≡◌};
ghost use Rattle.bandwidth_model.specs.Rules.{setup_ok, pairs};
ghost use Rattle.bandwidth_model.specs.View.{Ranges};
ghost use Rattle.tables.specs.View.{Small};
ghost use Rattle.bandwidth_setup.specs.View.{setup_of};

// NBWBLKS, MRBWB, NR, NA, NM, Q and W.
#[derive(Clone, Copy)]
pub struct Setup {
    pub nbwblks: u64,
    pub mrbwb: u64,
    pub nr: u64,
    pub na: u64,
    pub nm: u64,
    pub q: u64,
    pub w: u64,
}

impl Setup {
    // Whether each number lies in its range.
    pub fn in_range(self) -> bool
        ensures { result ≡ setup_ok (setup_of self) }
    {
        (1 <= self.nbwblks)
            & (self.nbwblks <= 65535)
            & ((1 <= self.mrbwb) & (self.mrbwb <= self.nbwblks))
            & ((1 <= self.nr) & (self.nr <= 256))
            & ((1 <= self.na) & (self.na <= 8))
            & ((1 <= self.nm) & (self.nm <= 256))
            & ((1 <= self.q) & (self.q <= 65536))
            & ((24 <= self.w) & (self.w <= 62))
    }

    // The words of a settings table.
    pub fn pairs(self) -> u64
        requires { Ranges (setup_of self) }
        ensures { Small (pairs (setup_of self)) 2048 result }
    {
        self.nr * self.na
    }
}

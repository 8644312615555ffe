// Checks 1 to 3.
ghost use Rattle.std.specs.Prelude.{◌≡◌, List, ℕ};
ghost use Rattle.access.specs.Checks.{first};
ghost use Rattle.access.specs.View.{refusal_in};
ghost use Rattle.capacity_model.specs.View.{Ranges, Sized};
ghost use Rattle.capacity_model.specs.Model.{lengths_ok, well_formed, setup_checks, state_checks};
ghost use Rattle.capacity_masks.specs.View.{setup_of};
ghost use Rattle.capacity.specs.View.{state};
ghost use Rattle.capacity.specs.Checked.{TablesTested};

use crate::Record;
use access::Refusal;
use allocation::control_ok;
use capacity_masks::{Setup, mask_of, masks_ok};
use codes::Resource;
use monitor::{counters_ok, events_ok};
use unit_tables::owners_ok;

impl Record {
    // Check 2, by a set-up.
    fn lengths_ok(
        &self,
        setup: Setup,
        masks: &[u64],
        counters: &[u64],
        events: &[u16],
        owners: &[u32],
    ) -> bool
        requires { Ranges (setup_of setup) }
        ensures { result ≡ lengths_ok (setup_of setup) (state self.now masks.now counters.now events.now owners.now) }
    {
        let pairs = setup.pairs() as usize;
        let nm = setup.nm as usize;
        let units = setup.unit_count() as usize;
        (masks.len() == pairs)
            & (counters.len() == nm)
            & (events.len() == nm)
            & (owners.len() == units)
    }

    // Check 3, by whether the words of each table are well formed.
    pub fn judge(&self, masks: bool, counters: bool, events: bool, owners: bool) -> bool
        requires { Ranges (setup_of self.now.setup) }
        ensures { (ms ns es os : List ℕ) → TablesTested (setup_of self.now.setup) ms ns es os masks counters events owners → result ≡ well_formed (state self.now ms ns es os) }
    {
        let held = *self;
        let setup = held.setup;
        let allocation = control_ok(setup.na, held.alloc_ctl)
            & (held.block_mask == mask_of(setup, held.block_mask))
            & masks;
        let monitoring = monitor::control_ok(setup.na, held.mon_ctl) & counters & events;
        allocation & monitoring & owners
    }

    // Check 3.
    fn well_formed(&self, masks: &[u64], counters: &[u64], events: &[u16], owners: &[u32]) -> bool
        requires { Ranges (setup_of self.now.setup) × Sized (setup_of self.now.setup) masks.now counters.now events.now owners.now }
        ensures { result ≡ well_formed (state self.now masks.now counters.now events.now owners.now) }
    {
        let setup = self.setup;
        self.judge(
            masks_ok(setup, masks),
            counters_ok(Resource::Capacity, counters, setup.w as u32),
            events_ok(events, setup.na as u16, Resource::Capacity),
            owners_ok(owners, setup.nr as u32, setup.nm as u32, setup.na as u32),
        )
    }

    // Checks 1 and 2, by a set-up.
    pub fn check_setup(
        &self,
        setup: Setup,
        masks: &[u64],
        counters: &[u64],
        events: &[u16],
        owners: &[u32],
    ) -> Result<(), Refusal>
        ensures { refusal_in result ≡ first (setup_checks (setup_of setup) (state self.now masks.now counters.now events.now owners.now)) 0 }
    {
        if !setup.in_range() {
            Err(Refusal::Setup)
        } else if self.lengths_ok(setup, masks, counters, events, owners) {
            Ok(())
        } else {
            Err(Refusal::Length)
        }
    }

    // Checks 1 to 3.
    pub fn check(
        &self,
        masks: &[u64],
        counters: &[u64],
        events: &[u16],
        owners: &[u32],
    ) -> Result<(), Refusal>
        ensures { refusal_in result ≡ first (state_checks (state self.now masks.now counters.now events.now owners.now)) 0 }
    {
        self.check_setup(self.setup, masks, counters, events, owners)?;
        if self.well_formed(masks, counters, events, owners) {
            Ok(())
        } else {
            Err(Refusal::State)
        }
    }
}

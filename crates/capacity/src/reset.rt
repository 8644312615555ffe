// Resets.
ghost use Rattle.std.specs.Prelude.{◌≡◌, length};
ghost use Rattle.capacity_model.specs.View.{Ranges};
ghost use Rattle.capacity_model.specs.Calls.{reset};
ghost use Rattle.capacity_model.specs.Rules.{pairs, reset_masks};
ghost use Rattle.capacity_model.specs.Model.{step};
ghost use Rattle.capacity_masks.specs.View.{setup_of};
ghost use Rattle.capacity.specs.View.{state, outcome, ack_of};

use crate::{Answered, Record};
use capacity_masks::{Setup, all_blocks};

// The masks of a reset: every block for each AT of RCID 0, and else none.
fn reset_masks(setup: Setup, masks: &mut [u64])
    requires { Ranges (setup_of setup) × (length masks.old ≡ pairs (setup_of setup)) }
    ensures { masks.new ≡ reset_masks (setup_of setup) }
{
    let na = setup.na as usize;
    masks.fill(0);
    masks[..na].fill(all_blocks(setup));
}

impl Record {
    // The record after a reset: each register 0.
    pub fn fresh(setup: Setup) -> Record
        ensures { result ≡ record { setup = setup; mon_ctl = 0; mon_ctr_val = 0; alloc_ctl = 0; block_mask = 0 } }
    {
        Record {
            setup,
            mon_ctl: 0,
            mon_ctr_val: 0,
            alloc_ctl: 0,
            block_mask: 0,
        }
    }

    pub fn reset(
        self,
        masks: &mut [u64],
        counters: &mut [u64],
        events: &mut [u16],
        owners: &mut [u32],
        setup: Setup,
    ) -> Answered<()>
        ensures { outcome (ack_of result.answer) (state result.«record» masks.new counters.new events.new owners.new) ≡ step (state self masks.old counters.old events.old owners.old) (reset (setup_of setup)) }
    {
        if let Err(why) = self.check_setup(setup, masks, counters, events, owners) {
            return self.refused(why);
        }
        reset_masks(setup, masks);
        counters.fill(0);
        events.fill(0);
        owners.fill(0);
        Record::fresh(setup).answered(())
    }
}

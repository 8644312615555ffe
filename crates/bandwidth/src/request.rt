// Requests.
ghost use Rattle.std.specs.Prelude.{◌≡◌, ◌<◌};
ghost use Rattle.access.specs.Refusals.{number_of};
ghost use Rattle.bandwidth_model.specs.Calls.{Call, granted, request, device_request};
ghost use Rattle.bandwidth_model.specs.View.{Requests};
ghost use Rattle.bandwidth_model.specs.Model.{requested, step};
ghost use Rattle.bandwidth.specs.View.{state, outcome, granting_of};
ghost use Rattle.bandwidth.specs.Checked.{Passes};

use crate::{Answered, Record};
use access::{Refusal, known_at};
use bandwidth_grants::{Grant, give};
use bandwidth_wellformed::Totals;
use devices::{identifiers_in, out_of_range};
use monitor::count_bytes;
use std::ops::Range;
use tables::row_of;

impl Record {
    // Grants a request bytes by the words of its RCID, and counts them.
    fn serve(
        &mut self,
        active: &[u32],
        configured: &[u32],
        used: &mut [u32],
        counters: &mut [u64],
        events: &[u16],
        waiters: &[u64],
        totals: Totals,
        rcid: u64,
        mcid: u64,
        at: u64,
        kind: u64,
        bytes: u32,
    ) -> Grant
        requires { Passes (state self.old active.now configured.now used.old counters.old events.now waiters.now) totals × (rcid < self.old.setup.nr) }
        ensures { outcome (granted result.reserved result.pool) (state self.new active.now configured.now used.new counters.new events.now waiters.now) ≡ requested (state self.old active.now configured.now used.old counters.old events.now waiters.now) rcid mcid at kind bytes }
    {
        let setup = self.setup;
        let at = known_at(setup.na, at);
        let Range { start, end } = row_of(setup.nr, setup.na, rcid);
        let given = give(
            setup,
            &active[start..end],
            &mut used[start..end],
            self.pool,
            totals.active,
            at,
            bytes as u64,
        );
        self.pool = given.pool;
        count_bytes(setup.w, counters, events, mcid, at, kind, given.sum);
        given.grant
    }

    // A request with these identifiers, refused for `unknown` where one of them is out of range.
    fn request_by(
        &mut self,
        active: &[u32],
        configured: &[u32],
        used: &mut [u32],
        counters: &mut [u64],
        events: &[u16],
        waiters: &[u64],
        rcid: u64,
        mcid: u64,
        unknown: Refusal,
        at: u64,
        kind: u64,
        bytes: u32,
    ) -> Result<Grant, Refusal>
        ensures { (c : Call) → Requests c (number_of unknown) rcid mcid at kind bytes
            → outcome (granting_of result) (state self.new active.now configured.now used.new counters.new events.now waiters.now) ≡ step (state self.old active.now configured.now used.old counters.old events.now waiters.now) c }
    {
        let totals = self.check(active, configured, used, counters, events, waiters)?;
        let setup = self.setup;
        if (setup.nr <= rcid) | (setup.nm <= mcid) {
            return Err(unknown);
        }
        Ok(self.serve(
            active, configured, used, counters, events, waiters, totals, rcid, mcid, at, kind,
            bytes,
        ))
    }

    pub fn request(
        mut self,
        active: &[u32],
        configured: &[u32],
        used: &mut [u32],
        counters: &mut [u64],
        events: &[u16],
        waiters: &[u64],
        rcid: u64,
        mcid: u64,
        at: u64,
        kind: u64,
        bytes: u32,
    ) -> Answered<Grant>
        ensures { outcome (granting_of result.answer) (state result.«record» active.now configured.now used.new counters.new events.now waiters.now) ≡ step (state self active.now configured.now used.old counters.old events.now waiters.now) (request rcid mcid at kind bytes) }
    {
        let answer = self.request_by(
            active,
            configured,
            used,
            counters,
            events,
            waiters,
            rcid,
            mcid,
            Refusal::Identifier,
            at,
            kind,
            bytes,
        );
        Answered {
            record: self,
            answer,
        }
    }

    // A device's request, by the IOMMU's mode and the word of its register or of the device context.
    pub fn device_request(
        mut self,
        active: &[u32],
        configured: &[u32],
        used: &mut [u32],
        counters: &mut [u64],
        events: &[u16],
        waiters: &[u64],
        mode: u64,
        word: u64,
        at: u64,
        kind: u64,
        bytes: u32,
    ) -> Answered<Grant>
        ensures { outcome (granting_of result.answer) (state result.«record» active.now configured.now used.new counters.new events.now waiters.now) ≡ step (state self active.now configured.now used.old counters.old events.now waiters.now) (device_request mode word at kind bytes) }
    {
        let ids = identifiers_in(mode, word);
        let answer = self.request_by(
            active,
            configured,
            used,
            counters,
            events,
            waiters,
            ids.rcid,
            ids.mcid,
            out_of_range(mode),
            at,
            kind,
            bytes,
        );
        Answered {
            record: self,
            answer,
        }
    }
}

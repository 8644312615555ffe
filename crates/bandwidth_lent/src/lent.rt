// The lengths of the lent bytes: checks 1 and 2.
ghost use Rattle.std.specs.Prelude.{◌≡◌, IfOk};
ghost use Rattle.access.specs.View.{refusal_in};
ghost use Rattle.words.specs.Words.{words_of};
ghost use Rattle.bandwidth_setup.specs.View.{setup_of};
ghost use Rattle.bandwidth_lent.specs.Bytes.{lent, state_of, byte_refusal};
ghost use Rattle.bandwidth_lent.specs.View.{words_in};

use crate::record::load_record;
use access::Refusal;
use bandwidth::Record;
use bandwidth_setup::Setup;

// By a set-up.
pub fn check_lengths(
    setup: Setup,
    record: &[u8],
    active: &[u8],
    configured: &[u8],
    used: &[u8],
    counters: &[u8],
    events: &[u8],
    waiters: &[u8],
) -> Result<(), Refusal>
    ensures { refusal_in result ≡ byte_refusal (setup_of setup) (lent «record».now active.now configured.now used.now counters.now events.now waiters.now) }
{
    if record.len() != 96 {
        return Err(Refusal::Setup);
    }
    if setup.in_range() {
        let settings = setup.pairs() as usize * 4;
        let nm = setup.nm as usize;
        let nr = setup.nr as usize;
        let fit = (active.len() == settings)
            & (configured.len() == settings)
            & (used.len() == settings)
            & (counters.len() == nm * 8)
            & (events.len() == nm * 2)
            & (waiters.len() == nr * 8);
        if fit { Ok(()) } else { Err(Refusal::Length) }
    } else {
        Err(Refusal::Setup)
    }
}

// By the set-up of the record that the bytes hold; returns that record.
pub fn load_lent(
    record: &[u8],
    active: &[u8],
    configured: &[u8],
    used: &[u8],
    counters: &[u8],
    events: &[u8],
    waiters: &[u8],
) -> Result<Record, Refusal>
    ensures refusal { refusal_in result ≡ byte_refusal (state_of (lent «record».now active.now configured.now used.now counters.now events.now waiters.now)).setup (lent «record».now active.now configured.now used.now counters.now events.now waiters.now) }
    ensures loaded { IfOk result (λ given. words_in given ≡ words_of 8 12 «record».now) }
{
    if record.len() == 96 {
        let given = load_record(record);
        check_lengths(
            given.setup,
            record,
            active,
            configured,
            used,
            counters,
            events,
            waiters,
        )?;
        Ok(given)
    } else {
        Err(Refusal::Setup)
    }
}

// The bandwidth controller's record as bytes.
ghost use Rattle.std.specs.Prelude.{◌≡◌, length};
ghost use Rattle.words.specs.Words.{words_of, bytes_of_all};
ghost use Rattle.bandwidth_lent.specs.View.{words_in};

use bandwidth::Record;
use bandwidth_setup::Setup;
use words::{decode, encode};

pub fn load_record(bytes: &[u8]) -> Record
    requires { length bytes.now ≡ 96 }
    ensures { words_in result ≡ words_of 8 12 bytes.now }
{
    let mut words = [0u64; 12];
    decode(bytes, &mut words);
    let [
        nbwblks,
        mrbwb,
        nr,
        na,
        nm,
        q,
        w,
        mon_ctl,
        mon_ctr_val,
        alloc_ctl,
        bw_alloc,
        pool,
    ] = words;
    Record {
        setup: Setup {
            nbwblks,
            mrbwb,
            nr,
            na,
            nm,
            q,
            w,
        },
        mon_ctl,
        mon_ctr_val,
        alloc_ctl,
        bw_alloc,
        pool,
    }
}

pub fn store_record(record: Record, bytes: &mut [u8])
    requires { length bytes.old ≡ 96 }
    ensures { bytes.new ≡ bytes_of_all 8 (words_in «record») }
{
    let setup = record.setup;
    let words = [
        setup.nbwblks,
        setup.mrbwb,
        setup.nr,
        setup.na,
        setup.nm,
        setup.q,
        setup.w,
        record.mon_ctl,
        record.mon_ctr_val,
        record.alloc_ctl,
        record.bw_alloc,
        record.pool,
    ];
    encode(&words, bytes);
}

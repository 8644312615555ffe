// The capacity controller's record as bytes.
ghost use Rattle.std.specs.Prelude.{◌≡◌, length};
ghost use Rattle.words.specs.Words.{words_of, bytes_of_all};
ghost use Rattle.capacity_bytes.specs.View.{words_in};

use capacity::Record;
use capacity_masks::Setup;
use words::{decode, encode};

// Ten words of 8 bytes.
pub const RECORD_BYTES: usize = 80;

pub fn load_record(bytes: &[u8]) -> Record
    requires { length bytes.now ≡ 80 }
    ensures { words_in result ≡ words_of 8 10 bytes.now }
{
    let mut words = [0u64; 10];
    decode(bytes, &mut words);
    let [
        ncblks,
        nr,
        na,
        nm,
        w,
        units,
        mon_ctl,
        mon_ctr_val,
        alloc_ctl,
        block_mask,
    ] = words;
    Record {
        setup: Setup {
            ncblks,
            nr,
            na,
            nm,
            w,
            units,
        },
        mon_ctl,
        mon_ctr_val,
        alloc_ctl,
        block_mask,
    }
}

pub fn store_record(record: Record, bytes: &mut [u8])
    requires { length bytes.old ≡ 80 }
    ensures { bytes.new ≡ bytes_of_all 8 (words_in «record») }
{
    let setup = record.setup;
    let words = [
        setup.ncblks,
        setup.nr,
        setup.na,
        setup.nm,
        setup.w,
        setup.units,
        record.mon_ctl,
        record.mon_ctr_val,
        record.alloc_ctl,
        record.block_mask,
    ];
    encode(&words, bytes);
}

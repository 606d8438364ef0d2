// Loops over records, one each.
ghost use Rattle.std.specs.Prelude.{◌≡◌, ◌*◌, ◌≤◌, length, None};
ghost use Rattle.records.specs.Slices.{converted};
ghost use Rattle.records.specs.Answer.{new_record, old_record, left};
ghost use Rattle.records.specs.Helpers.{joined, first_that_stays_from};

use crate::convert::{new_record, old_record};

// The new record of each old one, one behind another.
pub fn store_month_day_nanos(records: &[[u8; 8]], to: &mut [u8])
    requires { 16 * length records.now ≤ length to.old }
    ensures { to.new ≡ left (converted (joined new_record records.now)) to.old }
{
    for (i, record) in records.iter().enumerate() {
        to[16 * i..16 * i + 16].copy_from_slice(&new_record(record));
    }
}

// The index of the first new record that has no old one.
pub fn first_that_stays(records: &[[u8; 16]]) -> Option<usize>
    ensures { result ≡ first_that_stays_from old_record 0 records.now }
{
    for (i, record) in records.iter().enumerate() {
        if old_record(record).is_none() {
            return Some(i);
        }
    }
    None
}

// The old record of each new one, where each has one.
pub fn store_day_times(records: &[[u8; 16]], to: &mut [u8])
    requires each { first_that_stays_from old_record 0 records.now ≡ None }
    requires room { 8 * length records.now ≤ length to.old }
    ensures { to.new ≡ left (converted (joined old_record records.now)) to.old }
{
    for (i, record) in records.iter().enumerate() {
        let old = old_record(record).unwrap();
        to[8 * i..8 * i + 8].copy_from_slice(&old);
    }
}

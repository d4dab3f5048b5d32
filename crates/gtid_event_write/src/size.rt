// The payload size, which counts itself.
ghost use Rattle.std.specs.Prelude.{◌≡◌, ◌^◌, ◌≤◌, ◌<◌};
ghost use Rattle.gtid_event_write.specs.Size.{payload_size, size_in64};

use misc::varlen::varlen_uint_size;

// The first number of field bytes whose size 64 bits don't hold: 2^64 - 11.
const FIELDS_TOP: u64 = 0xffff_ffff_ffff_fff5;

// The least size that counts the version byte, the last non-ignorable id, the fields and itself: the sizes with 1, 2, .. bytes for
// the size itself are tried one after the other, so that the search ends. 0 where 64 bits don't hold it.
pub fn payload_size(fields: u64) -> u64
    ensures value { result ≡ size_in64 fields }
    ensures value_2 { fields < 2 ^ 32 → result ≡ payload_size fields }
{
    if FIELDS_TOP <= fields {
        return 0;
    }
    let fixed = fields + 2;
    for n in 1..9 {
        if varlen_uint_size(fixed + n) as u64 == n {
            return fixed + n;
        }
    }
    fixed + 9
}

// The same of a record's fields, of which there are at most 152 bytes: the size itself has one byte or two.
pub(crate) fn record_size(fields: usize) -> usize
    requires { fields ≤ 152 }
    ensures { (result ≡ payload_size fields) × (result ≤ 156) }
{
    if fields < 125 {
        return fields + 3;
    }
    fields + 4
}

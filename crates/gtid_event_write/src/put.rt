// Puts of fields: each moves the place on behind what it put. Where there is no room nothing is promised; the caller looks once,
// before the first of them.
ghost use Rattle.std.specs.Prelude.{◌<◌};
ghost use Rattle.misc.specs.Put.{PutsWhereFits};
ghost use Rattle.misc.specs.Varlen.{varlen_bytes};
ghost use Rattle.gtid_event_write.specs.Layout.{number_bytes, unless_bytes, items_bytes};

use misc::UUID_LEN;
use misc::put::Put;

// An integer below 128: one byte.
pub(crate) fn put_small(put: &mut Put<'_>, value: u8)
    requires { value < 128 }
    ensures { PutsWhereFits put.old (varlen_bytes value) put.new }
{
    put.byte(2 * value);
}

// A byte as an integer: one byte or two.
pub(crate) fn put_item(put: &mut Put<'_>, b: u8)
    ensures { PutsWhereFits put.old (varlen_bytes b) put.new }
{
    if b < 128 {
        put_small(put, b);
        return;
    }
    put.byte(b % 64 * 4 + 1);
    put.byte(b / 64);
}

// The id of a field.
pub(crate) fn put_id(put: &mut Put<'_>, id: usize)
    requires { id < 128 }
    ensures { PutsWhereFits put.old (varlen_bytes id) put.new }
{
    put_small(put, id as u8);
}

// A field: its id, and its value.
pub(crate) fn put_number(put: &mut Put<'_>, id: usize, value: u64)
    requires { id < 128 }
    ensures { PutsWhereFits put.old (number_bytes id value) put.new }
{
    put_id(put, id);
    put.varlen_uint(value);
}

// A field that is left out where its value is the one that the reader assumes.
pub(crate) fn put_unless(put: &mut Put<'_>, id: usize, value: u64, assumed: u64)
    requires { id < 128 }
    ensures { PutsWhereFits put.old (unless_bytes id value assumed) put.new }
{
    if value == assumed {
        return;
    }
    put_number(put, id, value);
}

// Each byte as an integer.
pub(crate) fn put_serialized_uuid(put: &mut Put<'_>, sid: [u8; UUID_LEN])
    ensures { PutsWhereFits put.old (items_bytes sid) put.new }
{
    for b in sid {
        put_item(put, b);
    }
}

// How many ids a set has. An entry has fewer than 2^63 of them, so that 384 entries have fewer than 192 times 2^64.
ghost use Rattle.std.specs.Prelude.{◌≡◌, true, ◌+◌, ◌*◌, ◌^◌, ◌≤◌, ◌<◌, length};
ghost use Rattle.gtid_sets.specs.Interval.{gapped};
ghost use Rattle.gtid_sets.specs.Limits.{max_entries};
ghost use Rattle.gtid_sets.specs.Total.{size, total};
ghost use Rattle.set_intervals.specs.Intervals.{intervals_at};
ghost use Rattle.set_check.specs.Cursor.{entries_left, CursorIs};

use misc::INTERVAL_LEN;
use misc::le::number_at;
use set_check::Cursor;
use set_check::walk::{beyond, entry_here};

// How many numbers the intervals at a place hold.
fn size_at(set: &[u8], first: usize, count: usize) -> u64
    requires count_in_bounds { first + 16 * count ≤ length set.now }
    requires first_value { gapped 0 (intervals_at count set.now first) ≡ true }
    ensures { (result ≡ size (intervals_at count set.now first)) × (result < 2 ^ 63) }
{
    let mut ids = 0;
    for i in 0..count {
        let at = first + INTERVAL_LEN * i;
        ids += number_at(set, at + 8) - number_at(set, at);
    }
    ids
}

// How many ids the entries have that are left.
pub(crate) fn ids_in(set: &[u8], from: Cursor) -> u128
    requires cursor_is { CursorIs set.now from }
    requires left_le_max_entries { from.left ≤ max_entries }
    ensures { (result ≡ total (entries_left set.now from)) × (result < 192 * 2 ^ 64) }
{
    let mut ids = 0;
    let mut left = from;
    // a walk with a cursor, which counts what is left itself
    while 0 < left.left {
        let place = entry_here(set, left);
        ids += u128::from(size_at(set, place.first, place.count));
        left = beyond(left, place);
    }
    ids
}

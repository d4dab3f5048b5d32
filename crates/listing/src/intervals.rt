// The intervals of an entry as text. How long it is and the putting of it stay two functions, here and in set_text: the one counts before
// anything is written, the other writes, and one walk over both would be a flag.
ghost use Rattle.std.specs.Prelude.{◌≡◌, ◌+◌, ◌*◌, ◌^◌, ◌≤◌, length};
ghost use Rattle.misc.specs.Put.{PutsWhereFits};
ghost use Rattle.set_intervals.specs.Intervals.{intervals_at};
ghost use Rattle.listing.specs.SetText.{intervals_text};

use misc::INTERVAL_LEN;
use misc::le::number_at;
use misc::put::Put;
use text::intervals::{interval_len, put_interval};

// How long the text of the intervals at a place is. One takes 42 bytes at most, a colon, a dash and two numbers of 20 digits; in a set that
// is not far longer than any set, so many bytes can be counted.
pub(crate) fn intervals_len(set: &[u8], first: usize, count: usize) -> usize
    requires count_in_bounds { first + 16 * count ≤ length set.now }
    requires set_len_bound { length set.now ≤ 2 ^ 40 }
    ensures { (result ≡ length (intervals_text (intervals_at count set.now first))) × (result ≤ 42 * count) }
{
    let mut len = 0;
    for i in 0..count {
        let at = first + INTERVAL_LEN * i;
        len += interval_len(number_at(set, at), number_at(set, at + 8));
    }
    len
}

// Puts the intervals at a place.
pub(crate) fn put_intervals(put: &mut Put<'_>, set: &[u8], first: usize, count: usize)
    requires { first + 16 * count ≤ length set.now }
    ensures { PutsWhereFits put.old (intervals_text (intervals_at count set.now first)) put.new }
{
    for i in 0..count {
        let from = first + INTERVAL_LEN * i;
        put_interval(put, number_at(set, from), number_at(set, from + 8));
    }
}

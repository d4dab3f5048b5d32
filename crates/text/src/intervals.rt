// Intervals as text: the first number, and the last after a dash unless that is the first.
ghost use Rattle.std.specs.Prelude.{◌≡◌, ◌+◌, ◌≤◌, length, eqb};
ghost use Rattle.misc.specs.Put.{Puts};
ghost use Rattle.text.specs.Intervals.{last_text, interval_text};
ghost use Rattle.text.specs.Inside.{Before};

use crate::digits::decimal_len;
use itoa::write_digits;
use misc::put::Put;

// A colon and twenty digits, a dash and twenty more.
const ROOM: usize = 42;

// Whether an end comes right after a start.
fn is_next(start: u64, end: u64) -> bool
    ensures { result ≡ eqb (start + 1) end }
{
    start.checked_add(1) == Some(end)
}

// How long the text of an interval is.
pub fn interval_len(start: u64, end: u64) -> usize
    ensures { (result ≡ length (interval_text start end)) × (result ≤ 42) }
{
    let len = 1 + decimal_len(start);
    if is_next(start, end) {
        return len;
    }
    len + 1 + decimal_len(end.saturating_sub(1))
}

// Puts a dash and the last number at the end of a text, unless that is the first, and returns where they begin.
fn fill_last(start: u64, end: u64, text: &mut [u8]) -> usize
    requires { length text.old ≡ 42 }
    ensures { Before text.old 42 (last_text start end) text.new result }
{
    if is_next(start, end) {
        return ROOM;
    }
    let first = write_digits(end.saturating_sub(1), text, ROOM) - 1;
    text[first] = b'-';
    first
}

// Puts an interval, from a start up to, and without, an end.
pub fn put_interval(put: &mut Put<'_>, start: u64, end: u64)
    ensures { Puts put.old (interval_text start end) put.new }
{
    let mut text = [0u8; ROOM];
    let last = fill_last(start, end, &mut text);
    let first = write_digits(start, &mut text, last) - 1;
    text[first] = b':';
    put.bytes(&text[first..]);
}

// The line that says a refusal and its number.
ghost use Rattle.std.specs.Prelude.{◌≡◌, ◌≤◌, length};
ghost use Rattle.misc.specs.Put.{Puts};
ghost use Rattle.text.specs.Lines.{refused_text};

use crate::digits::{decimal_len, put_decimal};
use misc::put::Put;

// How long the line is. The refusal is a number: a report that comes back from C has any in a line.
pub fn refused_len(refusal: u8) -> usize
    ensures { (result ≡ length (refused_text refusal)) × (result ≤ 29) }
{
    9 + decimal_len(refusal as u64)
}

// Puts the line.
pub fn put_refused(put: &mut Put<'_>, refusal: u8)
    ensures { Puts put.old (refused_text refusal) put.new }
{
    if put.left() < refused_len(refusal) {
        return;
    }
    put.bytes(b"refused ");
    put_decimal(put, refusal as u64);
    put.byte(b'\n');
}

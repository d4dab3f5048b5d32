// Call 64 of the test program: the listing.
#![tactic(auto)]

use listing::LONGEST_TEXT;
use listing::event_text::list_input;
use probe_lines::line::Line;
use probe_lines::{answers, checks};

// The listing names no output length: its text goes into one of the longest text's.
pub const TEXT_ROOM: usize = LONGEST_TEXT;

// `text HEX`
fn list(input: &[u8], out: &mut [u8], line: &mut Line<'_>) {
    checks::fill(out);
    match list_input(input, out) {
        Ok(len) => {
            line.text(b"text ");
            answers::push_front(line, out, len);
            answers::push_dirty(line, out, len);
        }
        Err(error) => answers::unwritten(line, error, out),
    }
}

pub fn answer(call: u8, a: &[u8], out: &mut [u8], line: &mut Line<'_>) {
    match call {
        64 => list(a, out, line),
        _ => answers::none(line),
    }
}

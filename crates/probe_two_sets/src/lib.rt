// Calls 52 to 56 of the test program: two sets.
#![tactic(auto)]

use misc::refusal::WriteError;
use probe_lines::line::Line;
use probe_lines::{answers, checks};
use two_sets::{Choice, both, either, which, within, without};

fn combined(call: u8, first: &[u8], second: &[u8], out: &mut [u8]) -> Result<usize, WriteError> {
    match call {
        52 => either(first, second, out),
        53 => both(first, second, out),
        _ => without(first, second, out),
    }
}

fn written(call: u8, first: &[u8], second: &[u8], out: &mut [u8], line: &mut Line<'_>) {
    checks::fill(out);
    let wrote = combined(call, first, second, out);
    answers::wrote(line, out, wrote);
}

// The word for one of the two sets, and whether the part has all of its bytes.
fn handed(line: &mut Line<'_>, word: &[u8], set: &[u8], part: &[u8]) {
    answers::ok(line);
    line.text(word);
    line.text_if(set != part, b" notpart");
}

fn head<'a>(first: &'a [u8], second: &'a [u8], line: &mut Line<'_>) {
    let part = two_sets::head(first, second);
    match which(first, second) {
        Ok(Choice::First) => handed(line, b"first", first, part),
        Ok(Choice::Second) => handed(line, b"second", second, part),
        Err(refusal) => {
            answers::refused(line, refusal);
            line.text_if(!part.is_empty(), b" nonzero");
        }
    }
}

pub fn answer<'a>(
    call: u8,
    first: &'a [u8],
    second: &'a [u8],
    out: &mut [u8],
    line: &mut Line<'_>,
) {
    match call {
        52..=54 => written(call, first, second, out, line),
        55 => answers::told(line, within(first, second)),
        56 => head(first, second, line),
        _ => answers::none(line),
    }
}

// Calls 48 to 50 and 66 of the test program: the resume set.
#![tactic(auto)]

use probe_lines::line::Line;
use probe_lines::request::Request;
use probe_lines::{answers, checks};
use resume_set::{Offered, check_set};
use set_join::contains;
use set_join::take_in::take_in;

// `ok WORD LEN HEX`: the word ends in a space.
fn accepted(line: &mut Line<'_>, word: &[u8], out: &[u8], len: usize) {
    answers::ok(line);
    line.text(word);
    answers::push_output(line, out, len);
    answers::push_dirty(line, out, len);
}

fn takein(body: &[u8], out: &mut [u8], line: &mut Line<'_>) {
    checks::fill(out);
    let wrote = take_in(body, out);
    answers::wrote(line, out, wrote);
}

fn offer(set: &[u8], event_type: u8, body: &[u8], out: &mut [u8], line: &mut Line<'_>) {
    checks::fill(out);
    match resume_set::offer(set, event_type, body, out) {
        Ok(Offered::NoId(len)) => accepted(line, b"noid ", out, len),
        Ok(Offered::AlreadyThere(len)) => accepted(line, b"present ", out, len),
        Ok(Offered::Taken(len)) => accepted(line, b"taken ", out, len),
        Err(error) => answers::unwritten(line, error, out),
    }
}

fn isset(set: &[u8], line: &mut Line<'_>) {
    match check_set(set) {
        Ok(read) => {
            answers::ok(line);
            line.decimal(read.entries);
            line.number(read.intervals);
        }
        Err(refusal) => answers::refused(line, refusal),
    }
}

pub fn answer(request: Request, a: &[u8], b: &[u8], c: &[u8], out: &mut [u8], line: &mut Line<'_>) {
    match request.call {
        48 => takein(a, out, line),
        49 => offer(a, request.event_type, b, out, line),
        50 => isset(a, line),
        66 => answers::told(line, contains(a, b, c, request.number)),
        _ => answers::none(line),
    }
}

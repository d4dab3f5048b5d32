// A test program. It answers the requests of standard input, one line each on standard output, until the input ends.
//
// A request is a head of 24 bytes and three parts, A, B and C (frame.rt). The calls of a library crate stand in a crate of their own
// (probe_*), whose `answer` has an arm for each; `probe_calls` asks one of them.
#![tactic(auto)]

mod frame;

use crate::frame::Head;
use probe_calls::{OUT_ROOM, answer};
use probe_lines::line::Line;
use probe_lines::parts::{from_on, front};

// The longest A, B and C, one behind the other.
const PARTS_ROOM: usize = 140_000 + 70_000 + 65_535;

const LINE_ROOM: usize = 450_000;

// Answers the request whose parts stand at the front of `parts`; false where its output doesn't fit in `out`.
fn answer_read(head: Head, parts: &[u8], out: &mut [u8], line: &mut [u8]) -> bool {
    let Some(output) = out.get_mut(..head.out_len) else {
        return false;
    };
    let behind_a = from_on(parts, head.a_len);
    let behind_b = from_on(behind_a, head.b_len);
    let mut text = Line::new(line);
    answer(
        head.request,
        front(parts, head.a_len),
        front(behind_a, head.b_len),
        front(behind_b, head.c_len),
        output,
        &mut text,
    );
    text.write()
}

// Reads a request and answers it; false at the end of the input.
fn answer_one(parts: &mut [u8], out: &mut [u8], line: &mut [u8]) -> bool {
    let mut raw = [0u8; frame::HEAD_LEN];
    if io::read_full(0, &mut raw) < frame::HEAD_LEN {
        return false;
    }
    let head = frame::head_of(&raw);
    if !frame::read_parts(parts, head.parts_len) {
        return false;
    }
    answer_read(head, parts, out, line)
}

// A proved loop has to end, so it has more turns than any run uses up.
fn answer_all(parts: &mut [u8], out: &mut [u8], line: &mut [u8]) {
    for _ in 0..u64::MAX {
        if !answer_one(parts, out, line) {
            return;
        }
    }
}

fn main() {
    let mut parts = [0u8; PARTS_ROOM];
    let mut out = [0u8; OUT_ROOM];
    let mut line = [0u8; LINE_ROOM];
    answer_all(&mut parts, &mut out, &mut line);
}

// The lines that several calls have: `ok ..` or `refused N`, with the words for what is wrong at the end.
use crate::checks;
use crate::line::Line;
use crate::parts::front;
use misc::Read;
use misc::refusal::{Refusal, WriteError};

pub fn none(line: &mut Line<'_>) {
    line.text(b"none");
}

// The beginning of an answer.
pub fn ok(line: &mut Line<'_>) {
    line.text(b"ok ");
}

pub fn refused_number(line: &mut Line<'_>, number: u8) {
    line.text(b"refused ");
    line.decimal(number as u64);
}

pub fn refused(line: &mut Line<'_>, refusal: Refusal) {
    refused_number(line, refusal.number());
}

// `ok LEN`
pub fn size(line: &mut Line<'_>, len: usize) {
    ok(line);
    line.decimal(len as u64);
}

// `ok yes` or `ok no`
pub fn told(line: &mut Line<'_>, said: Result<bool, Refusal>) {
    match said {
        Ok(true) => line.text(b"ok yes"),
        Ok(false) => line.text(b"ok no"),
        Err(refusal) => refused(line, refusal),
    }
}

pub fn read_uint(line: &mut Line<'_>, read: Result<Read<u64>, Refusal>) {
    match read {
        Ok(item) => {
            ok(line);
            line.decimal(item.value);
            line.number(item.next as u64);
        }
        Err(refusal) => refused(line, refusal),
    }
}

pub fn read_int(line: &mut Line<'_>, read: Result<Read<i64>, Refusal>) {
    match read {
        Ok(item) => {
            ok(line);
            line.signed(item.value);
            line.number(item.next as u64);
        }
        Err(refusal) => refused(line, refusal),
    }
}

// A refusal of a call with an output, which was filled before the call.
pub fn unwritten(line: &mut Line<'_>, error: WriteError, out: &[u8]) {
    refused_number(line, error.number());
    if let WriteError::NoRoom(needed) = error {
        line.number(needed as u64);
    }
    push_dirty(line, out, 0);
}

// The first `len` bytes of the output as hex; a length beyond the output is a wrong answer, and has none.
pub fn push_front(line: &mut Line<'_>, out: &[u8], len: usize) {
    if len <= out.len() {
        line.hex(front(out, len));
    }
}

// `LEN HEX` of the first `len` bytes of the output.
pub fn push_output(line: &mut Line<'_>, out: &[u8], len: usize) {
    line.decimal(len as u64);
    line.byte(b' ');
    push_front(line, out, len);
}

pub fn push_dirty(line: &mut Line<'_>, out: &[u8], from: usize) {
    line.text_if(checks::dirty(out, from), b" dirty");
}

// The answer of a call with an output, which was filled before the call.
pub fn wrote(line: &mut Line<'_>, out: &[u8], wrote: Result<usize, WriteError>) {
    match wrote {
        Ok(len) => {
            ok(line);
            push_output(line, out, len);
            push_dirty(line, out, len);
        }
        Err(error) => unwritten(line, error, out),
    }
}

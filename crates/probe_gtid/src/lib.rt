// Call 9 and calls 16 to 22 of the test program: the GTID record.
#![tactic(auto)]

mod build;

use gtid_event::GtidEvent;
use gtid_event_read::{GtidRead, read, unread};
use gtid_event_write::size::payload_size;
use gtid_event_write::write::{length, write};
use misc::refusal::Refusal;
use probe_lines::line::Line;
use probe_lines::request::Request;
use probe_lines::{answers, checks};
use probe_record::dump::from_dump;
use probe_record::words::push_record;

fn paysize(number: u64, line: &mut Line<'_>) {
    let size = payload_size(number);
    if size == 0 {
        return answers::none(line);
    }
    answers::ok(line);
    line.decimal(size);
}

fn push_read(line: &mut Line<'_>, said: GtidRead, a: &[u8], rest: &[u8]) {
    answers::ok(line);
    line.decimal(said.used as u64);
    line.number(rest.len() as u64);
    line.byte(b' ');
    push_record(line, said.event);
    line.text_if(!checks::is_suffix(a, said.used, rest), b" notsuffix");
}

fn gtid(event_type: u8, a: &[u8], line: &mut Line<'_>) {
    let rest = unread(event_type, a);
    match read(event_type, a) {
        Ok(said) => push_read(line, said, a, rest),
        Err(refusal) => {
            answers::refused(line, refusal);
            line.text_if(!rest.is_empty(), b" nonzero");
        }
    }
}

fn write_record(event: GtidEvent, out: &mut [u8], line: &mut Line<'_>) {
    checks::fill(out);
    let wrote = write(event, out);
    answers::wrote(line, out, wrote);
}

fn regtid(event_type: u8, a: &[u8], out: &mut [u8], line: &mut Line<'_>) {
    match read(event_type, a) {
        Ok(said) => write_record(said.event, out, line),
        Err(refusal) => answers::refused(line, refusal),
    }
}

fn record_length(length: Result<usize, Refusal>, line: &mut Line<'_>) {
    match length {
        Ok(len) => answers::size(line, len),
        Err(refusal) => answers::refused(line, refusal),
    }
}

fn gtidlen(event_type: u8, a: &[u8]) -> Result<usize, Refusal> {
    length(read(event_type, a)?.event)
}

// Which fields were there, as a number.
fn present(event_type: u8, a: &[u8], line: &mut Line<'_>) {
    match read(event_type, a) {
        Ok(said) => {
            answers::ok(line);
            line.decimal(said.present as u64);
        }
        Err(refusal) => answers::refused(line, refusal),
    }
}

fn build_record(a: &[u8], line: &mut Line<'_>) {
    match build::steps(a) {
        Ok(event) => {
            answers::ok(line);
            push_record(line, event);
        }
        Err(refusal) => answers::refused(line, refusal),
    }
}

pub fn answer(request: Request, a: &[u8], out: &mut [u8], line: &mut Line<'_>) {
    let event_type = request.event_type;
    match request.call {
        9 => paysize(request.number, line),
        16 => gtid(event_type, a, line),
        17 => regtid(event_type, a, out, line),
        18 => record_length(gtidlen(event_type, a), line),
        19 => write_record(from_dump(a), out, line),
        20 => record_length(length(from_dump(a)), line),
        21 => build_record(a, line),
        22 => present(event_type, a, line),
        _ => answers::none(line),
    }
}

// Calls 32 and 33 of the test program: Previous-GTIDs.
#![tactic(auto)]

use misc::refusal::Refusal;
use previous_gtids_event::read::{interval_at, read, unread};
use previous_gtids_event::rewrite::rewrite;
use previous_gtids_event::{EntryRead, PreviousRead};
use previous_gtids_reader::{entry_number, new, next, start, step_at};
use probe_lines::line::Line;
use probe_lines::parts::front;
use probe_lines::{answers, checks};

// START END, for each interval of an entry.
fn push_intervals(line: &mut Line<'_>, body: &[u8], entry: EntryRead) -> Result<(), Refusal> {
    for i in 0..entry.intervals {
        let interval = interval_at(body, entry.first, i)?;
        line.number(interval.start);
        line.number(interval.end);
    }
    Ok(())
}

fn push_tag(line: &mut Line<'_>, tag: &[u8]) {
    if tag.is_empty() {
        return line.text(b" -");
    }
    line.hex_word(tag);
}

// UUID TAGLEN TAG K, and K times START END.
fn push_entry(line: &mut Line<'_>, body: &[u8], entry: EntryRead) -> Result<(), Refusal> {
    line.hex_word(&entry.uuid);
    line.number(entry.tag_len as u64);
    push_tag(line, front(&entry.tag, entry.tag_len));
    line.number(entry.intervals);
    push_intervals(line, body, entry)
}

// Every entry that the reader hands out, and the place where it ends.
fn push_entries(line: &mut Line<'_>, body: &[u8], count: u64) -> Result<usize, Refusal> {
    let mut cursor = start(body)?;
    for _ in 0..count {
        let Some(step) = step_at(body, cursor)? else {
            break;
        };
        cursor = step.cursor;
        push_entry(line, body, step.entry)?;
    }
    Ok(cursor.at)
}

// No body has so many entries.
const NO_SUCH_INDEX: u64 = 65_536;

// Whether a reader that is asked on and on stops otherwise than reading the whole body does.
fn stops_elsewhere(body: &[u8], whole: Result<usize, Refusal>) -> bool {
    match entry_number(body, NO_SUCH_INDEX) {
        Ok(last) => last.step.is_some() | (whole != Ok(last.at)),
        Err(last) => whole != Err(last),
    }
}

// Whether the first step of a reader, which any body has, is another than the first step by its number.
fn begins_elsewhere(body: &[u8]) -> bool {
    match (next(new(body)), entry_number(body, 0)) {
        (Ok(step), Ok(first)) => step.is_some() != first.step.is_some(),
        (Err(step), Err(first)) => step != first,
        _ => true,
    }
}

fn push_read(line: &mut Line<'_>, a: &[u8], said: PreviousRead, rest: &[u8]) {
    answers::ok(line);
    line.decimal(said.used as u64);
    line.number(rest.len() as u64);
    line.number(said.entries);
    let end = push_entries(line, a, said.entries);
    line.text_if(!checks::is_suffix(a, said.used, rest), b" notsuffix");
    let elsewhere = (end != Ok(said.used))
        | stops_elsewhere(a, Ok(said.used))
        | begins_elsewhere(a);
    line.text_if(elsewhere, b" elsewhere");
}

fn prev(a: &[u8], line: &mut Line<'_>) {
    let rest = unread(a);
    match read(a) {
        Ok(said) => push_read(line, a, said, rest),
        Err(refusal) => {
            answers::refused(line, refusal);
            line.text_if(!rest.is_empty(), b" nonzero");
            let elsewhere = stops_elsewhere(a, Err(refusal)) | begins_elsewhere(a);
            line.text_if(elsewhere, b" elsewhere");
        }
    }
}

fn reprev(a: &[u8], out: &mut [u8], line: &mut Line<'_>) {
    checks::fill(out);
    let wrote = rewrite(a, out);
    answers::wrote(line, out, wrote);
}

pub fn answer(call: u8, a: &[u8], out: &mut [u8], line: &mut Line<'_>) {
    match call {
        32 => prev(a, line),
        33 => reprev(a, out, line),
        _ => answers::none(line),
    }
}

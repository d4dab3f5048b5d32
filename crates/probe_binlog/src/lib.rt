// Call 51 of the test program: a binlog file, read in chunks. A has the file, B the steps, four bytes each, and C the set that the reader
// goes on from. The line is the library's; it ends in ` abi` where the archive's is another.
#![tactic(auto)]

mod asked;

use crate::asked::Asked;
use binlog::WORK;
use misc::bytes::write_bytes;
use probe_binlog_line::Notes;
use probe_lines::answers;
use probe_lines::checks::MARK;
use probe_lines::line::Line;
use probe_lines::parts::{from_on, front, part_end, u32_at};
use set_check::LONGEST_SET;

// The archive's line is put into the program's output, which this call doesn't use otherwise. The longest has a letter for each 19 bytes of
// A and the hex of the longest set.
pub const TWIN_ROOM: usize = 140_000;

// The step that names the end.
const THE_END: u32 = 0xffff_ffff;

// The reader, how many bytes of A were fed, and what is noted for the line.
#[derive(Clone, Copy)]
struct Run {
    asked: Asked,
    at: usize,
    notes: Notes,
}

// The bytes that a reader is lent.
#[derive(Drop)]
struct Lent<'a> {
    work: &'a mut [u8],
    set: &'a mut [u8],
}

// ---- a chunk

// The run after a call, with A fed up to a place.
fn after_call(notes: Notes, asked: Asked, at: usize, line: &mut Line<'_>) -> Run {
    Run {
        asked,
        at,
        notes: probe_binlog_line::with_call(notes, asked.heard, line),
    }
}

// Feeds what is left of a chunk, which ends where `fed` does.
fn feed_rest(run: Run, fed: &[u8], lent: &mut Lent<'_>, line: &mut Line<'_>) -> Run {
    let asked = asked::feed(run.asked, from_on(fed, run.at), lent.work, lent.set);
    let at = part_end(run.at, asked.heard.used, fed.len());
    after_call(run.notes, asked, at, line)
}

// Feeds a chunk, which ends where `fed` does, up to there or a refusal. An empty one is fed once; of any other a call uses a byte at least.
fn feed_chunk(run: Run, fed: &[u8], lent: &mut Lent<'_>, line: &mut Line<'_>) -> Run {
    let mut here = feed_rest(run, fed, lent, line);
    for _ in 0..fed.len() {
        if (fed.len() <= here.at) | (here.asked.heard.refusal != 0) {
            break;
        }
        here = feed_rest(here, fed, lent, line);
    }
    here
}

// ---- the steps

fn name_end(run: Run, line: &mut Line<'_>) -> Run {
    after_call(run.notes, asked::end(run.asked), run.at, line)
}

// The run after a step, with A fed up to a place. The step's state is put down.
fn after_step(run: Run, at: usize) -> Run {
    Run {
        asked: run.asked,
        at,
        notes: probe_binlog_line::with_step(run.notes, run.asked.heard),
    }
}

// A step names the end, or feeds the next so many bytes of A as a chunk.
fn step(run: Run, a: &[u8], number: u32, lent: &mut Lent<'_>, line: &mut Line<'_>) -> Run {
    if number == THE_END {
        return after_step(name_end(run, line), run.at);
    }
    let end = part_end(run.at, number as usize, a.len());
    after_step(feed_chunk(run, front(a, end), lent, line), end)
}

// Takes all steps of B.
fn drive(run: Run, a: &[u8], b: &[u8], lent: &mut Lent<'_>, line: &mut Line<'_>) -> Run {
    let mut here = run;
    for number in b.chunks_exact(4) {
        here = step(here, a, u32_at(number, 0), lent, line);
    }
    here
}

// ---- the line

// Puts the line that a reader of the library's or of the archive's comes to, or the refusal of one that wasn't made, and tells the sum of what
// was told beside it. The reader goes on from the set C; every other byte that it is lent is the mark before.
fn answer_by(
    archive: bool,
    number: u64,
    a: &[u8],
    b: &[u8],
    c: &[u8],
    line: &mut Line<'_>,
) -> usize {
    let asked = asked::begin(archive, c, number % 2 == 1);
    let made = asked.heard;
    if made.refusal != 0 {
        answers::refused_number(line, made.refusal);
        line.text_if(made.len != 0, b" nonzero");
        return 0;
    }
    let mut work = [MARK; WORK];
    let mut set = [MARK; LONGEST_SET];
    let _ = write_bytes(c, &mut set);
    let notes = probe_binlog_line::begin(line);
    let begun = Run {
        asked,
        at: 0,
        notes,
    };
    let mut lent = Lent {
        work: &mut work,
        set: &mut set,
    };
    let run = drive(begun, a, b, &mut lent, line);
    probe_binlog_line::end(run.notes, &set, run.asked.heard.set_len, line);
    run.notes.told
}

// An odd number says that checksums end the events.
pub fn answer(number: u64, a: &[u8], b: &[u8], c: &[u8], twin: &mut [u8], line: &mut Line<'_>) {
    let told = answer_by(false, number, a, b, c, line);
    let mut other = Line::new(twin);
    let told_by_archive = answer_by(true, number, a, b, c, &mut other);
    let same = (line.so_far() == other.so_far()) & (told == told_by_archive);
    line.text_if(!same, b" abi");
}

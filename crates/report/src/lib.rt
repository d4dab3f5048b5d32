// Month's end in exact numbers: a report over up to 64 saved sets, given one after another. It is built step by step, by value, as records
// are: `Report::new`, then `add` for each set, which answers that set's line, then `write`, which writes the text: a line for each set and,
// last, the sums. `sum` gives the sums as numbers. What they promise is said by `added`, `sum_of` and `report_text` of specs/.
#![tactic(auto)]

ghost use Rattle.std.specs.Prelude.{◌≡◌};
ghost use Rattle.misc.specs.Output.{bytes, output_of, answer_of};
ghost use Rattle.gtid_sets.specs.Lent.{lent_set};
ghost use Rattle.report.specs.Report.{refused_line, line_of, new_report, added, lines_of, sum_of};
ghost use Rattle.report.specs.Text.{report_text};

use crate::ids::ids_in;
use crate::sums::{high_word, low_word, sum_of};
use crate::text_lines::{counts_len, lines_len, put_counts, put_lines};
use misc::put::Put;
use misc::refusal::{Refusal, WriteError};
use set_check::check::check;
use set_check::walk::entries_of;

mod ids;
mod sums;
mod text_lines;

// So many sets, refused ones counted.
pub const MAX_SETS: usize = 64;

// The bytes of the longest report (`longest_report`): 38 for each line and 44 for that of the sums.
pub const LONGEST_REPORT: usize = MAX_SETS * 38 + 44;

// A set's line: how many entries, intervals and ids it has, or the number of its refusal and zeros. The ids are `high` times 2^64, and `low`.
// By the set limits there are at most 384 entries with fewer than 2^63 ids each, and 2,560 intervals; so these types hold every
// set's numbers, and no sum of 64 lines overflows, whatever they hold. The refusal stays a number: a report comes back from C as any bytes
// (`report_in` of abi), and its lines then have any number and any counts.
#[derive(Clone, Copy, Default)]
pub struct Line {
    pub refusal: u8,
    pub entries: u32,
    pub intervals: u32,
    pub high: u32,
    pub low: u64,
}

// The four numbers of a line, or of all lines together; the ids as in a line.
#[derive(Clone, Copy, PartialEq, Eq)]
pub struct Counts {
    pub entries: u64,
    pub intervals: u64,
    pub high: u64,
    pub low: u64,
}

// A report: how many sets it is over, and their lines at the front.
#[derive(Clone, Copy)]
pub struct Report {
    pub sets: usize,
    pub lines: [Line; MAX_SETS],
}

// What adding a set comes to: its line, whose refusal is the answer, and the report with it.
#[derive(Clone, Copy)]
pub struct Added {
    pub line: Line,
    pub report: Report,
}

// The line of a refusal.
pub fn refused_line(refusal: u8) -> Line
    ensures { result ≡ refused_line refusal }
{
    Line {
        refusal,
        ..Line::default()
    }
}

// The line of a set, or of what is none: 14.
pub fn line_of(set: &[u8]) -> Line
    ensures { result ≡ line_of (lent_set set.now) }
{
    let checked = match check(set) {
        Ok(checked) => checked,
        Err(refusal) => return refused_line(refusal.number()),
    };
    let ids = ids_in(set, entries_of(checked));
    Line {
        refusal: 0,
        entries: checked.entries as u32,
        intervals: checked.intervals as u32,
        high: high_word(ids) as u32,
        low: low_word(ids),
    }
}

impl Report {
    // A report over no set.
    pub fn new() -> Self
        ensures { result ≡ new_report }
    {
        Self {
            sets: 0,
            lines: [Line::default(); MAX_SETS],
        }
    }

    // With one set more. Bytes that are no set have a line too, which says 14. Behind 64 sets nothing is read: 11, and the report as it is.
    pub fn add(mut self, set: &[u8]) -> Added
        ensures { result ≡ added self set.now }
    {
        let at = self.sets;
        if MAX_SETS <= at {
            return Added {
                line: refused_line(Refusal::TooLong.number()),
                report: self,
            };
        }
        let line = line_of(set);
        self.lines[at] = line;
        self.sets = at + 1;
        Added { line, report: self }
    }

    // The lines that count.
    fn kept(&self) -> &[Line]
        ensures { result.now ≡ lines_of self.now }
    {
        &self.lines[..self.sets.min(MAX_SETS)]
    }

    // The sums over all lines: an id in two sets counts twice.
    pub fn sum(self) -> Counts
        ensures { result ≡ sum_of (lines_of self) }
    {
        sum_of(self.kept())
    }

    // Writes the report's text, or answers 13 and the length that is needed.
    pub fn write(self, out: &mut [u8]) -> Result<usize, WriteError>
        ensures value { result ≡ answer_of out.old (bytes (report_text (lines_of self))) }
        ensures out_after { out.new ≡ output_of out.old (bytes (report_text (lines_of self))) }
    {
        let lines = self.kept();
        let sum = sum_of(lines);
        let len = lines_len(lines) as usize + counts_len(sum);
        if out.len() < len {
            return Err(WriteError::NoRoom(len));
        }
        let mut put = Put { out, at: 0 };
        put_lines(&mut put, lines);
        put_counts(&mut put, b"sum", sum);
        Ok(len)
    }
}

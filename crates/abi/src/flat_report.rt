// A report as 1,352 bytes: how many sets it is over, and 21 bytes for each of its lines.
ghost use Rattle.std.specs.Prelude.{◌≡◌, ◌<◌, length, Ok};
ghost use Rattle.misc.specs.Put.{PutsWhereFits};
ghost use Rattle.abi.specs.FlatReport.{line_size, report_size, flat_line, line_in, report_in, with_line_in, room_for};

use crate::REPORT_SIZE;
use crate::flat::four_at;
use misc::le::number_at;
use misc::put::Put;
use misc::refusal::Refusal;
use report::{Line, MAX_SETS, Report};

// How many bytes a line has.
pub(crate) const LINE_SIZE: usize = 21;

fn put_line(put: &mut Put<'_>, line: Line)
    ensures { PutsWhereFits put.old (flat_line line) put.new }
{
    put.byte(line.refusal);
    put.u32_le(line.entries);
    put.u32_le(line.intervals);
    put.u32_le(line.high);
    put.u64_le(line.low);
}

// Whether there is a place for one line more: refused are bytes that are no report (12) and a report over 64 sets (11).
pub(crate) fn room_for(report: &[u8]) -> Result<(), Refusal>
    ensures { result ≡ room_for report.now }
{
    if report.len() != REPORT_SIZE {
        return Err(Refusal::NotWritable);
    }
    if MAX_SETS <= number_at(report, 0) as usize {
        return Err(Refusal::TooLong);
    }
    Ok(())
}

// Puts a line behind those that are there, and counts it.
pub(crate) fn keep_line(line: Line, report: &mut [u8])
    requires { Ok tt ≡ room_for report.old }
    ensures { report.new ≡ with_line_in report.old line }
{
    let sets = number_at(report, 0);
    let mut put = Put {
        out: report,
        at: 8 + LINE_SIZE * sets as usize,
    };
    put_line(&mut put, line);
    put.at = 0;
    put.u64_le(sets + 1);
}

fn line_in(s: &[u8]) -> Line
    requires { length s.now ≡ line_size }
    ensures { result ≡ line_in s.now }
{
    Line {
        refusal: s[0],
        entries: four_at(s, 1),
        intervals: four_at(s, 5),
        high: four_at(s, 9),
        low: number_at(s, 13),
    }
}

pub(crate) fn report_in(s: &[u8]) -> Report
    requires { length s.now ≡ report_size }
    ensures { result ≡ report_in s.now }
{
    let mut report = Report::new();
    report.sets = number_at(s, 0) as usize;
    for i in 0..MAX_SETS {
        let at = 8 + LINE_SIZE * i;
        report.lines[i] = line_in(&s[at..at + LINE_SIZE]);
    }
    report
}

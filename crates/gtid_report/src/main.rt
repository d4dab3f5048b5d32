// The report program: sets on standard input, each behind its length in four bytes, and the report's text on standard output. Sets behind
// the 64th are not read. That the rooms for a set and for the text are enough is proved: `with_file` and `text_of` ask for as much;
// `with_file` promises the report with the whole file, of a longer one too, and `text_of` the whole text.
#![tactic(auto)]

ghost use Rattle.std.specs.Prelude.{◌≤◌, ◌<◌, length, take, IfSome};
ghost use Rattle.gtid_sets.specs.Limits.{longest_set};
ghost use Rattle.report.specs.Text.{longest_report};
ghost use Rattle.gtid_report.specs.Program.{Built, Grown, Reported};

use report::{LONGEST_REPORT, MAX_SETS, Report};
use set_check::LONGEST_SET;

// The longest set and one byte more: so much of a file tells whether it is a set.
const SET_ROOM: usize = LONGEST_SET + 1;

const TEXT_ROOM: usize = LONGEST_REPORT;

// Reads the next file to the front of `room`, and tells how many bytes it has: four bytes that tell its length, and so many. What doesn't
// fit or doesn't come ends the input.
fn read_file(room: &mut [u8]) -> Option<usize>
    ensures { IfSome result (λ len. len ≤ length room.old) }
{
    let mut head = [0u8; 4];
    if io::read_full(0, &mut head) < 4 {
        return None;
    }
    let len = u32::from_le_bytes(head) as usize;
    if room.len() < len {
        return None;
    }
    if io::read_full(0, &mut room[..len]) < len {
        return None;
    }
    Some(len)
}

// The report with one file more, of which so much stands at the front of `room`: all of it or, of a longer one, as much as `room` holds.
fn with_file(report: Report, room: &[u8], len: usize) -> Report
    requires { (longest_set < length room.now) × (len ≤ length room.now) }
    ensures { Grown report (length room.now) (take len room.now) result }
{
    report.add(&room[..len]).report
}

// Reads a file and adds it, if there is one.
fn add_next(report: Report, room: &mut [u8]) -> Option<Report>
    requires longest_set_in_bounds { longest_set < length room.old }
    requires built { Built report }
    ensures { IfSome result (λ next. Built next) }
{
    let len = read_file(room)?;
    Some(with_file(report, room, len))
}

// The report over all files.
fn read_all(room: &mut [u8]) -> Report
    requires { longest_set < length room.old }
    ensures { Built result }
{
    let mut report = Report::new();
    for _ in 0..MAX_SETS {
        let Some(next) = add_next(report, room) else {
            return report;
        };
        report = next;
    }
    report
}

// Puts the report's text at the front of `text` and returns its length.
fn text_of(report: Report, text: &mut [u8]) -> usize
    requires longest_report_in_bounds { longest_report ≤ length text.old }
    requires built { Built report }
    ensures { Reported report result text.new }
{
    report.write(text).unwrap()
}

// Reports on the input, over `room` and `text`, and writes the text.
fn report_input(room: &mut [u8], text: &mut [u8]) -> bool
    requires { (longest_set < length room.old) × (longest_report ≤ length text.old) }
{
    let all = read_all(room);
    let end = text_of(all, text);
    io::write_all(1, &text[..end])
}

fn main() {
    let mut room = [0u8; SET_ROOM];
    let mut text = [0u8; TEXT_ROOM];
    report_input(&mut room, &mut text);
}

// Call 57 of the test program: a report. A has the sets one behind the other, B their lengths, four bytes each.
#![tactic(auto)]

use probe_lines::line::Line;
use probe_lines::parts::{from_on, front, u32_at};
use probe_lines::{answers, checks};
use report::{Line as SetLine, Report};

fn nonzero(line: SetLine) -> bool {
    (line.entries != 0) | (line.intervals != 0) | (line.high != 0) | (line.low != 0)
}

// The report over all sets, and whether a refused one has a number that isn't zero. How each went is put into the line: `0`, or the number of
// its refusal; `-` for no set.
fn say_all(a: &[u8], b: &[u8], line: &mut Line<'_>) -> (Report, bool) {
    let mut report = Report::new();
    let mut rest = a;
    let mut any = false;
    for number in b.chunks_exact(4) {
        let len = u32_at(number, 0) as usize;
        let added = report.add(front(rest, len));
        line.text_if(report.sets != 0, b",");
        line.decimal(added.line.refusal as u64);
        any |= (added.line.refusal != 0) & nonzero(added.line);
        report = added.report;
        rest = from_on(rest, len);
    }
    line.text_if(b.len() < 4, b"-");
    (report, any)
}

// `ok SAID LEN HEX`, and the words for what is wrong.
fn report_on(a: &[u8], b: &[u8], out: &mut [u8], line: &mut Line<'_>) {
    checks::fill(out);
    answers::ok(line);
    let (report, any) = say_all(a, b, line);
    match report.write(out) {
        Ok(len) => {
            line.byte(b' ');
            answers::push_output(line, out, len);
            answers::push_dirty(line, out, len);
            line.text_if(any, b" nonzero");
        }
        Err(error) => {
            line.clear();
            answers::unwritten(line, error, out);
        }
    }
}

pub fn answer(call: u8, a: &[u8], b: &[u8], out: &mut [u8], line: &mut Line<'_>) {
    match call {
        57 => report_on(a, b, out, line),
        _ => answers::none(line),
    }
}

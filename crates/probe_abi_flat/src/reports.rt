// The archive's report, beside the library's.
use abi::REPORT_SIZE;
use misc::refusal::Refusal;
use probe_lines::beside::{UNSET, differs};
use probe_lines::checks::{MARK, dirty};
use probe_lines::parts::{from_on, front, u32_at};
use report::{Counts, Line, Report, refused_line};

// Before the archive hands its numbers out.
const NONE: Counts = Counts {
    entries: UNSET as u64,
    intervals: UNSET as u64,
    high: UNSET as u64,
    low: UNSET as u64,
};

// The archive adds a set, of which the library said this.
fn line_differs(said: Line, set: &[u8], bytes: &mut [u8]) -> bool {
    let mut told = NONE;
    let refusal = abi::gtid_report_add(
        bytes,
        set,
        &mut told.entries,
        &mut told.intervals,
        &mut told.high,
        &mut told.low,
    );
    let wanted = Counts {
        entries: said.entries as u64,
        intervals: said.intervals as u64,
        high: said.high as u64,
        low: said.low,
    };
    (said.refusal != refusal) | (wanted != told)
}

// And tells the sums.
fn sum_differs(sum: Counts, bytes: &[u8]) -> bool {
    let mut told = NONE;
    let refusal = abi::gtid_report_sum(
        bytes,
        &mut told.entries,
        &mut told.intervals,
        &mut told.high,
        &mut told.low,
    );
    (refusal != 0) | (sum != told)
}

// The library's report over all sets, and whether the archive said something else of one of them.
fn add_all(a: &[u8], b: &[u8], bytes: &mut [u8]) -> (Report, bool) {
    let mut report = Report::new();
    let mut differs = false;
    let mut rest = a;
    for number in b.chunks_exact(4) {
        let len = u32_at(number, 0) as usize;
        let set = front(rest, len);
        let added = report.add(set);
        report = added.report;
        differs |= line_differs(added.line, set, bytes);
        rest = from_on(rest, len);
    }
    (report, differs)
}

// Bytes that are no report, one too few: 12, zeros, and all as it was.
fn short_differs(set: &[u8]) -> bool {
    let mut bytes = [MARK; REPORT_SIZE - 1];
    let number = Refusal::NotWritable.number();
    let added = line_differs(refused_line(number), set, &mut bytes);
    let mut room = [0u8; 1];
    let mut len = UNSET;
    let refusal = abi::gtid_report_write(&bytes, &mut room, &mut len);
    added | (refusal != number) | (len != 0) | dirty(&bytes, 0)
}

fn whole_differs(a: &[u8], b: &[u8], out: &mut [u8], twin: &mut [u8]) -> bool {
    let mut bytes = [0u8; REPORT_SIZE];
    let (report, another) = add_all(a, b, &mut bytes);
    let wrote = report.write(out);
    let mut len = UNSET;
    let refusal = abi::gtid_report_write(&bytes, twin, &mut len);
    another | differs(wrote, refusal, len, out, twin) | sum_differs(report.sum(), &bytes)
}

pub(crate) fn report(a: &[u8], b: &[u8], out: &mut [u8], twin: &mut [u8]) -> bool {
    whole_differs(a, b, out, twin) | short_differs(a)
}

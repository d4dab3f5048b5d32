// The archive's functions that write an output and hand out its length, as the library's answer both.
use misc::refusal::WriteError;
use probe_lines::beside::{UNSET, differs};

fn by_library(call: u8, a: &[u8], b: &[u8], out: &mut [u8]) -> Result<usize, WriteError> {
    match call {
        33 => previous_gtids_event::rewrite::rewrite(a, out),
        48 => set_join::take_in::take_in(a, out),
        52 => two_sets::either(a, b, out),
        53 => two_sets::both(a, b, out),
        54 => two_sets::without(a, b, out),
        _ => listing::event_text::list_input(a, out),
    }
}

fn by_archive(call: u8, a: &[u8], b: &[u8], out: &mut [u8], len: &mut usize) -> u8 {
    match call {
        33 => abi::gtid_rewrite(a, out, len),
        48 => abi::gtid_take_in(a, out, len),
        52 => abi::gtid_either(a, b, out, len),
        53 => abi::gtid_both(a, b, out, len),
        54 => abi::gtid_without(a, b, out, len),
        _ => abi::gtid_list(a, out, len),
    }
}

pub(crate) fn written(call: u8, a: &[u8], b: &[u8], out: &mut [u8], twin: &mut [u8]) -> bool {
    let wrote = by_library(call, a, b, out);
    let mut len = UNSET;
    let refusal = by_archive(call, a, b, twin, &mut len);
    differs(wrote, refusal, len, out, twin)
}

// The archive's functions over integers, bodies, sets and readers, beside the library's.
#![tactic(auto)]

mod bodies;
mod readers;
mod sets;
mod two;
mod written;

use probe_lines::beside::{UNSET, number_of};
use probe_lines::request::Request;

// The variable-length unsigned integer at the front.
fn uint(a: &[u8]) -> bool {
    let said = misc::varlen::read_varlen_uint(a, 0);
    let mut value = UNSET as u64;
    let mut used = UNSET;
    let refusal = abi::gtid_read_varlen_uint(a, &mut value, &mut used);
    let wanted = match said {
        Ok(read) => (read.value, read.next),
        Err(_) => (0, 0),
    };
    (number_of(said) != refusal) | (wanted != (value, used))
}

// The archive's function for a call without an output, if there is one, beside the library's.
fn told(request: Request, a: &[u8], b: &[u8], c: &[u8]) -> bool {
    match request.call {
        1 => uint(a),
        32 => bodies::previous(a),
        50 => sets::check_set(a),
        51 => readers::takes_short(a),
        55 => two::within(a, b),
        56 => two::head(a, b),
        66 => sets::contains(a, b, c, request.number),
        _ => false,
    }
}

// Whether the archive's function for a call, if it is one of these, answers or writes something else than the library's. Both outputs have
// one length, and are the mark's before.
pub fn another(
    request: Request,
    a: &[u8],
    b: &[u8],
    c: &[u8],
    out: &mut [u8],
    twin: &mut [u8],
) -> bool {
    let call = request.call;
    match call {
        49 => sets::offer(a, request.event_type, b, out, twin),
        33 | 48 | 52 | 53 | 54 | 64 => written::written(call, a, b, out, twin),
        _ => told(request, a, b, c),
    }
}

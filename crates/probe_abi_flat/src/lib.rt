// The archive's functions over what crosses as bytes, GTID records and reports, beside the library's.
#![tactic(auto)]

mod records;
mod reports;

use probe_lines::request::Request;

// Whether the archive's function for a call, if it is one of these, answers or writes something else than the library's. Both outputs have
// one length, and are the mark's before.
pub fn another(request: Request, a: &[u8], b: &[u8], out: &mut [u8], twin: &mut [u8]) -> bool {
    let call = request.call;
    match call {
        16 | 22 => records::read(request.event_type, a),
        17 => records::reread(request.event_type, a, out, twin),
        19 => records::write(a, out, twin),
        57 => reports::report(a, b, out, twin),
        _ => false,
    }
}

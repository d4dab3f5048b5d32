// The archive's functions (crate abi), asked the same as the library's. Both outputs are filled with the mark before and compared whole.
use crate::OUT_ROOM;
use probe_lines::checks::fill;
use probe_lines::request::Request;

fn asked(request: Request, a: &[u8], b: &[u8], c: &[u8], out: &mut [u8], twin: &mut [u8]) -> bool {
    fill(out);
    fill(twin);
    match request.call {
        // the calls over records and reports, which cross as bytes
        16..=31 | 57 => probe_abi_flat::another(request, a, b, out, twin),
        _ => probe_abi::another(request, a, b, c, out, twin),
    }
}

// Whether the archive's function for a call, if there is one, answers or writes something else than the library's; also where its output
// would have no room here.
pub(crate) fn another(request: Request, a: &[u8], b: &[u8], c: &[u8], out: &mut [u8]) -> bool {
    let mut room = [0u8; OUT_ROOM];
    match room.get_mut(..out.len()) {
        Some(twin) => asked(request, a, b, c, out, twin),
        None => true,
    }
}

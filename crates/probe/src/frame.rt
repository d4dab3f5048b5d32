// A request: its head, and reading its parts.
use probe_calls::out_len_of;
use probe_lines::parts::{byte_at, u32_at, u64_at};
use probe_lines::request::Request;

pub const HEAD_LEN: usize = 24;

// Which call it is, how long its parts are, one by one and all together, and its output.
#[derive(Clone, Copy)]
pub struct Head {
    pub request: Request,
    pub a_len: usize,
    pub b_len: usize,
    pub c_len: usize,
    pub parts_len: usize,
    pub out_len: usize,
}

pub(crate) fn head_of(raw: &[u8]) -> Head {
    let call = byte_at(raw, 0);
    let request = Request {
        call,
        event_type: byte_at(raw, 1),
        number: u64_at(raw, 16),
    };
    let a_len = u32_at(raw, 4) as usize;
    let b_len = u32_at(raw, 8) as usize;
    let c_len = u16::from_le_bytes([byte_at(raw, 2), byte_at(raw, 3)]) as usize;
    Head {
        request,
        a_len,
        b_len,
        c_len,
        parts_len: a_len + b_len + c_len,
        out_len: out_len_of(call, u32_at(raw, 12) as usize),
    }
}

// Fills the front of `parts` with A, B and C from standard input; false where they do not fit or do not come.
pub(crate) fn read_parts(parts: &mut [u8], len: usize) -> bool {
    if len == 0 {
        return true;
    }
    match parts.get_mut(..len) {
        Some(room) => io::read_full(0, room) == len,
        None => false,
    }
}

// Calls 1 to 8 of the test program: the integers of crate misc.
#![tactic(auto)]

use misc::lenenc::{lenenc_int_len, read_lenenc_int, write_lenenc_int};
use misc::refusal::WriteError;
use misc::signed::{read_varlen_int, write_varlen_int};
use misc::varlen::{read_varlen_uint, varlen_uint_size, write_varlen_uint};
use probe_lines::line::Line;
use probe_lines::request::Request;
use probe_lines::{answers, checks, twos};

fn put(call: u8, number: u64, out: &mut [u8]) -> Result<usize, WriteError> {
    match call {
        2 => write_varlen_uint(number, out),
        4 => write_varlen_int(twos::from_bits(number), out),
        _ => write_lenenc_int(number, out),
    }
}

fn written(request: Request, out: &mut [u8], line: &mut Line<'_>) {
    checks::fill(out);
    let wrote = put(request.call, request.number, out);
    answers::wrote(line, out, wrote);
}

pub fn answer(request: Request, a: &[u8], out: &mut [u8], line: &mut Line<'_>) {
    match request.call {
        1 => answers::read_uint(line, read_varlen_uint(a, 0)),
        3 => answers::read_int(line, read_varlen_int(a, 0)),
        5 => answers::read_uint(line, read_lenenc_int(a, 0)),
        2 | 4 | 6 => written(request, out, line),
        7 => answers::size(line, varlen_uint_size(request.number)),
        8 => answers::size(line, lenenc_int_len(request.number)),
        _ => answers::none(line),
    }
}

// The calls of the test program: each is asked of the crate that has it, and then of the archive. A call is a number: the list of requests
// names it so.
#![tactic(auto)]

mod archive;

use probe_lines::line::Line;
use probe_lines::request::Request;

// An output is at most so long, and the archive's has its length.
pub const OUT_ROOM: usize = 140_000;

// The output's length, which a request tells for every call but two.
pub fn out_len_of(call: u8, told: usize) -> usize {
    match call {
        51 => probe_binlog::TWIN_ROOM,
        64 => probe_listing::TEXT_ROOM,
        _ => told,
    }
}

// B; but to a call of two sets an odd number lends A as both.
fn second_part<'a>(request: Request, a: &'a [u8], b: &'a [u8]) -> &'a [u8] {
    match request.call {
        52..=56 if request.number % 2 == 1 => a,
        _ => b,
    }
}

// The line by the library's answer. That of call 51 has the archive's held against it already.
fn answer_by_call<'a>(
    request: Request,
    a: &'a [u8],
    b: &'a [u8],
    c: &[u8],
    out: &mut [u8],
    line: &mut Line<'_>,
) {
    let call = request.call;
    match call {
        0..=8 => probe_integers::answer(request, a, out, line),
        9..=31 => probe_gtid::answer(request, a, out, line),
        32..=47 => probe_previous::answer(call, a, out, line),
        51 => probe_binlog::answer(request.number, a, b, c, out, line),
        52..=56 => probe_two_sets::answer(call, a, b, out, line),
        57 => probe_report::answer(call, a, b, out, line),
        48..=63 | 66 => probe_sets::answer(request, a, b, c, out, line),
        _ => probe_listing::answer(call, a, out, line),
    }
}

// Puts the line that answers a request, without its end. It ends in ` abi` where the archive's function for the same call answers or writes
// something else.
pub fn answer<'a>(
    request: Request,
    a: &'a [u8],
    b: &'a [u8],
    c: &[u8],
    out: &mut [u8],
    line: &mut Line<'_>,
) {
    let second = second_part(request, a, b);
    answer_by_call(request, a, second, c, out, line);
    line.text_if(archive::another(request, a, second, c, out), b" abi");
}

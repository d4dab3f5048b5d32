// A binlog reader as 48 bytes, with what its last call said: written, and read again.
ghost use Rattle.std.specs.Prelude.{◌≡◌, length};
ghost use Rattle.misc.specs.Put.{PutsWhereFits};
ghost use Rattle.abi.specs.FlatBinlog.{reader_size, phase_numbers, phase_from, told_number, said_numbers, flat_step, reader_in};

use binlog::Phase;
use binlog_reader::{Answer, Reader, Said, Told};
use misc::le::number_at;
use misc::put::Put;

// Where a reader is, as numbers: a reader goes through C as 48 bytes.
#[derive(Clone, Copy)]
pub(crate) struct PhaseNumbers {
    pub(crate) kind: u8,
    pub(crate) number: u8,
    pub(crate) left: usize,
    pub(crate) have: usize,
}

// What a call says, as numbers for C.
#[derive(Clone, Copy)]
pub(crate) struct SaidNumbers {
    pub(crate) refusal: u8,
    pub(crate) kind: u8,
    pub(crate) event: u8,
    pub(crate) len: usize,
}

pub(crate) fn phase_numbers(phase: Phase) -> PhaseNumbers
    ensures { result ≡ phase_numbers phase }
{
    match phase {
        Phase::Opening(have) => PhaseNumbers {
            kind: 0,
            number: 0,
            left: 0,
            have,
        },
        Phase::Header(have) => PhaseNumbers {
            kind: 1,
            number: 0,
            left: 0,
            have,
        },
        Phase::Body(event_type, left, have) => PhaseNumbers {
            kind: 2,
            number: event_type,
            left,
            have,
        },
        Phase::Skip(left) => PhaseNumbers {
            kind: 3,
            number: 0,
            left,
            have: 0,
        },
        Phase::Whole(event_type, have) => PhaseNumbers {
            kind: 4,
            number: event_type,
            left: 0,
            have,
        },
        Phase::Ended => PhaseNumbers {
            kind: 5,
            number: 0,
            left: 0,
            have: 0,
        },
        Phase::Stopped(refusal, needed) => PhaseNumbers {
            kind: 6,
            number: refusal,
            left: 0,
            have: needed,
        },
    }
}

fn phase_from(kind: u8, number: u8, left: usize, have: usize) -> Phase
    ensures { result ≡ phase_from kind number left have }
{
    match kind {
        0 => Phase::Opening(have),
        1 => Phase::Header(have),
        2 => Phase::Body(number, left, have),
        3 => Phase::Skip(left),
        4 => Phase::Whole(number, have),
        5 => Phase::Ended,
        6 => Phase::Stopped(number, have),
        _ => Phase::Stopped(0, 0),
    }
}

fn told_number(told: Told) -> u8
    ensures { result ≡ told_number told }
{
    match told {
        Told::Taken => 1,
        Told::AlreadyThere => 2,
        Told::NoId => 3,
        Told::Joined => 4,
    }
}

pub(crate) fn said_numbers(said: Said) -> SaidNumbers
    ensures { result ≡ said_numbers said }
{
    match said {
        Said::Refused(refusal, needed) => SaidNumbers {
            refusal,
            kind: 0,
            event: 0,
            len: needed,
        },
        Said::Event(told, event_type, len) => SaidNumbers {
            refusal: 0,
            kind: told_number(told),
            event: event_type,
            len,
        },
        Said::MoreWanted => SaidNumbers {
            refusal: 0,
            kind: 5,
            event: 0,
            len: 0,
        },
        Said::Ended => SaidNumbers {
            refusal: 0,
            kind: 6,
            event: 0,
            len: 0,
        },
    }
}

// Puts a reader and what was said, where there is room.
pub(crate) fn put_step(put: &mut Put<'_>, step: Answer)
    ensures { PutsWhereFits put.old (flat_step step) put.new }
{
    let reader = step.reader;
    let phase = reader.phase;
    let here = phase_numbers(phase);
    let words = step.said;
    let said = said_numbers(words);
    let head = [
        here.kind,
        here.number,
        reader.checksums as u8,
        said.kind,
        said.event,
        0,
        0,
        0,
    ];
    put.bytes(&head);
    put.u64_le(here.left as u64);
    put.u64_le(here.have as u64);
    put.u64_le(reader.len as u64);
    put.u64_le(step.used as u64);
    put.u64_le(said.len as u64);
}

pub(crate) fn reader_in(s: &[u8]) -> Reader
    requires { length s.now ≡ reader_size }
    ensures { result ≡ reader_in s.now }
{
    Reader {
        phase: phase_from(
            s[0],
            s[1],
            number_at(s, 8) as usize,
            number_at(s, 16) as usize,
        ),
        checksums: 0 < s[2],
        len: number_at(s, 24) as usize,
    }
}

// Keeps the reader after a call, with what was said, and returns the refusal's number, 0 for none.
pub(crate) fn keep_step(step: Answer, reader: &mut [u8]) -> u8
    requires { length reader.old ≡ reader_size }
    ensures value { result ≡ (said_numbers step.said).refusal }
    ensures reader_after { reader.new ≡ flat_step step }
{
    let words = step.said;
    let said = said_numbers(words);
    let mut put = Put { out: reader, at: 0 };
    put_step(&mut put, step);
    said.refusal
}

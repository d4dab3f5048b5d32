// A reader of the library's, or one of the archive's (crate abi), which is bytes: both are asked alike.
use abi::READER_SIZE;
use binlog_reader::{Answer, Reader, Said, Told};
use probe_binlog_line::{ALREADY_THERE, ENDED, Heard, JOINED, MORE_WANTED, NO_ID, TAKEN};
use probe_lines::parts::{byte_at, u64_at};
use set_check::LONGEST_SET;

// Which of the two is asked.
#[derive(Clone, Copy)]
enum Kept {
    Library(Reader),
    Archive([u8; READER_SIZE]),
}

// The reader, and what it said last.
#[derive(Clone, Copy)]
pub(crate) struct Asked {
    kept: Kept,
    pub(crate) heard: Heard,
}

fn kind_of(told: Told) -> u8 {
    match told {
        Told::Taken => TAKEN,
        Told::AlreadyThere => ALREADY_THERE,
        Told::NoId => NO_ID,
        Told::Joined => JOINED,
    }
}

// What the library says, as the archive's numbers: the refusal, the kind, the event's type and a length.
fn numbers_of(said: Said) -> (u8, u8, u8, usize) {
    match said {
        Said::MoreWanted => (0, MORE_WANTED, 0, 0),
        Said::Ended => (0, ENDED, 0, 0),
        Said::Event(told, event_type, len) => (0, kind_of(told), event_type, len),
        Said::Refused(refusal, len) => (refusal, 0, 0, len),
    }
}

fn by_library(step: Answer) -> Asked {
    let (refusal, kind, event_type, len) = numbers_of(step.said);
    Asked {
        kept: Kept::Library(step.reader),
        heard: Heard {
            refusal,
            kind,
            event_type,
            len,
            used: step.used,
            set_len: step.reader.len,
        },
    }
}

fn by_archive(bytes: [u8; READER_SIZE], refusal: u8) -> Asked {
    let heard = Heard {
        refusal,
        kind: byte_at(&bytes, 3),
        event_type: byte_at(&bytes, 4),
        len: u64_at(&bytes, 40) as usize,
        used: u64_at(&bytes, 32) as usize,
        set_len: u64_at(&bytes, 24) as usize,
    };
    Asked {
        kept: Kept::Archive(bytes),
        heard,
    }
}

pub(crate) fn begin(archive: bool, set: &[u8], checksums: bool) -> Asked {
    if archive {
        let mut bytes = [0u8; READER_SIZE];
        let refusal = abi::gtid_binlog_begin(set, checksums as u8, &mut bytes);
        return by_archive(bytes, refusal);
    }
    by_library(binlog_reader::begin(set, checksums))
}

// Feeds a chunk. Nothing is kept in the spare bytes from one call to the next, so each has its own.
pub(crate) fn feed(asked: Asked, chunk: &[u8], work: &mut [u8], set: &mut [u8]) -> Asked {
    let mut spare = [0u8; LONGEST_SET];
    match asked.kept {
        Kept::Library(reader) => {
            by_library(binlog_reader::step(reader, chunk, work, set, &mut spare))
        }
        Kept::Archive(mut bytes) => {
            let refusal = abi::gtid_binlog_step(&mut bytes, chunk, work, set, &mut spare);
            by_archive(bytes, refusal)
        }
    }
}

pub(crate) fn end(asked: Asked) -> Asked {
    match asked.kept {
        Kept::Library(reader) => by_library(binlog_reader::end(reader)),
        Kept::Archive(mut bytes) => {
            let refusal = abi::gtid_binlog_end(&mut bytes);
            by_archive(bytes, refusal)
        }
    }
}

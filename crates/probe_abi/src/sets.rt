// The archive's functions over one set.
use misc::refusal::WriteError;
use probe_lines::beside::{UNSET, differs, number_of};
use probe_lines::checks::MARK;
use resume_set::Offered;

// What the archive should say of an offer: its kind, 0 refused, 1 taken, 2 already there, 3 no id; and the length of the set.
fn numbers_of(said: Result<Offered, WriteError>) -> (u8, Result<usize, WriteError>) {
    match said {
        Ok(Offered::Taken(len)) => (1, Ok(len)),
        Ok(Offered::AlreadyThere(len)) => (2, Ok(len)),
        Ok(Offered::NoId(len)) => (3, Ok(len)),
        Err(error) => (0, Err(error)),
    }
}

pub(crate) fn offer(
    set: &[u8],
    event_type: u8,
    body: &[u8],
    out: &mut [u8],
    twin: &mut [u8],
) -> bool {
    let (wanted, wrote) = numbers_of(resume_set::offer(set, event_type, body, out));
    let mut kind: u8 = MARK;
    let mut len = UNSET;
    let refusal = abi::gtid_offer(set, event_type, body, twin, &mut kind, &mut len);
    (wanted != kind) | differs(wrote, refusal, len, out, twin)
}

pub(crate) fn check_set(set: &[u8]) -> bool {
    let said = resume_set::check_set(set);
    let mut entries = UNSET as u64;
    let mut intervals = UNSET as u64;
    let refusal = abi::gtid_check_set(set, &mut entries, &mut intervals);
    let wanted = match said {
        Ok(read) => (read.entries, read.intervals),
        Err(_) => (0, 0),
    };
    (number_of(said) != refusal) | (wanted != (entries, intervals))
}

pub(crate) fn contains(set: &[u8], uuid: &[u8], tag: &[u8], gno: u64) -> bool {
    let said = set_join::contains(set, uuid, tag, gno);
    let mut present: u8 = MARK;
    let refusal = abi::gtid_contains(set, uuid, tag, gno, &mut present);
    (number_of(said) != refusal) | ((said == Ok(true)) as u8 != present)
}

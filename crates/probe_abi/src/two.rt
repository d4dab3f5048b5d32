// The archive's functions that tell how two sets lie.
use probe_lines::beside::number_of;
use probe_lines::checks::MARK;
use two_sets::{Choice, which};

pub(crate) fn within(first: &[u8], second: &[u8]) -> bool {
    let said = two_sets::within(first, second);
    let mut all: u8 = MARK;
    let refusal = abi::gtid_within(first, second, &mut all);
    (number_of(said) != refusal) | ((said == Ok(true)) as u8 != all)
}

pub(crate) fn head(first: &[u8], second: &[u8]) -> bool {
    let said = which(first, second);
    let mut head: u8 = MARK;
    let refusal = abi::gtid_head(first, second, &mut head);
    let wanted = match said {
        Ok(Choice::First) => 1,
        Ok(Choice::Second) => 2,
        Err(_) => 0,
    };
    (number_of(said) != refusal) | (head != wanted)
}

// What the program itself sees to: that a call writes nothing of its output but the answer's bytes. The output is filled
// with a mark before the call.
use crate::parts::from_on;

pub const MARK: u8 = 0xa5;

pub fn fill(out: &mut [u8]) {
    out.fill(MARK);
}

// Whether a byte from `from` on isn't the mark.
pub fn dirty(out: &[u8], from: usize) -> bool {
    from_on(out, from).iter().any(|b| *b != MARK)
}

// Whether `rest` has just the bytes of `whole` from `from` on.
pub fn is_suffix(whole: &[u8], from: usize, rest: &[u8]) -> bool {
    (from <= whole.len()) & (from_on(whole, from) == rest)
}

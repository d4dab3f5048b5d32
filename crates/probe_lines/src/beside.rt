// The archive's answers beside the library's. Every number that the archive hands out is the mark's before, or this one.
use misc::refusal::{Refusal, WriteError};

pub const UNSET: usize = 0xa5a5_a5a5;

// The number that the archive should give for an answer: that of its refusal, 0 for none.
pub fn number_of<T: Copy>(said: Result<T, Refusal>) -> u8 {
    match said {
        Ok(_) => 0,
        Err(refusal) => refusal.number(),
    }
}

// Whether the archive's answer, a refusal's number and a length, or its output is another than the library's.
pub fn differs(
    wrote: Result<usize, WriteError>,
    refusal: u8,
    len: usize,
    out: &[u8],
    twin: &[u8],
) -> bool {
    let wanted = match wrote {
        Ok(written) => (0, written),
        Err(error) => (error.number(), error.needed()),
    };
    (wanted != (refusal, len)) | (out != twin)
}

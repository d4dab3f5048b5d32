// Plain bytes: how many are left from a place on, and copies of them.
ghost use Rattle.std.specs.Prelude.{◌≡◌, ◌-◌, ◌≤◌, min, length};
ghost use Rattle.misc.specs.Output.{bytes, output_of, answer_of, written};

use crate::refusal::WriteError;

// The smaller of two lengths: `min`, with what slices want to know of it.
pub fn smaller(a: usize, b: usize) -> usize
    ensures { (result ≡ min a b) × (result ≤ a) × (result ≤ b) }
{
    a.min(b)
}

// How many bytes stand from `at` on: none where that is past the end.
pub fn left_at(s: &[u8], at: usize) -> usize
    ensures { result ≡ length s.now - at }
{
    s.len().saturating_sub(at)
}

// Copies `source` to the front of `out`. (Not by the library's `copy_from_slice`: of a length that isn't known that is a call of `memmove`, a
// name that the archive would ask its linker for.)
fn copy(source: &[u8], out: &mut [u8])
    requires { length source.now ≤ length out.old }
    ensures { out.new ≡ written out.old 0 source.now }
{
    for i in 0..source.len() {
        out[i] = source[i];
    }
}

// Writes all of `source`.
pub fn write_bytes(source: &[u8], out: &mut [u8]) -> Result<usize, WriteError>
    ensures value { result ≡ answer_of out.old (bytes source.now) }
    ensures out_after { out.new ≡ output_of out.old (bytes source.now) }
{
    let len = source.len();
    if out.len() < len {
        return Err(WriteError::NoRoom(len));
    }
    copy(source, out);
    Ok(len)
}

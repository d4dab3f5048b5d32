// Variable-length integers: the lowest bits of the first byte say how many bytes follow it.
ghost use Rattle.std.specs.Prelude.{◌≡◌, ◌≤◌, length};
ghost use Rattle.misc.specs.Parse.{read_of};
ghost use Rattle.misc.specs.Output.{bytes, output_of, answer_of};
ghost use Rattle.misc.specs.Varlen.{trailing_ones, varlen_at, varlen_bytes};

use crate::refusal::{Refusal, WriteError};
use crate::{Read, le};

fn trailing_ones(b: u8) -> usize
    ensures { (result ≡ trailing_ones 8 b) × (result ≤ 8) }
{
    u8::trailing_zeros(!b) as usize
}

pub fn read_varlen_uint(s: &[u8], at: usize) -> Result<Read<u64>, Refusal>
    ensures { result ≡ read_of (varlen_at s.now at) }
{
    if s.len() <= at {
        return Err(Refusal::Ended);
    }
    let first = s[at];
    // No trailing one: the first byte is the whole item.
    if first % 2 == 0 {
        return Ok(Read {
            value: u64::from(first >> 1),
            next: at + 1,
        });
    }
    let ones = trailing_ones(first);
    if ones == 8 {
        return le::read_u64_le(s, at + 1);
    }
    let num_bytes = ones + 1;
    if s.len() - at < num_bytes {
        return Err(Refusal::Ended);
    }
    let le_val = le::gather_at_once(s, at, num_bytes);
    Ok(Read {
        value: le_val >> num_bytes,
        next: at + num_bytes,
    })
}

// How many bytes the shortest form of `value` has.
pub fn varlen_uint_size(value: u64) -> usize
    ensures { (result ≡ length (varlen_bytes value)) × (result ≤ 9) }
{
    for n in 1..9 {
        if value >> (7 * n) == 0 {
            return n;
        }
    }
    9
}

// Writes the shortest form.
pub fn write_varlen_uint(value: u64, out: &mut [u8]) -> Result<usize, WriteError>
    ensures value { result ≡ answer_of out.old (bytes (varlen_bytes value)) }
    ensures out_after { out.new ≡ output_of out.old (bytes (varlen_bytes value)) }
{
    let num_bytes = varlen_uint_size(value);
    if out.len() < num_bytes {
        return Err(WriteError::NoRoom(num_bytes));
    }
    if num_bytes == 9 {
        out[0] = 0xff;
        le::scatter(value, out, 1, 8);
        return Ok(9);
    }
    let shifted = value << num_bytes;
    let trailer = (1u64 << (num_bytes - 1)) - 1;
    le::scatter(shifted | trailer, out, 0, num_bytes);
    Ok(num_bytes)
}

// Length-encoded integers.
ghost use Rattle.std.specs.Prelude.{◌≡◌, ◌+◌, ◌≤◌, ◌∷◌, length};
ghost use Rattle.misc.specs.Parse.{read_of};
ghost use Rattle.misc.specs.Output.{bytes, output_of, answer_of};
ghost use Rattle.misc.specs.Le.{le_bytes};
ghost use Rattle.misc.specs.Lenenc.{lenenc_at, lenenc_bytes};

use crate::refusal::{Refusal, WriteError};
use crate::{Read, le};

pub fn read_lenenc_int(s: &[u8], at: usize) -> Result<Read<u64>, Refusal>
    ensures { result ≡ read_of (lenenc_at s.now at) }
{
    if s.len() <= at {
        return Err(Refusal::Ended);
    }
    match s[at] {
        0xfb | 0xff => Err(Refusal::BadLead),
        0xfc => le::read_le(s, at + 1, 2),
        0xfd => le::read_le(s, at + 1, 3),
        0xfe => le::read_le(s, at + 1, 8),
        lead => Ok(Read {
            value: u64::from(lead),
            next: at + 1,
        }),
    }
}

// How many bytes the shortest form of `x` has.
pub fn lenenc_int_len(x: u64) -> usize
    ensures { (result ≡ length (lenenc_bytes x)) × (result ≤ 9) }
{
    match x {
        0..=250 => 1,
        251..=0xffff => 3,
        0x1_0000..=0xff_ffff => 4,
        _ => 9,
    }
}

// Writes a lead byte and the `n` low bytes of `value`.
fn write_led(lead: u8, value: u64, out: &mut [u8], n: usize) -> Result<usize, WriteError>
    requires { n ≤ 8 }
    ensures value { result ≡ answer_of out.old (bytes (lead ∷ le_bytes n value)) }
    ensures out_after { out.new ≡ output_of out.old (bytes (lead ∷ le_bytes n value)) }
{
    let needed = n + 1;
    if out.len() < needed {
        return Err(WriteError::NoRoom(needed));
    }
    out[0] = lead;
    le::scatter(value, out, 1, n);
    Ok(needed)
}

// Writes the shortest form.
pub fn write_lenenc_int(value: u64, out: &mut [u8]) -> Result<usize, WriteError>
    ensures value { result ≡ answer_of out.old (bytes (lenenc_bytes value)) }
    ensures out_after { out.new ≡ output_of out.old (bytes (lenenc_bytes value)) }
{
    match value {
        0..=250 => write_led(value as u8, 0, out, 0),
        251..=0xffff => write_led(0xfc, value, out, 2),
        0x1_0000..=0xff_ffff => write_led(0xfd, value, out, 3),
        _ => write_led(0xfe, value, out, 8),
    }
}

// Signed variable-length integers: v at or above 0 is sent as 2v, otherwise as 2(-(v+1))+1.
ghost use Rattle.std.specs.Prelude.{◌≡◌};
ghost use Rattle.misc.specs.Parse.{read_of};
ghost use Rattle.misc.specs.Output.{bytes, output_of, answer_of};
ghost use Rattle.misc.specs.Varlen.{varlen_bytes};
ghost use Rattle.misc.specs.Signed.{sent_as, meant_by, signed_at, natural_at};

use crate::refusal::{Refusal, WriteError};
use crate::{Read, varlen};

fn meant_by(sent: u64) -> i64
    ensures { result ≡ meant_by sent }
{
    let half = (sent >> 1) as i64;
    if sent % 2 == 0 {
        return half;
    }
    -1 - half
}

fn sent_as(value: i64) -> u64
    ensures { result ≡ sent_as value }
{
    if value < 0 {
        return ((-1 - value) as u64) * 2 + 1;
    }
    (value as u64) * 2
}

pub fn read_varlen_int(s: &[u8], at: usize) -> Result<Read<i64>, Refusal>
    ensures { result ≡ read_of (signed_at s.now at) }
{
    let sent = varlen::read_varlen_uint(s, at)?;
    Ok(Read {
        value: meant_by(sent.value),
        next: sent.next,
    })
}

// Reads a number that is sent as a signed one and may not be negative: refusal 3 where it is.
pub fn read_varlen_natural(s: &[u8], at: usize) -> Result<Read<u64>, Refusal>
    ensures { result ≡ read_of (natural_at s.now at) }
{
    let sent = varlen::read_varlen_uint(s, at)?;
    if sent.value % 2 == 0 {
        return Ok(Read {
            value: sent.value / 2,
            next: sent.next,
        });
    }
    Err(Refusal::Negative)
}

pub fn write_varlen_int(value: i64, out: &mut [u8]) -> Result<usize, WriteError>
    ensures value { result ≡ answer_of out.old (bytes (varlen_bytes (sent_as value))) }
    ensures out_after { out.new ≡ output_of out.old (bytes (varlen_bytes (sent_as value))) }
{
    varlen::write_varlen_uint(sent_as(value), out)
}

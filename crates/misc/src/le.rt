// Little-endian integers of a fixed width: 4, 7 and 8 bytes.
ghost use Rattle.std.specs.Prelude.{◌≡◌, ◌+◌, ◌≤◌, ◌<◌, ◌^◌, length, IfOk};
ghost use Rattle.misc.specs.Parse.{part, read_of};
ghost use Rattle.misc.specs.Le.{le_of, le_bytes, le_at, number_at};
ghost use Rattle.misc.specs.Output.{bytes, output_of, answer_of, written};

use crate::Read;
use crate::bytes::left_at;
use crate::refusal::{Refusal, WriteError};

// The number that the `n` bytes from `at` on spell.
fn gather(s: &[u8], at: usize, n: usize) -> u64
    requires { (n ≤ 8) × (at + n ≤ length s.now) }
    ensures { (result ≡ le_of (part s.now at n)) × (result < 256 ^ n) }
{
    let mut value: u64 = 0;
    let mut scale: u64 = 1;
    for i in 0..n {
        value = value | (u64::from(s[at + i]) * scale);
        scale = scale << 8;
    }
    value
}

// Eight bytes. As a function of its own it becomes one load, before the compiler sees that one of them was loaded already, or is
// shifted out.
fn gather_eight(s: &[u8], at: usize) -> u64
    requires { at + 8 ≤ length s.now }
    ensures { result ≡ le_of (part s.now at 8) }
{
    gather(s, at, 8)
}

// As `gather`, for a width that the machine has no load for, or that isn't known beforehand: where eight bytes are there, all
// are loaded at once, and those above the first `n` are shifted out.
pub(crate) fn gather_at_once(s: &[u8], at: usize, n: usize) -> u64
    requires { (1 ≤ n) × (n ≤ 8) × (at + n ≤ length s.now) }
    ensures { (result ≡ le_of (part s.now at n)) × (result < 256 ^ n) }
{
    if s.len() - at < 8 {
        return gather(s, at, n);
    }
    let above = 64 - 8 * n;
    (gather_eight(s, at) << above) >> above
}

// Puts the `n` low bytes of `value` from `at` on.
pub(crate) fn scatter(value: u64, out: &mut [u8], at: usize, n: usize)
    requires { at + n ≤ length out.old }
    ensures { out.new ≡ written out.old at (le_bytes n value) }
{
    let mut rest = value;
    for i in 0..n {
        out[at + i] = (rest % 256) as u8;
        rest = rest >> 8;
    }
}

// Reads `n` bytes, at most eight.
pub(crate) fn read_le(s: &[u8], at: usize, n: usize) -> Result<Read<u64>, Refusal>
    requires { n ≤ 8 }
    ensures value { result ≡ read_of (le_at n s.now at) }
    ensures bound { IfOk result (λ read. read.value < 256 ^ n) }
{
    if s.len() < at {
        return Err(Refusal::Ended);
    }
    if s.len() - at < n {
        return Err(Refusal::Ended);
    }
    Ok(Read {
        value: gather(s, at, n),
        next: at + n,
    })
}

// The public readers and writers are a line each over one of any width: the width is in the name, and a reader of any width would ask its caller
// for at most eight bytes.
pub fn read_u32_le(s: &[u8], at: usize) -> Result<Read<u64>, Refusal>
    ensures value { result ≡ read_of (le_at 4 s.now at) }
    ensures bound { IfOk result (λ read. read.value < 2 ^ 32) }
{
    read_le(s, at, 4)
}

pub fn read_u56_le(s: &[u8], at: usize) -> Result<Read<u64>, Refusal>
    ensures value { result ≡ read_of (le_at 7 s.now at) }
    ensures bound { IfOk result (λ read. read.value < 2 ^ 56) }
{
    if left_at(s, at) < 7 {
        return Err(Refusal::Ended);
    }
    Ok(Read {
        value: gather_at_once(s, at, 7),
        next: at + 7,
    })
}

pub fn read_u64_le(s: &[u8], at: usize) -> Result<Read<u64>, Refusal>
    ensures { result ≡ read_of (le_at 8 s.now at) }
{
    read_le(s, at, 8)
}

// The number in the eight bytes from `at` on, 0 where they aren't all there.
pub fn number_at(s: &[u8], at: usize) -> u64
    ensures { result ≡ number_at s.now at }
{
    match read_u64_le(s, at) {
        Ok(read) => read.value,
        Err(_) => 0,
    }
}

// Writes the `n` low bytes of `value`.
pub(crate) fn write_le(value: u64, out: &mut [u8], n: usize) -> Result<usize, WriteError>
    ensures value { result ≡ answer_of out.old (bytes (le_bytes n value)) }
    ensures out_after { out.new ≡ output_of out.old (bytes (le_bytes n value)) }
{
    if out.len() < n {
        return Err(WriteError::NoRoom(n));
    }
    scatter(value, out, 0, n);
    Ok(n)
}

pub fn write_u32_le(value: u32, out: &mut [u8]) -> Result<usize, WriteError>
    ensures value { result ≡ answer_of out.old (bytes (le_bytes 4 value)) }
    ensures out_after { out.new ≡ output_of out.old (bytes (le_bytes 4 value)) }
{
    write_le(u64::from(value), out, 4)
}

// The seven low bytes: the highest byte of `value` is left out, whatever it is.
pub fn write_u56_le(value: u64, out: &mut [u8]) -> Result<usize, WriteError>
    ensures value { result ≡ answer_of out.old (bytes (le_bytes 7 value)) }
    ensures out_after { out.new ≡ output_of out.old (bytes (le_bytes 7 value)) }
{
    write_le(value, out, 7)
}

pub fn write_u64_le(value: u64, out: &mut [u8]) -> Result<usize, WriteError>
    ensures value { result ≡ answer_of out.old (bytes (le_bytes 8 value)) }
    ensures out_after { out.new ≡ output_of out.old (bytes (le_bytes 8 value)) }
{
    write_le(value, out, 8)
}

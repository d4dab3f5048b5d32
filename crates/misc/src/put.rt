// Putting bytes at a place of an output: where there is room for all of them they are put there, and the place moves on behind them; where
// there isn't, nothing is written, and the place stays. `Put` is an output with its place; the functions above it return the place behind.
ghost use Rattle.std.specs.Prelude.{◌≡◌, [], ◌∷◌, ◌++◌, ◌+◌, ◌^◌, ◌<◌, ◌-◌, length, IfOk};
ghost use Rattle.misc.specs.Le.{le_bytes};
ghost use Rattle.misc.specs.Lenenc.{lenenc_bytes};
ghost use Rattle.misc.specs.Varlen.{varlen_bytes};
ghost use Rattle.misc.specs.Output.{behind, put_at, put_end};
ghost use Rattle.misc.specs.Put.{Puts};

use crate::bytes::{left_at, write_bytes};
use crate::le::write_le;
use crate::lenenc::write_lenenc_int;
use crate::refusal::WriteError;
use crate::varlen::{varlen_uint_size, write_varlen_uint};

// The place behind what a writer wrote at a place, by its answer.
fn place_behind(wrote: Result<usize, WriteError>, at: usize) -> usize
    requires { IfOk wrote (λ len. at + len < 2 ^ 64) }
    ensures { result ≡ behind wrote at }
{
    match wrote {
        Ok(len) => at + len,
        Err(_) => at,
    }
}

pub fn put_byte(b: u8, out: &mut [u8], at: usize) -> usize
    ensures value { result ≡ put_end out.old at (b ∷ []) }
    ensures out_after { out.new ≡ put_at out.old at (b ∷ []) }
{
    if out.len() <= at {
        return at;
    }
    out[at] = b;
    at + 1
}

pub fn put_bytes(source: &[u8], out: &mut [u8], at: usize) -> usize
    ensures value { result ≡ put_end out.old at source.now }
    ensures out_after { out.new ≡ put_at out.old at source.now }
{
    if out.len() < at {
        return at;
    }
    let wrote = write_bytes(source, &mut out[at..]);
    place_behind(wrote, at)
}

// Puts the `n` low bytes of `value`.
fn put_le(value: u64, n: usize, out: &mut [u8], at: usize) -> usize
    ensures value { result ≡ put_end out.old at (le_bytes n value) }
    ensures out_after { out.new ≡ put_at out.old at (le_bytes n value) }
{
    if out.len() < at {
        return at;
    }
    let wrote = write_le(value, &mut out[at..], n);
    place_behind(wrote, at)
}

pub fn put_u32_le(value: u32, out: &mut [u8], at: usize) -> usize
    ensures value { result ≡ put_end out.old at (le_bytes 4 value) }
    ensures out_after { out.new ≡ put_at out.old at (le_bytes 4 value) }
{
    put_le(u64::from(value), 4, out, at)
}

// The seven low bytes: the highest byte of `value` is left out, whatever it is.
pub fn put_u56_le(value: u64, out: &mut [u8], at: usize) -> usize
    ensures value { result ≡ put_end out.old at (le_bytes 7 value) }
    ensures out_after { out.new ≡ put_at out.old at (le_bytes 7 value) }
{
    put_le(value, 7, out, at)
}

pub fn put_u64_le(value: u64, out: &mut [u8], at: usize) -> usize
    ensures value { result ≡ put_end out.old at (le_bytes 8 value) }
    ensures out_after { out.new ≡ put_at out.old at (le_bytes 8 value) }
{
    put_le(value, 8, out, at)
}

pub fn put_lenenc_int(value: u64, out: &mut [u8], at: usize) -> usize
    ensures value { result ≡ put_end out.old at (lenenc_bytes value) }
    ensures out_after { out.new ≡ put_at out.old at (lenenc_bytes value) }
{
    if out.len() < at {
        return at;
    }
    let wrote = write_lenenc_int(value, &mut out[at..]);
    place_behind(wrote, at)
}

pub fn put_varlen_uint(value: u64, out: &mut [u8], at: usize) -> usize
    ensures value { result ≡ put_end out.old at (varlen_bytes value) }
    ensures out_after { out.new ≡ put_at out.old at (varlen_bytes value) }
{
    if out.len() < at {
        return at;
    }
    let wrote = write_varlen_uint(value, &mut out[at..]);
    place_behind(wrote, at)
}

// Bytes behind their number, which is a variable-length integer.
pub fn put_sized(source: &[u8], out: &mut [u8], at: usize) -> usize
    ensures value { result ≡ put_end out.old at (varlen_bytes (length source.now) ++ source.now) }
    ensures out_after { out.new ≡ put_at out.old at (varlen_bytes (length source.now) ++ source.now) }
{
    let len = source.len();
    let size = varlen_uint_size(len as u64);
    let room = left_at(out, at);
    if room < size {
        return at;
    }
    if room - size < len {
        return at;
    }
    let from = put_varlen_uint(len as u64, out, at);
    put_bytes(source, out, from)
}

// A place of an output, which moves on behind what is put there.
#[derive(Drop)]
pub struct Put<'a> {
    pub out: &'a mut [u8],
    pub at: usize,
}

impl Put<'_> {
    // How many bytes have room.
    pub fn left(&self) -> usize
        ensures { result ≡ length self.now.out.now - self.now.at }
    {
        left_at(self.out, self.at)
    }

    pub fn byte(&mut self, b: u8)
        ensures { Puts self.old (b ∷ []) self.new }
    {
        self.at = put_byte(b, self.out, self.at);
    }

    pub fn bytes(&mut self, source: &[u8])
        ensures { Puts self.old source.now self.new }
    {
        self.at = put_bytes(source, self.out, self.at);
    }

    pub fn u32_le(&mut self, value: u32)
        ensures { Puts self.old (le_bytes 4 value) self.new }
    {
        self.at = put_u32_le(value, self.out, self.at);
    }

    pub fn u56_le(&mut self, value: u64)
        ensures { Puts self.old (le_bytes 7 value) self.new }
    {
        self.at = put_u56_le(value, self.out, self.at);
    }

    pub fn u64_le(&mut self, value: u64)
        ensures { Puts self.old (le_bytes 8 value) self.new }
    {
        self.at = put_u64_le(value, self.out, self.at);
    }

    pub fn lenenc_int(&mut self, value: u64)
        ensures { Puts self.old (lenenc_bytes value) self.new }
    {
        self.at = put_lenenc_int(value, self.out, self.at);
    }

    pub fn varlen_uint(&mut self, value: u64)
        ensures { Puts self.old (varlen_bytes value) self.new }
    {
        self.at = put_varlen_uint(value, self.out, self.at);
    }

    // Bytes behind their number, which is a variable-length integer.
    pub fn sized(&mut self, source: &[u8])
        ensures { Puts self.old (varlen_bytes (length source.now) ++ source.now) self.new }
    {
        self.at = put_sized(source, self.out, self.at);
    }
}

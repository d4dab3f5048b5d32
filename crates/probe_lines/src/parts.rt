// Numbers and parts of a request's bytes. Past the end there are zeros, and nothing.
ghost use Rattle.std.specs.Prelude.{◌-◌, ◌≡◌};

pub fn byte_at(s: &[u8], at: usize) -> u8 {
    s.get(at).copied().unwrap_or(0)
}

pub fn u32_at(s: &[u8], at: usize) -> u32 {
    match misc::le::read_u32_le(s, at) {
        Ok(read) => read.value as u32,
        Err(_) => 0,
    }
}

pub fn u64_at(s: &[u8], at: usize) -> u64 {
    misc::le::number_at(s, at)
}

// The bytes from a place on.
pub fn from_on(s: &[u8], at: usize) -> &[u8] {
    s.get(at..).unwrap_or(&[])
}

// So many bytes of the front, or all where there are fewer.
pub fn front(s: &[u8], len: usize) -> &[u8] {
    s.get(..len).unwrap_or(s)
}

// Where a part of so many bytes ends; at the end of the whole if that comes first.
pub fn part_end(at: usize, len: usize, whole: usize) -> usize
    ensures { result ≡ whole - (whole - at - len) }
{
    if whole < at {
        return whole;
    }
    if whole - at < len {
        return whole;
    }
    at + len
}

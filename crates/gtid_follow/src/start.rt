// What stands before the file: whether checksums end its events, and the set to start from.
ghost use Rattle.std.specs.Prelude.{◌≤◌, length, IfSome};

// The set's length, and whether events end with a checksum.
#[derive(Clone, Copy, Default)]
pub(crate) struct Start {
    pub(crate) checksums: bool,
    pub(crate) len: usize,
}

// Reads a byte, the set's length in four bytes, and the set, to the front of `set`. Nothing is begun with where it doesn't fit or doesn't
// come whole.
pub(crate) fn read_start(set: &mut [u8]) -> Option<Start>
    ensures { IfSome result (λ start. start.len ≤ length set.old) }
{
    let mut head = [0u8; 5];
    if io::read_full(0, &mut head) < 5 {
        return None;
    }
    let len = u32::from_le_bytes([head[1], head[2], head[3], head[4]]) as usize;
    if set.len() < len {
        return None;
    }
    if io::read_full(0, &mut set[..len]) < len {
        return None;
    }
    Some(Start {
        checksums: head[0] == 1,
        len,
    })
}

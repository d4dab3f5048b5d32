// Integers of the MySQL wire formats: fixed little-endian, variable-length (the server's serialization library) and
// length-encoded (the protocol). Readers take a slice and a place, wherever that is (two plain parameters: their promise is an equation over both,
// for any place), and answer what they read or a `Refusal`; writers write at the front of the output that they are lent, and answer how many bytes
// they wrote or a `WriteError`; `put` puts at a place of an output.
#![tactic(auto)]

pub mod bytes;
pub mod le;
pub mod lenenc;
pub mod mark;
pub mod put;
pub mod refusal;
pub mod signed;
pub mod varlen;

// The longest body that the calls over bodies take.
pub const MAX_BODY: usize = 65_536;

// The bytes of a uuid, and those of an interval: its start and its end.
pub const UUID_LEN: usize = 16;

pub const INTERVAL_LEN: usize = 16;

// What reading an item finds: its value and the place after it.
#[derive(Clone, Copy)]
pub struct Read<T> {
    pub value: T,
    pub next: usize,
}

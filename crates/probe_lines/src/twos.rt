// Signed numbers of 64 bits and unsigned ones.

// The number whose two's complement is `n`.
pub fn from_bits(n: u64) -> i64 {
    n.cast_signed()
}

// The number without its sign.
pub fn magnitude(v: i64) -> u64 {
    v.unsigned_abs()
}

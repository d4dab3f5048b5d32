// Numbers and bytes as text.
ghost use Rattle.std.specs.Prelude.{◌≡◌, ◌≤◌, length};
ghost use Rattle.misc.specs.Put.{Puts};
ghost use Rattle.text.specs.Digits.{decimal, hex};

use itoa::Buffer;
use misc::put::Put;

// How many decimal digits a number has.
pub fn decimal_len(n: u64) -> usize
    ensures { (result ≡ length (decimal n)) × (result ≤ 20) }
{
    n.max(1).ilog10() as usize + 1
}

// Puts the decimal digits of a number. (Of one below ten without the library's buffer, which costs more than the digit.)
pub fn put_decimal(put: &mut Put<'_>, n: u64)
    ensures { Puts put.old (decimal n) put.new }
{
    if n < 10 {
        return put.byte(b'0' + n as u8);
    }
    let mut buffer = Buffer::new();
    put.bytes(buffer.format(n).as_bytes());
}

// Puts two hexadecimal digits for each byte.
pub fn put_hex(put: &mut Put<'_>, source: &[u8])
    ensures { Puts put.old (hex source.now) put.new }
{
    if source.is_empty() || put.left() / 2 < source.len() {
        return;
    }
    let end = put.at + 2 * source.len();
    hex::encode_to_slice(source, &mut put.out[put.at..end]).unwrap();
    put.at = end;
}

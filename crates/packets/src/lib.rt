// The rules of packets::{Tag, GnoInterval}: which bytes are a tag, which numbers are a gno and an interval of them; and the order
// of keys, a key being the 16 bytes of a uuid followed by those of a tag, if there is one.
#![tactic(auto)]

ghost use Rattle.std.specs.Prelude.{◌≡◌, ◌+◌, ◌≤◌, min, length, drop};
ghost use Rattle.packets.specs.Tag.{is_tag_byte, all_tag_bytes, is_tag, none_or_tag};
ghost use Rattle.packets.specs.Gno.{is_gno, interval, is_interval};
ghost use Rattle.packets.specs.Key.{order, or_else, order_read};
ghost use Rattle.packets.specs.Word.{big_endian};
ghost use Rattle.misc.specs.Parse.{part};
ghost use Rattle.packets.specs.Kept.{kept};

use misc::UUID_LEN;
use misc::bytes::write_bytes;
use std::cmp::Ordering;

// A tag has so many bytes at most.
pub const MAX_TAG: usize = 32;

// The first number that is too great for a gno; an interval ends there at the latest.
const GNO_TOP: u64 = 0x7FFF_FFFF_FFFF_FFFF;

fn is_tag_byte(b: u8) -> bool
    ensures { result ≡ is_tag_byte b }
{
    matches!(b, b'a'..=b'z' | b'0'..=b'9' | b'_')
}

fn all_tag_bytes(tag: &[u8]) -> bool
    ensures { result ≡ all_tag_bytes tag.now }
{
    tag.iter().all(|b| is_tag_byte(*b))
}

// Whether the bytes are a tag: 1 to 32 of them, a to z, 0 to 9 or an underscore, and no digit first. Upper case is refused.
pub fn is_tag(tag: &[u8]) -> bool
    ensures { result ≡ is_tag tag.now }
{
    match tag {
        [] => false,
        [first, ..] => tag.len() <= MAX_TAG && !first.is_ascii_digit() && all_tag_bytes(tag),
    }
}

// No tag, or one that obeys the tag rule.
pub fn none_or_tag(tag: &[u8]) -> bool
    ensures { result ≡ none_or_tag tag.now }
{
    tag.is_empty() || is_tag(tag)
}

// Whether a number may be a gno.
pub fn is_gno(gno: u64) -> bool
    ensures { result ≡ is_gno gno }
{
    (1 <= gno) & (gno < GNO_TOP)
}

// Whether the numbers from `start` up to, and without, `end` are an interval of gnos.
pub fn is_interval(start: u64, end: u64) -> bool
    ensures { result ≡ is_interval (interval start end) }
{
    (1 <= start) & (start < end) & (end <= GNO_TOP)
}

// The number that the eight bytes from `at` on spell, the first the highest: in machine code one load and a swap of its bytes.
fn word_at(s: &[u8], at: usize) -> u64
    requires { at + 8 ≤ length s.now }
    ensures { result ≡ big_endian (part s.now at 8) }
{
    let mut word: u64 = 0;
    for i in 0..8 {
        word = word * 256 + u64::from(s[at + i]);
    }
    word
}

// The order of what stands from a place on that both reach, byte by byte.
fn order_from(a: &[u8], b: &[u8], from: usize) -> Ordering
    requires { from ≤ min (length a.now) (length b.now) }
    ensures { result ≡ order_read (order (drop from a.now) (drop from b.now)) }
{
    for i in from..a.len().min(b.len()) {
        let found = a[i].cmp(&b[i]);
        if found.is_ne() {
            return found;
        }
    }
    a.len().cmp(&b.len())
}

// The order of keys: bytewise, a prefix first. Eight bytes are compared at once, where both have them (the library's `cmp` goes over the
// eight that differ once more, one by one, and keys differ late).
pub fn key_order(a: &[u8], b: &[u8]) -> Ordering
    ensures { result ≡ order_read (order a.now b.now) }
{
    let words = a.len().min(b.len()) / 8;
    for i in 0..words {
        let found = word_at(a, 8 * i).cmp(&word_at(b, 8 * i));
        if found.is_ne() {
            return found;
        }
    }
    order_from(a, b, 8 * words)
}

// The order of two keys, each a uuid and a tag: by uuid, then by tag.
pub fn parts_order(uuid: &[u8], tag: &[u8], other_uuid: &[u8], other_tag: &[u8]) -> Ordering
    ensures { result ≡ order_read (or_else (order uuid.now other_uuid.now)
        (order tag.now other_tag.now)) }
{
    key_order(uuid, other_uuid).then_with(|| key_order(tag, other_tag))
}

// The first bytes as a field of a record keeps them, zeros where there are fewer.
fn kept<const N: usize>(bytes: &[u8]) -> [u8; N]
    ensures { result ≡ kept N bytes.now }
{
    let mut field = [0; N];
    let len = bytes.len().min(N);
    let _ = write_bytes(&bytes[..len], &mut field);
    field
}

// A uuid as records keep it: the first 16 bytes, zeros where there are fewer.
pub fn uuid_bytes(uuid: &[u8]) -> [u8; UUID_LEN]
    ensures { result ≡ kept 16 uuid.now }
{
    kept(uuid)
}

// A tag as records keep it: the first 32 bytes, and zeros after them.
pub fn tag_bytes(tag: &[u8]) -> [u8; MAX_TAG]
    ensures { result ≡ kept 32 tag.now }
{
    kept(tag)
}

// Keys as text: a uuid with its dashes, and the tag after a colon if there is one.
ghost use Rattle.std.specs.Prelude.{◌≡◌, ◌+◌, length};
ghost use Rattle.misc.specs.Put.{Puts, PutsWhereFits};
ghost use Rattle.text.specs.Keys.{uuid_text, tag_text, key_text};

use crate::digits::put_hex;
use misc::UUID_LEN;
use misc::put::Put;

// How long the text of a uuid is.
pub const UUID_TEXT: usize = 36;

// Puts a uuid with its dashes.
pub fn put_uuid(put: &mut Put<'_>, uuid: [u8; UUID_LEN])
    ensures { Puts put.old (uuid_text uuid) put.new }
{
    if put.left() < UUID_TEXT {
        return;
    }
    put_hex(put, &uuid[0..4]);
    put.byte(b'-');
    put_hex(put, &uuid[4..6]);
    put.byte(b'-');
    put_hex(put, &uuid[6..8]);
    put.byte(b'-');
    put_hex(put, &uuid[8..10]);
    put.byte(b'-');
    put_hex(put, &uuid[10..UUID_LEN]);
}

// How long the text of a key with this tag is.
pub fn key_len(tag: &[u8]) -> usize
    ensures { result ≡ 36 + length (tag_text tag.now) }
{
    if tag.is_empty() {
        return UUID_TEXT;
    }
    UUID_TEXT + 1 + tag.len()
}

fn put_tag(put: &mut Put<'_>, tag: &[u8])
    ensures { PutsWhereFits put.old (tag_text tag.now) put.new }
{
    if tag.is_empty() {
        return;
    }
    put.byte(b':');
    put.bytes(tag);
}

// Puts a key.
pub fn put_key(put: &mut Put<'_>, uuid: [u8; UUID_LEN], tag: &[u8])
    ensures { Puts put.old (key_text uuid tag.now) put.new }
{
    if put.left() < key_len(tag) {
        return;
    }
    put_uuid(put, uuid);
    put_tag(put, tag);
}

// The text of a set: a line of its counts, and then its entries, one a line.
ghost use Rattle.std.specs.Prelude.{◌≡◌, ◌+◌, ◌*◌, ◌≤◌, length};
ghost use Rattle.misc.specs.Output.{output_of, answer_of};
ghost use Rattle.misc.specs.Put.{PutsWhereFits};
ghost use Rattle.gtid_sets.specs.Lent.{lent_set};
ghost use Rattle.set_check.specs.Cursor.{entries_left, CursorIs};
ghost use Rattle.listing.specs.SetText.{entry_text, entries_text, listed_set};
ghost use Rattle.listing.specs.Inside.{EntryThere, entry_in, line_length, head_text};

use crate::intervals::{intervals_len, put_intervals};
use misc::UUID_LEN;
use misc::put::Put;
use misc::refusal::WriteError;
use packets::uuid_bytes;
use set_check::check::check;
use set_check::walk::{beyond, entries_of, entry_here};
use set_check::{Cursor, EntryPlace};
use text::digits::{decimal_len, put_decimal};
use text::keys::{key_len, put_key};

// How long the line of an entry is: 36 bytes for the uuid, at most 33 for a colon and the tag, 1 for the newline, and the intervals.
fn entry_len(set: &[u8], entry: EntryPlace) -> usize
    requires { EntryThere set.now entry }
    ensures { (result ≡ line_length set.now entry) × (result ≤ 70 + 42 * entry.count) }
{
    let tag_at = entry.tag_at;
    let tag_end = tag_at + entry.tag_len;
    key_len(&set[tag_at..tag_end]) + intervals_len(set, entry.first, entry.count) + 1
}

// Puts the line of an entry.
fn put_entry(put: &mut Put<'_>, set: &[u8], uuid_at: usize, entry: EntryPlace)
    requires uuid_at_in_bounds { uuid_at + 16 ≤ length set.now }
    requires entry_there { EntryThere set.now entry }
    ensures { PutsWhereFits put.old (entry_text (entry_in set.now uuid_at entry)) put.new }
{
    let tag_at = entry.tag_at;
    let tag_end = tag_at + entry.tag_len;
    let uuid = uuid_bytes(&set[uuid_at..uuid_at + UUID_LEN]);
    put_key(put, uuid, &set[tag_at..tag_end]);
    put_intervals(put, set, entry.first, entry.count);
    put.byte(b'\n');
}

// How long the lines of the entries from a cursor on are.
fn entries_len(set: &[u8], from: Cursor) -> usize
    requires { CursorIs set.now from }
    ensures { (result ≡ length (entries_text (entries_left set.now from))) × (result ≤ 3 * length set.now) }
{
    let mut len: usize = 0;
    let mut rest = from;
    for _ in 0..from.left {
        let entry = entry_here(set, rest);
        len += entry_len(set, entry);
        rest = beyond(rest, entry);
    }
    len
}

// Puts the lines of the entries from a cursor on.
fn put_entries(put: &mut Put<'_>, set: &[u8], from: Cursor)
    requires { CursorIs set.now from }
    ensures { PutsWhereFits put.old (entries_text (entries_left set.now from)) put.new }
{
    let mut rest = from;
    for _ in 0..from.left {
        let entry = entry_here(set, rest);
        put_entry(put, set, rest.at, entry);
        rest = beyond(rest, entry);
    }
}

// Puts the line of counts.
fn put_head(put: &mut Put<'_>, word: &[u8], entries: u64, total: u64)
    ensures { PutsWhereFits put.old (head_text word.now entries total) put.new }
{
    put.bytes(word);
    put.bytes(b" entries ");
    put_decimal(put, entries);
    put.bytes(b" intervals ");
    put_decimal(put, total);
    put.byte(b'\n');
}

// Lists a set after a first word. Refused are bytes that are no set (14) and an output that is too short (13).
pub fn list_set(word: &[u8], set: &[u8], out: &mut [u8]) -> Result<usize, WriteError>
    ensures value { result ≡ answer_of out.old (listed_set word.now (lent_set set.now)) }
    ensures out_after { out.new ≡ output_of out.old (listed_set word.now (lent_set set.now)) }
{
    let checked = check(set)?;
    let entries = checked.entries as u64;
    let total = checked.intervals as u64;
    let head = word.len() + 21 + decimal_len(entries) + decimal_len(total);
    let from = entries_of(checked);
    let len = head + entries_len(set, from);
    if out.len() < len {
        return Err(WriteError::NoRoom(len));
    }
    let mut put = Put { out, at: 0 };
    put_head(&mut put, word, entries, total);
    put_entries(&mut put, set, from);
    Ok(len)
}

// The one walk over a set's entries: a cursor tells which are left, and each step where the next one stands and what is left behind it.
ghost use Rattle.std.specs.Prelude.{◌≡◌, ◌+◌, ◌≤◌, length};
ghost use Rattle.set_check.specs.Places.{place_from, place_at, if_there, place_in};
ghost use Rattle.set_check.specs.Cursor.{begun, beyond_of};

use crate::{Checked, Cursor, EntryPlace, SET_HEADER};
use misc::bytes::left_at;
use misc::le::number_at;
use misc::{INTERVAL_LEN, UUID_LEN};
use previous_gtids_event::{ENTRY_HEAD, TAGGED_HEAD};

// Behind the uuid stands the byte of a tag's length, and then the tag.
const TAG_AT: usize = UUID_LEN + 1;

// The entry whose tag is in so many bytes from `tag_at` on, with its count behind it, if its intervals are all there.
fn place_from(set: &[u8], tag_at: usize, tag_len: usize) -> Option<EntryPlace>
    requires { tag_at + tag_len + 8 ≤ length set.now }
    ensures { result ≡ if_there set.now (place_from set.now tag_at tag_len) }
{
    let counted = tag_at + tag_len;
    let count = number_at(set, counted) as usize;
    let first = counted + 8;
    if (set.len() - first) / INTERVAL_LEN < count {
        return None;
    }
    Some(EntryPlace {
        tag_at,
        tag_len,
        count,
        first,
        next: first + INTERVAL_LEN * count,
    })
}

// Where a walk over the entries of a set that has been checked begins.
pub fn entries_of(checked: Checked) -> Cursor
    ensures { result ≡ begun checked }
{
    Cursor {
        tagged: checked.tagged,
        at: SET_HEADER,
        left: checked.entries,
    }
}

// The entry at a place, if all of it is there.
fn place_at(set: &[u8], at: usize, tagged: bool) -> Option<EntryPlace>
    ensures { result ≡ if_there set.now (place_at tagged set.now at) }
{
    let left = left_at(set, at);
    if left < ENTRY_HEAD {
        return None;
    }
    if !tagged {
        return place_from(set, at + UUID_LEN, 0);
    }
    let tag_len = usize::from(set[at + UUID_LEN]) / 2;
    if left < TAGGED_HEAD + tag_len {
        return None;
    }
    place_from(set, at + TAG_AT, tag_len)
}

// Where the entry at a cursor stands: its tag, how many intervals it has, where they begin and where they end. All zero where not all of it
// is there (and no Option: the zeros are what this public function promises).
pub fn entry_here(set: &[u8], from: Cursor) -> EntryPlace
    ensures { result ≡ place_in from.tagged set.now from.at }
{
    place_at(set, from.at, from.tagged).unwrap_or_default()
}

// The entries behind that one.
pub fn beyond(from: Cursor, entry: EntryPlace) -> Cursor
    ensures { result ≡ beyond_of from entry }
{
    Cursor {
        tagged: from.tagged,
        at: entry.next,
        left: from.left.saturating_sub(1),
    }
}

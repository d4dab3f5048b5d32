// The head of an entry: its uuid, its tag and the number of its intervals.
ghost use Rattle.std.specs.Prelude.{MatchOption};
ghost use Rattle.set_check.specs.Head.{HeadIs, NoHead};

use crate::walk::entry_here;
use crate::{Cursor, EntryPlace, MAX_OF_ENTRY};
use misc::UUID_LEN;
use packets::none_or_tag;

// The entry at a cursor, if it is there and begins as the writer gives it: it has intervals, no more than an entry may have, the
// byte of its tag's length is even, and its tag obeys the tag rule or has no bytes.
pub(crate) fn right_head(set: &[u8], from: Cursor) -> Option<EntryPlace>
    ensures { MatchOption result (NoHead set.now from) (λ entry. HeadIs set.now from entry) }
{
    let entry = entry_here(set, from);
    if entry.count == 0 || MAX_OF_ENTRY < entry.count {
        return None;
    }
    if from.tagged && set[from.at + UUID_LEN] % 2 == 1 {
        return None;
    }
    let tag_end = entry.tag_at + entry.tag_len;
    if !none_or_tag(&set[entry.tag_at..tag_end]) {
        return None;
    }
    Some(entry)
}

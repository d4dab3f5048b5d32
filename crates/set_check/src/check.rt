// The check itself: the header, and then one entry after another.
ghost use Rattle.std.specs.Prelude.{◌≡◌, false, [], ◌≤◌, length, MatchOption};
ghost use Rattle.gtid_sets.specs.Lent.{lent_set};
ghost use Rattle.set_check.specs.Check.{checked_of, HeaderIs, NoHeader, low_key, LowThere, EntryIs, NoEntry, Rest, Whole};

use crate::heads::right_head;
use crate::walk::beyond;
use crate::{Checked, Cursor, EntryPlace, KeyPlace, MAX_ENTRIES, MAX_INTERVALS, SET_HEADER};
use misc::le::number_at;
use misc::refusal::Refusal;
use set_intervals::gapped_in;

// The header of a tagged set without entries: 1 in its top and its bottom byte.
const TAGGED: usize = 0x100_0000_0000_0001;

// The entries behind the header, if there is one.
fn header_at(set: &[u8]) -> Option<Cursor>
    ensures { MatchOption result (NoHeader set.now) (λ entries. HeaderIs set.now entries) }
{
    if set.len() < SET_HEADER {
        return None;
    }
    let header = number_at(set, 0) as usize;
    if header <= MAX_ENTRIES {
        return Some(Cursor {
            tagged: false,
            at: SET_HEADER,
            left: header,
        });
    }
    let rest = header.checked_sub(TAGGED)?;
    let left = rest / 256;
    if rest % 256 != 0 || MAX_ENTRIES < left {
        return None;
    }
    Some(Cursor {
        tagged: true,
        at: SET_HEADER,
        left,
    })
}

// The entry at a cursor, if it stands there with a right head, gapped intervals and a key after a lower one.
fn entry_above(set: &[u8], from: Cursor, low: Option<KeyPlace>) -> Option<EntryPlace>
    requires { LowThere set.now low }
    ensures { MatchOption result (NoEntry set.now from (low_key set.now low)) (λ entry. EntryIs set.now from (low_key set.now low) entry) }
{
    let entry = right_head(set, from)?;
    if !gapped_in(&set[entry.first..entry.next]) {
        return None;
    }
    if !KeyPlace::of(from, entry).is_above(low, set) {
        return None;
    }
    Some(entry)
}

// How many intervals the entries from a cursor on have together, if they are in set form and nothing stands behind them.
fn check_entries(set: &[u8], from: Cursor) -> Option<usize>
    requires { from.at ≤ length set.now }
    ensures { MatchOption result (Rest set.now from [] 0 false → ⊥) (λ total. Whole set.now from total) }
{
    let mut rest = from;
    let mut low = None;
    let mut used: usize = 0;
    let mut any = false;
    for _ in 0..from.left {
        let entry = entry_above(set, rest, low)?;
        low = Some(KeyPlace::of(rest, entry));
        used += entry.count;
        any |= 0 < entry.tag_len;
        rest = beyond(rest, entry);
    }
    if rest.at != set.len() || MAX_INTERVALS < used || rest.tagged != any {
        return None;
    }
    Some(used)
}

// Whether the bytes are a set, and which kind and how large.
pub fn check(set: &[u8]) -> Result<Checked, Refusal>
    ensures { result ≡ checked_of (lent_set set.now) }
{
    let entries = header_at(set).ok_or(Refusal::NotASet)?;
    let intervals = check_entries(set, entries).ok_or(Refusal::NotASet)?;
    Ok(Checked {
        tagged: entries.tagged,
        entries: entries.left,
        intervals,
    })
}

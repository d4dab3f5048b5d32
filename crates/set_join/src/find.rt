// Where a key stands in a set. The set has been checked.
ghost use Rattle.std.specs.Prelude.{◌≡◌, ◌++◌, length};
ghost use Rattle.set_check.specs.SetOf.{set_of, IsSet};
ghost use Rattle.set_join.specs.Find.{found_at, absent_at, FoundIs};

use crate::{Found, KeyParts, Run};
use misc::UUID_LEN;
use packets::parts_order;
use set_check::walk::{beyond, entry_here};
use set_check::{Cursor, SET_HEADER};
use std::cmp::Ordering;

// So many entries before a place, and then so many intervals of the key.
fn found_at(before: usize, at: usize, own: Run) -> Found
    ensures { result ≡ found_at before at own }
{
    Found {
        before: Run {
            from: SET_HEADER,
            to: at,
            count: before,
        },
        own,
    }
}

// The key isn't there: it goes behind so many entries, which end at a place.
fn absent(before: usize, at: usize) -> Found
    ensures { result ≡ absent_at before at }
{
    found_at(
        before,
        at,
        Run {
            from: at,
            to: at,
            count: 0,
        },
    )
}

pub(crate) fn find(set: &[u8], from: Cursor, key: KeyParts) -> Found
    requires set { IsSet set.now from.tagged from.left × (from.at ≡ 8) }
    requires uuid_len { length key.uuid.now ≡ 16 }
    ensures { FoundIs set.now from.tagged (key.entry.uuid.now ++ key.entry.tag.now) (set_of set.now) result }
{
    let mut rest = from;
    for done in 0..from.left {
        let place = entry_here(set, rest);
        let tag_end = place.tag_at + place.tag_len;
        let order = parts_order(
            &set[rest.at..rest.at + UUID_LEN],
            &set[place.tag_at..tag_end],
            key.uuid,
            key.tag,
        );
        match order {
            Ordering::Less => {}
            Ordering::Equal => {
                let own = Run {
                    from: place.first,
                    to: place.next,
                    count: place.count,
                };
                return found_at(done, rest.at, own);
            }
            Ordering::Greater => return absent(done, rest.at),
        }
        rest = beyond(rest, place);
    }
    absent(from.left, rest.at)
}

// Keys of entries, compared where they stand.
ghost use Rattle.std.specs.Prelude.{◌≡◌, MatchBool};
ghost use Rattle.packets.specs.Key.{◌≺◌};
ghost use Rattle.set_check.specs.Check.{key_in, KeyThere, low_key, LowThere};

use crate::{Cursor, EntryPlace, KeyPlace};
use misc::UUID_LEN;
use packets::parts_order;

impl KeyPlace {
    // The key of the entry at a cursor.
    pub(crate) fn of(from: Cursor, entry: EntryPlace) -> KeyPlace
        ensures { result ≡ record { at = from.at; tag_at = entry.tag_at; tag_len = entry.tag_len } }
    {
        KeyPlace {
            at: from.at,
            tag_at: entry.tag_at,
            tag_len: entry.tag_len,
        }
    }

    // Whether the key comes after that of the entry before it, if there is one.
    pub(crate) fn is_above(self, low: Option<KeyPlace>, set: &[u8]) -> bool
        requires key { KeyThere set.now self }
        requires low_key { LowThere set.now low }
        ensures { MatchBool result (low_key set.now low ≺ key_in set.now self) (low_key set.now low ≺ key_in set.now self → ⊥) }
    {
        let Some(low) = low else {
            return true;
        };
        parts_order(
            &set[low.at..low.at + UUID_LEN],
            &set[low.tag_at..low.tag_at + low.tag_len],
            &set[self.at..self.at + UUID_LEN],
            &set[self.tag_at..self.tag_at + self.tag_len],
        )
        .is_lt()
    }
}

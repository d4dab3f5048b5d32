// Which of two sets has ids of its own, ones that the other lacks: one walk over both sees it of each.
ghost use Rattle.std.specs.Prelude.{◌≡◌, ◌&&◌};
ghost use Rattle.two_sets.specs.Marks.{Shut, SidesAre};
ghost use Rattle.two_sets.specs.Pairs.{CursorsAre};
ghost use Rattle.two_sets.specs.Differ.{found, own_marks, own_ids};

use crate::marks::{is_open, step};
use crate::pairs::next_pair;
use crate::{Cursors, Own, Sides};

impl Own {
    // With what is found besides.
    fn besides(self, first: bool, second: bool) -> Own
        ensures { result ≡ found self first second }
    {
        Own {
            first: self.first | first,
            second: self.second | second,
        }
    }

    // Whether each set has one.
    fn both(self) -> bool
        ensures { result ≡ self.first && self.second }
    {
        self.first & self.second
    }
}

// Of the numbers of a key, where `seen` tells of the keys before it. Those behind a mark are in the sides that are open; where one side
// has no marks left, what the other still has is its own.
fn own_marks(first: &[u8], second: &[u8], sides: Sides, seen: Own) -> Own
    requires sides_are { SidesAre first.now second.now sides }
    requires shut { Shut first.now second.now sides }
    ensures { result ≡ own_marks first.now second.now sides seen }
{
    let mut left = sides;
    let mut own = seen;
    // a walk over the marks of two sides, whichever is next: no index is counted
    while (0 < left.one.left) & (0 < left.two.left) {
        left = step(first, second, left).sides;
        let one = is_open(left.one);
        let two = is_open(left.two);
        own = own.besides(one & !two, two & !one);
        if own.both() {
            return own;
        }
    }
    own.besides(0 < left.one.left, 0 < left.two.left)
}

// Of all ids that are left, where `seen` tells what isn't looked for any more. The walk ends where each set has one of its own, or where
// one has no entries left: what the other still has is its own.
pub(crate) fn own_ids(first: &[u8], second: &[u8], from: Cursors, seen: Own) -> Own
    requires { CursorsAre first.now second.now from }
    ensures { result ≡ own_ids first.now second.now from seen }
{
    let mut left = from;
    let mut own = seen;
    // a walk with two cursors, whichever has the next key: no index is counted
    while (0 < left.first.left) & (0 < left.second.left) {
        let pair = next_pair(first, second, left);
        own = own_marks(first, second, pair.sides, own);
        if own.both() {
            return own;
        }
        left = pair.after;
    }
    own.besides(0 < left.first.left, 0 < left.second.left)
}

// The sweep over the marks of two entries: it passes them in their order, and those at which the operation's answer turns over are the
// marks of the result.
ghost use Rattle.std.specs.Prelude.{◌≡◌, true, ◌+◌, ◌*◌, ◌%◌, ◌^◌, ◌<◌, eqb};
ghost use Rattle.two_sets.specs.Marks.{marks_of, next_mark, passed_side, left_of, going, all_if, SideIs, SidesAre, StepIs, NextIs, MarksPut};

use crate::operation::Operation;
use crate::{Side, Sides, Step};
use misc::le::number_at;
use misc::put::{put_bytes, put_u64_le};

// Whether the numbers before the marks are in: a mark begins what the next one ends.
pub(crate) fn is_open(side: Side) -> bool
    ensures { result ≡ eqb (side.left % 2) 1 }
{
    side.left % 2 == 1
}

// The next mark, or a number above all.
fn mark_at(set: &[u8], side: Side) -> u64
    ensures { result ≡ next_mark (marks_of set.now side) }
{
    if side.left == 0 {
        return u64::MAX;
    }
    number_at(set, side.at)
}

// The side behind its next mark, if that is passed.
fn passed(side: Side, passes: bool) -> Side
    requires { passes ≡ true → (0 < side.left) × (side.at + 8 < 2 ^ 64) }
    ensures { result ≡ passed_side passes side }
{
    if passes {
        return Side {
            at: side.at + 8,
            left: side.left - 1,
        };
    }
    side
}

// Passes the next mark of two sides; one that both have is passed on both.
pub(crate) fn step(first: &[u8], second: &[u8], sides: Sides) -> Step
    requires sides_are { SidesAre first.now second.now sides }
    requires sides_nonzero { 0 < left_of sides }
    ensures { StepIs first.now second.now sides result }
{
    let m = mark_at(first, sides.one);
    let n = mark_at(second, sides.two);
    Step {
        sides: Sides {
            one: passed(sides.one, m <= n),
            two: passed(sides.two, n <= m),
        },
        mark: m.min(n),
    }
}

// Whether the numbers before the next marks are kept.
fn keeps_now<O: Operation>(sides: Sides) -> bool
    ensures { result ≡ O.op (eqb (sides.one.left % 2) 1) (eqb (sides.two.left % 2) 1) }
{
    O::keeps(is_open(sides.one), is_open(sides.two))
}

// Passes marks up to the next one of the result, if there is one: what is kept before it and behind it differs.
pub(crate) fn next_mark<O: Operation>(first: &[u8], second: &[u8], sides: Sides) -> Option<Step>
    requires { SidesAre first.now second.now sides }
    ensures { NextIs O.op first.now second.now sides result }
{
    let mut left = sides;
    // a walk over the marks of two sides, whichever is next: no index is counted
    while (0 < left.one.left) | (0 < left.two.left) {
        let next = step(first, second, left);
        let behind = next.sides;
        if keeps_now::<O>(left) != keeps_now::<O>(behind) {
            return Some(next);
        }
        left = behind;
    }
    None
}

// (A place of the output is a number in this crate: it moves on whether there is room or not, since the first pass over both sets only counts.)

// Writes the marks of an entry whose key the other set doesn't have from a place on, where there is room, if they are kept: then all of
// them are marks of the result. Returns how many there are, room or not.
fn put_alone(kept: bool, set: &[u8], side: Side, out: &mut [u8], at: usize) -> usize
    requires { SideIs set.now side }
    ensures { MarksPut (all_if kept (marks_of set.now side)) side.left out.old at out.new result }
{
    if !kept {
        return 0;
    }
    let from = side.at;
    let to = from + 8 * side.left;
    put_bytes(&set[from..to], out, at);
    side.left
}

// The same for a key that both sets have, by the sweep.
fn put_swept<O: Operation>(
    first: &[u8],
    second: &[u8],
    sides: Sides,
    out: &mut [u8],
    at: usize,
) -> usize
    requires sides_are { SidesAre first.now second.now sides }
    requires sides_bound { at + 8 * left_of sides < 2 ^ 64 }
    ensures { MarksPut (going O.op first.now second.now sides) (left_of sides) out.old at out.new result }
{
    let mut count = 0;
    let mut left = sides;
    while let Some(next) = next_mark::<O>(first, second, left) {
        put_u64_le(next.mark, out, at + 8 * count);
        count += 1;
        left = next.sides;
    }
    count
}

// Writes the marks of the result from a place of the output on, where there is room, and returns how many there are, room or not.
pub(crate) fn put_marks<O: Operation>(
    first: &[u8],
    second: &[u8],
    sides: Sides,
    out: &mut [u8],
    at: usize,
) -> usize
    requires sides_are { SidesAre first.now second.now sides }
    requires sides_bound { at + 8 * left_of sides < 2 ^ 64 }
    ensures { MarksPut (going O.op first.now second.now sides) (left_of sides) out.old at out.new result }
{
    if sides.two.left == 0 {
        return put_alone(O::keeps(true, false), first, sides.one, out, at);
    }
    if sides.one.left == 0 {
        return put_alone(O::keeps(false, true), second, sides.two, out, at);
    }
    put_swept::<O>(first, second, sides, out, at)
}

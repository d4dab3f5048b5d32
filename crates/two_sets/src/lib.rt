// Work with two sets: the ids in either, in both, and in the first without the second, each written as a set; whether all of the first
// are in the second; and which of the two has all of the other. What they answer is said by `combine_answers`, `within_answers` and
// `which_answers` of specs/Answers.antt, and what is written by `combine_leaves`, on `lent_set` and `combined` of gtid_sets. Both sets are
// only read, so that they may be the same bytes. `join` gives a set all ids of a Previous-GTIDs body.
#![tactic(auto)]

ghost use Rattle.std.specs.Prelude.{◌≡◌};
ghost use Rattle.gtid_sets.specs.Combine.{either, both, without};
ghost use Rattle.two_sets.specs.Answers.{combine_answers, combine_leaves, within_answers, which_answers, part_of, place_of, Begins};

use differ::own_ids;
use misc::refusal::{Refusal, WriteError};
use operation::{Both, Either, Operation, Without};
use set_check::Cursor;
use set_check::check::check;
use set_check::walk::entries_of;
use write::write_combined;

mod differ;
pub mod join;
mod marks;
mod operation;
mod pairs;
mod write;

// Which of two sets has all ids of the other: the first where it has, also where they are equal, else the second.
#[derive(Clone, Copy)]
pub enum Choice {
    First,
    Second,
}

// ---- inside

// The marks of an entry that are left, the starts and ends of its intervals: where they stand, and how many there are.
#[derive(Clone, Copy)]
pub(crate) struct Side {
    pub(crate) at: usize,
    pub(crate) left: usize,
}

// Those of an entry of the first set, and of one of the second.
#[derive(Clone, Copy)]
pub(crate) struct Sides {
    pub(crate) one: Side,
    pub(crate) two: Side,
}

// A mark that was passed, and what is left behind it.
#[derive(Clone, Copy)]
pub(crate) struct Step {
    pub(crate) sides: Sides,
    pub(crate) mark: u64,
}

// The entries that are left of the first set, and of the second. The sets themselves go beside, as two slices: of a struct every contract would
// speak as `sets.entry.first.now`, where it says `first.now`.
#[derive(Clone, Copy)]
pub(crate) struct Cursors {
    pub(crate) first: Cursor,
    pub(crate) second: Cursor,
}

// Where a key stands: in the first set or the second, its uuid and its tag.
#[derive(Clone, Copy)]
pub(crate) struct KeyPlace {
    pub(crate) of_first: bool,
    pub(crate) at: usize,
    pub(crate) tag_at: usize,
    pub(crate) tag_len: usize,
}

// The next key of two sets: where it stands, its marks in either, none where a set doesn't have it, and the entries after it.
#[derive(Clone, Copy)]
pub(crate) struct Pair {
    pub(crate) key: KeyPlace,
    pub(crate) sides: Sides,
    pub(crate) after: Cursors,
}

// Whether the first set has an id of its own, one that the second lacks, and whether the second has one that the first lacks.
#[derive(Clone, Copy)]
pub(crate) struct Own {
    pub(crate) first: bool,
    pub(crate) second: bool,
}

// How large a result is: whether it has tags; how many entries, intervals, and entries with too many intervals it has; and the place behind
// its entries.
#[derive(Clone, Copy)]
pub(crate) struct Made {
    pub(crate) tagged: bool,
    pub(crate) entries: usize,
    pub(crate) intervals: usize,
    pub(crate) crowded: usize,
    pub(crate) end: usize,
}

// Judges the first bytes, and then the second.
fn begin(first: &[u8], second: &[u8]) -> Result<Cursors, Refusal>
    ensures { Begins first.now second.now result }
{
    let one = check(first)?;
    let two = check(second)?;
    Ok(Cursors {
        first: entries_of(one),
        second: entries_of(two),
    })
}

// The ids that are kept of two sets, written as a set.
fn combine<O: Operation>(first: &[u8], second: &[u8], out: &mut [u8]) -> Result<usize, WriteError>
    ensures value { result ≡ combine_answers O.op first.now second.now out.old }
    ensures out_after { out.new ≡ combine_leaves O.op first.now second.now out.old }
{
    let from = begin(first, second)?;
    write_combined::<O>(first, second, from, out)
}

// The ids in either set. Refused are bytes that are no set (14), the first before the second, a result with an entry (17) or as a whole
// (16) too great, and an output that is too short (13).
pub fn either(first: &[u8], second: &[u8], out: &mut [u8]) -> Result<usize, WriteError>
    ensures value { result ≡ combine_answers either first.now second.now out.old }
    ensures out_after { out.new ≡ combine_leaves either first.now second.now out.old }
{
    combine::<Either>(first, second, out)
}

// The ids in both sets. Refused likewise: what is left of two sets may have more intervals than either.
pub fn both(first: &[u8], second: &[u8], out: &mut [u8]) -> Result<usize, WriteError>
    ensures value { result ≡ combine_answers both first.now second.now out.old }
    ensures out_after { out.new ≡ combine_leaves both first.now second.now out.old }
{
    combine::<Both>(first, second, out)
}

// The ids of the first set that are not in the second. Refused likewise.
pub fn without(first: &[u8], second: &[u8], out: &mut [u8]) -> Result<usize, WriteError>
    ensures value { result ≡ combine_answers without first.now second.now out.old }
    ensures out_after { out.new ≡ combine_leaves without first.now second.now out.old }
{
    combine::<Without>(first, second, out)
}

// Whether all ids of the first set are in the second. Refused are bytes that are no set (14), the first before the second.
pub fn within(first: &[u8], second: &[u8]) -> Result<bool, Refusal>
    ensures { result ≡ within_answers first.now second.now }
{
    let from = begin(first, second)?;
    // an id that only the second set has isn't looked for
    let seen = Own {
        first: false,
        second: true,
    };
    let own = own_ids(first, second, from, seen);
    Ok(!own.first)
}

// Which of two sets has all ids of the other. Refused are bytes that are no set (14), the first before the second, and two sets of which
// each has an id that the other lacks (22).
pub fn which(first: &[u8], second: &[u8]) -> Result<Choice, Refusal>
    ensures { result ≡ which_answers first.now second.now }
{
    let from = begin(first, second)?;
    let seen = Own {
        first: false,
        second: false,
    };
    let own = own_ids(first, second, from, seen);
    if !own.second {
        return Ok(Choice::First);
    }
    if !own.first {
        return Ok(Choice::Second);
    }
    Err(Refusal::Diverged)
}

// The set that `which` names: the caller's own bytes, all of them and no copy; none of them where it refuses. Both are lent under one
// lifetime, since the part may be of either.
pub fn head<'a>(first: &'a [u8], second: &'a [u8]) -> &'a [u8]
    ensures result_value { result.now ≡ part_of (which_answers first.now second.now) first.now second.now }
    ensures ref_ptr_value { result.ref_ptr ≡ place_of (which_answers first.now second.now) first.entry.ref_ptr second.entry.ref_ptr }
{
    match which(first, second) {
        Ok(Choice::First) => first,
        Ok(Choice::Second) => second,
        Err(_) => &first[..0],
    }
}

// The entries of two sets, one key after another.
ghost use Rattle.std.specs.Prelude.{◌≡◌, ◌+◌, ◌^◌, ◌≤◌, ◌<◌, length, IfSome};
ghost use Rattle.misc.specs.Parse.{part};
ghost use Rattle.std.specs.declared.cmp.Ordering.TheVariants.{Equal};
ghost use Rattle.two_sets.specs.Pairs.{CursorsAre, entries_of_both, side_in, behind, key_place, Moves, pair_of, UuidNext, PairIs};

use crate::{Cursors, KeyPlace, Pair, Side, Sides};
use misc::UUID_LEN;
use packets::key_order;
use set_check::walk::{beyond, entry_here};
use set_check::{Cursor, EntryPlace};
use std::cmp::Ordering;

// So many bytes of a set.
pub(crate) fn piece(set: &[u8], at: usize, len: usize) -> &[u8]
    requires { at + len ≤ length set.now }
    ensures { result.now ≡ part set.now at len }
{
    &set[at..at + len]
}

// The marks of an entry, none where there is none.
fn side_of(entry: Option<EntryPlace>) -> Side
    requires { IfSome entry Moves }
    ensures { result ≡ side_in entry }
{
    match entry {
        Some(place) => Side {
            at: place.first,
            left: 2 * place.count,
        },
        None => Side { at: 0, left: 0 },
    }
}

// The entries behind it.
fn behind(from: Cursor, entry: Option<EntryPlace>) -> Cursor
    ensures { result ≡ behind from entry }
{
    match entry {
        Some(place) => beyond(from, place),
        None => from,
    }
}

// Where the key of the next entry stands, in the first set or the second.
fn key_of(of_first: bool, from: Cursor, place: EntryPlace) -> KeyPlace
    ensures { result ≡ key_place of_first from place }
{
    KeyPlace {
        of_first,
        at: from.at,
        tag_at: place.tag_at,
        tag_len: place.tag_len,
    }
}

// The next key of two sets, by the entry of it that either has.
fn pair_of(key: KeyPlace, from: Cursors, one: Option<EntryPlace>, two: Option<EntryPlace>) -> Pair
    requires { IfSome one Moves × IfSome two Moves }
    ensures { result ≡ pair_of key from one two }
{
    Pair {
        key,
        sides: Sides {
            one: side_of(one),
            two: side_of(two),
        },
        after: Cursors {
            first: behind(from.first, one),
            second: behind(from.second, two),
        },
    }
}

// Which of two sets has the next uuid: the first, both or the second.
fn uuid_order(first: &[u8], second: &[u8], from: Cursors) -> Ordering
    requires cursors_are { CursorsAre first.now second.now from }
    requires from_nonzero { 0 < entries_of_both from }
    ensures { UuidNext first.now second.now from result }
{
    if from.second.left == 0 {
        return Ordering::Less;
    }
    if from.first.left == 0 {
        return Ordering::Greater;
    }
    key_order(
        piece(first, from.first.at, UUID_LEN),
        piece(second, from.second.at, UUID_LEN),
    )
}

// The next key where both sets have its uuid: the tags decide.
fn same_uuid(first: &[u8], second: &[u8], from: Cursors) -> Pair
    requires cursors_are { CursorsAre first.now second.now from }
    requires uuid_next { UuidNext first.now second.now from Equal }
    ensures { PairIs first.now second.now from result }
{
    let one = entry_here(first, from.first);
    let two = entry_here(second, from.second);
    let key = key_of(true, from.first, one);
    let order = key_order(
        piece(first, one.tag_at, one.tag_len),
        piece(second, two.tag_at, two.tag_len),
    );
    match order {
        Ordering::Less => pair_of(key, from, Some(one), None),
        Ordering::Equal => pair_of(key, from, Some(one), Some(two)),
        Ordering::Greater => pair_of(key_of(false, from.second, two), from, None, Some(two)),
    }
}

// The next key of two sets. Only an entry whose uuid comes next is looked at.
pub(crate) fn next_pair(first: &[u8], second: &[u8], from: Cursors) -> Pair
    requires cursors_are { CursorsAre first.now second.now from }
    requires from_nonzero { 0 < entries_of_both from }
    ensures { PairIs first.now second.now from result }
{
    match uuid_order(first, second, from) {
        Ordering::Less => {
            let one = entry_here(first, from.first);
            pair_of(key_of(true, from.first, one), from, Some(one), None)
        }
        Ordering::Equal => same_uuid(first, second, from),
        Ordering::Greater => {
            let two = entry_here(second, from.second);
            pair_of(key_of(false, from.second, two), from, None, Some(two))
        }
    }
}

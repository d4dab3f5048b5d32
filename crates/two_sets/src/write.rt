// Writing a result. The same pass over both sets is made twice: the first time it only counts, since its output has no room, and the second
// time it writes what was judged and has room. So a place of the output is a number here, and no `Put`: it moves on whether there is room or
// not.
ghost use Rattle.std.specs.Prelude.{◌≡◌, ◌+◌, ◌*◌, ◌^◌, ◌≤◌, ◌<◌, length};
ghost use Rattle.misc.specs.Parse.{part};
ghost use Rattle.misc.specs.Output.{output_of, answer_of, WhereFits};
ghost use Rattle.previous_gtids_event.specs.Rewrite.{head_run, entries_bytes};
ghost use Rattle.set_join.specs.Answers.{saved};
ghost use Rattle.two_sets.specs.Marks.{left_of, going, SidesAre};
ghost use Rattle.two_sets.specs.Pairs.{CursorsAre, places_of_both, combining, KeyIs};
ghost use Rattle.two_sets.specs.Write.{head_length, entry_run, grown_by, Below, MadeIs, made_length};

use crate::marks::put_marks;
use crate::operation::Operation;
use crate::pairs::{next_pair, piece};
use crate::{Cursors, KeyPlace, Made, Pair};
use misc::UUID_LEN;
use misc::put::Put;
use misc::refusal::WriteError;
use previous_gtids_event::rewrite::{put_head, put_header};
use previous_gtids_event::{ENTRY_HEAD, TAGGED_HEAD};
use set_check::limits::{judge, over};

// How many bytes of an entry stand before its intervals.
fn head_len(tags: bool, tag_len: usize) -> usize
    requires { tag_len ≤ 32 }
    ensures { result ≡ head_length tags tag_len }
{
    if tags {
        return TAGGED_HEAD + tag_len;
    }
    ENTRY_HEAD
}

// The head of an entry, with a key that stands in one of the sets, and so many intervals.
fn put_key(set: &[u8], key: KeyPlace, tags: bool, count: usize, out: &mut [u8], at: usize) -> usize
    requires { (key.at + 16 ≤ length set.now) × (key.tag_at + key.tag_len ≤ length set.now) }
    ensures { WhereFits out.old at
        (head_run (part set.now key.at 16) tags (part set.now key.tag_at key.tag_len) count) out.new result }
{
    let uuid = piece(set, key.at, UUID_LEN);
    let tag = piece(set, key.tag_at, key.tag_len);
    let mut put = Put { out, at };
    put_head(&mut put, uuid, tag, tags, count as u64);
    put.at
}

// Writes the next entry of the result, unless it is empty, from a place on, and returns how many marks it has. They go first, behind the
// place of the head, which tells how many there are.
fn put_entry<O: Operation>(
    tags: bool,
    first: &[u8],
    second: &[u8],
    pair: Pair,
    out: &mut [u8],
    at: usize,
) -> usize
    requires sides_are { SidesAre first.now second.now pair.sides }
    requires key_is { KeyIs first.now second.now pair.key }
    requires sides_bound { at + 64 + 8 * left_of pair.sides < 2 ^ 64 }
    ensures value { (result ≡ length (going O.op first.now second.now pair.sides)) × (result ≤ left_of pair.sides) }
    ensures where_fits { WhereFits out.old at
        (entry_run O.op tags first.now second.now pair) out.new
        (at + length (entry_run O.op tags first.now second.now pair)) }
{
    let key = pair.key;
    let behind = at + head_len(tags, key.tag_len);
    let marks = put_marks::<O>(first, second, pair.sides, out, behind);
    if marks == 0 {
        return 0;
    }
    let set = if key.of_first { first } else { second };
    put_key(set, key, tags, marks / 2, out, at);
    marks
}

impl Made {
    // One entry more, with a tag of so many bytes and so many marks, unless it has none.
    fn grown(self, tags: bool, tag_len: usize, marks: usize) -> Made
        requires { Below self tag_len marks }
        ensures { result ≡ grown_by self tags tag_len marks }
    {
        if marks == 0 {
            return self;
        }
        Made {
            tagged: self.tagged | (0 < tag_len),
            entries: self.entries + 1,
            intervals: self.intervals + marks / 2,
            crowded: self.crowded + over(marks / 2),
            end: self.end + head_len(tags, tag_len) + 8 * marks,
        }
    }

    // How many bytes a result has that was measured with tags.
    fn len(self) -> usize
        requires { self.entries ≤ self.end }
        ensures { result ≡ made_length self }
    {
        if self.tagged {
            return self.end;
        }
        self.end - self.entries
    }
}

// Writes the entries of the result from place 8 on, with tags or without, where there is room, and returns how large it is, room or not.
fn put_combined<O: Operation>(
    tags: bool,
    first: &[u8],
    second: &[u8],
    from: Cursors,
    out: &mut [u8],
) -> Made
    requires { CursorsAre first.now second.now from × (8 ≤ places_of_both from) }
    ensures made_is { MadeIs (combining O.op first.now second.now from) tags result }
    ensures where_fits { WhereFits out.old 8 (entries_bytes tags (combining O.op first.now second.now from)) out.new result.end }
{
    let mut left = from;
    let mut made = Made {
        tagged: false,
        entries: 0,
        intervals: 0,
        crowded: 0,
        end: 8,
    };
    // a walk with two cursors, whichever has the next key: no index is counted
    while (0 < left.first.left) | (0 < left.second.left) {
        let pair = next_pair(first, second, left);
        let marks = put_entry::<O>(tags, first, second, pair, out, made.end);
        made = made.grown(tags, pair.key.tag_len, marks);
        left = pair.after;
    }
    made
}

// Writes the result, if it is within the limits and there is room.
pub(crate) fn write_combined<O: Operation>(
    first: &[u8],
    second: &[u8],
    from: Cursors,
    out: &mut [u8],
) -> Result<usize, WriteError>
    requires { CursorsAre first.now second.now from × (8 ≤ places_of_both from) }
    ensures value { result ≡ answer_of out.old (saved (combining O.op first.now second.now from)) }
    ensures out_after { out.new ≡ output_of out.old (saved (combining O.op first.now second.now from)) }
{
    let mut no_room = [0u8; 1];
    let made = put_combined::<O>(true, first, second, from, &mut no_room);
    judge(made.crowded, made.entries, made.intervals)?;
    let len = made.len();
    if out.len() < len {
        return Err(WriteError::NoRoom(len));
    }
    let mut put = Put { out, at: 0 };
    put_header(&mut put, made.entries as u64, made.tagged);
    put_combined::<O>(made.tagged, first, second, from, out);
    Ok(len)
}

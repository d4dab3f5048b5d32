// Taking in the body of a Previous-GTIDs event. A body that is a set already is copied; the intervals of any other are joined to a
// set that grows in a work buffer, one after another. A second work buffer receives each next set.
ghost use Rattle.std.specs.Prelude.{◌≡◌, true, ◌++◌, ◌+◌, ◌-◌, ◌/◌, ◌^◌, ◌≤◌, length};
ghost use Rattle.misc.specs.Parse.{refusal_of};
ghost use Rattle.misc.specs.Output.{output_of, answer_of};
ghost use Rattle.packets.specs.Gno.{interval, is_interval};
ghost use Rattle.packets.specs.Tag.{none_or_tag};
ghost use Rattle.previous_gtids_event.specs.Previous.{previous};
ghost use Rattle.gtid_sets.specs.Set.{join};
ghost use Rattle.gtid_sets.specs.TakeIn.{lawful, join_all, union};
ghost use Rattle.set_intervals.specs.Intervals.{intervals_at};
ghost use Rattle.set_join.specs.Answers.{saved, take_in_answers, take_in_leaves};
ghost use Rattle.set_check.specs.SetOf.{set_of, entries_of, Fits};
ghost use Rattle.set_join.specs.TakeIn.{HeldIs, held_set, key_in, EntryIs, widest, enough, Room};

use crate::join::{lent, plan_join, put_joined, write_set};
use crate::{Held, KeyParts};
use misc::bytes::write_bytes;
use misc::le::number_at;
use misc::refusal::{Refusal, WriteError};
use misc::{INTERVAL_LEN, MAX_BODY};
use previous_gtids_event::read::{entry_at, header_of, read};
use previous_gtids_event::{ENTRY_HEAD, EntryRead, IntervalRead};
use set_check::check::check;
use set_check::limits::over;
use set_check::{Checked, LONGEST_SET, SET_HEADER};
use set_intervals::proper_in;

// A work buffer holds the set of any body: its entries take no more bytes there than in the body, but for one byte for the length of
// a tag, and an entry of a body has 24 bytes at least.
const WORK: usize = MAX_BODY + MAX_BODY / ENTRY_HEAD;

// And this much for any body beside any set.
pub(crate) const ROOM: usize = LONGEST_SET + WORK;

// The empty set.
const EMPTY: [u8; SET_HEADER] = [0; SET_HEADER];

// ---- the gno rule

// Whether all intervals of a body that can be read obey the gno rule.
pub(crate) fn lawful_body(body: &[u8]) -> bool
    requires { refusal_of (previous body.now) ≡ 0 }
    ensures { result ≡ lawful (entries_of (previous body.now)) }
{
    let header = header_of(body).unwrap();
    let mut at = SET_HEADER;
    for _ in 0..header.entries {
        let entry = entry_at(body, at, header.tagged).unwrap();
        if !proper_in(&body[entry.first..entry.next]) {
            return false;
        }
        at = entry.next;
    }
    true
}

// ---- joining

// The two work buffers are two slices, which every call leaves as long as they are; of buffers in a struct each function had to promise it.

// Joins an interval of a key to the set in `held`.
fn join_interval(
    held: &mut [u8],
    spare: &mut [u8],
    is: Held,
    key: KeyParts,
    span: IntervalRead,
) -> Held
    requires held_is { HeldIs held.old is }
    requires uuid_len { (length key.uuid.now ≡ 16) × (length key.tag.now ≤ 32) × (none_or_tag key.tag.now ≡ true) }
    requires end_value { is_interval (interval span.start span.end) ≡ true }
    requires room { Room held.old spare.old (enough (key.uuid.now ++ key.tag.now) (held_set held.old is) 1) }
    ensures held_is_2 { HeldIs held.new result }
    ensures result_after { held_set held.new result ≡ join (key.entry.uuid.now ++ key.entry.tag.now) span.start span.end (held_set held.old is) }
{
    let plan = plan_join(&held[..is.len], is, key, span);
    put_joined(&held[..is.len], key, plan, spare);
    // it has room
    let _ = write_bytes(&spare[..plan.len], held);
    // the key's entry is counted as it is now, in the place of what it was
    let others = is.crowded - over(plan.found.own.count);
    Held {
        tagged: plan.tags,
        entries: plan.entries,
        intervals: plan.intervals,
        crowded: others + over(plan.held),
        len: plan.len,
    }
}

// Joins the intervals of an entry of the body to the set in `held`.
fn join_entry(body: &[u8], entry: EntryRead, held: &mut [u8], spare: &mut [u8], is: Held) -> Held
    requires held_is { HeldIs held.old is }
    requires entry_is { EntryIs body.now entry }
    requires room { Room held.old spare.old (enough (key_in entry) (held_set held.old is) entry.intervals) }
    ensures held_is_2 { HeldIs held.new result }
    ensures result_after { held_set held.new result ≡ join_all (key_in entry) (intervals_at entry.intervals body.now entry.first) (held_set held.old is) }
{
    let key = KeyParts {
        uuid: &entry.uuid,
        tag: &entry.tag[..entry.tag_len],
    };
    let mut set = is;
    let mut at = entry.first;
    for _ in 0..entry.intervals {
        let span = IntervalRead {
            start: number_at(body, at),
            end: number_at(body, at + 8),
        };
        set = join_interval(held, spare, set, key, span);
        at += INTERVAL_LEN;
    }
    set
}

// Joins all ids of a body to the set in `held`.
pub(crate) fn join_body(body: &[u8], held: &mut [u8], spare: &mut [u8], is: Held) -> Held
    requires held_is { HeldIs held.old is }
    requires body_value { (refusal_of (previous body.now) ≡ 0) × (lawful (entries_of (previous body.now)) ≡ true) }
    requires room { Room held.old spare.old (widest (held_set held.old is) + (length body.now - 8 + length body.now / 24)) }
    ensures held_is_2 { HeldIs held.new result }
    ensures result_after { held_set held.new result ≡ union (entries_of (previous body.now)) (held_set held.old is) }
{
    let header = header_of(body).unwrap();
    let mut at = SET_HEADER;
    let mut set = is;
    for _ in 0..header.entries {
        let entry = entry_at(body, at, header.tagged).unwrap();
        set = join_entry(body, entry, held, spare, set);
        at = entry.next;
    }
    set
}

// Joins a body that can be read and obeys the gno rule to a set that has been checked, in two work buffers that have room for both.
pub(crate) fn merge<const N: usize>(
    set: &[u8],
    checked: Checked,
    body: &[u8],
    out: &mut [u8],
) -> Result<usize, WriteError>
    requires fits { Fits set.now checked }
    requires body_value { (refusal_of (previous body.now) ≡ 0) × (lawful (entries_of (previous body.now)) ≡ true) }
    requires room { (widest (set_of set.now) + (length body.now - 8 + length body.now / 24) ≤ N) × (N ≤ 2 ^ 40) }
    ensures value { result ≡ answer_of out.old (saved (union (entries_of (previous body.now)) (set_of set.now))) }
    ensures out_after { out.new ≡ output_of out.old (saved (union (entries_of (previous body.now)) (set_of set.now))) }
{
    let mut held = [0u8; N];
    let mut spare = [0u8; N];
    // it has room
    let _ = write_bytes(set, &mut held);
    let joined = join_body(body, &mut held, &mut spare, lent(checked, set.len()));
    write_set(&held[..joined.len], joined, out)
}

// Takes in a body: the set of all its ids is written, in set form. Refused are bodies that can't be read (11, 1, 6), an interval outside
// the gno rule (15), more than an entry (17) or a set may hold (16) and an output that is too short (13).
pub fn take_in(body: &[u8], out: &mut [u8]) -> Result<usize, WriteError>
    ensures value { result ≡ take_in_answers body.now out.old }
    ensures out_after { out.new ≡ take_in_leaves body.now out.old }
{
    let said = read(body)?;
    let read_bytes = &body[..said.used];
    if check(read_bytes).is_ok() {
        return write_bytes(read_bytes, out);
    }
    if !lawful_body(body) {
        return Err(WriteError::Refused(Refusal::BadGno));
    }
    let empty = Checked {
        tagged: false,
        entries: 0,
        intervals: 0,
    };
    merge::<WORK>(&EMPTY, empty, body, out)
}

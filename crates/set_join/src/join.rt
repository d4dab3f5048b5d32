// Joining an interval of a key to a set: first the plan, which writes nothing, and then the set as planned.
ghost use Rattle.std.specs.Prelude.{◌≡◌, ◌++◌, ◌≤◌, ◌<◌, length};
ghost use Rattle.misc.specs.Output.{output_of, answer_of, WhereFits};
ghost use Rattle.previous_gtids_event.specs.Rewrite.{body_bytes};
ghost use Rattle.gtid_sets.specs.Set.{join};
ghost use Rattle.gtid_sets.specs.Limits.{intervals, crowds};
ghost use Rattle.set_join.specs.Answers.{saved};
ghost use Rattle.set_check.specs.SetOf.{set_of, IsSet};
ghost use Rattle.set_join.specs.Find.{Counted, lent_as};
ghost use Rattle.set_join.specs.Join.{extra, PlanIs, Runs, plan_runs};

use crate::find::find;
use crate::put::{put_entries, put_head_of, put_spliced};
use crate::{Held, KeyParts, Plan, Run};
use misc::INTERVAL_LEN;
use misc::bytes::write_bytes;
use misc::put::Put;
use misc::refusal::WriteError;
use previous_gtids_event::rewrite::put_header;
use previous_gtids_event::{ENTRY_HEAD, IntervalRead};
use set_check::limits::{judge, over};
use set_check::{Checked, Cursor, SET_HEADER};
use set_intervals::splice_in;

// A set that has been checked, in so many bytes. No entry of it has too many intervals.
pub(crate) fn lent(checked: Checked, len: usize) -> Held
    ensures { result ≡ lent_as checked len }
{
    Held {
        tagged: checked.tagged,
        entries: checked.entries,
        intervals: checked.intervals,
        crowded: 0,
        len,
    }
}

// So many, if they are wanted.
fn gained(wanted: bool, count: usize) -> usize
    ensures { (result ≡ extra wanted count) × (result ≤ count) }
{
    if wanted { count } else { 0 }
}

// How a set grows by an interval of a key.
pub(crate) fn plan_join(set: &[u8], is: Held, key: KeyParts, span: IntervalRead) -> Plan
    requires set { IsSet set.now is.tagged is.entries × (intervals (set_of set.now) ≡ is.intervals) }
    requires uuid_len { (length key.uuid.now ≡ 16) × (length key.tag.now ≤ 32) }
    requires start_lt_end { span.start < span.end }
    ensures { PlanIs set.now key.entry.uuid.now key.entry.tag.now span.start span.end result }
{
    let entries = Cursor {
        tagged: is.tagged,
        at: SET_HEADER,
        left: is.entries,
    };
    let found = find(set, entries, key);
    let own = found.own;
    let splice = splice_in(&set[own.from..own.to], span.start, span.end);
    let tags = is.tagged | (0 < key.tag.len());
    let widen = tags & !is.tagged;
    let held = own.count - splice.taken + 1;
    let len = found.before.to
        + (ENTRY_HEAD + gained(tags, 1 + key.tag.len()) + INTERVAL_LEN * held)
        + (set.len() - own.to)
        + gained(widen, is.entries);
    Plan {
        tags,
        widen,
        entries: is.entries + gained(own.count == 0, 1),
        intervals: is.intervals - splice.taken + 1,
        held,
        len,
        found,
        splice,
    }
}

// Writes the set as planned, where there is room.
pub(crate) fn put_joined(set: &[u8], key: KeyParts, plan: Plan, out: &mut [u8]) -> usize
    requires { Runs set.now plan × (length key.uuid.now ≡ 16) }
    ensures { WhereFits out.old 0 (plan_runs set.now key.entry.uuid.now key.entry.tag.now plan) out.new result }
{
    let before = plan.found.before;
    let own = plan.found.own;
    let after = Run {
        from: own.to,
        to: set.len(),
        count: plan.entries - (1 + before.count),
    };
    let mut put = Put { out, at: 0 };
    put_header(&mut put, plan.entries as u64, plan.tags);
    put_entries(&mut put, set, before, plan.widen);
    put_head_of(&mut put, key, plan.tags, plan.held as u64);
    put_spliced(&mut put, &set[own.from..own.to], plan.splice);
    put_entries(&mut put, set, after, plan.widen);
    put.at
}

// Writes a set that has been made, if it is within the limits and there is room.
pub(crate) fn write_set(set: &[u8], is: Held, out: &mut [u8]) -> Result<usize, WriteError>
    requires { (body_bytes (set_of set.now) ≡ set.now) × Counted (set_of set.now) is }
    ensures value { result ≡ answer_of out.old (saved (set_of set.now)) }
    ensures out_after { out.new ≡ output_of out.old (saved (set_of set.now)) }
{
    judge(is.crowded, is.entries, is.intervals)?;
    write_bytes(set, out)
}

// Writes the set as planned, if it is within the limits and there is room; no entry of the set before it has too many intervals.
pub(crate) fn write_joined(
    set: &[u8],
    key: KeyParts,
    span: IntervalRead,
    plan: Plan,
    out: &mut [u8],
) -> Result<usize, WriteError>
    requires { PlanIs set.now key.uuid.now key.tag.now span.start span.end plan × (crowds (set_of set.now) ≡ 0)
        × (length key.uuid.now ≡ 16) }
    ensures value { result ≡ answer_of out.old (saved (join (key.entry.uuid.now ++ key.entry.tag.now) span.start span.end (set_of set.now))) }
    ensures out_after { out.new ≡ output_of out.old (saved (join (key.entry.uuid.now ++ key.entry.tag.now) span.start span.end (set_of set.now))) }
{
    judge(over(plan.held), plan.entries, plan.intervals)?;
    if out.len() < plan.len {
        return Err(WriteError::NoRoom(plan.len));
    }
    put_joined(set, key, plan, out);
    Ok(plan.len)
}

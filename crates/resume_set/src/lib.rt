// The resume set: a set of transaction ids, kept as the bytes of a Previous-GTIDs body in set form. `check_set` tells whether bytes are
// one, and `offer` gives a set an event and writes the set after it. What they answer is said by `set_read` and `offer_answers` of
// specs/Answers.antt, and what is written by `offer_leaves`, on `lent_set` of gtid_sets. What needs no event is in set_join: a set begins
// with its `take_in`.
#![tactic(auto)]

ghost use Rattle.std.specs.Prelude.{◌≡◌, ◌++◌, length, take};
ghost use Rattle.gtid_sets.specs.Run.{anonymous, names};
ghost use Rattle.gtid_sets.specs.Lent.{lent_set};
ghost use Rattle.set_join.specs.Answers.{output};
ghost use Rattle.misc.specs.Output.{output_of};
ghost use Rattle.resume_set.specs.Answers.{set_read, offered, offer_answers, offer_leaves};

use gtid_event::{ANONYMOUS_GTID_EVENT, GtidEvent};
use gtid_event_read::read_named;
use misc::bytes::write_bytes;
use misc::refusal::{Refusal, WriteError};
use set_check::check::check;
use set_join::join_id::join_id;

// How many entries and intervals a set has.
#[derive(Clone, Copy)]
pub struct SetRead {
    pub entries: u64,
    pub intervals: u64,
}

// What an offer comes to, with the length of the set that was written.
#[derive(Clone, Copy)]
pub enum Offered {
    NoId(usize),
    AlreadyThere(usize),
    Taken(usize),
}

// Whether bytes are a set in set form and within the set limits, else 14; and how large it is.
pub fn check_set(set: &[u8]) -> Result<SetRead, Refusal>
    ensures { result ≡ set_read (lent_set set.now) }
{
    let checked = check(set)?;
    Ok(SetRead {
        entries: checked.entries as u64,
        intervals: checked.intervals as u64,
    })
}

// Offers the id of an event.
fn offer_id(set: &[u8], event: GtidEvent, out: &mut [u8]) -> Result<Offered, WriteError>
    ensures value { result ≡ offered (lent_set set.now) (names (event.sid ++ take event.tag_len event.tag) event.gno) (length out.old) }
    ensures out_after { out.new ≡ output_of out.old (output (lent_set set.now) (names (event.sid ++ take event.tag_len event.tag) event.gno)) }
{
    let sid = event.sid;
    let tag = event.tag;
    let joined = join_id(set, sid, tag, event.tag_len as usize, event.gno, out);
    let len = joined.wrote?;
    if joined.already {
        return Ok(Offered::AlreadyThere(len));
    }
    Ok(Offered::Taken(len))
}

// Offers an event that names no id.
#[tactic(auto, unfolding(misc::specs::Output::output_of))]
fn offer_none(set: &[u8], out: &mut [u8]) -> Result<Offered, WriteError>
    ensures value { result ≡ offered (lent_set set.now) anonymous (length out.old) }
    ensures out_after { out.new ≡ output_of out.old (output (lent_set set.now) anonymous) }
{
    check(set)?;
    let len = write_bytes(set, out)?;
    Ok(Offered::NoId(len))
}

// Offers an event to a set: "no id" for type 34, "already there" or "taken", and the set after it is written. Refused are bytes that
// are no set (14), what reading the event refuses, a tagged event without its uuid or its gno (21), a gno outside its rule (15), an entry
// (17) or a set (16) that would be too great, and an output that is too short (13). The event is read first, and what joins its id to the
// set checks the set.
#[tactic(auto, unfolding(misc::specs::Output::output_of))]
pub fn offer(set: &[u8], event_type: u8, body: &[u8], out: &mut [u8]) -> Result<Offered, WriteError>
    ensures value { result ≡ offer_answers set.now event_type body.now out.old }
    ensures out_after { out.new ≡ offer_leaves set.now event_type body.now out.old }
{
    match read_named(event_type, body) {
        Ok(said) if event_type != ANONYMOUS_GTID_EVENT => offer_id(set, said.event, out),
        Ok(_) => offer_none(set, out),
        Err(refusal) => {
            check(set)?;
            Err(WriteError::Refused(refusal))
        }
    }
}

// The binlog reader: chunks of a file that end anywhere go in, and each event of type 33, 34 or 42 is offered to a set, and each of type 35
// joined to it, as soon as it is whole. The reader is a small value; its work bytes, the buffer of its set and the room for the set after an
// event are lent with each call. What the calls answer and leave is said by `begin_answers`, `step_answers`, `step_leaves`, `step_holds` and
// `end_answers_of` of specs/Step.antt, on the run over a file's bytes of the crate `binlog`.
#![tactic(auto)]

ghost use Rattle.std.specs.Prelude.{◌≡◌, length};
ghost use Rattle.binlog.specs.Held.{Front};
ghost use Rattle.binlog_reader.specs.Does.{acts, acted_as, ActedIs};
ghost use Rattle.binlog_reader.specs.Step.{stepped, step_of, run_in, step_answers, step_leaves, step_holds, begin_answers, said_in, rests_in, end_answers_of, settled_in};

use binlog::{Phase, walk};
use misc::bytes::{smaller, write_bytes};
use misc::refusal::WriteError;
use previous_gtids_event::PREVIOUS_GTIDS_EVENT;
use resume_set::{Offered, check_set, offer};
use two_sets::join::join;

// What an event was told: an offer's three answers, or that its ids were joined (type 35).
#[derive(Clone, Copy, Debug, PartialEq, Eq)]
pub enum Told {
    NoId,
    AlreadyThere,
    Taken,
    Joined,
}

// What a step says: the chunk is used up and more bytes are wanted; the end was named; what an event was told, its type, and the length of
// its body, which stands at the front of the work bytes; or the number of a refusal and, for 13, the length needed. It is a number because
// `Phase::Stopped` has one: a reader's bytes may come back from C with any, which every later step repeats.
#[derive(Clone, Copy, Debug, PartialEq, Eq)]
pub enum Said {
    MoreWanted,
    Ended,
    Event(Told, u8, usize),
    Refused(u8, usize),
}

// Where in the file the reader is, whether checksums end the events, and the length of the set at the front of its buffer.
#[derive(Clone, Copy, Debug, PartialEq, Eq)]
pub struct Reader {
    pub phase: Phase,
    pub checksums: bool,
    pub len: usize,
}

// What a step says, how many bytes of the chunk it used, and the reader after it.
#[derive(Clone, Copy, Debug, PartialEq, Eq)]
pub struct Answer {
    pub said: Said,
    pub used: usize,
    pub reader: Reader,
}

// ---- inside

// What judging an event comes to: what it was told, and the length of the set that was written.
#[derive(Clone, Copy)]
struct Acted {
    told: Told,
    len: usize,
}

impl From<Offered> for Acted {
    ghost from_gives = { λ offered acted. acted ≡ acted_as offered };

    fn from(offered: Offered) -> Acted {
        let (told, len) = match offered {
            Offered::NoId(len) => (Told::NoId, len),
            Offered::AlreadyThere(len) => (Told::AlreadyThere, len),
            Offered::Taken(len) => (Told::Taken, len),
        };
        Acted { told, len }
    }
}

// An event that is whole.
#[derive(Clone, Copy)]
struct Event<'a> {
    event_type: u8,
    body: &'a [u8],
}

impl Event<'_> {
    // Judges it: the set after it is written to `out`.
    #[tactic(auto, unfolding(crate::specs::Does::acts, misc::specs::Output::output_of, misc::specs::Output::answer_of))]
    fn act(self, set: &[u8], out: &mut [u8]) -> Result<Acted, WriteError>
        ensures { ActedIs (acts (length out.old) set.now self.entry.event_type self.entry.body.now) out.old out.new result }
    {
        if self.event_type == PREVIOUS_GTIDS_EVENT {
            let len = join(set, self.body, out)?;
            return Ok(Acted {
                told: Told::Joined,
                len,
            });
        }
        let offered = offer(set, self.event_type, self.body, out)?;
        Ok(Acted::from(offered))
    }
}

// What is said in a phase where no event was judged.
fn said_in(phase: Phase) -> Said
    ensures { result ≡ said_in phase }
{
    match phase {
        Phase::Opening(_)
        | Phase::Header(_)
        | Phase::Body(_, _, _)
        | Phase::Skip(_)
        | Phase::Whole(_, _) => Said::MoreWanted,
        Phase::Ended => Said::Ended,
        Phase::Stopped(refusal, needed) => Said::Refused(refusal, needed),
    }
}

impl Reader {
    // The reader in a phase where no event was judged.
    fn rest(self, phase: Phase, used: usize) -> Answer
        ensures { result ≡ rests_in self phase used }
    {
        Answer {
            said: said_in(phase),
            used,
            reader: Reader { phase, ..self },
        }
    }

    // Judges the event that a walk found, and keeps the set after it.
    fn settle(self, event: Event, used: usize, set: &mut [u8], spare: &mut [u8]) -> Answer
        ensures value { result ≡ step_answers self (stepped (settled_in self.len set.old (length spare.old) event.entry.event_type event.entry.body.now) used) }
        ensures set_after { set.new ≡ step_leaves set.old (settled_in self.len set.old (length spare.old) event.entry.event_type event.entry.body.now) }
        ensures spare_after { spare.new ≡ step_leaves spare.old (settled_in self.len set.old (length spare.old) event.entry.event_type event.entry.body.now) }
    {
        let kept = smaller(self.len, set.len());
        let room = smaller(set.len(), spare.len());
        match event.act(&set[..kept], &mut spare[..room]) {
            Ok(acted) => {
                let _ = write_bytes(&spare[..acted.len], set);
                Answer {
                    said: Said::Event(acted.told, event.event_type, event.body.len()),
                    used,
                    reader: Reader {
                        phase: Phase::Header(0),
                        len: acted.len,
                        ..self
                    },
                }
            }
            Err(error) => self.rest(Phase::from(error), used),
        }
    }
}

// A reader before the opening of a file, which goes on from a set; bytes that are none are refused with 14, and every step repeats it.
pub fn begin(set: &[u8], checksums: bool) -> Answer
    ensures { result ≡ begin_answers set.now checksums }
{
    let phase = match check_set(set) {
        Ok(_) => Phase::Opening(0),
        Err(refusal) => Phase::from(refusal),
    };
    let reader = Reader {
        phase,
        checksums,
        len: set.len(),
    };
    reader.rest(phase, 0)
}

// Takes bytes of a chunk up to the end of the next event that is offered or joined, a refusal, or the chunk's end, and says one thing; the
// caller goes on with the rest of the chunk. `set` has the set at its front, before and after; `spare` is the room for the set after an
// event, and `work` the reader's own. After a refusal every step repeats it, and uses nothing.
#[tactic(auto, unfolding(crate::specs::Step::steps))]
pub fn step(
    reader: Reader,
    chunk: &[u8],
    work: &mut [u8],
    set: &mut [u8],
    spare: &mut [u8],
) -> Answer
    ensures value { result ≡ step_answers reader (step_of reader work.old set.old (length spare.old) chunk.now) }
    ensures set_after { set.new ≡ step_leaves set.old (run_in (step_of reader work.old set.old (length spare.old) chunk.now)) }
    ensures spare_after { spare.new ≡ step_leaves spare.old (run_in (step_of reader work.old set.old (length spare.old) chunk.now)) }
    ensures front { Front (step_holds (run_in (step_of reader work.old set.old (length spare.old) chunk.now))) work.new }
{
    let walked = walk(reader.phase, reader.checksums, chunk, work);
    let Phase::Whole(event_type, len) = walked.phase else {
        return reader.rest(walked.phase, walked.used);
    };
    let event = Event {
        event_type,
        body: &work[..len],
    };
    reader.settle(event, walked.used, set, spare)
}

// Names the end of the file: inside the opening or an event that is refused with 1. Naming it again repeats the answer.
pub fn end(reader: Reader) -> Answer
    ensures { result ≡ end_answers_of reader }
{
    reader.rest(binlog::end(reader.phase), 0)
}

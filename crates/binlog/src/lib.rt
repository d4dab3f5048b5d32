// The binlog file, read as it arrives: bytes in chunks that end anywhere, from which whole events come out one after another. The reader is
// a small value; its work bytes are lent with each call.
#![tactic(auto)]

ghost use Rattle.std.specs.Prelude.{◌≡◌, true, false, ◌++◌, ◌+◌, ◌≤◌, ◌<◌, length, take};
ghost use Rattle.misc.specs.Refusal.{number, error_number, error_needed};
ghost use Rattle.binlog.specs.declared.Phase.TheVariants.{Stopped};
ghost use Rattle.binlog.specs.Format.{trailer, type_in, size_in, is_read};
ghost use Rattle.binlog.specs.Place.{passed, judged};
ghost use Rattle.binlog.specs.Walk.{waits, walked};
ghost use Rattle.binlog.specs.Held.{work_len, made, needs, sound, place_in, place_of, Front, walk_answers, walk_holds, end_in, end_answers};
ghost use Rattle.binlog.specs.Held.{Starts, Begins, Ready, Moves, Steps, Waiting, WalkIs};

use gtid_event::{ANONYMOUS_GTID_EVENT, GTID_EVENT, GTID_TAGGED_LOG_EVENT};
use misc::MAX_BODY;
use misc::bytes::smaller;
use misc::le::read_u32_le;
use misc::refusal::{Refusal, WriteError};
use previous_gtids_event::PREVIOUS_GTIDS_EVENT;

// An event's header, and the checksum that may end it.
const HEADER: usize = 19;

const TRAILER: usize = 4;

// How many work bytes a reader needs: the longest body and a trailer.
pub const WORK: usize = MAX_BODY + TRAILER;

const OPENING: [u8; 4] = *b"\xfebin";

// Where in a file the reader is.
#[derive(Clone, Copy, Debug, PartialEq, Eq)]
pub enum Phase {
    // So many bytes of the opening have come.
    Opening(usize),
    // So many bytes of a header have come, and stand in the work bytes; none: between two events.
    Header(usize),
    // In an event that is read: its type, how many bytes are to come, and how many came behind the header and stand in the work bytes.
    Body(u8, usize, usize),
    // In an event that is skipped: how many bytes are to come.
    Skip(usize),
    // An event is whole: its type, and the length of its body at the front of the work bytes.
    Whole(u8, usize),
    // The end was named, between two events.
    Ended,
    // The number of the refusal, and the length that it names: with 13 what is needed, with any other 0. It is a number because a reader's
    // bytes may come back from C with any, which every later step repeats (`phase_from` of abi, `Stop` of specs/Stop.antt).
    Stopped(u8, usize),
}

// Where a walk through a chunk came to, and how many bytes of the chunk it used.
#[derive(Clone, Copy, Debug, PartialEq, Eq)]
pub struct Walked {
    pub phase: Phase,
    pub used: usize,
}

impl From<WriteError> for Phase {
    ghost from_gives = { λ error phase. phase ≡ Stopped (error_number error) (error_needed error) };

    fn from(error: WriteError) -> Phase {
        Phase::Stopped(error.number(), error.needed())
    }
}

impl From<Refusal> for Phase {
    ghost from_gives = { λ refusal phase. phase ≡ Stopped (number refusal) 0 };

    fn from(refusal: Refusal) -> Phase {
        Phase::Stopped(refusal.number(), 0)
    }
}

// ---- inside

impl Phase {
    // Whether it is one that this crate makes.
    fn is_made(self) -> bool
        ensures { result ≡ made self }
    {
        match self {
            Phase::Opening(n) => n < OPENING.len(),
            Phase::Header(have) => have < HEADER,
            Phase::Body(_, left, have) => 0 < left && left <= WORK && have <= WORK - left,
            Phase::Skip(left) => 0 < left,
            Phase::Whole(_, len) => len <= WORK,
            Phase::Ended => true,
            Phase::Stopped(refusal, _) => 0 < refusal,
        }
    }

    // How many work bytes it needs.
    fn needed(self) -> usize
        ensures { result ≡ needs self }
    {
        match self {
            Phase::Ended | Phase::Stopped(_, _) => 0,
            _ => WORK,
        }
    }

    // Whether the reader waits for its caller: an event is whole, or it has stopped.
    fn is_waiting(self) -> bool
        ensures { Waiting self result }
    {
        matches!(self, Phase::Whole(_, _) | Phase::Stopped(_, _))
    }

    // The phase after the end was named, in one that a call made.
    fn ended(self) -> Phase
        ensures { result ≡ end_in self }
    {
        match self {
            Phase::Header(0) => Phase::Ended,
            Phase::Opening(_) | Phase::Header(_) | Phase::Body(_, _, _) | Phase::Skip(_) =>
                Phase::from(Refusal::Ended),
            Phase::Whole(_, _) | Phase::Ended | Phase::Stopped(_, _) => self,
        }
    }
}

fn trailer_len(checksums: bool) -> usize
    ensures { (result ≡ trailer checksums) × (result ≤ 4) }
{
    if checksums { TRAILER } else { 0 }
}

// Whether events of a type are read; any other is skipped.
#[tactic(auto, unfolding(crate::specs::Format::is_read))]
fn is_read(event_type: u8) -> bool
    ensures { result ≡ is_read event_type }
{
    matches!(
        event_type,
        GTID_EVENT | ANONYMOUS_GTID_EVENT | PREVIOUS_GTIDS_EVENT | GTID_TAGGED_LOG_EVENT
    )
}

// Copies bytes of a chunk into the work bytes, behind the `have` that stand there. A header mostly comes whole: so few bytes, of a number that
// is known, are copied in place. All others are copied by a loop, as in `misc::bytes`.
fn fill(bytes: &[u8], work: &mut [u8], have: usize)
    requires { have + length bytes.now ≤ length work.old }
    ensures { take (have + length bytes.now) work.new ≡ take have work.old ++ bytes.now }
{
    if bytes.len() == HEADER {
        work[have..have + HEADER].copy_from_slice(&bytes[..HEADER]);
        return;
    }
    for i in 0..bytes.len() {
        work[have + i] = bytes[i];
    }
}

// An event that is read, behind its header: `n` bytes are to come.
fn reading(event_type: u8, n: usize) -> Phase
    requires { n ≤ work_len }
    ensures { Ready event_type n result }
{
    if n == 0 {
        return Phase::Whole(event_type, 0);
    }
    Phase::Body(event_type, n, 0)
}

// An event that is skipped: `n` bytes are to come.
fn skipping(n: usize) -> Phase
    ensures { Starts (passed n) result }
{
    if n == 0 {
        return Phase::Header(0);
    }
    Phase::Skip(n)
}

// What a header's type and the size of its event come to.
#[tactic(auto, unfolding(crate::specs::Place::judged, misc::specs::Body::body_limit))]
fn judge(event_type: u8, size: usize, checksums: bool) -> Result<Phase, Refusal>
    ensures { Begins (judged (trailer checksums) event_type size) result }
{
    let least = HEADER + trailer_len(checksums);
    if size < least {
        return Err(Refusal::BadFile);
    }
    if !is_read(event_type) {
        return Ok(skipping(size - HEADER));
    }
    let body_len = size - least;
    if MAX_BODY < body_len {
        return Err(Refusal::TooLong);
    }
    Ok(reading(event_type, size - HEADER))
}

// Behind a header that is whole.
#[tactic(auto, unfolding(crate::specs::Format::type_in, crate::specs::Format::size_in, misc::specs::Le::le_at, misc::specs::Parse::bytes_at))]
fn behind_header(header: &[u8], checksums: bool) -> Result<Phase, Refusal>
    requires { length header.now ≡ 19 }
    ensures { Begins (judged (trailer checksums) (type_in header.now) (size_in header.now)) result }
{
    let size = read_u32_le(header, 9)?;
    judge(header[4], size.value as usize, checksums)
}

// ---- one part of a walk through what is left of a chunk, at least a byte; it tells how many bytes it used

// A byte of the opening.
#[tactic(auto, unfolding(crate::specs::Format::the_opening))]
fn open_on(n: usize, rest: &[u8]) -> Walked
    requires { (n < 4) × (0 < length rest.now) }
    ensures { Steps rest.now (Phase.Opening n) result.phase result.used }
{
    let phase = if rest[0] != OPENING[n] {
        Phase::from(Refusal::BadFile)
    } else if n + 1 < OPENING.len() {
        Phase::Opening(n + 1)
    } else {
        Phase::Header(0)
    };
    Walked { phase, used: 1 }
}

// Bytes of an event that is skipped.
#[tactic(auto, using(crate::proofs::HeldLaws::skip_moves))]
fn skip_on(left: usize, rest: &[u8]) -> Walked
    requires { (0 < left) × (0 < length rest.now) }
    ensures { Steps rest.now (Phase.Skip left) result.phase result.used }
{
    let used = smaller(left, rest.len());
    Walked {
        phase: skipping(left - used),
        used,
    }
}

// Bytes of a header.
fn head_on(have: usize, checksums: bool, rest: &[u8], work: &mut [u8]) -> Walked
    requires { (have < 19) × (0 < length rest.now) × (work_len ≤ length work.old) }
    ensures { Moves (trailer checksums) rest.now work.old (Phase.Header have) work.new result.phase result.used }
{
    let used = smaller(HEADER - have, rest.len());
    fill(&rest[..used], work, have);
    if have + used < HEADER {
        return Walked {
            phase: Phase::Header(have + used),
            used,
        };
    }
    let phase = match behind_header(&work[..HEADER], checksums) {
        Ok(phase) => phase,
        Err(refusal) => Phase::from(refusal),
    };
    Walked { phase, used }
}

// An event that is read: its type, how many of its bytes are still to come, and how many came.
#[derive(Clone, Copy)]
struct Arriving {
    event_type: u8,
    left: usize,
    have: usize,
}

impl Arriving {
    // More of its bytes.
    fn read_on(self, checksums: bool, rest: &[u8], work: &mut [u8]) -> Walked
        requires { (0 < self.left) × (self.have + self.left ≤ work_len) × (0 < length rest.now) × (work_len ≤ length work.old) }
        ensures { Moves (trailer checksums) rest.now work.old (Phase.Body self.event_type self.left self.have) work.new result.phase result.used }
    {
        let used = smaller(self.left, rest.len());
        fill(&rest[..used], work, self.have);
        let have = self.have + used;
        if used < self.left {
            return Walked {
                phase: Phase::Body(self.event_type, self.left - used, have),
                used,
            };
        }
        let body = have.saturating_sub(trailer_len(checksums));
        Walked {
            phase: Phase::Whole(self.event_type, body),
            used,
        }
    }
}

// The next part of a walk, in a phase where the reader doesn't wait for its caller.
fn move_on(phase: Phase, checksums: bool, rest: &[u8], work: &mut [u8]) -> Walked
    requires { (sound phase (length work.old) ≡ true) × (waits (place_in phase work.old) ≡ false) × (0 < length rest.now) }
    ensures { Moves (trailer checksums) rest.now work.old phase work.new result.phase result.used }
{
    match phase {
        Phase::Opening(n) => open_on(n, rest),
        Phase::Header(have) => head_on(have, checksums, rest, work),
        Phase::Body(event_type, left, have) => {
            let event = Arriving {
                event_type,
                left,
                have,
            };
            event.read_on(checksums, rest, work)
        }
        Phase::Skip(left) => skip_on(left, rest),
        Phase::Ended => Walked {
            phase: Phase::from(Refusal::BadFile),
            used: 1,
        },
        Phase::Whole(_, _) | Phase::Stopped(_, _) => unreachable!(),
    }
}

// Walks on from a phase that is sound, part by part. Not a `for`: each part takes as many bytes as it finds, and an event that is whole ends
// the walk between two parts.
#[tactic(auto, using(crate::proofs::HeldLaws::walk_stops, crate::proofs::HeldLaws::walk_ends))]
fn walk_on(phase: Phase, checksums: bool, chunk: &[u8], work: &mut [u8]) -> Walked
    requires { sound phase (length work.old) ≡ true }
    ensures { WalkIs (walked (trailer checksums) (place_in phase work.old) 0 chunk.now) chunk.now work.new result.phase result.used }
{
    let mut here = phase;
    let mut used = 0;
    while used < chunk.len() && !here.is_waiting() {
        let moved = move_on(here, checksums, &chunk[used..], work);
        here = moved.phase;
        used += moved.used;
    }
    Walked { phase: here, used }
}

// Walks through a chunk, up to the first event that is whole, a refusal, or the chunk's end. A phase that no call made is refused with 12,
// fewer work bytes than it needs with 13. The body of an event that is whole stands at the front of the work bytes.
#[tactic(auto, using(crate::proofs::AnswerLaws::walk_laws), unfolding(crate::specs::Held::place_of))]
pub fn walk(phase: Phase, checksums: bool, chunk: &[u8], work: &mut [u8]) -> Walked
    ensures value { result ≡ walk_answers (walked (trailer checksums) (place_of phase work.old) 0 chunk.now) }
    ensures front { Front (walk_holds (walked (trailer checksums) (place_of phase work.old) 0 chunk.now)) work.new }
{
    if !phase.is_made() {
        return Walked {
            phase: Phase::from(Refusal::NotWritable),
            used: 0,
        };
    }
    if work.len() < phase.needed() {
        return Walked {
            phase: Phase::from(WriteError::NoRoom(WORK)),
            used: 0,
        };
    }
    walk_on(phase, checksums, chunk, work)
}

// Names the end of the file: inside the opening or an event that is refused with 1. Naming it again repeats the answer.
#[tactic(auto, unfolding(crate::specs::Held::end_answers))]
pub fn end(phase: Phase) -> Phase
    ensures { result ≡ end_answers phase }
{
    if !phase.is_made() {
        return Phase::from(Refusal::NotWritable);
    }
    phase.ended()
}

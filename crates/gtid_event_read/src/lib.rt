// Reading a GTID event: types 33 and 34 untagged, 42 tagged.
#![tactic(auto)]

ghost use Rattle.std.specs.Prelude.{◌≡◌};
ghost use Rattle.misc.specs.Body.{used_of, unread_of, onward};
ghost use Rattle.gtid_event_read.specs.Read.{seen, gtid, named, gtid_read, tells_id};

use gtid_event::{ANONYMOUS_GTID_EVENT, GTID_EVENT, GTID_TAGGED_LOG_EVENT, GtidEvent, field_id};
use misc::refusal::Refusal;
use misc::{MAX_BODY, UUID_LEN};
use packets::MAX_TAG;

mod field;
mod tagged;
mod untagged;

// A record that was read and the bytes used, and of a tagged event which of the twelve fields were there: bit k tells of the field with
// the id k.
#[derive(Clone, Copy)]
pub struct GtidRead {
    pub used: usize,
    pub event: GtidEvent,
    pub present: u16,
}

// The fields of a tagged event that were read so far: the numbers by the ids of their fields, the uuid and the tag, and which
// of the twelve fields were there.
#[derive(Clone, Copy)]
pub struct Fields {
    pub numbers: [u64; field_id::FIELDS],
    pub sid: [u8; UUID_LEN],
    pub tag: [u8; MAX_TAG],
    pub tag_len: u8,
    pub present: [bool; field_id::FIELDS],
}

// The record in a body of this event type, the bytes used, and the fields that were there.
pub fn read(event_type: u8, body: &[u8]) -> Result<GtidRead, Refusal>
    ensures { result ≡ gtid_read (seen event_type body.now) }
{
    if MAX_BODY < body.len() {
        return Err(Refusal::TooLong);
    }
    match event_type {
        GTID_EVENT | ANONYMOUS_GTID_EVENT => untagged::deserialize_untagged(body),
        GTID_TAGGED_LOG_EVENT => tagged::deserialize_tagged(body),
        _ => Err(Refusal::WrongType),
    }
}

// Whether the uuid and the gno were sent, where an event of this type sends fields.
fn sends_id(event_type: u8, present: u16) -> bool
    ensures { result ≡ tells_id event_type present }
{
    if event_type == GTID_TAGGED_LOG_EVENT {
        return ((present >> field_id::SID) % 2 == 1) & ((present >> field_id::GNO) % 2 == 1);
    }
    true
}

// The same where the event's id is asked for, by an offer or a listing: after all else a tagged event is refused whose uuid or gno was
// not sent.
pub fn read_named(event_type: u8, body: &[u8]) -> Result<GtidRead, Refusal>
    ensures { result ≡ gtid_read (named event_type body.now) }
{
    let said = read(event_type, body)?;
    if sends_id(event_type, said.present) {
        return Ok(said);
    }
    Err(Refusal::AbsentId)
}

// The caller's own bytes after those that were used; none where the body is refused.
pub fn unread(event_type: u8, body: &[u8]) -> &[u8]
    ensures result_value { result.now ≡ unread_of body.now (gtid event_type body.now) }
    ensures ref_ptr_value { result.ref_ptr ≡ onward body.entry.ref_ptr (used_of (gtid event_type body.now)) }
{
    match read(event_type, body) {
        Ok(said) => &body[said.used..],
        Err(_) => &body[..0],
    }
}

// Tagged events: version byte, payload size, last non-ignorable field id, and the fields.
ghost use Rattle.std.specs.Prelude.{◌≡◌};
ghost use Rattle.misc.specs.Pick.{pick};
ghost use Rattle.misc.specs.Parse.{parsed};
ghost use Rattle.gtid_event_read.specs.Tagged.{record_of, finished, payload_at, tagged};
ghost use Rattle.gtid_event_read.specs.Seen.{bits_of};
ghost use Rattle.gtid_event_read.specs.Read.{gtid_read};
ghost use Rattle.gtid_event_read.specs.Range.{InRange};

use crate::field::read_fields;
use crate::{Fields, GtidRead};
use gtid_event::{GtidEvent, TAGGED_SERIALIZATION_VERSION_V2, field_id};
use misc::refusal::Refusal;
use misc::varlen::read_varlen_uint;

// The original where it was sent, otherwise the immediate.
fn sent_or(sent: bool, original: u64, immediate: u64) -> u64
    ensures { result ≡ pick sent original immediate }
{
    if sent { original } else { immediate }
}

// The record of the fields.
fn record_of(f: Fields) -> GtidEvent
    requires { InRange f.numbers }
    ensures { result ≡ record_of f }
{
    let numbers = f.numbers;
    let sid = f.sid;
    let tag = f.tag;
    let present = f.present;
    GtidEvent {
        flags: numbers[field_id::GTID_FLAGS] as u8,
        sid,
        gno: numbers[field_id::GNO],
        tag,
        tag_len: f.tag_len,
        lc_typecode: 0,
        last_committed: numbers[field_id::LAST_COMMITTED],
        sequence_number: numbers[field_id::SEQUENCE_NUMBER],
        immediate_commit_timestamp: numbers[field_id::IMMEDIATE_COMMIT_TIMESTAMP],
        original_commit_timestamp: sent_or(
            present[field_id::ORIGINAL_COMMIT_TIMESTAMP],
            numbers[field_id::ORIGINAL_COMMIT_TIMESTAMP],
            numbers[field_id::IMMEDIATE_COMMIT_TIMESTAMP],
        ),
        tx_length: numbers[field_id::TRANSACTION_LENGTH],
        immediate_server_version: numbers[field_id::IMMEDIATE_SERVER_VERSION] as u32,
        original_server_version: sent_or(
            present[field_id::ORIGINAL_SERVER_VERSION],
            numbers[field_id::ORIGINAL_SERVER_VERSION],
            numbers[field_id::IMMEDIATE_SERVER_VERSION],
        ) as u32,
        commit_group_ticket: numbers[field_id::COMMIT_GROUP_TICKET],
    }
}

// Which fields were there, from the last on: bit k tells of the field with the id k.
fn bits_of(present: [bool; field_id::FIELDS]) -> u16
    ensures { result ≡ bits_of present }
{
    let mut bits: u16 = 0;
    for id in (0..field_id::FIELDS).rev() {
        bits = 2 * bits + present[id] as u16;
    }
    bits
}

// The fields have ended: a tag must have been sent.
fn finished(f: Fields, used: usize) -> Result<GtidRead, Refusal>
    requires { InRange f.numbers }
    ensures { result ≡ gtid_read (finished used (parsed f 0)) }
{
    let present = f.present;
    if present[field_id::TAG] {
        return Ok(GtidRead {
            used,
            event: record_of(f),
            present: bits_of(present),
        });
    }
    Err(Refusal::NoTag)
}

// The payload, whose fields begin at `start`. They are read from a part of the body that ends where the payload ends.
fn read_payload(
    body: &[u8],
    payload_size: u64,
    last_non_ignorable_field_id: u64,
    start: usize,
) -> Result<GtidRead, Refusal>
    ensures { result ≡ gtid_read (payload_at body.now payload_size last_non_ignorable_field_id start) }
{
    if payload_size < (start as u64) {
        return Err(Refusal::SmallPayload);
    }
    if (body.len() as u64) < payload_size {
        return Err(Refusal::Ended);
    }
    let end = payload_size as usize;
    let fields = read_fields(&body[start..end], last_non_ignorable_field_id)?;
    finished(fields, end)
}

pub(crate) fn deserialize_tagged(body: &[u8]) -> Result<GtidRead, Refusal>
    ensures { result ≡ gtid_read (tagged body.now) }
{
    if body.len() < 1 {
        return Err(Refusal::Ended);
    }
    if body[0] != TAGGED_SERIALIZATION_VERSION_V2 {
        return Err(Refusal::WrongVersion);
    }
    let payload_size = read_varlen_uint(body, 1)?;
    let last_non_ignorable_field_id = read_varlen_uint(body, payload_size.next)?;
    read_payload(
        body,
        payload_size.value,
        last_non_ignorable_field_id.value,
        last_non_ignorable_field_id.next,
    )
}

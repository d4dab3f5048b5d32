// The tagged layout: a version byte, the payload size, the last non-ignorable id, and fields that begin with their id.
ghost use Rattle.std.specs.Prelude.{◌≡◌, [], ◌∷◌, ◌++◌, true, ◌≤◌, length, take};
ghost use Rattle.misc.specs.Output.{bytes, output_of, answer_of, Placed};
ghost use Rattle.misc.specs.Put.{PutsWhereFits};
ghost use Rattle.misc.specs.Varlen.{varlen_bytes};
ghost use Rattle.gtid_event_write.specs.Layout.{identity_bytes, clock_bytes, rest_bytes, field_bytes, tagged_bytes};
ghost use Rattle.gtid_event_write.specs.Writable.{writable_tagged};

use crate::put::{put_id, put_item, put_number, put_serialized_uuid, put_small, put_unless};
use crate::size::record_size;
use gtid_event::{GtidEvent, TAGGED_SERIALIZATION_VERSION_V2, field_id};
use misc::put::Put;
use misc::refusal::WriteError;
use packets::MAX_TAG;

// The server marks all fields as ignorable.
const LAST_NON_IGNORABLE_FIELD_ID: u8 = 0;

const COMMIT_GROUP_TICKET_UNSET: u64 = 0;

// A record that can be written has no more.
const MOST_FIELD_BYTES: usize = 152;

fn put_tag(put: &mut Put<'_>, tag: [u8; MAX_TAG], tag_len: u8)
    requires { tag_len ≤ 32 }
    ensures { PutsWhereFits put.old (varlen_bytes 3 ++ varlen_bytes tag_len ++ take tag_len tag) put.new }
{
    let len = tag_len as usize;
    put_id(put, field_id::TAG);
    put.sized(&tag[..len]);
}

// Fields 0 to 3. A signed integer that isn't negative is sent as its double.
fn put_identity(put: &mut Put<'_>, event: GtidEvent)
    requires { writable_tagged event ≡ true }
    ensures { PutsWhereFits put.old (identity_bytes event) put.new }
{
    let sid = event.sid;
    let tag = event.tag;
    put_id(put, field_id::GTID_FLAGS);
    put_item(put, event.flags);
    put_id(put, field_id::SID);
    put_serialized_uuid(put, sid);
    put_number(put, field_id::GNO, event.gno * 2);
    put_tag(put, tag, event.tag_len);
}

// Fields 4 to 7.
fn put_clock(put: &mut Put<'_>, event: GtidEvent)
    requires { writable_tagged event ≡ true }
    ensures { PutsWhereFits put.old (clock_bytes event) put.new }
{
    let immediate = event.immediate_commit_timestamp;
    let original = event.original_commit_timestamp;
    put_number(put, field_id::LAST_COMMITTED, event.last_committed * 2);
    put_number(put, field_id::SEQUENCE_NUMBER, event.sequence_number * 2);
    put_number(put, field_id::IMMEDIATE_COMMIT_TIMESTAMP, immediate);
    put_unless(
        put,
        field_id::ORIGINAL_COMMIT_TIMESTAMP,
        original,
        immediate,
    );
}

// Fields 8 to 11.
fn put_rest(put: &mut Put<'_>, event: GtidEvent)
    ensures { PutsWhereFits put.old (rest_bytes event) put.new }
{
    let immediate = event.immediate_server_version as u64;
    let original = event.original_server_version as u64;
    let ticket = event.commit_group_ticket;
    put_number(put, field_id::TRANSACTION_LENGTH, event.tx_length);
    put_number(put, field_id::IMMEDIATE_SERVER_VERSION, immediate);
    put_unless(put, field_id::ORIGINAL_SERVER_VERSION, original, immediate);
    put_unless(
        put,
        field_id::COMMIT_GROUP_TICKET,
        ticket,
        COMMIT_GROUP_TICKET_UNSET,
    );
}

// All fields, into room for as many bytes as they can have.
fn write_tagged_fields_v2(event: GtidEvent, fields: &mut [u8]) -> usize
    requires { (writable_tagged event ≡ true) × (152 ≤ length fields.old) }
    ensures { Placed fields.old 0 (field_bytes event) fields.new result × (result ≤ 152) }
{
    let mut put = Put { out: fields, at: 0 };
    put_identity(&mut put, event);
    put_clock(&mut put, event);
    put_rest(&mut put, event);
    put.at
}

// The payload size counts the whole event, so it is also its length.
pub(crate) fn len_tagged_v2(event: GtidEvent) -> usize
    requires { writable_tagged event ≡ true }
    ensures { result ≡ length (tagged_bytes event) }
{
    let mut fields = [0u8; MOST_FIELD_BYTES];
    let len = write_tagged_fields_v2(event, &mut fields);
    record_size(len)
}

fn put_envelope(put: &mut Put<'_>, payload_size: u8)
    ensures { PutsWhereFits put.old ((2 ∷ []) ++ varlen_bytes payload_size ++ varlen_bytes 0) put.new }
{
    put.byte(TAGGED_SERIALIZATION_VERSION_V2);
    put_item(put, payload_size);
    put_small(put, LAST_NON_IGNORABLE_FIELD_ID);
}

pub(crate) fn serialize_tagged_v2(event: GtidEvent, out: &mut [u8]) -> Result<usize, WriteError>
    requires { writable_tagged event ≡ true }
    ensures value { result ≡ answer_of out.old (bytes (tagged_bytes event)) }
    ensures out_after { out.new ≡ output_of out.old (bytes (tagged_bytes event)) }
{
    let mut fields = [0u8; MOST_FIELD_BYTES];
    let len = write_tagged_fields_v2(event, &mut fields);
    let payload_size = record_size(len);
    if out.len() < payload_size {
        return Err(WriteError::NoRoom(payload_size));
    }
    let mut put = Put { out, at: 0 };
    put_envelope(&mut put, payload_size as u8);
    put.bytes(&fields[..len]);
    Ok(payload_size)
}

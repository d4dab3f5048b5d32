// The fields of a tagged event: one field, and all of them.
ghost use Rattle.std.specs.Prelude.{◌≡◌, ◌<◌, leb, Ok, Err, MatchResult};
ghost use Rattle.misc.specs.Pick.{pick};
ghost use Rattle.misc.specs.Refusal.{unknown_field};
ghost use Rattle.misc.specs.Parse.{refuse, parsed, mapped, answered, read_of};
ghost use Rattle.gtid_event_read.specs.Kept.{Kept};
ghost use Rattle.gtid_event_read.specs.Fields.{kind_of, no_fields, with_number, with_uuid, with_tag_bytes, limited_at, uuid_at, string_at, tag_at, value_at, field_at, fields_of};

use crate::Fields;
use gtid_event::{MOST_OF_BYTE, MOST_OF_VERSION, UNDEFINED_SERVER_VERSION, field_id};
use misc::bytes::left_at;
use misc::refusal::Refusal;
use misc::signed::read_varlen_natural;
use misc::varlen::read_varlen_uint;
use misc::{Read, UUID_LEN};
use packets::{MAX_TAG, is_tag, tag_bytes};

// An integer that is at most `limit`, the most that the record holds where it is kept: so the casts are exact, of a uuid's bytes below and
// of flags and versions in `record_of`.
fn read_limited(s: &[u8], at: usize, limit: u64) -> Result<Read<u64>, Refusal>
    ensures { result ≡ read_of (limited_at limit s.now at) }
{
    let read = read_varlen_uint(s, at)?;
    if read.value <= limit {
        return Ok(read);
    }
    Err(Refusal::TooLarge)
}

// 16 integers, each judged before the next is read.
fn read_serialized_uuid(s: &[u8], at: usize) -> Result<Read<[u8; UUID_LEN]>, Refusal>
    ensures { result ≡ read_of (uuid_at s.now at) }
{
    let mut value = [0u8; UUID_LEN];
    let mut next = at;
    for b in value.iter_mut() {
        let byte = read_limited(s, next, MOST_OF_BYTE)?;
        *b = byte.value as u8;
        next = byte.next;
    }
    Ok(Read { value, next })
}

// A length, and so many bytes.
fn read_varlen_string(s: &[u8], at: usize) -> Result<Read<&[u8]>, Refusal>
    ensures { MatchResult result (λ read. string_at s.now at ≡ parsed read.value.now read.next) (λ refusal. string_at s.now at ≡ refuse refusal) }
{
    let len = read_varlen_uint(s, at)?;
    let start = len.next;
    if (left_at(s, start) as u64) < len.value {
        return Err(Refusal::Ended);
    }
    let next = start + (len.value as usize);
    let value = &s[start..next];
    Ok(Read { value, next })
}

impl Fields {
    // Nothing was read: all zero, but for the server version.
    fn none() -> Self
        ensures { result ≡ no_fields }
    {
        let mut numbers = [0u64; field_id::FIELDS];
        numbers[field_id::IMMEDIATE_SERVER_VERSION] = UNDEFINED_SERVER_VERSION as u64;
        Self {
            numbers,
            sid: [0u8; UUID_LEN],
            tag: [0u8; MAX_TAG],
            tag_len: 0,
            present: [false; field_id::FIELDS],
        }
    }

    // Keeps the number of the field `id`; the last of a repeated field counts.
    fn keep_number(&mut self, id: usize, number: u64)
        requires { id < 12 }
        ensures { self.new ≡ with_number id self.old number }
    {
        self.numbers[id] = number;
        self.present[id] = true;
    }

    fn read_uuid(&mut self, s: &[u8], at: usize) -> Result<usize, Refusal>
        ensures { Kept (mapped (with_uuid self.old) (uuid_at s.now at)) self.new result }
    {
        let read = read_serialized_uuid(s, at)?;
        let sid = read.value;
        self.sid = sid;
        self.present[field_id::SID] = true;
        Ok(read.next)
    }

    // A string that obeys the tag rule.
    fn read_tag(&mut self, s: &[u8], at: usize) -> Result<usize, Refusal>
        ensures { Kept (mapped (with_tag_bytes self.old) (tag_at s.now at)) self.new result }
    {
        let read = read_varlen_string(s, at)?;
        let tag = read.value;
        if is_tag(tag) {
            self.tag = tag_bytes(tag);
            self.tag_len = tag.len() as u8;
            self.present[field_id::TAG] = true;
            return Ok(read.next);
        }
        Err(Refusal::BadTag)
    }

    // The value of the field `id`.
    fn read_value(
        &mut self,
        s: &[u8],
        last_non_ignorable_field_id: u64,
        id: u64,
        at: usize,
    ) -> Result<usize, Refusal>
        ensures { Kept (value_at (kind_of id) last_non_ignorable_field_id id s.now self.old at) self.new result }
    {
        let field = id as usize;
        let number = match field {
            field_id::GTID_FLAGS => read_limited(s, at, MOST_OF_BYTE)?,
            field_id::SID => return self.read_uuid(s, at),
            field_id::GNO => read_varlen_natural(s, at)?,
            field_id::TAG => return self.read_tag(s, at),
            field_id::LAST_COMMITTED => read_varlen_natural(s, at)?,
            field_id::SEQUENCE_NUMBER => read_varlen_natural(s, at)?,
            field_id::IMMEDIATE_COMMIT_TIMESTAMP => read_varlen_uint(s, at)?,
            field_id::ORIGINAL_COMMIT_TIMESTAMP => read_varlen_uint(s, at)?,
            field_id::TRANSACTION_LENGTH => read_varlen_uint(s, at)?,
            field_id::IMMEDIATE_SERVER_VERSION => read_limited(s, at, MOST_OF_VERSION)?,
            field_id::ORIGINAL_SERVER_VERSION => read_limited(s, at, MOST_OF_VERSION)?,
            field_id::COMMIT_GROUP_TICKET => read_varlen_uint(s, at)?,
            _ => return skipped(id, last_non_ignorable_field_id, s.len()),
        };
        self.keep_number(field, number.value);
        Ok(number.next)
    }

    // A field: its id, and then its value.
    fn read_field(
        &mut self,
        s: &[u8],
        last_non_ignorable_field_id: u64,
        at: usize,
    ) -> Result<usize, Refusal>
        ensures { Kept (field_at last_non_ignorable_field_id s.now self.old at) self.new result }
    {
        let id = read_varlen_uint(s, at)?;
        self.read_value(s, last_non_ignorable_field_id, id.value, id.next)
    }
}

// A field that isn't known ends the fields if it may be ignored: it can't be skipped, since its length isn't known.
fn skipped(id: u64, last_non_ignorable_field_id: u64, end: usize) -> Result<usize, Refusal>
    ensures { result ≡ pick (leb id last_non_ignorable_field_id) (Err unknown_field) (Ok end) }
{
    if id <= last_non_ignorable_field_id {
        return Err(Refusal::UnknownField);
    }
    Ok(end)
}

// Field after field up to the end of `s`.
pub(crate) fn read_fields(s: &[u8], last_non_ignorable_field_id: u64) -> Result<Fields, Refusal>
    ensures { result ≡ answered (λ fields _. fields) (fields_of last_non_ignorable_field_id s.now) }
{
    let mut fields = Fields::none();
    let mut at = 0;
    // A `while`: the next place is what reading a field finds, and no index is counted.
    while at < s.len() {
        at = fields.read_field(s, last_non_ignorable_field_id, at)?;
    }
    Ok(fields)
}

// Reading a body: whole, or one entry or interval at a time.
ghost use Rattle.std.specs.Prelude.{◌≡◌, ◌+◌, ◌*◌, ◌≤◌, length, IfOk};
ghost use Rattle.misc.specs.Body.{of_body, used_of, unread_of, onward};
ghost use Rattle.misc.specs.Le.{le_at};
ghost use Rattle.previous_gtids_event.specs.Previous.{tag_at, head_at, interval_at, entry_at, previous};
ghost use Rattle.previous_gtids_event.specs.Answers.{previous_read, header_read, entry_read, interval_read};
ghost use Rattle.previous_gtids_event.specs.Inside.{tag_read, head_read, whole_read};

use crate::{
    COUNT_TOP, EntryRead, FIRST_ENTRY, HeadRead, HeaderRead, IntervalRead, PreviousRead, TOP_ONE,
};
use misc::bytes::left_at;
use misc::le::read_u64_le;
use misc::refusal::Refusal;
use misc::varlen::read_varlen_uint;
use misc::{INTERVAL_LEN, MAX_BODY, Read, UUID_LEN};
use packets::{none_or_tag, tag_bytes, uuid_bytes};

// How long the tag at a place is, none in an untagged body. It is judged once the whole of it is there.
fn tag_at(body: &[u8], at: usize, tagged: bool) -> Result<Read<usize>, Refusal>
    ensures { result ≡ tag_read (tag_at tagged body.now at) }
{
    if !tagged {
        return Ok(Read { value: 0, next: at });
    }
    let size = read_varlen_uint(body, at)?;
    let len = size.value as usize;
    if left_at(body, size.next) < len {
        return Err(Refusal::Ended);
    }
    let next = size.next + len;
    if none_or_tag(&body[size.next..next]) {
        return Ok(Read { value: len, next });
    }
    Err(Refusal::BadTag)
}

// The head of the entry at a place: uuid, tag and count.
fn head_at(body: &[u8], at: usize, tagged: bool) -> Result<HeadRead, Refusal>
    ensures { result ≡ head_read (head_at tagged body.now at) }
{
    if left_at(body, at) < UUID_LEN {
        return Err(Refusal::Ended);
    }
    let tag = tag_at(body, at + UUID_LEN, tagged)?;
    let count = read_u64_le(body, tag.next)?;
    Ok(HeadRead {
        tag_len: tag.value,
        intervals: count.value,
        first: count.next,
    })
}

// The head of the entry at a place, and the place behind the entry, once all the intervals that its head announces are there:
// so many lie in what is left.
pub(crate) fn whole_at(body: &[u8], at: usize, tagged: bool) -> Result<Read<HeadRead>, Refusal>
    ensures value { result ≡ whole_read (entry_at tagged body.now at) }
    ensures places { IfOk result (λ read. (at + 24 + read.value.tag_len ≤ read.value.first)
        × (read.next ≡ read.value.first + 16 * read.value.intervals) × (read.next ≤ length body.now)) }
{
    let head = head_at(body, at, tagged)?;
    let room = left_at(body, head.first) / INTERVAL_LEN;
    if (room as u64) < head.intervals {
        return Err(Refusal::Ended);
    }
    Ok(Read {
        value: head,
        next: head.first + INTERVAL_LEN * (head.intervals as usize),
    })
}

// The entry at a place, wherever that is.
pub fn entry_at(body: &[u8], at: usize, tagged: bool) -> Result<EntryRead, Refusal>
    ensures { result ≡ entry_read (of_body body.now (entry_at tagged body.now at)) }
{
    if MAX_BODY < body.len() {
        return Err(Refusal::TooLong);
    }
    let read = whole_at(body, at, tagged)?;
    let head = read.value;
    let tag_end = head.first - 8;
    let tag = tag_end - head.tag_len;
    Ok(EntryRead {
        uuid: uuid_bytes(&body[at..]),
        tag: tag_bytes(&body[tag..tag_end]),
        tag_len: head.tag_len,
        intervals: head.intervals,
        first: head.first,
        next: read.next,
    })
}

// The interval that has so many before it from the place of the first on.
pub fn interval_at(body: &[u8], first: usize, index: u64) -> Result<IntervalRead, Refusal>
    ensures { result ≡ interval_read (of_body body.now (interval_at body.now (first + 16 * index))) }
{
    if MAX_BODY < body.len() {
        return Err(Refusal::TooLong);
    }
    let whole = left_at(body, first) / INTERVAL_LEN;
    if (whole as u64) <= index {
        return Err(Refusal::Ended);
    }
    let start = read_u64_le(body, first + INTERVAL_LEN * (index as usize))?;
    let end = read_u64_le(body, start.next)?;
    Ok(IntervalRead {
        start: start.value,
        end: end.value,
    })
}

// What a caller needs to walk the entries, which begin at `FIRST_ENTRY`.
pub fn header_of(body: &[u8]) -> Result<HeaderRead, Refusal>
    ensures { result ≡ header_read (of_body body.now (le_at 8 body.now 0)) }
{
    if MAX_BODY < body.len() {
        return Err(Refusal::TooLong);
    }
    let header = read_u64_le(body, 0)?.value;
    let tagged = header >> 56 != 0;
    let entries = if tagged {
        (header >> 8) % COUNT_TOP
    } else {
        header % TOP_ONE
    };
    Ok(HeaderRead { tagged, entries })
}

// Reads a whole body.
pub fn read(body: &[u8]) -> Result<PreviousRead, Refusal>
    ensures { result ≡ previous_read (previous body.now) }
{
    let header = header_of(body)?;
    let mut at = FIRST_ENTRY;
    for _ in 0..header.entries {
        at = whole_at(body, at, header.tagged)?.next;
    }
    Ok(PreviousRead {
        used: at,
        entries: header.entries,
    })
}

// The caller's own bytes behind those that were read; none where the body is refused.
pub fn unread(body: &[u8]) -> &[u8]
    ensures result_value { result.now ≡ unread_of body.now (previous body.now) }
    ensures ref_ptr_value { result.ref_ptr ≡ onward body.entry.ref_ptr (used_of (previous body.now)) }
{
    match read(body) {
        Ok(read) => &body[read.used..],
        Err(_) => &body[..0],
    }
}

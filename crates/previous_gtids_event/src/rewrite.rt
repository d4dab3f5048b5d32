// Writing the entries of a body anew: tagged only if one of them has a tag, and every length in its shortest form.
ghost use Rattle.std.specs.Prelude.{◌≡◌, ◌+◌, ◌-◌, ◌^◌, ◌≤◌, length, IfOk};
ghost use Rattle.misc.specs.Pick.{pick};
ghost use Rattle.misc.specs.Parse.{many, refusal_of};
ghost use Rattle.misc.specs.Body.{used_of};
ghost use Rattle.misc.specs.Output.{output_of, answer_of};
ghost use Rattle.misc.specs.Put.{Puts, PutsWhereFits};
ghost use Rattle.previous_gtids_event.specs.Previous.{entry_at, previous};
ghost use Rattle.previous_gtids_event.specs.Rewrite.{tag_bytes, head_run, header_bytes, rewritten};
ghost use Rattle.previous_gtids_event.specs.Inside.{sizes_read, entry_bytes_of, entries_bytes_of};

use crate::read::{header_of, whole_at};
use crate::{COUNT_TOP, ENTRY_HEAD, FIRST_ENTRY, HeaderRead, Sizes, TOP_ONE};
use misc::put::Put;
use misc::refusal::{Refusal, WriteError};
use misc::varlen::varlen_uint_size;
use misc::{INTERVAL_LEN, UUID_LEN};

// The first pass: the sizes of the entries behind the header.
fn sizes_of(body: &[u8], header: HeaderRead) -> Result<Sizes, Refusal>
    requires { (8 ≤ length body.now) × (length body.now ≤ 2 ^ 16) }
    ensures value { result ≡ sizes_read (many (entry_at header.tagged body.now) header.entries 8) }
    ensures within { IfOk result (λ sizes. (sizes.plain ≤ 2 ^ 16) × (sizes.full ≤ 2 ^ 17)) }
{
    let mut at = FIRST_ENTRY;
    let mut tagged = false;
    let mut plain: usize = 0;
    let mut full: usize = 0;
    for _ in 0..header.entries {
        let read = whole_at(body, at, header.tagged)?;
        let tag_len = read.value.tag_len;
        let size = ENTRY_HEAD + INTERVAL_LEN * (read.value.intervals as usize);
        tagged |= 0 < tag_len;
        plain += size;
        full += size + varlen_uint_size(tag_len as u64) + tag_len;
        at = read.next;
    }
    Ok(Sizes {
        tagged,
        plain,
        full,
    })
}

impl Sizes {
    // The length of a body of these entries.
    fn body_len(self, tags: bool) -> usize
        requires { (self.plain ≤ 2 ^ 16) × (self.full ≤ 2 ^ 17) }
        ensures { result ≡ 8 + pick tags self.full self.plain }
    {
        if tags {
            return FIRST_ENTRY + self.full;
        }
        FIRST_ENTRY + self.plain
    }
}

// A tag behind its length, where tags are wanted.
pub fn put_tag(put: &mut Put<'_>, tag: &[u8], tags: bool)
    ensures { Puts put.old (tag_bytes tags tag.now) put.new }
{
    if tags {
        put.sized(tag);
    }
}

// What is left of a room behind a tag.
fn left_behind_tag(tag: &[u8], tags: bool, room: usize) -> usize
    ensures { result ≡ room - length (tag_bytes tags tag.now) }
{
    if tags {
        let len = tag.len();
        return room
            .saturating_sub(varlen_uint_size(len as u64))
            .saturating_sub(len);
    }
    room
}

// The head of an entry: its uuid, its tag, and how many intervals follow.
pub fn put_head(put: &mut Put<'_>, uuid: &[u8], tag: &[u8], tags: bool, count: u64)
    ensures { Puts put.old (head_run uuid.now tags tag.now count) put.new }
{
    let room = put.left().saturating_sub(uuid.len());
    if left_behind_tag(tag, tags, room) < 8 {
        return;
    }
    put.bytes(uuid);
    put_tag(put, tag, tags);
    put.u64_le(count);
}

// The entry at a place of the body, which has been read before: its key, and then the count and the intervals as they stand in the body.
// Returns the place of the next.
fn put_entry(put: &mut Put<'_>, body: &[u8], from: usize, tagged: bool, tags: bool) -> usize
    requires { refusal_of (entry_at tagged body.now from) ≡ 0 }
    ensures next_value { result ≡ used_of (entry_at tagged body.now from) }
    ensures where_fits { PutsWhereFits put.old (entry_bytes_of tags (entry_at tagged body.now from)) put.new }
{
    let read = whole_at(body, from, tagged).unwrap();
    let head = read.value;
    let tag_end = head.first - 8;
    let tag = tag_end - head.tag_len;
    let uuid_end = from + UUID_LEN;
    put.bytes(&body[from..uuid_end]);
    put_tag(put, &body[tag..tag_end], tags);
    put.bytes(&body[tag_end..read.next]);
    read.next
}

// The second pass: the entries behind the header, which have been read before.
fn put_entries(put: &mut Put<'_>, body: &[u8], header: HeaderRead, tags: bool)
    requires { refusal_of (many (entry_at header.tagged body.now) header.entries 8) ≡ 0 }
    ensures { PutsWhereFits put.old (entries_bytes_of tags (many (entry_at header.tagged body.now) header.entries 8)) put.new }
{
    let mut from = FIRST_ENTRY;
    for _ in 0..header.entries {
        from = put_entry(put, body, from, header.tagged, tags);
    }
}

// The header: the count, and where tags follow 1 in the bytes below and above the six of the count.
pub fn put_header(put: &mut Put<'_>, count: u64, tagged: bool)
    ensures { Puts put.old (header_bytes tagged count) put.new }
{
    if tagged {
        put.u64_le(TOP_ONE + (count % COUNT_TOP) * 256 + 1);
    } else {
        put.u64_le(count);
    }
}

// Writes the entries that a body holds anew.
pub fn rewrite(body: &[u8], out: &mut [u8]) -> Result<usize, WriteError>
    ensures value { result ≡ answer_of out.old (rewritten (previous body.now)) }
    ensures out_after { out.new ≡ output_of out.old (rewritten (previous body.now)) }
{
    let header = header_of(body)?;
    let sizes = sizes_of(body, header)?;
    let tags = sizes.tagged;
    let len = sizes.body_len(tags);
    if out.len() < len {
        return Err(WriteError::NoRoom(len));
    }
    let mut put = Put { out, at: 0 };
    put_header(&mut put, header.entries, tags);
    put_entries(&mut put, body, header, tags);
    Ok(put.at)
}

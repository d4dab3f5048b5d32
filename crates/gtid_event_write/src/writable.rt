// Which records can be written.
ghost use Rattle.std.specs.Prelude.{◌≡◌, ◌&&◌, leb, take, drop};
ghost use Rattle.packets.specs.Tag.{is_tag};
ghost use Rattle.gtid_event_write.specs.Writable.{all_zero, kept_beyond, writable, writable_tagged, writable_untagged, later_absent};

use gtid_event::{GtidEvent, LOGICAL_TIMESTAMP_TYPECODE, UNDEFINED_SERVER_VERSION};
use packets::{MAX_TAG, is_tag};

// The first number that is too great for the tagged layout's signed integers.
const SIGNED_TOP: u64 = 1 << 63;

// The bits that say in the untagged layout that an original follows; an immediate number is below its bit.
pub(crate) const TIMESTAMP_FLAG: u64 = 1 << 55;

pub(crate) const VERSION_FLAG: u32 = 1 << 31;

// The first number that is too great for a timestamp's seven bytes.
const TIMESTAMP_TOP: u64 = 1 << 56;

// Whether the tag's bytes beyond its length are zero. They are joined with no test between, so that the machine takes many at once.
fn cleared_beyond(tag: &[u8], tag_len: u8) -> bool
    ensures { result ≡ all_zero (drop tag_len tag.now) }
{
    let from = (tag_len as usize).min(tag.len());
    let mut joined = 0;
    for b in &tag[from..] {
        joined |= *b;
    }
    joined == 0
}

fn has_good_tag(tag: [u8; MAX_TAG], tag_len: u8) -> bool
    ensures { result ≡ (leb tag_len 32 && is_tag (take tag_len tag)) }
{
    let len = tag_len as usize;
    if MAX_TAG < len {
        return false;
    }
    is_tag(&tag[..len])
}

fn is_writable_tagged(event: GtidEvent) -> bool
    ensures { result ≡ writable_tagged event }
{
    let tag = event.tag;
    has_good_tag(tag, event.tag_len)
        & (event.lc_typecode == 0)
        & (event.gno < SIGNED_TOP)
        & (event.last_committed < SIGNED_TOP)
        & (event.sequence_number < SIGNED_TOP)
}

// Whether all that would follow the typecode is as the reader gives it where it is absent.
fn is_later_absent(event: GtidEvent) -> bool
    ensures { result ≡ later_absent event }
{
    (event.last_committed == 0)
        & (event.sequence_number == 0)
        & (event.immediate_commit_timestamp == 0)
        & (event.original_commit_timestamp == 0)
        & (event.tx_length == 0)
        & (event.immediate_server_version == UNDEFINED_SERVER_VERSION)
        & (event.original_server_version == UNDEFINED_SERVER_VERSION)
}

fn is_writable_untagged(event: GtidEvent) -> bool
    ensures { result ≡ writable_untagged event }
{
    (event.commit_group_ticket == 0)
        & (event.immediate_commit_timestamp < TIMESTAMP_FLAG)
        & (event.original_commit_timestamp < TIMESTAMP_TOP)
        & (event.immediate_server_version < VERSION_FLAG)
        & ((event.lc_typecode == LOGICAL_TIMESTAMP_TYPECODE) | is_later_absent(event))
}

// Whether the typecode is 2 or none, and the tag's field is zero beyond so many bytes.
fn is_kept(event: GtidEvent, tag_len: u8) -> bool
    ensures { result ≡ kept_beyond tag_len event }
{
    let tag = event.tag;
    ((event.lc_typecode == LOGICAL_TIMESTAMP_TYPECODE) | (event.lc_typecode == 0))
        & cleared_beyond(&tag, tag_len)
}

// Whether the record comes back equal from the bytes that it is written as. Without a tag its length is given as a plain 0: the
// compiler then lays the walks over its field out.
pub fn is_writable(event: GtidEvent) -> bool
    ensures { result ≡ writable event }
{
    if event.is_tagged() {
        return is_writable_tagged(event) & is_kept(event, event.tag_len);
    }
    is_writable_untagged(event) & is_kept(event, 0)
}

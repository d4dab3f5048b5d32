// The untagged layout: fixed places, and the highest bit of an immediate number says that its original follows.
ghost use Rattle.std.specs.Prelude.{◌≡◌, true, ℕ, ◌*◌, ◌-◌, ◌^◌, ◌≤◌, ◌<◌, length};
ghost use Rattle.misc.specs.Le.{le_bytes};
ghost use Rattle.misc.specs.Output.{bytes, output_of, answer_of};
ghost use Rattle.misc.specs.Put.{PutsWhereFits};
ghost use Rattle.gtid_event.specs.Event.{IsWidth};
ghost use Rattle.gtid_event_write.specs.Writable.{writable_untagged};
ghost use Rattle.gtid_event_write.specs.Layout.{pair_bytes, opening_bytes, later_bytes, untagged_bytes};

use gtid_event::{
    ENCODED_SID_LENGTH, GtidEvent, IMMEDIATE_COMMIT_TIMESTAMP_LENGTH,
    IMMEDIATE_SERVER_VERSION_LENGTH, LOGICAL_TIMESTAMP_TYPECODE,
};
use misc::lenenc::lenenc_int_len;
use misc::put::Put;
use misc::refusal::WriteError;

// A number of a timestamp's width, or of a server version's.
fn put_wide<const WIDTH: usize>(put: &mut Put<'_>, value: u64)
    requires { IsWidth WIDTH × (value < 256 ^ WIDTH) }
    ensures { PutsWhereFits put.old (le_bytes WIDTH value) put.new }
{
    if WIDTH == IMMEDIATE_COMMIT_TIMESTAMP_LENGTH {
        put.u56_le(value);
        return;
    }
    put.u32_le(value as u32);
}

// An immediate number, and its original if it differs: then the highest bit of the immediate one says so.
fn put_pair<const WIDTH: usize>(put: &mut Put<'_>, immediate: u64, original: u64)
    requires { IsWidth WIDTH × (immediate < 2 ^ (8 * WIDTH - 1)) × (original < 256 ^ WIDTH) }
    ensures { PutsWhereFits put.old (pair_bytes WIDTH (2 ^ (8 * WIDTH - 1)) immediate original) put.new }
{
    if immediate == original {
        put_wide::<WIDTH>(put, immediate);
        return;
    }
    let mark = 1 << (8 * WIDTH - 1);
    put_wide::<WIDTH>(put, immediate | mark);
    put_wide::<WIDTH>(put, original);
}

// The length of both; whatever the mark is.
fn pair_len(width: usize, immediate: u64, original: u64) -> usize
    requires { width ≤ 7 }
    ensures { ((mark : ℕ) → result ≡ length (pair_bytes width mark immediate original)) × (result ≤ 14) }
{
    if immediate == original {
        return width;
    }
    width + width
}

fn put_opening(put: &mut Put<'_>, event: GtidEvent)
    ensures { PutsWhereFits put.old (opening_bytes event) put.new }
{
    let sid = event.sid;
    put.byte(event.flags);
    put.bytes(&sid);
    put.u64_le(event.gno);
}

fn put_later(put: &mut Put<'_>, event: GtidEvent)
    requires { writable_untagged event ≡ true }
    ensures { PutsWhereFits put.old (later_bytes event) put.new }
{
    put.byte(LOGICAL_TIMESTAMP_TYPECODE);
    put.u64_le(event.last_committed);
    put.u64_le(event.sequence_number);
    put_pair::<IMMEDIATE_COMMIT_TIMESTAMP_LENGTH>(
        put,
        event.immediate_commit_timestamp,
        event.original_commit_timestamp,
    );
    put.lenenc_int(event.tx_length);
    put_pair::<IMMEDIATE_SERVER_VERSION_LENGTH>(
        put,
        event.immediate_server_version as u64,
        event.original_server_version as u64,
    );
}

pub(crate) fn len_untagged(event: GtidEvent) -> usize
    ensures { result ≡ length (untagged_bytes event) }
{
    // flags, sid, gno
    let opening = 1 + ENCODED_SID_LENGTH + 8;
    if event.lc_typecode == 0 {
        return opening;
    }
    let immediate = event.immediate_server_version as u64;
    let original = event.original_server_version as u64;
    // lc_typecode, last_committed, sequence_number
    let clock = 1 + 8 + 8;
    opening
        + clock
        + pair_len(
            IMMEDIATE_COMMIT_TIMESTAMP_LENGTH,
            event.immediate_commit_timestamp,
            event.original_commit_timestamp,
        )
        + lenenc_int_len(event.tx_length)
        + pair_len(IMMEDIATE_SERVER_VERSION_LENGTH, immediate, original)
}

pub(crate) fn serialize_untagged(event: GtidEvent, out: &mut [u8]) -> Result<usize, WriteError>
    requires { writable_untagged event ≡ true }
    ensures value { result ≡ answer_of out.old (bytes (untagged_bytes event)) }
    ensures out_after { out.new ≡ output_of out.old (bytes (untagged_bytes event)) }
{
    let needed = len_untagged(event);
    if out.len() < needed {
        return Err(WriteError::NoRoom(needed));
    }
    let mut put = Put { out, at: 0 };
    put_opening(&mut put, event);
    if event.lc_typecode == 0 {
        return Ok(put.at);
    }
    put_later(&mut put, event);
    Ok(put.at)
}

// Untagged events: what stands at fixed places, and parts that are there as far as the body reaches.
ghost use Rattle.std.specs.Prelude.{◌≡◌, ◌+◌, ◌*◌, ◌-◌, ◌^◌, ◌≤◌, ◌<◌, length, IfOk};
ghost use Rattle.misc.specs.Parse.{read_of};
ghost use Rattle.misc.specs.Le.{le_at};
ghost use Rattle.gtid_event_read.specs.Untagged.{pair, pair_at, if_left, length_at, opened_in, clocked, clock_at, untagged};
ghost use Rattle.gtid_event_read.specs.Pairs.{pair_read};
ghost use Rattle.gtid_event.specs.Event.{IsWidth};
ghost use Rattle.gtid_event_read.specs.Read.{untagged_read};

use crate::GtidRead;
use gtid_event::{
    ENCODED_SID_LENGTH, GtidEvent, IMMEDIATE_COMMIT_TIMESTAMP_LENGTH,
    IMMEDIATE_SERVER_VERSION_LENGTH, LOGICAL_TIMESTAMP_TYPECODE, UNDEFINED_SERVER_VERSION,
};
use misc::Read;
use misc::bytes::left_at;
use misc::le::{number_at, read_u32_le, read_u56_le, read_u64_le};
use misc::lenenc::read_lenenc_int;
use misc::mark::{clear_bit, has_bit};
use misc::refusal::Refusal;
use packets::uuid_bytes;

// Flags, uuid and gno.
const GNO_PLACE: usize = 1 + ENCODED_SID_LENGTH;

const OPENING_LENGTH: usize = GNO_PLACE + 8;

// An immediate number, and the original: of the commit timestamps, or of the server versions.
#[derive(Clone, Copy)]
pub(crate) struct Pair {
    pub immediate: u64,
    pub original: u64,
}

// Flags, uuid and gno; all else absent.
fn read_opening(s: &[u8]) -> GtidEvent
    requires { 25 ≤ length s.now }
    ensures { result ≡ opened_in s.now }
{
    let sid = uuid_bytes(&s[1..GNO_PLACE]);
    let mut event = GtidEvent::new(sid, number_at(s, GNO_PLACE));
    event.flags = s[0];
    event.lc_typecode = 0;
    event
}

// A number of a timestamp's width, or of a server version's.
fn read_wide<const WIDTH: usize>(s: &[u8], at: usize) -> Result<Read<u64>, Refusal>
    requires { IsWidth WIDTH }
    ensures value { result ≡ read_of (le_at WIDTH s.now at) }
    ensures bound { IfOk result (λ read. read.value < 256 ^ WIDTH) }
{
    if WIDTH == IMMEDIATE_COMMIT_TIMESTAMP_LENGTH {
        return read_u56_le(s, at);
    }
    read_u32_le(s, at)
}

// The highest bit of the immediate number says that the original follows; otherwise they are equal. Where the body ends before them, both
// are what an absent number is.
fn read_pair<const WIDTH: usize>(s: &[u8], at: usize, absent: u64) -> Result<Read<Pair>, Refusal>
    requires { IsWidth WIDTH × (absent < 256 ^ WIDTH) }
    ensures value { result ≡ pair_read (if_left WIDTH s.now at (pair absent absent) (pair_at WIDTH s.now at)) }
    ensures bound { IfOk result (λ read. (read.value.immediate < 256 ^ WIDTH) × (read.value.original < 256 ^ WIDTH)) }
{
    if left_at(s, at) < WIDTH {
        return Ok(Read {
            value: Pair {
                immediate: absent,
                original: absent,
            },
            next: at,
        });
    }
    let first = read_wide::<WIDTH>(s, at)?;
    let mark = 8 * WIDTH as u32 - 1;
    if has_bit(first.value, mark) {
        let original = read_wide::<WIDTH>(s, first.next)?;
        return Ok(Read {
            value: Pair {
                immediate: clear_bit(first.value, mark),
                original: original.value,
            },
            next: original.next,
        });
    }
    Ok(Read {
        value: Pair {
            immediate: first.value,
            original: first.value,
        },
        next: first.next,
    })
}

fn read_tx_length(s: &[u8], at: usize) -> Result<Read<u64>, Refusal>
    ensures { result ≡ read_of (length_at s.now at) }
{
    if left_at(s, at) < 1 {
        return Ok(Read { value: 0, next: at });
    }
    read_lenenc_int(s, at)
}

// With the typecode, and what follows it.
fn clocked(
    mut event: GtidEvent,
    last_committed: u64,
    sequence_number: u64,
    t: Pair,
    tx_length: u64,
    v: Pair,
) -> GtidEvent
    requires { (v.immediate < 2 ^ 32) × (v.original < 2 ^ 32) }
    ensures { result ≡ clocked event last_committed sequence_number (pair t.immediate t.original) tx_length (pair v.immediate v.original) }
{
    event.lc_typecode = LOGICAL_TIMESTAMP_TYPECODE;
    event.last_committed = last_committed;
    event.sequence_number = sequence_number;
    event.immediate_commit_timestamp = t.immediate;
    event.original_commit_timestamp = t.original;
    event.tx_length = tx_length;
    event.immediate_server_version = v.immediate as u32;
    event.original_server_version = v.original as u32;
    event
}

// What follows the typecode, the parts after the sequence number each as far as the body reaches. Flags, uuid and gno are read last, where
// the record is put together: it isn't carried along.
fn read_clock(s: &[u8], at: usize) -> Result<GtidRead, Refusal>
    requires { 25 ≤ length s.now }
    ensures { result ≡ untagged_read (clock_at s.now (opened_in s.now) at) }
{
    let last_committed = read_u64_le(s, at)?;
    let sequence_number = read_u64_le(s, last_committed.next)?;
    let timestamps = read_pair::<IMMEDIATE_COMMIT_TIMESTAMP_LENGTH>(s, sequence_number.next, 0)?;
    let tx_length = read_tx_length(s, timestamps.next)?;
    let undefined = UNDEFINED_SERVER_VERSION as u64;
    let versions = read_pair::<IMMEDIATE_SERVER_VERSION_LENGTH>(s, tx_length.next, undefined)?;
    Ok(GtidRead {
        used: versions.next,
        event: clocked(
            read_opening(s),
            last_committed.value,
            sequence_number.value,
            timestamps.value,
            tx_length.value,
            versions.value,
        ),
        present: 0,
    })
}

// The body ends behind the gno up to MySQL 5.6, and the byte 2 doesn't follow it up to 5.7.4.
pub(crate) fn deserialize_untagged(s: &[u8]) -> Result<GtidRead, Refusal>
    ensures { result ≡ untagged_read (untagged s.now) }
{
    if s.len() < OPENING_LENGTH {
        return Err(Refusal::Ended);
    }
    if OPENING_LENGTH < s.len() && s[OPENING_LENGTH] == LOGICAL_TIMESTAMP_TYPECODE {
        return read_clock(s, OPENING_LENGTH + 1);
    }
    Ok(GtidRead {
        used: OPENING_LENGTH,
        event: read_opening(s),
        present: 0,
    })
}

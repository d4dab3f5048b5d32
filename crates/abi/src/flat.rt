// A GTID record as 116 bytes: written, field after field, and read again.
ghost use Rattle.std.specs.Prelude.{◌≡◌, length};
ghost use Rattle.misc.specs.Put.{PutsWhereFits};
ghost use Rattle.abi.specs.Flat.{record_size, flat_identity, flat_clock, flat_rest, flat, four_at, typecode_if, flat_read};

use gtid_event::GtidEvent;
use misc::le::{number_at, read_u32_le};
use misc::put::Put;
use packets::{tag_bytes, uuid_bytes};

// ---- writing: nothing is promised where there is no room

fn put_identity(put: &mut Put<'_>, event: GtidEvent)
    ensures { PutsWhereFits put.old (flat_identity event) put.new }
{
    let sid = event.sid;
    let tag = event.tag;
    put.byte(event.flags);
    put.bytes(&sid);
    put.u64_le(event.gno);
    put.byte(event.tag_len);
    put.bytes(&tag);
}

fn put_clock(put: &mut Put<'_>, event: GtidEvent)
    ensures { PutsWhereFits put.old (flat_clock event) put.new }
{
    let there = 0 < event.lc_typecode;
    put.byte(there as u8);
    put.byte(event.lc_typecode);
    put.u64_le(event.last_committed);
    put.u64_le(event.sequence_number);
    put.u64_le(event.immediate_commit_timestamp);
    put.u64_le(event.original_commit_timestamp);
}

fn put_rest(put: &mut Put<'_>, event: GtidEvent)
    ensures { PutsWhereFits put.old (flat_rest event) put.new }
{
    put.u64_le(event.tx_length);
    put.u32_le(event.immediate_server_version);
    put.u32_le(event.original_server_version);
    put.u64_le(event.commit_group_ticket);
}

pub(crate) fn put_record(put: &mut Put<'_>, event: GtidEvent)
    ensures { PutsWhereFits put.old (flat event) put.new }
{
    put_identity(put, event);
    put_clock(put, event);
    put_rest(put, event);
}

// ---- reading

pub(crate) fn four_at(s: &[u8], at: usize) -> u32
    ensures { result ≡ four_at s.now at }
{
    match read_u32_le(s, at) {
        Ok(read) => read.value as u32,
        Err(_) => 0,
    }
}

fn typecode_if(there: u8, typecode: u8) -> u8
    ensures { result ≡ typecode_if there typecode }
{
    if there == 0 {
        return 0;
    }
    typecode
}

pub(crate) fn record_in(s: &[u8]) -> GtidEvent
    requires { length s.now ≡ record_size }
    ensures { result ≡ flat_read s.now }
{
    GtidEvent {
        flags: s[0],
        sid: uuid_bytes(&s[1..]),
        gno: number_at(s, 17),
        tag: tag_bytes(&s[26..]),
        tag_len: s[25],
        lc_typecode: typecode_if(s[58], s[59]),
        last_committed: number_at(s, 60),
        sequence_number: number_at(s, 68),
        immediate_commit_timestamp: number_at(s, 76),
        original_commit_timestamp: number_at(s, 84),
        tx_length: number_at(s, 92),
        immediate_server_version: four_at(s, 100),
        original_server_version: four_at(s, 104),
        commit_group_ticket: number_at(s, 108),
    }
}

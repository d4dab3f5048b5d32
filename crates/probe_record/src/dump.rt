// The 116 bytes of a GTID record, as the protocol lays them out, by code of the test program's own: of a request's record, and of one that
// was read.
use gtid_event::GtidEvent;
use probe_lines::line::Line;
use probe_lines::parts::{byte_at, from_on, u32_at, u64_at};

// Puts the bytes at the front of `dump`.
pub fn to_dump(event: GtidEvent, dump: &mut [u8]) {
    let mut line = Line::new(dump);
    line.byte(event.flags);
    line.text(&event.sid);
    line.text(&event.gno.to_le_bytes());
    line.byte(event.tag_len);
    line.text(&event.tag);
    line.byte((event.lc_typecode != 0) as u8);
    line.byte(event.lc_typecode);
    line.text(&event.last_committed.to_le_bytes());
    line.text(&event.sequence_number.to_le_bytes());
    line.text(&event.immediate_commit_timestamp.to_le_bytes());
    line.text(&event.original_commit_timestamp.to_le_bytes());
    line.text(&event.tx_length.to_le_bytes());
    line.text(&event.immediate_server_version.to_le_bytes());
    line.text(&event.original_server_version.to_le_bytes());
    line.text(&event.commit_group_ticket.to_le_bytes());
}

// The record whose 116 bytes these are: any values may come.
pub fn from_dump(a: &[u8]) -> GtidEvent {
    GtidEvent {
        flags: byte_at(a, 0),
        sid: packets::uuid_bytes(from_on(a, 1)),
        gno: u64_at(a, 17),
        tag: packets::tag_bytes(from_on(a, 26)),
        tag_len: byte_at(a, 25),
        lc_typecode: byte_at(a, 59),
        last_committed: u64_at(a, 60),
        sequence_number: u64_at(a, 68),
        immediate_commit_timestamp: u64_at(a, 76),
        original_commit_timestamp: u64_at(a, 84),
        tx_length: u64_at(a, 92),
        immediate_server_version: u32_at(a, 100),
        original_server_version: u32_at(a, 104),
        commit_group_ticket: u64_at(a, 108),
    }
}

// A GTID record in a line.
use gtid_event::GtidEvent;
use probe_lines::line::Line;

// A space and the typecode, `-` for none.
fn push_typecode(line: &mut Line<'_>, typecode: u8) {
    if typecode == 0 {
        return line.text(b" -");
    }
    line.number(typecode as u64);
}

// All fields of a record: FLAGS UUID GNO TAGLEN TAG32 TYPECODE LAST_COMMITTED SEQUENCE_NUMBER IMMEDIATE_TIMESTAMP ORIGINAL_TIMESTAMP
// TX_LENGTH IMMEDIATE_VERSION ORIGINAL_VERSION TICKET
pub fn push_record(line: &mut Line<'_>, event: GtidEvent) {
    line.decimal(event.flags as u64);
    line.hex_word(&event.sid);
    line.number(event.gno);
    line.number(event.tag_len as u64);
    line.hex_word(&event.tag);
    push_typecode(line, event.lc_typecode);
    line.number(event.last_committed);
    line.number(event.sequence_number);
    line.number(event.immediate_commit_timestamp);
    line.number(event.original_commit_timestamp);
    line.number(event.tx_length);
    line.number(event.immediate_server_version as u64);
    line.number(event.original_server_version as u64);
    line.number(event.commit_group_ticket);
}

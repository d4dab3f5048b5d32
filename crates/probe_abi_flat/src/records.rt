// The archive's functions over GTID records.
use abi::RECORD_SIZE;
use gtid_event_read::{GtidRead, read as library_read};
use misc::refusal::{Refusal, WriteError};
use probe_lines::beside::{UNSET, differs, number_of};
use probe_lines::checks::fill;
use probe_record::dump::{from_dump, to_dump};

// Lays out the record that the library read, if it did, and says what the archive should: the bytes used, or 13 and a
// record's size where the output is too short.
fn laid_out(said: Result<GtidRead, Refusal>, dump: &mut [u8]) -> Result<usize, WriteError> {
    let read = said?;
    if dump.len() < RECORD_SIZE {
        return Err(WriteError::NoRoom(RECORD_SIZE));
    }
    to_dump(read.event, dump);
    Ok(read.used)
}

// The archive reads into an output of this length.
fn read_into(event_type: u8, body: &[u8], dump: &mut [u8], twin: &mut [u8]) -> bool {
    fill(dump);
    fill(twin);
    let wanted = laid_out(library_read(event_type, body), dump);
    let mut used = UNSET;
    let refusal = abi::gtid_read(event_type, body, twin, &mut used);
    differs(wanted, refusal, used, dump, twin)
}

// And tells the fields: none with a refusal.
fn present_into(event_type: u8, body: &[u8], dump: &mut [u8], twin: &mut [u8]) -> bool {
    fill(dump);
    fill(twin);
    let said = library_read(event_type, body);
    let wanted = laid_out(said, dump);
    let told = match said {
        Ok(read) if wanted.is_ok() => read.present,
        _ => 0,
    };
    let mut used = UNSET;
    let mut present = 0xa5a5u16;
    let refusal = abi::gtid_read_present(event_type, body, twin, &mut used, &mut present);
    differs(wanted, refusal, used, dump, twin) | (present != told)
}

// One byte more than a record has, and one less.
pub(crate) fn read(event_type: u8, body: &[u8]) -> bool {
    let mut long = [0u8; RECORD_SIZE + 1];
    let mut long_twin = [0u8; RECORD_SIZE + 1];
    let mut short = [0u8; RECORD_SIZE - 1];
    let mut short_twin = [0u8; RECORD_SIZE - 1];
    read_into(event_type, body, &mut long, &mut long_twin)
        | read_into(event_type, body, &mut short, &mut short_twin)
        | present_into(event_type, body, &mut long, &mut long_twin)
        | present_into(event_type, body, &mut short, &mut short_twin)
}

// The archive reads, and writes what it read.
pub(crate) fn reread(event_type: u8, body: &[u8], out: &mut [u8], twin: &mut [u8]) -> bool {
    let mut dump = [0u8; RECORD_SIZE];
    let mut used = UNSET;
    let refusal = abi::gtid_read(event_type, body, &mut dump, &mut used);
    let said = library_read(event_type, body);
    if number_of(said) != refusal {
        return true;
    }
    let Ok(read) = said else {
        return used != 0;
    };
    let wrote = gtid_event_write::write::write(read.event, out);
    let mut len = UNSET;
    let written = abi::gtid_write(&dump, twin, &mut len);
    differs(wrote, written, len, out, twin)
}

// The archive writes the record whose bytes these are.
pub(crate) fn write(dump: &[u8], out: &mut [u8], twin: &mut [u8]) -> bool {
    let wrote = gtid_event_write::write::write(from_dump(dump), out);
    let mut len = UNSET;
    let refusal = abi::gtid_write(dump, twin, &mut len);
    differs(wrote, refusal, len, out, twin)
}

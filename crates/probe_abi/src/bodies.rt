// The archive's functions that read Previous-GTIDs bodies.
use misc::refusal::Refusal;
use previous_gtids_event::EntryRead;
use previous_gtids_event::read::{entry_at, header_of, read};
use probe_lines::beside::{UNSET, number_of};

// Whether the archive says something else of the entry at a place.
fn entry_differs(body: &[u8], at: usize, said: Result<EntryRead, Refusal>) -> bool {
    let mut tag_len = UNSET;
    let mut intervals = UNSET as u64;
    let mut first = UNSET;
    let mut next = UNSET;
    let refusal = abi::gtid_read_entry(
        body,
        at,
        &mut tag_len,
        &mut intervals,
        &mut first,
        &mut next,
    );
    let wanted = match said {
        Ok(entry) => (entry.tag_len, entry.intervals, entry.first, entry.next),
        Err(_) => (0, 0, 0, 0),
    };
    (number_of(said) != refusal) | (wanted != (tag_len, intervals, first, next))
}

// Every entry, up to the first that is refused.
fn entries_differ(body: &[u8]) -> Result<bool, Refusal> {
    let header = header_of(body)?;
    let mut at: usize = 8;
    for _ in 0..header.entries {
        let said = entry_at(body, at, header.tagged);
        if entry_differs(body, at, said) {
            return Ok(true);
        }
        at = said?.next;
    }
    Ok(false)
}

pub(crate) fn previous(body: &[u8]) -> bool {
    let said = read(body);
    let mut entries = UNSET as u64;
    let mut used = UNSET;
    let refusal = abi::gtid_read_previous(body, &mut entries, &mut used);
    let wanted = match said {
        Ok(whole) => (whole.entries, whole.used),
        Err(_) => (0, 0),
    };
    (number_of(said) != refusal) | (wanted != (entries, used)) | (entries_differ(body) == Ok(true))
}

// The archive's reader of a binlog file over bytes that are none. (Over bytes that are one it stands beside the library's in probe_binlog.)
use abi::READER_SIZE;
use misc::refusal::Refusal;
use probe_lines::checks::{MARK, dirty};

// Whether the archive says something else than 12 of bytes that are no reader, one too few, or changes a byte.
pub(crate) fn takes_short(chunk: &[u8]) -> bool {
    let mut bytes = [MARK; READER_SIZE - 1];
    let mut work = [MARK; 1];
    let mut set = [MARK; 1];
    let mut spare = [MARK; 1];
    let begun = abi::gtid_binlog_begin(chunk, 0, &mut bytes);
    let stepped = abi::gtid_binlog_step(&mut bytes, chunk, &mut work, &mut set, &mut spare);
    let ended = abi::gtid_binlog_end(&mut bytes);
    let none = Refusal::NotWritable.number();
    let lent = [work[0], set[0], spare[0]];
    ([begun, stepped, ended] != [none; 3]) | dirty(&bytes, 0) | dirty(&lent, 0)
}

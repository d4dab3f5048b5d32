// The library's calls as functions over numbers and byte slices, which Rust and C link by crate abi_c. Each returns the number of its
// refusal, 0 for none, and hands its other answers out through `&mut` numbers. None asks anything of its caller.
#![tactic(auto)]

ghost use Rattle.std.specs.Prelude.{◌≡◌, ltb, length};
ghost use Rattle.misc.specs.Parse.{refusal_in, read_of};
ghost use Rattle.misc.specs.Varlen.{varlen_at};
ghost use Rattle.misc.specs.Output.{bytes, output_of, answer_of, written_number, written_len};
ghost use Rattle.previous_gtids_event.specs.Previous.{previous};
ghost use Rattle.previous_gtids_event.specs.Answers.{previous_read, entry_read};
ghost use Rattle.previous_gtids_event.specs.Rewrite.{rewritten};
ghost use Rattle.gtid_event_read.specs.Read.{seen, gtid, gtid_read};
ghost use Rattle.gtid_sets.specs.Lent.{lent_set};
ghost use Rattle.set_join.specs.Answers.{contained, take_in_answers, take_in_leaves};
ghost use Rattle.resume_set.specs.Answers.{set_read, offer_answers, offer_leaves};
ghost use Rattle.gtid_sets.specs.Combine.{either, both, without};
ghost use Rattle.two_sets.specs.Answers.{combine_answers, combine_leaves, within_answers, which_answers};
ghost use Rattle.listing.specs.EventText.{listing};
ghost use Rattle.abi.specs.Answers.{number_in, numbers_of, head_numbers, bit, entry_in};
ghost use Rattle.abi.specs.Flat.{read_output, read_answers, read_used, read_present, write_output};
ghost use Rattle.binlog.specs.Held.{Front};
ghost use Rattle.binlog_reader.specs.Step.{step_answers, begin_answers, end_answers_of};
ghost use Rattle.abi.specs.FlatBinlog.{reader_in, flat_says, flat_keeps, flat_stepped, flat_buffer, flat_holds};
ghost use Rattle.abi.specs.FlatReport.{flat_adds, flat_leaves, flat_refusal, flat_sum, flat_text};

use flat::{put_record, record_in};
use flat_binlog::{keep_step, reader_in};
use flat_report::{LINE_SIZE, keep_line, report_in, room_for};
use gtid_event_read::{GtidRead, read};
use gtid_event_write::write::write;
use misc::put::Put;
use misc::refusal::{Refusal, WriteError};
use misc::varlen::read_varlen_uint;
use previous_gtids_event::EntryRead;
use previous_gtids_event::read::{entry_at, header_of};
use report::{Line, MAX_SETS};
use resume_set::Offered;
use two_sets::Choice;

mod flat;
mod flat_binlog;
mod flat_report;

// How many bytes a GTID record has,
pub const RECORD_SIZE: usize = 116;

// a report, eight for the number of sets and then its lines,
pub const REPORT_SIZE: usize = 8 + MAX_SETS * LINE_SIZE;

// and a binlog reader.
pub const READER_SIZE: usize = 48;

// Hands out how many bytes were written or, for 13, are needed, and returns the number of what went wrong.
fn told(wrote: Result<usize, WriteError>, len: &mut usize) -> u8
    ensures value { result ≡ written_number wrote }
    ensures len_after { len.new ≡ written_len wrote }
{
    match wrote {
        Ok(written) => {
            *len = written;
            0
        }
        Err(error) => {
            *len = error.needed();
            error.number()
        }
    }
}

// Reads the variable-length unsigned integer at the front of some bytes: its value, and how many bytes it takes.
pub fn gtid_read_varlen_uint(s: &[u8], value: &mut u64, used: &mut usize) -> u8
    ensures value { result ≡ refusal_in (read_of (varlen_at s.now 0)) }
    ensures value_after { value.new ≡ number_in (read_of (varlen_at s.now 0)) (λ read. read.value) }
    ensures used_after { used.new ≡ number_in (read_of (varlen_at s.now 0)) (λ read. read.next) }
{
    match read_varlen_uint(s, 0) {
        Ok(said) => {
            *value = said.value;
            *used = said.next;
            0
        }
        Err(refusal) => {
            *value = 0;
            *used = 0;
            refusal.number()
        }
    }
}

// Whether bytes are a set (0, else 14), and how many entries and intervals it has.
pub fn gtid_check_set(set: &[u8], entries: &mut u64, intervals: &mut u64) -> u8
    ensures value { result ≡ refusal_in (set_read (lent_set set.now)) }
    ensures entries_after { entries.new ≡ number_in (set_read (lent_set set.now)) (λ said. said.entries) }
    ensures intervals_after { intervals.new ≡ number_in (set_read (lent_set set.now)) (λ said. said.intervals) }
{
    *entries = 0;
    *intervals = 0;
    match resume_set::check_set(set) {
        Ok(said) => {
            *entries = said.entries;
            *intervals = said.intervals;
            0
        }
        Err(refusal) => refusal.number(),
    }
}

// Whether a set has the id of a uuid, a tag (none: no bytes) and a gno: 1 if it is there, else 0.
pub fn gtid_contains(set: &[u8], uuid: &[u8], tag: &[u8], gno: u64, present: &mut u8) -> u8
    ensures value { result ≡ refusal_in (contained (lent_set set.now) uuid.now tag.now gno) }
    ensures present_after { present.new ≡ number_in (contained (lent_set set.now) uuid.now tag.now gno) bit }
{
    *present = 0;
    match set_join::contains(set, uuid, tag, gno) {
        Ok(there) => {
            *present = there as u8;
            0
        }
        Err(refusal) => refusal.number(),
    }
}

// Takes in the body of a Previous-GTIDs event: the set of all its ids is written, in set form.
pub fn gtid_take_in(body: &[u8], out: &mut [u8], len: &mut usize) -> u8
    ensures value { result ≡ written_number (take_in_answers body.now out.old) }
    ensures len_after { len.new ≡ written_len (take_in_answers body.now out.old) }
    ensures out_after { out.new ≡ take_in_leaves body.now out.old }
{
    let wrote = set_join::take_in::take_in(body, out);
    told(wrote, len)
}

// Reads the body of a Previous-GTIDs event: how many entries it has, and how many bytes its header and they take.
pub fn gtid_read_previous(body: &[u8], entries: &mut u64, used: &mut usize) -> u8
    ensures value { result ≡ refusal_in (previous_read (previous body.now)) }
    ensures entries_after { entries.new ≡ number_in (previous_read (previous body.now)) (λ said. said.entries) }
    ensures used_after { used.new ≡ number_in (previous_read (previous body.now)) (λ said. said.used) }
{
    *entries = 0;
    *used = 0;
    match previous_gtids_event::read::read(body) {
        Ok(said) => {
            *entries = said.entries;
            *used = said.used;
            0
        }
        Err(refusal) => refusal.number(),
    }
}

// The entry at a place of such a body.
fn entry_in(body: &[u8], at: usize) -> Result<EntryRead, Refusal>
    ensures { result ≡ entry_read (entry_in body.now at) }
{
    let header = header_of(body)?;
    entry_at(body, at, header.tagged)
}

// Reads the entry at a place of such a body: how many bytes its tag has and how many intervals there are, where the first of them
// is, and where the entry ends. Its uuid is the 16 bytes at the place, and its tag ends eight bytes before the first interval.
pub fn gtid_read_entry(
    body: &[u8],
    at: usize,
    tag_len: &mut usize,
    intervals: &mut u64,
    first: &mut usize,
    next: &mut usize,
) -> u8
    ensures value { result ≡ refusal_in (entry_read (entry_in body.now at)) }
    ensures tag_len_after { tag_len.new ≡ number_in (entry_read (entry_in body.now at)) (λ said. said.tag_len) }
    ensures intervals_after { intervals.new ≡ number_in (entry_read (entry_in body.now at)) (λ said. said.intervals) }
    ensures first_after { first.new ≡ number_in (entry_read (entry_in body.now at)) (λ said. said.first) }
    ensures next_after { next.new ≡ number_in (entry_read (entry_in body.now at)) (λ said. said.next) }
{
    *tag_len = 0;
    *intervals = 0;
    *first = 0;
    *next = 0;
    match entry_in(body, at) {
        Ok(said) => {
            *tag_len = said.tag_len;
            *intervals = said.intervals;
            *first = said.first;
            *next = said.next;
            0
        }
        Err(refusal) => refusal.number(),
    }
}

// Writes the entries that the body of a Previous-GTIDs event holds anew.
pub fn gtid_rewrite(body: &[u8], out: &mut [u8], len: &mut usize) -> u8
    ensures value { result ≡ written_number (answer_of out.old (rewritten (previous body.now))) }
    ensures len_after { len.new ≡ written_len (answer_of out.old (rewritten (previous body.now))) }
    ensures out_after { out.new ≡ output_of out.old (rewritten (previous body.now)) }
{
    let wrote = previous_gtids_event::rewrite::rewrite(body, out);
    told(wrote, len)
}

// Writes the text of an event: a type byte with a body behind it.
pub fn gtid_list(input: &[u8], out: &mut [u8], len: &mut usize) -> u8
    ensures value { result ≡ written_number (answer_of out.old (bytes (listing input.now))) }
    ensures len_after { len.new ≡ written_len (answer_of out.old (bytes (listing input.now))) }
    ensures out_after { out.new ≡ output_of out.old (bytes (listing input.now)) }
{
    let wrote = listing::event_text::list_input(input, out);
    told(wrote, len)
}

// What an offer comes to. C has no `Result`: its answers are numbers.
#[derive(Clone, Copy)]
struct OfferNumbers {
    refusal: u8,
    kind: u8,
    len: usize,
}

fn numbers_of(answer: Result<Offered, WriteError>) -> OfferNumbers
    ensures { result ≡ numbers_of answer }
{
    let (kind, len) = match answer {
        Err(error) => {
            return OfferNumbers {
                refusal: error.number(),
                kind: 0,
                len: error.needed(),
            };
        }
        Ok(Offered::Taken(len)) => (1, len),
        Ok(Offered::AlreadyThere(len)) => (2, len),
        Ok(Offered::NoId(len)) => (3, len),
    };
    OfferNumbers {
        refusal: 0,
        kind,
        len,
    }
}

// Offers an event to a set, and writes the set after it. The kind is 0 for an event that is refused, 1 for an id that is taken, 2 for one
// that is already there and 3 for an event with no id.
pub fn gtid_offer(
    set: &[u8],
    event_type: u8,
    body: &[u8],
    out: &mut [u8],
    kind: &mut u8,
    len: &mut usize,
) -> u8
    ensures value { result ≡ (numbers_of (offer_answers set.now event_type body.now out.old)).refusal }
    ensures kind_after { kind.new ≡ (numbers_of (offer_answers set.now event_type body.now out.old)).kind }
    ensures len_after { len.new ≡ (numbers_of (offer_answers set.now event_type body.now out.old)).len }
    ensures out_after { out.new ≡ offer_leaves set.now event_type body.now out.old }
{
    let answer = resume_set::offer(set, event_type, body, out);
    let said = numbers_of(answer);
    *kind = said.kind;
    *len = said.len;
    said.refusal
}

// The ids in either of two sets, written as a set. Both may be the same bytes.
pub fn gtid_either(first: &[u8], second: &[u8], out: &mut [u8], len: &mut usize) -> u8
    ensures value { result ≡ written_number (combine_answers either first.now second.now out.old) }
    ensures len_after { len.new ≡ written_len (combine_answers either first.now second.now out.old) }
    ensures out_after { out.new ≡ combine_leaves either first.now second.now out.old }
{
    let wrote = two_sets::either(first, second, out);
    told(wrote, len)
}

// The ids in both sets.
pub fn gtid_both(first: &[u8], second: &[u8], out: &mut [u8], len: &mut usize) -> u8
    ensures value { result ≡ written_number (combine_answers both first.now second.now out.old) }
    ensures len_after { len.new ≡ written_len (combine_answers both first.now second.now out.old) }
    ensures out_after { out.new ≡ combine_leaves both first.now second.now out.old }
{
    let wrote = two_sets::both(first, second, out);
    told(wrote, len)
}

// The ids of the first set that are not in the second.
pub fn gtid_without(first: &[u8], second: &[u8], out: &mut [u8], len: &mut usize) -> u8
    ensures value { result ≡ written_number (combine_answers without first.now second.now out.old) }
    ensures len_after { len.new ≡ written_len (combine_answers without first.now second.now out.old) }
    ensures out_after { out.new ≡ combine_leaves without first.now second.now out.old }
{
    let wrote = two_sets::without(first, second, out);
    told(wrote, len)
}

// Whether all ids of the first set are in the second: 1 if they are, else 0.
pub fn gtid_within(first: &[u8], second: &[u8], within: &mut u8) -> u8
    ensures value { result ≡ refusal_in (within_answers first.now second.now) }
    ensures within_after { within.new ≡ number_in (within_answers first.now second.now) bit }
{
    *within = 0;
    match two_sets::within(first, second) {
        Ok(all) => {
            *within = all as u8;
            0
        }
        Err(refusal) => refusal.number(),
    }
}

// Which of two sets contains the other, as numbers for C.
#[derive(Clone, Copy)]
struct HeadNumbers {
    refusal: u8,
    head: u8,
}

fn head_numbers(answer: Result<Choice, Refusal>) -> HeadNumbers
    ensures { result ≡ head_numbers answer }
{
    match answer {
        Err(refusal) => HeadNumbers {
            refusal: refusal.number(),
            head: 0,
        },
        Ok(Choice::First) => HeadNumbers {
            refusal: 0,
            head: 1,
        },
        Ok(Choice::Second) => HeadNumbers {
            refusal: 0,
            head: 2,
        },
    }
}

// Which of two sets contains the other: 1 is the first, also where they are equal, 2 the second, and 0 none of them.
pub fn gtid_head(first: &[u8], second: &[u8], head: &mut u8) -> u8
    ensures value { result ≡ (head_numbers (which_answers first.now second.now)).refusal }
    ensures head_after { head.new ≡ (head_numbers (which_answers first.now second.now)).head }
{
    let numbers = head_numbers(two_sets::which(first, second));
    *head = numbers.head;
    numbers.refusal
}

// Reads a GTID event of this type, and writes its record.
fn read_into(event_type: u8, body: &[u8], out: &mut [u8]) -> Result<GtidRead, WriteError>
    ensures value { result ≡ read_answers (gtid_read (seen event_type body.now)) (length out.old) }
    ensures out_after { out.new ≡ output_of out.old (read_output (gtid event_type body.now)) }
{
    let said = read(event_type, body)?;
    if out.len() < RECORD_SIZE {
        return Err(WriteError::NoRoom(RECORD_SIZE));
    }
    let mut put = Put { out, at: 0 };
    put_record(&mut put, said.event);
    Ok(said)
}

// Reads a GTID event of this type: its record is written, as 116 bytes, `used` is how many bytes of the body the event has, and `present`
// tells which fields a tagged event was sent with: bit k is the field with the id k. It is 0 for an untagged event and with a refusal.
pub fn gtid_read_present(
    event_type: u8,
    body: &[u8],
    out: &mut [u8],
    used: &mut usize,
    present: &mut u16,
) -> u8
    ensures value { result ≡ written_number (answer_of out.old (read_output (gtid event_type body.now))) }
    ensures used_after { used.new ≡ read_used (gtid event_type body.now) (length out.old) }
    ensures out_after { out.new ≡ output_of out.old (read_output (gtid event_type body.now)) }
    ensures present_after { present.new ≡ read_present (seen event_type body.now) (length out.old) }
{
    match read_into(event_type, body, out) {
        Ok(said) => {
            *used = said.used;
            *present = said.present;
            0
        }
        Err(error) => {
            *used = error.needed();
            *present = 0;
            error.number()
        }
    }
}

// The same without the fields.
pub fn gtid_read(event_type: u8, body: &[u8], out: &mut [u8], used: &mut usize) -> u8
    ensures value { result ≡ written_number (answer_of out.old (read_output (gtid event_type body.now))) }
    ensures used_after { used.new ≡ read_used (gtid event_type body.now) (length out.old) }
    ensures out_after { out.new ≡ output_of out.old (read_output (gtid event_type body.now)) }
{
    let mut present = 0u16;
    gtid_read_present(event_type, body, out, used, &mut present)
}

// The event of a record.
fn write_record(fields: &[u8], out: &mut [u8]) -> Result<usize, WriteError>
    ensures value { result ≡ answer_of out.old (write_output fields.now) }
    ensures out_after { out.new ≡ output_of out.old (write_output fields.now) }
{
    if fields.len() != RECORD_SIZE {
        return Err(WriteError::Refused(Refusal::NotWritable));
    }
    write(record_in(fields), out)
}

// Writes the event of a record, which is 116 bytes.
pub fn gtid_write(fields: &[u8], out: &mut [u8], len: &mut usize) -> u8
    ensures value { result ≡ written_number (answer_of out.old (write_output fields.now)) }
    ensures len_after { len.new ≡ written_len (answer_of out.old (write_output fields.now)) }
    ensures out_after { out.new ≡ output_of out.old (write_output fields.now) }
{
    let wrote = write_record(fields, out);
    told(wrote, len)
}

// Adds a set to a report: its line, or that of the refusal where there is no place for one.
fn line_added(report: &mut [u8], set: &[u8]) -> Line
    ensures value { result ≡ flat_adds report.old set.now }
    ensures report_after { report.new ≡ flat_leaves report.old set.now }
{
    match room_for(report) {
        Ok(()) => {
            let line = report::line_of(set);
            keep_line(line, report);
            line
        }
        Err(refusal) => report::refused_line(refusal.number()),
    }
}

// Adds a set to a report, which is 1,352 bytes: hands out how many entries and intervals it has, and the two words of how many ids.
pub fn gtid_report_add(
    report: &mut [u8],
    set: &[u8],
    entries: &mut u64,
    intervals: &mut u64,
    high: &mut u64,
    low: &mut u64,
) -> u8
    ensures value { result ≡ (flat_adds report.old set.now).refusal }
    ensures entries_after { entries.new ≡ (flat_adds report.old set.now).entries }
    ensures intervals_after { intervals.new ≡ (flat_adds report.old set.now).intervals }
    ensures high_after { high.new ≡ (flat_adds report.old set.now).high }
    ensures low_after { low.new ≡ (flat_adds report.old set.now).low }
    ensures report_after { report.new ≡ flat_leaves report.old set.now }
{
    let line = line_added(report, set);
    *entries = line.entries as u64;
    *intervals = line.intervals as u64;
    *high = line.high as u64;
    *low = line.low;
    line.refusal
}

// The sums over the sets of a report.
pub fn gtid_report_sum(
    report: &[u8],
    entries: &mut u64,
    intervals: &mut u64,
    high: &mut u64,
    low: &mut u64,
) -> u8
    ensures value { result ≡ flat_refusal report.now }
    ensures entries_after { entries.new ≡ (flat_sum report.now).entries }
    ensures intervals_after { intervals.new ≡ (flat_sum report.now).intervals }
    ensures high_after { high.new ≡ (flat_sum report.now).high }
    ensures low_after { low.new ≡ (flat_sum report.now).low }
{
    if report.len() != REPORT_SIZE {
        *entries = 0;
        *intervals = 0;
        *high = 0;
        *low = 0;
        return Refusal::NotWritable.number();
    }
    let sum = report_in(report).sum();
    *entries = sum.entries;
    *intervals = sum.intervals;
    *high = sum.high;
    *low = sum.low;
    0
}

// The text of a report.
fn write_text(report: &[u8], out: &mut [u8]) -> Result<usize, WriteError>
    ensures value { result ≡ answer_of out.old (flat_text report.now) }
    ensures out_after { out.new ≡ output_of out.old (flat_text report.now) }
{
    if report.len() != REPORT_SIZE {
        return Err(WriteError::Refused(Refusal::NotWritable));
    }
    report_in(report).write(out)
}

// Writes the text of a report.
pub fn gtid_report_write(report: &[u8], out: &mut [u8], len: &mut usize) -> u8
    ensures value { result ≡ written_number (answer_of out.old (flat_text report.now)) }
    ensures len_after { len.new ≡ written_len (answer_of out.old (flat_text report.now)) }
    ensures out_after { out.new ≡ output_of out.old (flat_text report.now) }
{
    let wrote = write_text(report, out);
    told(wrote, len)
}

// Begins to read a binlog file: the reader, which is 48 bytes, goes on from a set. `checksums` is 0 where events end without them.
pub fn gtid_binlog_begin(set: &[u8], checksums: u8, reader: &mut [u8]) -> u8
    ensures value { result ≡ flat_says reader.old (begin_answers set.now (ltb 0 checksums)) }
    ensures reader_after { reader.new ≡ flat_keeps reader.old (begin_answers set.now (ltb 0 checksums)) }
{
    if reader.len() != READER_SIZE {
        return Refusal::NotWritable.number();
    }
    let begun = binlog_reader::begin(set, 0 < checksums);
    keep_step(begun, reader)
}

// Takes bytes of a chunk up to the end of the next event that is offered or joined, or of the chunk.
pub fn gtid_binlog_step(
    reader: &mut [u8],
    chunk: &[u8],
    work: &mut [u8],
    set: &mut [u8],
    spare: &mut [u8],
) -> u8
    ensures value { result ≡ flat_says reader.old (step_answers (reader_in reader.old) (flat_stepped reader.old work.old set.old (length spare.old) chunk.now)) }
    ensures reader_after { reader.new ≡ flat_keeps reader.old (step_answers (reader_in reader.old) (flat_stepped reader.old work.old set.old (length spare.old) chunk.now)) }
    ensures set_after { set.new ≡ flat_buffer reader.old set.old (flat_stepped reader.old work.old set.old (length spare.old) chunk.now) }
    ensures spare_after { spare.new ≡ flat_buffer reader.old spare.old (flat_stepped reader.old work.old set.old (length spare.old) chunk.now) }
    ensures front { Front (flat_holds reader.old (flat_stepped reader.old work.old set.old (length spare.old) chunk.now)) work.new }
{
    if reader.len() != READER_SIZE {
        return Refusal::NotWritable.number();
    }
    let before = reader_in(reader);
    let stepped = binlog_reader::step(before, chunk, work, set, spare);
    keep_step(stepped, reader)
}

// Names the end of the file.
pub fn gtid_binlog_end(reader: &mut [u8]) -> u8
    ensures value { result ≡ flat_says reader.old (end_answers_of (reader_in reader.old)) }
    ensures reader_after { reader.new ≡ flat_keeps reader.old (end_answers_of (reader_in reader.old)) }
{
    if reader.len() != READER_SIZE {
        return Refusal::NotWritable.number();
    }
    let ended = binlog_reader::end(reader_in(reader));
    keep_step(ended, reader)
}

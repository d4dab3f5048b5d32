// The archive for C and Rust: the functions of crate abi, under their C names, with what they promise.
#![tactic(auto)]

ghost use Rattle.std.specs.Prelude.{◌≡◌, ltb, length};
ghost use Rattle.misc.specs.Parse.{refusal_in, read_of};
ghost use Rattle.misc.specs.Varlen.{varlen_at};
ghost use Rattle.misc.specs.Output.{bytes, output_of, answer_of, written_number, written_len};
ghost use Rattle.previous_gtids_event.specs.Previous.{previous};
ghost use Rattle.previous_gtids_event.specs.Answers.{previous_read, entry_read};
ghost use Rattle.previous_gtids_event.specs.Rewrite.{rewritten};
ghost use Rattle.gtid_event_read.specs.Read.{seen, gtid};
ghost use Rattle.gtid_sets.specs.Lent.{lent_set};
ghost use Rattle.set_join.specs.Answers.{contained, take_in_answers, take_in_leaves};
ghost use Rattle.resume_set.specs.Answers.{set_read, offer_answers, offer_leaves};
ghost use Rattle.gtid_sets.specs.Combine.{either, both, without};
ghost use Rattle.two_sets.specs.Answers.{combine_answers, combine_leaves, within_answers, which_answers};
ghost use Rattle.listing.specs.EventText.{listing};
ghost use Rattle.abi.specs.Answers.{number_in, numbers_of, head_numbers, bit, entry_in};
ghost use Rattle.abi.specs.Flat.{read_output, read_used, read_present, write_output};
ghost use Rattle.binlog.specs.Held.{Front};
ghost use Rattle.binlog_reader.specs.Step.{step_answers, begin_answers, end_answers_of};
ghost use Rattle.abi.specs.FlatBinlog.{reader_in, flat_says, flat_keeps, flat_stepped, flat_buffer, flat_holds};
ghost use Rattle.abi.specs.FlatReport.{flat_adds, flat_leaves, flat_refusal, flat_sum, flat_text};

// Reads the variable-length unsigned integer at the front of some bytes: its value, and how many bytes it takes.
#[unsafe(no_mangle)]
pub extern "C" fn gtid_read_varlen_uint(s: &[u8], value: &mut u64, used: &mut usize) -> u8
    ensures value { result ≡ refusal_in (read_of (varlen_at s.now 0)) }
    ensures value_after { value.new ≡ number_in (read_of (varlen_at s.now 0)) (λ read. read.value) }
    ensures used_after { used.new ≡ number_in (read_of (varlen_at s.now 0)) (λ read. read.next) }
{
    abi::gtid_read_varlen_uint(s, value, used)
}

// Whether bytes are a set (0, else 14), and how many entries and intervals it has.
#[unsafe(no_mangle)]
pub extern "C" fn gtid_check_set(set: &[u8], entries: &mut u64, intervals: &mut u64) -> u8
    ensures value { result ≡ refusal_in (set_read (lent_set set.now)) }
    ensures entries_after { entries.new ≡ number_in (set_read (lent_set set.now)) (λ said. said.entries) }
    ensures intervals_after { intervals.new ≡ number_in (set_read (lent_set set.now)) (λ said. said.intervals) }
{
    abi::gtid_check_set(set, entries, intervals)
}

// Whether a set has the id of a uuid, a tag (none: no bytes) and a gno: 1 if it is there, else 0.
#[unsafe(no_mangle)]
pub extern "C" fn gtid_contains(
    set: &[u8],
    uuid: &[u8],
    tag: &[u8],
    gno: u64,
    present: &mut u8,
) -> u8
    ensures value { result ≡ refusal_in (contained (lent_set set.now) uuid.now tag.now gno) }
    ensures present_after { present.new ≡ number_in (contained (lent_set set.now) uuid.now tag.now gno) bit }
{
    abi::gtid_contains(set, uuid, tag, gno, present)
}

// Takes in the body of a Previous-GTIDs event: the set of all its ids is written, in set form.
#[unsafe(no_mangle)]
pub extern "C" fn gtid_take_in(body: &[u8], out: &mut [u8], len: &mut usize) -> u8
    ensures value { result ≡ written_number (take_in_answers body.now out.old) }
    ensures len_after { len.new ≡ written_len (take_in_answers body.now out.old) }
    ensures out_after { out.new ≡ take_in_leaves body.now out.old }
{
    abi::gtid_take_in(body, out, len)
}

// Reads the body of a Previous-GTIDs event: how many entries it has, and how many bytes its header and they take.
#[unsafe(no_mangle)]
pub extern "C" fn gtid_read_previous(body: &[u8], entries: &mut u64, used: &mut usize) -> u8
    ensures value { result ≡ refusal_in (previous_read (previous body.now)) }
    ensures entries_after { entries.new ≡ number_in (previous_read (previous body.now)) (λ said. said.entries) }
    ensures used_after { used.new ≡ number_in (previous_read (previous body.now)) (λ said. said.used) }
{
    abi::gtid_read_previous(body, entries, used)
}

// Reads the entry at a place of such a body: how many bytes its tag has and how many intervals there are, where the first of them
// is, and where the entry ends. Its uuid is the 16 bytes at the place, and its tag ends eight bytes before the first interval.
#[unsafe(no_mangle)]
pub extern "C" fn gtid_read_entry(
    body: &[u8],
    at: usize,
    tag_len: &mut usize,
    intervals: &mut u64,
    first: &mut usize,
    next: &mut usize,
) -> u8
    ensures value { result ≡ refusal_in (entry_read (entry_in body.now at)) }
    ensures tag_len_after { tag_len.new ≡ number_in (entry_read (entry_in body.now at)) (λ said. said.tag_len) }
    ensures intervals_after { intervals.new ≡ number_in (entry_read (entry_in body.now at)) (λ said. said.intervals) }
    ensures first_after { first.new ≡ number_in (entry_read (entry_in body.now at)) (λ said. said.first) }
    ensures next_after { next.new ≡ number_in (entry_read (entry_in body.now at)) (λ said. said.next) }
{
    abi::gtid_read_entry(body, at, tag_len, intervals, first, next)
}

// Writes the entries that the body of a Previous-GTIDs event holds anew.
#[unsafe(no_mangle)]
pub extern "C" fn gtid_rewrite(body: &[u8], out: &mut [u8], len: &mut usize) -> u8
    ensures value { result ≡ written_number (answer_of out.old (rewritten (previous body.now))) }
    ensures len_after { len.new ≡ written_len (answer_of out.old (rewritten (previous body.now))) }
    ensures out_after { out.new ≡ output_of out.old (rewritten (previous body.now)) }
{
    abi::gtid_rewrite(body, out, len)
}

// Writes the text of an event: a type byte with a body behind it.
#[unsafe(no_mangle)]
pub extern "C" fn gtid_list(input: &[u8], out: &mut [u8], len: &mut usize) -> u8
    ensures value { result ≡ written_number (answer_of out.old (bytes (listing input.now))) }
    ensures len_after { len.new ≡ written_len (answer_of out.old (bytes (listing input.now))) }
    ensures out_after { out.new ≡ output_of out.old (bytes (listing input.now)) }
{
    abi::gtid_list(input, out, len)
}

// Offers an event to a set, and writes the set after it. The kind is 0 for an event that is refused, 1 for an id that is taken, 2 for one
// that is already there and 3 for an event with no id.
#[unsafe(no_mangle)]
pub extern "C" fn gtid_offer(
    set: &[u8],
    event_type: u8,
    body: &[u8],
    out: &mut [u8],
    kind: &mut u8,
    len: &mut usize,
) -> u8
    ensures value { result ≡ (numbers_of (offer_answers set.now event_type body.now out.old)).refusal }
    ensures kind_after { kind.new ≡ (numbers_of (offer_answers set.now event_type body.now out.old)).kind }
    ensures len_after { len.new ≡ (numbers_of (offer_answers set.now event_type body.now out.old)).len }
    ensures out_after { out.new ≡ offer_leaves set.now event_type body.now out.old }
{
    abi::gtid_offer(set, event_type, body, out, kind, len)
}

// The ids in either of two sets, written as a set. Both may be the same bytes.
#[unsafe(no_mangle)]
pub extern "C" fn gtid_either(first: &[u8], second: &[u8], out: &mut [u8], len: &mut usize) -> u8
    ensures value { result ≡ written_number (combine_answers either first.now second.now out.old) }
    ensures len_after { len.new ≡ written_len (combine_answers either first.now second.now out.old) }
    ensures out_after { out.new ≡ combine_leaves either first.now second.now out.old }
{
    abi::gtid_either(first, second, out, len)
}

// The ids in both sets.
#[unsafe(no_mangle)]
pub extern "C" fn gtid_both(first: &[u8], second: &[u8], out: &mut [u8], len: &mut usize) -> u8
    ensures value { result ≡ written_number (combine_answers both first.now second.now out.old) }
    ensures len_after { len.new ≡ written_len (combine_answers both first.now second.now out.old) }
    ensures out_after { out.new ≡ combine_leaves both first.now second.now out.old }
{
    abi::gtid_both(first, second, out, len)
}

// The ids of the first set that are not in the second.
#[unsafe(no_mangle)]
pub extern "C" fn gtid_without(first: &[u8], second: &[u8], out: &mut [u8], len: &mut usize) -> u8
    ensures value { result ≡ written_number (combine_answers without first.now second.now out.old) }
    ensures len_after { len.new ≡ written_len (combine_answers without first.now second.now out.old) }
    ensures out_after { out.new ≡ combine_leaves without first.now second.now out.old }
{
    abi::gtid_without(first, second, out, len)
}

// Whether all ids of the first set are in the second: 1 if they are, else 0.
#[unsafe(no_mangle)]
pub extern "C" fn gtid_within(first: &[u8], second: &[u8], within: &mut u8) -> u8
    ensures value { result ≡ refusal_in (within_answers first.now second.now) }
    ensures within_after { within.new ≡ number_in (within_answers first.now second.now) bit }
{
    abi::gtid_within(first, second, within)
}

// Which of two sets contains the other: 1 is the first, also where they are equal, 2 the second, and 0 none of them.
#[unsafe(no_mangle)]
pub extern "C" fn gtid_head(first: &[u8], second: &[u8], head: &mut u8) -> u8
    ensures value { result ≡ (head_numbers (which_answers first.now second.now)).refusal }
    ensures head_after { head.new ≡ (head_numbers (which_answers first.now second.now)).head }
{
    abi::gtid_head(first, second, head)
}

// Reads a GTID event of this type: its record is written, as 116 bytes, `used` is how many bytes of the body the event has, and `present`
// tells which fields a tagged event was sent with: bit k is the field with the id k. It is 0 for an untagged event and with a refusal.
#[unsafe(no_mangle)]
pub extern "C" fn gtid_read_present(
    event_type: u8,
    body: &[u8],
    out: &mut [u8],
    used: &mut usize,
    present: &mut u16,
) -> u8
    ensures value { result ≡ written_number (answer_of out.old (read_output (gtid event_type body.now))) }
    ensures used_after { used.new ≡ read_used (gtid event_type body.now) (length out.old) }
    ensures out_after { out.new ≡ output_of out.old (read_output (gtid event_type body.now)) }
    ensures present_after { present.new ≡ read_present (seen event_type body.now) (length out.old) }
{
    abi::gtid_read_present(event_type, body, out, used, present)
}

// The same without the fields.
#[unsafe(no_mangle)]
pub extern "C" fn gtid_read(event_type: u8, body: &[u8], out: &mut [u8], used: &mut usize) -> u8
    ensures value { result ≡ written_number (answer_of out.old (read_output (gtid event_type body.now))) }
    ensures used_after { used.new ≡ read_used (gtid event_type body.now) (length out.old) }
    ensures out_after { out.new ≡ output_of out.old (read_output (gtid event_type body.now)) }
{
    abi::gtid_read(event_type, body, out, used)
}

// Writes the event of a record, which is 116 bytes.
#[unsafe(no_mangle)]
pub extern "C" fn gtid_write(fields: &[u8], out: &mut [u8], len: &mut usize) -> u8
    ensures value { result ≡ written_number (answer_of out.old (write_output fields.now)) }
    ensures len_after { len.new ≡ written_len (answer_of out.old (write_output fields.now)) }
    ensures out_after { out.new ≡ output_of out.old (write_output fields.now) }
{
    abi::gtid_write(fields, out, len)
}

// Adds a set to a report, which is 1,352 bytes: hands out how many entries and intervals it has, and the two words of how many ids.
#[unsafe(no_mangle)]
pub extern "C" fn gtid_report_add(
    report: &mut [u8],
    set: &[u8],
    entries: &mut u64,
    intervals: &mut u64,
    high: &mut u64,
    low: &mut u64,
) -> u8
    ensures value { result ≡ (flat_adds report.old set.now).refusal }
    ensures entries_after { entries.new ≡ (flat_adds report.old set.now).entries }
    ensures intervals_after { intervals.new ≡ (flat_adds report.old set.now).intervals }
    ensures high_after { high.new ≡ (flat_adds report.old set.now).high }
    ensures low_after { low.new ≡ (flat_adds report.old set.now).low }
    ensures report_after { report.new ≡ flat_leaves report.old set.now }
{
    abi::gtid_report_add(report, set, entries, intervals, high, low)
}

// The sums over the sets of a report.
#[unsafe(no_mangle)]
pub extern "C" fn gtid_report_sum(
    report: &[u8],
    entries: &mut u64,
    intervals: &mut u64,
    high: &mut u64,
    low: &mut u64,
) -> u8
    ensures value { result ≡ flat_refusal report.now }
    ensures entries_after { entries.new ≡ (flat_sum report.now).entries }
    ensures intervals_after { intervals.new ≡ (flat_sum report.now).intervals }
    ensures high_after { high.new ≡ (flat_sum report.now).high }
    ensures low_after { low.new ≡ (flat_sum report.now).low }
{
    abi::gtid_report_sum(report, entries, intervals, high, low)
}

// Writes the text of a report.
#[unsafe(no_mangle)]
pub extern "C" fn gtid_report_write(report: &[u8], out: &mut [u8], len: &mut usize) -> u8
    ensures value { result ≡ written_number (answer_of out.old (flat_text report.now)) }
    ensures len_after { len.new ≡ written_len (answer_of out.old (flat_text report.now)) }
    ensures out_after { out.new ≡ output_of out.old (flat_text report.now) }
{
    abi::gtid_report_write(report, out, len)
}

// Begins to read a binlog file: the reader, which is 48 bytes, goes on from a set. `checksums` is 0 where events end without them.
#[unsafe(no_mangle)]
pub extern "C" fn gtid_binlog_begin(set: &[u8], checksums: u8, reader: &mut [u8]) -> u8
    ensures value { result ≡ flat_says reader.old (begin_answers set.now (ltb 0 checksums)) }
    ensures reader_after { reader.new ≡ flat_keeps reader.old (begin_answers set.now (ltb 0 checksums)) }
{
    abi::gtid_binlog_begin(set, checksums, reader)
}

// Takes bytes of a chunk up to the end of the next event that is offered or joined, or of the chunk.
#[unsafe(no_mangle)]
pub extern "C" fn gtid_binlog_step(
    reader: &mut [u8],
    chunk: &[u8],
    work: &mut [u8],
    set: &mut [u8],
    spare: &mut [u8],
) -> u8
    ensures value { result ≡ flat_says reader.old (step_answers (reader_in reader.old) (flat_stepped reader.old work.old set.old (length spare.old) chunk.now)) }
    ensures reader_after { reader.new ≡ flat_keeps reader.old (step_answers (reader_in reader.old) (flat_stepped reader.old work.old set.old (length spare.old) chunk.now)) }
    ensures set_after { set.new ≡ flat_buffer reader.old set.old (flat_stepped reader.old work.old set.old (length spare.old) chunk.now) }
    ensures spare_after { spare.new ≡ flat_buffer reader.old spare.old (flat_stepped reader.old work.old set.old (length spare.old) chunk.now) }
    ensures front { Front (flat_holds reader.old (flat_stepped reader.old work.old set.old (length spare.old) chunk.now)) work.new }
{
    abi::gtid_binlog_step(reader, chunk, work, set, spare)
}

// Names the end of the file.
#[unsafe(no_mangle)]
pub extern "C" fn gtid_binlog_end(reader: &mut [u8]) -> u8
    ensures value { result ≡ flat_says reader.old (end_answers_of (reader_in reader.old)) }
    ensures reader_after { reader.new ≡ flat_keeps reader.old (end_answers_of (reader_in reader.old)) }
{
    abi::gtid_binlog_end(reader)
}

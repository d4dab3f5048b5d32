// The follow program: a binlog file on standard input as it arrives, behind a byte that says whether checksums end its events (1), and a set
// to start from, behind its length in four bytes. On standard output it writes a line for each event that is answered, before it waits for
// more input; a line for the refusal that stops the reader; and at last the set. On descriptor 3 it writes the refusal's number, or 0, and
// the set's bytes, unless standard output could not be written. That each line is put whole and says what the reader answered is proved
// (`line_of`), that a chunk is used up unless the walk stops (`through`), and that there is room for the text of every set (`text_of`).
#![tactic(auto)]

mod lines;
mod progress;
mod start;

ghost use Rattle.std.specs.Prelude.{◌≡◌, ◌≤◌, ◌<◌, length, MatchOption};
ghost use Rattle.listing.specs.EventText.{longest_text};
ghost use Rattle.misc.specs.Pick.{pick};
ghost use Rattle.gtid_sets.specs.Lent.{unfit, lent_set};
ghost use Rattle.gtid_follow.specs.declared.Turn.TheVariants.{On, Over};
ghost use Rattle.gtid_follow.specs.Program.{line_room, goes_on, StandsIn, Lined, walk_in, UsesMore, UsesAll, Fits, Listed};

use crate::lines::Lines;
use binlog::WORK;
use binlog_reader::{Reader, Said, begin, end};
use listing::LONGEST_TEXT;
use listing::set_text::list_set;
use set_check::LONGEST_SET;
use std::io::{Read, Stdin};

// How much is read at once.
const CHUNK: usize = 65_536;

// Where the walk is: the reader, the lines, how many events were answered, and how many bytes of the chunk were used.
#[derive(Clone, Copy)]
struct Walk {
    reader: Reader,
    lines: Lines,
    events: u64,
    used: usize,
}

// Whether there is more to do after a turn of the walk.
#[derive(Clone, Copy)]
enum Turn {
    On(Walk),
    Over(Walk),
}

impl Turn {
    fn after(walk: Walk, on: bool) -> Turn
        ensures { result ≡ pick on (On walk) (Over walk) }
    {
        if on { Turn::On(walk) } else { Turn::Over(walk) }
    }
}

// Whether there is more to do after this.
fn goes_on(said: Said) -> bool
    ensures { result ≡ goes_on said }
{
    match said {
        Said::MoreWanted | Said::Event(_, _, _) => true,
        Said::Ended | Said::Refused(_, _) => false,
    }
}

// The number of a refusal.
fn refusal_in(said: Said) -> Option<u8> {
    match said {
        Said::Refused(refusal, _) => Some(refusal),
        _ => None,
    }
}

// How many events were answered.
fn answers_in(said: Said) -> u64 {
    match said {
        Said::Event(_, _, _) => 1,
        _ => 0,
    }
}

// A walk that begins with a set.
fn begun(set: &[u8], checksums: bool) -> Turn
    ensures { Fits (length set.now) 0 (walk_in result) }
{
    let first = begin(set, checksums);
    let walk = Walk {
        reader: first.reader,
        lines: lines::none(),
        events: 0,
        used: 0,
    };
    Turn::after(walk, goes_on(first.said))
}

// The lines, with one more if an event was answered; its body stands at the front of the work bytes.
fn line_of(said: Said, lines: Lines, work: &[u8], text: &mut [u8]) -> Lines
    requires waiting_in_bounds { (lines.waiting ≤ length text.old) × (line_room ≤ length text.old) }
    requires stands_in { StandsIn (length work.now) said }
    ensures { Lined said work.now lines text.old result text.new }
{
    match said {
        Said::Event(told, event_type, len) => {
            lines::put_answer(lines, told, event_type, &work[..len], text)
        }
        _ => lines,
    }
}

// One step through a chunk, with the line of what it answers. (The buffers go one by one and in no struct: the line is put into `text` from
// what stands in `work`, and the borrow checker doesn't cover a read of one field of a lent struct while another is lent.)
fn step(
    walk: Walk,
    chunk: &[u8],
    work: &mut [u8],
    set: &mut [u8],
    spare: &mut [u8],
    text: &mut [u8],
) -> Turn
    requires fits { Fits (length set.old) (length text.old) walk }
    requires used_in_bounds { (walk.used < length chunk.now) × (line_room ≤ length text.old) }
    ensures fits_2 { Fits (length set.old) (length text.old) (walk_in result) }
    ensures used_in_bounds_2 { UsesMore walk.used (length chunk.now) result }
{
    let from = walk.used;
    let fed = binlog_reader::step(walk.reader, &chunk[from..], work, set, spare);
    let said = fed.said;
    let lines = line_of(said, walk.lines, work, text);
    let next = Walk {
        reader: fed.reader,
        lines,
        events: walk.events.saturating_add(answers_in(said)),
        used: from + fed.used,
    };
    Turn::after(next, goes_on(said) & lines.heard)
}

// Walks through a chunk.
fn through(
    walk: Walk,
    chunk: &[u8],
    work: &mut [u8],
    set: &mut [u8],
    spare: &mut [u8],
    text: &mut [u8],
) -> Turn
    requires fits { Fits (length set.old) (length text.old) walk }
    requires used_in_bounds { (walk.used ≤ length chunk.now) × (line_room ≤ length text.old) }
    ensures fits_2 { Fits (length set.old) (length text.old) (walk_in result) }
    ensures used_value { UsesAll (length chunk.now) result }
{
    let mut here = walk;
    // each turn uses as much as the reader says: no index is counted
    while here.used < chunk.len() {
        match step(here, chunk, work, set, spare, text) {
            Turn::On(next) => here = next,
            Turn::Over(last) => return Turn::Over(last),
        }
    }
    Turn::On(here)
}

// Reads what has come, as much as fits, and returns its length: 0 at the end of the input, or where it can't be read.
fn read_chunk(input: &mut Stdin, chunk: &mut [u8]) -> usize
    ensures { result ≤ length chunk.new }
{
    input.read(chunk).unwrap_or(0)
}

// Writes the lines that wait, and then reads a chunk and walks through it.
fn next_chunk(
    walk: Walk,
    input: &mut Stdin,
    chunk: &mut [u8],
    work: &mut [u8],
    set: &mut [u8],
    spare: &mut [u8],
    text: &mut [u8],
) -> Turn
    requires fits { Fits (length set.old) (length text.old) walk }
    requires line_room_in_bounds { line_room ≤ length text.old }
    ensures { Fits (length set.old) (length text.old) (walk_in result) }
{
    let lines = lines::flushed(walk.lines, text);
    let here = Walk {
        reader: walk.reader,
        lines,
        events: walk.events,
        used: 0,
    };
    if !lines.heard {
        return Turn::Over(here);
    }
    let len = read_chunk(input, chunk);
    if len == 0 {
        return Turn::Over(here);
    }
    through(here, &chunk[..len], work, set, spare, text)
}

// Walks to the end of the input, or of the walk. A proved loop has to end, so it counts its turns, up to a number that no run uses up.
fn walked(
    walk: Walk,
    input: &mut Stdin,
    chunk: &mut [u8],
    work: &mut [u8],
    set: &mut [u8],
    spare: &mut [u8],
    text: &mut [u8],
) -> Walk
    requires fits { Fits (length set.old) (length text.old) walk }
    requires line_room_in_bounds { line_room ≤ length text.old }
    ensures { Fits (length set.old) (length text.old) result }
{
    let mut here = walk;
    let mut so_far = progress::none();
    for _ in 0..u64::MAX {
        match next_chunk(here, input, chunk, work, set, spare, text) {
            Turn::On(next) => here = next,
            Turn::Over(last) => {
                progress::told(so_far, last.used, last.events);
                return last;
            }
        }
        so_far = progress::told(so_far, here.used, here.events);
    }
    here
}

// Puts the text of a set at the front of `text`, and returns its length, if the bytes are a set.
fn text_of(set: &[u8], text: &mut [u8]) -> Option<usize>
    requires { longest_text ≤ length text.old }
    ensures { MatchOption result (lent_set set.now ≡ unfit) (λ len. Listed set.now len text.new) }
{
    list_set(b"previous-gtids", set, text).ok()
}

// Writes what is left to say, and for the command, on descriptor 3, the refusal's number and the set.
fn finish(walk: Walk, set: &[u8], text: &mut [u8])
    requires { (walk.lines.waiting ≤ length text.old) × (longest_text ≤ length text.old) }
{
    let refusal = refusal_in(end(walk.reader).said);
    let lines = lines::put_refusal(walk.lines, refusal, text);
    if !lines.heard {
        return;
    }
    let number = [refusal.unwrap_or(0)];
    let Some(len) = text_of(set, text) else {
        io::write_all(3, &number);
        return;
    };
    if !io::write_all(1, &text[..len]) {
        return;
    }
    io::write_all(3, &number);
    io::write_all(3, set);
}

fn follow(
    input: &mut Stdin,
    chunk: &mut [u8],
    work: &mut [u8],
    set: &mut [u8],
    spare: &mut [u8],
    text: &mut [u8],
)
    requires { longest_text ≤ length text.old }
{
    let start = start::read_start(set).unwrap_or_default();
    let last = match begun(&set[..start.len], start.checksums) {
        Turn::On(walk) => walked(walk, input, chunk, work, set, spare, text),
        Turn::Over(walk) => walk,
    };
    finish(last, &set[..last.reader.len], text);
}

fn main(rt: HostRuntime) {
    let mut input = rt.stdin();
    let mut chunk = [0u8; CHUNK];
    let mut work = [0u8; WORK];
    let mut set = [0u8; LONGEST_SET];
    let mut spare = [0u8; LONGEST_SET];
    let mut text = [0u8; LONGEST_TEXT];
    follow(
        &mut input, &mut chunk, &mut work, &mut set, &mut spare, &mut text,
    );
}

// The lines that the program writes: they gather at the front of a text, and are written when that is nearly full, and before the program
// waits for more input.
ghost use Rattle.std.specs.Prelude.{◌≡◌, ◌++◌, ◌+◌, ◌≤◌, length};
ghost use Rattle.misc.specs.Put.{PutsWhereFits};
ghost use Rattle.binlog_reader.specs.declared.Told.TheVariants.{Taken};
ghost use Rattle.gtid_follow.specs.Program.{line_room, id_line, answer_line, Names, Added, StaysUnheard};

use binlog_reader::Told;
use listing::event_text::list;
use misc::put::Put;
use text::lines::put_refused;

// No line is longer.
const LINE_ROOM: usize = 128;

// `gtid `, with which the listing begins the line of an id.
const WORD: usize = 5;

// How many bytes of lines wait to be written, and whether all before could be. If not, nothing more is written. (No enum of the two: `Added`
// and `StaysUnheard` speak of both, and a line is put whole whether it is still heard or not.)
#[derive(Clone, Copy)]
pub(crate) struct Lines {
    pub(crate) waiting: usize,
    pub(crate) heard: bool,
}

pub(crate) fn none() -> Lines
    ensures { result.waiting ≡ 0 }
{
    Lines {
        waiting: 0,
        heard: true,
    }
}

// Writes the lines that wait.
pub(crate) fn flushed(lines: Lines, text: &[u8]) -> Lines
    requires { lines.waiting ≤ length text.now }
    ensures waiting_value { result.waiting ≡ 0 }
    ensures stays_unheard { StaysUnheard lines result }
{
    if !lines.heard {
        return Lines {
            waiting: 0,
            heard: false,
        };
    }
    Lines {
        waiting: 0,
        heard: io::write_all(1, &text[..lines.waiting]),
    }
}

// Writes them where there is no room for a line more.
fn with_room(lines: Lines, text: &[u8]) -> Lines
    requires { (lines.waiting ≤ length text.now) × (line_room ≤ length text.now) }
    ensures line_room_in_bounds { result.waiting + line_room ≤ length text.now }
    ensures stays_unheard { StaysUnheard lines result }
{
    if text.len() - lines.waiting < LINE_ROOM {
        return flushed(lines, text);
    }
    lines
}

// Puts a word and the id of an event, as the listing has it.
fn put_id(put: &mut Put<'_>, word: &[u8], event_type: u8, body: &[u8])
    requires { Names Taken event_type }
    ensures { PutsWhereFits put.old (word.now ++ id_line event_type body.now) put.new }
{
    let mut line = [0u8; LINE_ROOM];
    let len = list(event_type, body, &mut line).unwrap();
    put.bytes(word);
    put.bytes(&line[WORD..len]);
}

// Puts the line of what an event was told.
fn put_told(put: &mut Put<'_>, told: Told, event_type: u8, body: &[u8])
    requires { Names told event_type }
    ensures { PutsWhereFits put.old (answer_line told event_type body.now) put.new }
{
    match told {
        Told::NoId => put.bytes(b"no id\n"),
        Told::AlreadyThere => put_id(put, b"already there ", event_type, body),
        Told::Taken => put_id(put, b"taken ", event_type, body),
        Told::Joined => put.bytes(b"joined\n"),
    }
}

// The line of what an event was told.
pub(crate) fn put_answer(
    lines: Lines,
    told: Told,
    event_type: u8,
    body: &[u8],
    text: &mut [u8],
) -> Lines
    requires waiting_in_bounds { (lines.waiting ≤ length text.old) × (line_room ≤ length text.old) }
    requires names { Names told event_type }
    ensures added { Added text.old (answer_line told event_type body.now) text.new result.waiting }
    ensures stays_unheard { StaysUnheard lines result }
{
    let before = with_room(lines, text);
    let mut put = Put {
        out: text,
        at: before.waiting,
    };
    put_told(&mut put, told, event_type, body);
    Lines {
        waiting: put.at,
        heard: before.heard,
    }
}

// The line of a refusal, if there is one; and all lines that wait are written.
pub(crate) fn put_refusal(lines: Lines, refusal: Option<u8>, text: &mut [u8]) -> Lines
    requires { (lines.waiting ≤ length text.old) × (line_room ≤ length text.old) }
    ensures { StaysUnheard lines result }
{
    let Some(number) = refusal else {
        return flushed(lines, text);
    };
    let before = with_room(lines, text);
    let mut put = Put {
        out: text,
        at: before.waiting,
    };
    put_refused(&mut put, number);
    let lines = Lines {
        waiting: put.at,
        heard: before.heard,
    };
    flushed(lines, text)
}

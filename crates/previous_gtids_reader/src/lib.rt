// Hands out the entries of a Previous-GTIDs body (type 35) one after another. A refusal leaves the reader where it was, so asking
// again repeats it.
#![tactic(auto)]

ghost use Rattle.std.specs.Prelude.{◌≡◌};
ghost use Rattle.previous_gtids_reader.specs.Steps.{start_of, step_of, step_after};
ghost use Rattle.previous_gtids_reader.specs.Held.{reader_at, or_at_none, begun};

use misc::refusal::Refusal;
use previous_gtids_event::read::{entry_at, header_of};
use previous_gtids_event::{EntryRead, FIRST_ENTRY};

// Where the next entry lies, and how many are left. Each step judges the body's header itself, so that it refuses what the body is
// refused for at any cursor.
#[derive(Clone, Copy)]
pub struct Cursor {
    pub at: usize,
    pub left: u64,
}

// A step that hands out an entry: the entry, and the cursor behind it.
#[derive(Clone, Copy)]
pub struct Step {
    pub entry: EntryRead,
    pub cursor: Cursor,
}

// A step that was asked for by its number: the step, unless no entry is left, and the place where it was asked. At the end that is where
// the entries end.
#[derive(Clone, Copy)]
pub struct Asked {
    pub step: Option<Step>,
    pub at: usize,
}

// The place of a body's first entry.
pub fn start(body: &[u8]) -> Result<Cursor, Refusal>
    ensures { result ≡ start_of body.now }
{
    let header = header_of(body)?;
    Ok(Cursor {
        at: FIRST_ENTRY,
        left: header.entries,
    })
}

// The step at a cursor: an entry is handed out only when the whole of it is there, and none where none is left.
pub fn step_at(body: &[u8], cursor: Cursor) -> Result<Option<Step>, Refusal>
    ensures { result ≡ step_of body.now cursor }
{
    let tagged = header_of(body)?.tagged;
    if cursor.left == 0 {
        return Ok(None);
    }
    let entry = entry_at(body, cursor.at, tagged)?;
    Ok(Some(Step {
        entry,
        cursor: Cursor {
            at: entry.next,
            left: cursor.left - 1,
        },
    }))
}

// Holds a body, and hands out its entries: `next` gives a step, and `moved` takes the reader to that step's cursor. Where there is no
// step the caller keeps its reader as it is.
#[derive(Clone, Copy)]
pub struct Reader<'a> {
    pub body: &'a [u8],
    pub cursor: Cursor,
}

// A reader at the start of a body. One of a body that is refused is at no entry, and each step tells the refusal.
pub fn new<'a>(body: &'a [u8]) -> Reader<'a>
    ensures { result ≡ reader_at body.entry (or_at_none (start_of body.now)) }
{
    Reader {
        body,
        cursor: start(body).unwrap_or(Cursor { at: 0, left: 0 }),
    }
}

// The same, or the refusal.
pub fn try_new<'a>(body: &'a [u8]) -> Result<Reader<'a>, Refusal>
    ensures { result ≡ begun body.entry (start_of body.now) }
{
    let cursor = start(body)?;
    Ok(Reader { body, cursor })
}

// The step at a reader's cursor.
pub fn next<'a>(r: Reader<'a>) -> Result<Option<Step>, Refusal>
    ensures { result ≡ step_of r.entry.body.now r.entry.cursor }
{
    step_at(r.body, r.cursor)
}

// The reader at another cursor of its body: at that of a step, to go on.
pub fn moved<'a>(r: Reader<'a>, cursor: Cursor) -> Reader<'a>
    ensures { result ≡ reader_at r.entry.body cursor }
{
    Reader {
        body: r.body,
        cursor,
    }
}

// The step that has so many before it, from the start on, for callers who keep no reader. Where there is none, all later steps
// repeat that.
pub fn entry_number(body: &[u8], index: u64) -> Result<Asked, Refusal>
    ensures { result ≡ step_after body.now index }
{
    let mut reader = try_new(body)?;
    for _ in 0..index {
        match next(reader)? {
            Some(step) => reader = moved(reader, step.cursor),
            None => {
                return Ok(Asked {
                    step: None,
                    at: reader.cursor.at,
                });
            }
        }
    }
    let step = next(reader)?;
    Ok(Asked {
        step,
        at: reader.cursor.at,
    })
}

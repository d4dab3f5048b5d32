// The line of call 51 of the test program, from what the reader of a binlog file says: `ok ANSWERS STATES LEN HEX`.
#![tactic(auto)]

use misc::refusal::NO_ROOM;
use probe_lines::answers;
use probe_lines::line::Line;
use std::num::wrapping_add_usize;

// The archive's kinds of answers; 0 is a refusal. They are numbers here too, since what the library says is held against the archive's.
pub const TAKEN: u8 = 1;

pub const ALREADY_THERE: u8 = 2;

pub const NO_ID: u8 = 3;

pub const JOINED: u8 = 4;

pub const MORE_WANTED: u8 = 5;

pub const ENDED: u8 = 6;

// What a call said, as the archive's numbers: the refusal, 0 for none; the kind of the answer; the event's type; the length of its body, or
// the one that a refusal names; how many bytes of the chunk were used; and the length of the set.
#[derive(Clone, Copy)]
pub struct Heard {
    pub refusal: u8,
    pub kind: u8,
    pub event_type: u8,
    pub len: usize,
    pub used: usize,
    pub set_len: usize,
}

// The state of a file: it goes on, it ended well, or it was refused with a number.
#[derive(Clone, Copy, PartialEq, Eq)]
enum State {
    On,
    Ended,
    Refused(u8),
}

const STATES_ROOM: usize = 100;

// The text of states: the front of the bytes, up to the end. (A `Line` lends its bytes, and this is handed on by value.)
#[derive(Clone, Copy)]
struct States {
    bytes: [u8; STATES_ROOM],
    end: usize,
}

// What is noted of a run: where the events' letters begin on the line; the last state, and the text of all states; the sum of all types and
// lengths that were told; and whether a refusal other than 13 named a length.
#[derive(Clone, Copy)]
pub struct Notes {
    letters_at: usize,
    state: State,
    states: States,
    pub told: usize,
    nonzero: bool,
}

// ---- the letters, one for each event

// The letter of an event's answer; an answer of another kind has none.
fn letter_of(kind: u8) -> Option<u8> {
    match kind {
        TAKEN => Some(b't'),
        ALREADY_THERE => Some(b'p'),
        NO_ID => Some(b'n'),
        JOINED => Some(b'j'),
        _ => None,
    }
}

fn nonzero(heard: Heard) -> bool {
    (heard.refusal != 0) & (heard.refusal != NO_ROOM) & (heard.len != 0)
}

// The notes after a call.
pub fn with_call(notes: Notes, heard: Heard, line: &mut Line<'_>) -> Notes {
    if let Some(letter) = letter_of(heard.kind) {
        line.byte(letter);
    }
    let told = wrapping_add_usize(heard.event_type as usize, heard.len);
    let mut after = notes;
    after.told = wrapping_add_usize(notes.told, told);
    after.nonzero = notes.nonzero | nonzero(heard);
    after
}

// ---- the states, one for each step

fn state_of(heard: Heard) -> State {
    if heard.kind == ENDED {
        return State::Ended;
    }
    if heard.refusal == 0 {
        return State::On;
    }
    State::Refused(heard.refusal)
}

impl States {
    // The state before the first step.
    fn first() -> States {
        let mut bytes = [0u8; STATES_ROOM];
        bytes[0] = b'0';
        States { bytes, end: 1 }
    }

    // With one more behind them.
    fn and(self, state: State) -> States {
        let mut bytes = [0u8; STATES_ROOM];
        let mut text = Line::new(&mut bytes);
        text.text(self.text());
        text.byte(b',');
        match state {
            State::On => text.byte(b'0'),
            State::Ended => text.byte(b'e'),
            State::Refused(number) => text.decimal(number as u64),
        }
        let end = text.len();
        States { bytes, end }
    }

    fn text(&self) -> &[u8] {
        probe_lines::parts::front(&self.bytes, self.end)
    }
}

// The notes after a step, with its state, unless that is the last again.
pub fn with_step(notes: Notes, heard: Heard) -> Notes {
    let state = state_of(heard);
    if state == notes.state {
        return notes;
    }
    let mut after = notes;
    after.state = state;
    after.states = notes.states.and(state);
    after
}

// ---- the line

// The notes before the first step. The line begins with `ok `.
pub fn begin(line: &mut Line<'_>) -> Notes {
    answers::ok(line);
    Notes {
        letters_at: line.len(),
        state: State::On,
        states: States::first(),
        told: 0,
        nonzero: false,
    }
}

// ` STATES LEN HEX` behind the letters, or `-` for none of them. The set of this length stands at the front of `set`.
pub fn end(notes: Notes, set: &[u8], len: usize, line: &mut Line<'_>) {
    line.text_if(line.len() == notes.letters_at, b"-");
    line.byte(b' ');
    line.text(notes.states.text());
    line.byte(b' ');
    answers::push_output(line, set, len);
    line.text_if(notes.nonzero, b" nonzero");
}

// Events and sets as text, for people to read, written into a lent output. `list` gives the text of an event and `list_input` that of the
// listing program's whole input, a type byte and a body: both say in their text what is refused. `list_set` lists a set. What they write
// is said by `event_text`, `listing` and `set_text` of specs/; nothing longer than 129,322 bytes (`longest_text`) is ever listed.
#![tactic(auto)]

use packets::MAX_TAG;
use set_check::{MAX_ENTRIES, MAX_INTERVALS};
use text::keys::UUID_TEXT;

pub mod event_text;
mod intervals;
pub mod set_text;

// The longest line of counts: 14 bytes for its first word, 9 and 11 for the others, 3 and 4 for the counts, and 1 for the newline.
const COUNTS_LINE: usize = 14 + 9 + 3 + 11 + 4 + 1;

// The longest line of an entry without its intervals: the uuid, the tag after a colon, and the newline.
const ENTRY_LINE: usize = UUID_TEXT + 1 + MAX_TAG + 1;

// The longest interval of a set: a colon, and two numbers of 19 digits with a dash between them.
const INTERVAL: usize = 1 + 19 + 1 + 19;

// The bytes of the longest text, as in specs/EventText.antt.
pub const LONGEST_TEXT: usize = COUNTS_LINE + MAX_ENTRIES * ENTRY_LINE + MAX_INTERVALS * INTERVAL;

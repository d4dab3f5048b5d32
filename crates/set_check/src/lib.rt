// The check of a lent set: whether its bytes are a Previous-GTIDs body in set form and within the set limits, and if so, how many
// entries and intervals it has. It promises `checked_of (lent_set ..)`. Beside it stands the one walk over a
// set's entries, with a cursor. `limits` judges the counts of a set that is to be written.
#![tactic(auto)]

use misc::INTERVAL_LEN;
use packets::MAX_TAG;
use previous_gtids_event::TAGGED_HEAD;

pub mod check;
mod heads;
mod keys;
pub mod limits;
pub mod walk;

// Before its entries a set has a header of so many bytes.
pub const SET_HEADER: usize = 8;

// A set has so many entries at most,
pub const MAX_ENTRIES: usize = 384;

// so many intervals, all entries together,
pub const MAX_INTERVALS: usize = 2560;

// and so many in any one entry.
pub const MAX_OF_ENTRY: usize = 1024;

// So the longest has 62,856 bytes (`longest_set`).
pub const LONGEST_SET: usize = SET_HEADER
    + MAX_ENTRIES * (TAGGED_HEAD + MAX_TAG)
    + MAX_INTERVALS * INTERVAL_LEN;

// What a lent set is that is in set form and within the limits: whether its entries have tags, and its counts.
#[derive(Clone, Copy)]
pub struct Checked {
    pub tagged: bool,
    pub entries: usize,
    pub intervals: usize,
}

// The entries of a set that are left: whether they have tags, where they begin, and how many there are.
#[derive(Clone, Copy)]
pub struct Cursor {
    pub tagged: bool,
    pub at: usize,
    pub left: usize,
}

// Where an entry stands: where its tag begins and how long it is, how many intervals it has, where they begin and where they end.
#[derive(Clone, Copy, Default)]
pub struct EntryPlace {
    pub tag_at: usize,
    pub tag_len: usize,
    pub count: usize,
    pub first: usize,
    pub next: usize,
}

// ---- inside

// Where an entry's key stands: its uuid, and its tag.
#[derive(Clone, Copy)]
pub(crate) struct KeyPlace {
    pub(crate) at: usize,
    pub(crate) tag_at: usize,
    pub(crate) tag_len: usize,
}

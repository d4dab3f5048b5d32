// The body of a Previous-GTIDs event (type 35): read from left to right, handed out entry by entry, written anew.
#![tactic(auto)]

use misc::UUID_LEN;
use packets::MAX_TAG;

pub mod read;
pub mod rewrite;

// Its type.
pub const PREVIOUS_GTIDS_EVENT: u8 = 35;

// The place of a body's first entry, behind the header.
pub const FIRST_ENTRY: usize = 8;

// Before its intervals an entry has the uuid and their number; in a body with tags also the tag behind its length, which takes one byte.
pub const ENTRY_HEAD: usize = UUID_LEN + 8;

pub const TAGGED_HEAD: usize = ENTRY_HEAD + 1;

// A header with 1 in its top byte: what lies below it counts the entries of an untagged body.
pub(crate) const TOP_ONE: u64 = 0x100_0000_0000_0000;

// The first number that is too great for the count in the header of a tagged body.
pub(crate) const COUNT_TOP: u64 = 0x1_0000_0000_0000;

// How many entries a body has, and how many bytes they took.
#[derive(Clone, Copy)]
pub struct PreviousRead {
    pub used: usize,
    pub entries: u64,
}

// What a body's header says: whether its entries have tags, and how many there are.
#[derive(Clone, Copy)]
pub struct HeaderRead {
    pub tagged: bool,
    pub entries: u64,
}

// One entry: the uuid, the tag in the first tag_len bytes of its field, the number of intervals, the places of the first
// and behind the last.
#[derive(Clone, Copy)]
pub struct EntryRead {
    pub uuid: [u8; UUID_LEN],
    pub tag: [u8; MAX_TAG],
    pub tag_len: usize,
    pub intervals: u64,
    pub first: usize,
    pub next: usize,
}

// One interval: the numbers from start up to, and without, end.
#[derive(Clone, Copy)]
pub struct IntervalRead {
    pub start: u64,
    pub end: u64,
}

// ---- inside

// The head of an entry: how long its tag is, how many intervals it announces, and the place of the first. The count
// stands in the eight bytes before that place, and the tag before the count.
#[derive(Clone, Copy)]
pub(crate) struct HeadRead {
    pub(crate) tag_len: usize,
    pub(crate) intervals: u64,
    pub(crate) first: usize,
}

// Entries that are to be written: whether one of them has a tag, and how many bytes they take without tags and with.
#[derive(Clone, Copy)]
pub(crate) struct Sizes {
    pub(crate) tagged: bool,
    pub(crate) plain: usize,
    pub(crate) full: usize,
}

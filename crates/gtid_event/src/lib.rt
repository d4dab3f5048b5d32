// The record of a GTID event, traditional or tagged, by value, and the steps that build it. Each step is public and has the name of the
// part that it changes, so none are merged: it takes the record and hands it back; a tag that breaks its rule is refused.
#![tactic(auto)]

ghost use Rattle.std.specs.Prelude.{◌≡◌};
ghost use Rattle.gtid_event.specs.Event.{fresh, no_event, new_untagged, new_tagged, with_tag, set_number, set_sid, set_typecode, tagged, type_of};

use misc::UUID_LEN;
use misc::refusal::Refusal;
use packets::{MAX_TAG, is_tag, tag_bytes};

pub mod field_id;

pub const LOGICAL_TIMESTAMP_TYPECODE: u8 = 2;

pub const UNDEFINED_SERVER_VERSION: u32 = 999_999;

pub const GTID_EVENT: u8 = 33;

pub const ANONYMOUS_GTID_EVENT: u8 = 34;

pub const GTID_TAGGED_LOG_EVENT: u8 = 42;

// The first byte of a tagged event.
pub const TAGGED_SERIALIZATION_VERSION_V2: u8 = 2;

// How many bytes parts of an untagged event take.
pub const ENCODED_SID_LENGTH: usize = UUID_LEN;

pub const IMMEDIATE_COMMIT_TIMESTAMP_LENGTH: usize = 7;

pub const IMMEDIATE_SERVER_VERSION_LENGTH: usize = 4;

// The greatest numbers that a record holds of flags, of a byte of the uuid, and of a server version.
pub const MOST_OF_BYTE: u64 = 0xff;

pub const MOST_OF_VERSION: u64 = 0xffff_ffff;

// A GTID event. The tag stands in the first tag_len bytes of its field; 0 is no tag. Typecode 0 is none. The record is a plain value in
// fixed memory, with no heap and nothing borrowed, so the tag is an array and a length.
#[derive(Clone, Copy)]
pub struct GtidEvent {
    pub flags: u8,
    pub sid: [u8; UUID_LEN],
    pub gno: u64,
    pub tag: [u8; MAX_TAG],
    pub tag_len: u8,
    pub lc_typecode: u8,
    pub last_committed: u64,
    pub sequence_number: u64,
    pub immediate_commit_timestamp: u64,
    pub original_commit_timestamp: u64,
    pub tx_length: u64,
    pub immediate_server_version: u32,
    pub original_server_version: u32,
    pub commit_group_ticket: u64,
}

impl GtidEvent {
    // All zero but for what is given.
    fn fresh(sid: [u8; UUID_LEN], gno: u64, lc_typecode: u8, version: u32) -> Self
        ensures { result ≡ fresh sid gno lc_typecode version }
    {
        Self {
            flags: 0,
            sid,
            gno,
            tag: [0u8; MAX_TAG],
            tag_len: 0,
            lc_typecode,
            last_committed: 0,
            sequence_number: 0,
            immediate_commit_timestamp: 0,
            original_commit_timestamp: 0,
            tx_length: 0,
            immediate_server_version: version,
            original_server_version: version,
            commit_group_ticket: 0,
        }
    }

    // No event: zeros.
    pub fn none() -> Self
        ensures { result ≡ no_event }
    {
        Self::fresh([0u8; UUID_LEN], 0, 0, 0)
    }

    // A new untagged event.
    pub fn new(sid: [u8; UUID_LEN], gno: u64) -> Self
        ensures { result ≡ new_untagged sid gno }
    {
        Self::fresh(
            sid,
            gno,
            LOGICAL_TIMESTAMP_TYPECODE,
            UNDEFINED_SERVER_VERSION,
        )
    }

    // A new tagged event.
    #[tactic(auto, unfolding(crate::specs::Event::new_tagged))]
    pub fn new_tagged(sid: [u8; UUID_LEN], tag: &[u8], gno: u64) -> Result<Self, Refusal>
        ensures { result ≡ new_tagged sid tag.now gno }
    {
        Self::fresh(sid, gno, 0, UNDEFINED_SERVER_VERSION).with_tag(tag)
    }

    pub fn is_tagged(self) -> bool
        ensures { result ≡ tagged self }
    {
        0 < self.tag_len
    }

    pub fn event_type(self) -> u8
        ensures { result ≡ type_of self }
    {
        if self.is_tagged() {
            return GTID_TAGGED_LOG_EVENT;
        }
        GTID_EVENT
    }

    // With a tag. All else stays: the typecode, as in the Rust, and the versions, whatever they are.
    pub fn with_tag(mut self, tag: &[u8]) -> Result<Self, Refusal>
        ensures { result ≡ with_tag tag.now self }
    {
        if is_tag(tag) {
            self.tag = tag_bytes(tag);
            self.tag_len = tag.len() as u8;
            return Ok(self);
        }
        Err(Refusal::BadTag)
    }

    pub fn with_lc_typecode(mut self) -> Self
        ensures { result ≡ set_typecode 2 self }
    {
        self.lc_typecode = LOGICAL_TIMESTAMP_TYPECODE;
        self
    }

    // Added by the port: the tagged layout has no typecode.
    pub fn without_lc_typecode(mut self) -> Self
        ensures { result ≡ set_typecode 0 self }
    {
        self.lc_typecode = 0;
        self
    }

    pub fn with_sid(mut self, sid: [u8; UUID_LEN]) -> Self
        ensures { result ≡ set_sid sid self }
    {
        self.sid = sid;
        self
    }

    pub fn with_flags(mut self, flags: u8) -> Self
        ensures { result ≡ set_number 0 flags self }
    {
        self.flags = flags;
        self
    }

    pub fn with_gno(mut self, gno: u64) -> Self
        ensures { result ≡ set_number 2 gno self }
    {
        self.gno = gno;
        self
    }

    pub fn with_last_committed(mut self, last_committed: u64) -> Self
        ensures { result ≡ set_number 4 last_committed self }
    {
        self.last_committed = last_committed;
        self
    }

    pub fn with_sequence_number(mut self, sequence_number: u64) -> Self
        ensures { result ≡ set_number 5 sequence_number self }
    {
        self.sequence_number = sequence_number;
        self
    }

    pub fn with_immediate_commit_timestamp(mut self, immediate_commit_timestamp: u64) -> Self
        ensures { result ≡ set_number 6 immediate_commit_timestamp self }
    {
        self.immediate_commit_timestamp = immediate_commit_timestamp;
        self
    }

    pub fn with_original_commit_timestamp(mut self, original_commit_timestamp: u64) -> Self
        ensures { result ≡ set_number 7 original_commit_timestamp self }
    {
        self.original_commit_timestamp = original_commit_timestamp;
        self
    }

    pub fn with_tx_length(mut self, tx_length: u64) -> Self
        ensures { result ≡ set_number 8 tx_length self }
    {
        self.tx_length = tx_length;
        self
    }

    pub fn with_immediate_server_version(mut self, immediate_server_version: u32) -> Self
        ensures { result ≡ set_number 9 immediate_server_version self }
    {
        self.immediate_server_version = immediate_server_version;
        self
    }

    pub fn with_original_server_version(mut self, original_server_version: u32) -> Self
        ensures { result ≡ set_number 10 original_server_version self }
    {
        self.original_server_version = original_server_version;
        self
    }

    pub fn with_commit_group_ticket(mut self, ticket: u64) -> Self
        ensures { result ≡ set_number 11 ticket self }
    {
        self.commit_group_ticket = ticket;
        self
    }
}

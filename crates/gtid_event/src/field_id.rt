// The ids of the tagged layout's fields, by which a reader also keeps what it read.
pub const GTID_FLAGS: usize = 0;

pub const SID: usize = 1;

pub const GNO: usize = 2;

pub const TAG: usize = 3;

pub const LAST_COMMITTED: usize = 4;

pub const SEQUENCE_NUMBER: usize = 5;

pub const IMMEDIATE_COMMIT_TIMESTAMP: usize = 6;

pub const ORIGINAL_COMMIT_TIMESTAMP: usize = 7;

pub const TRANSACTION_LENGTH: usize = 8;

pub const IMMEDIATE_SERVER_VERSION: usize = 9;

pub const ORIGINAL_SERVER_VERSION: usize = 10;

pub const COMMIT_GROUP_TICKET: usize = 11;

// How many fields there are: no id is as great.
pub const FIELDS: usize = 12;

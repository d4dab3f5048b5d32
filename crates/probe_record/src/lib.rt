// A GTID record as the test program puts it: its 116 bytes, and its words in a line.
#![tactic(auto)]

pub mod dump;
pub mod words;

// Writing a GTID record, and its length.
#![tactic(auto)]

mod put;
pub mod size;
mod tagged;
mod untagged;
pub mod writable;
pub mod write;

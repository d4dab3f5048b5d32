// What a follower does at a GTID event. README.md shows this file.
#![tactic(auto)]

use resume_set::{Offered, offer};

#[derive(Clone, Copy)]
pub enum Then {
    // Copy the transaction and commit it; only then save so many bytes of `next` as the set.
    Copy(usize),
    // It was copied before.
    PassOver,
    // Stop, and tell the number of the refusal.
    Stop(u8),
}

pub fn at_gtid_event(set: &[u8], event_type: u8, body: &[u8], next: &mut [u8]) -> Then {
    match offer(set, event_type, body, next) {
        Ok(Offered::Taken(len)) => Then::Copy(len),
        // No id: the set can't tell whether it was copied before, so it is copied.
        Ok(Offered::NoId(len)) => Then::Copy(len),
        Ok(Offered::AlreadyThere(_)) => Then::PassOver,
        Err(error) => Then::Stop(error.number()),
    }
}

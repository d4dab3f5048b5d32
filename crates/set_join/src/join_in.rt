// Joining the body of a Previous-GTIDs event to a set.
ghost use Rattle.std.specs.Prelude.{◌≡◌};
ghost use Rattle.set_join.specs.JoinIn.{join_answers, join_leaves};

use crate::take_in::{ROOM, lawful_body, merge};
use misc::refusal::{Refusal, WriteError};
use previous_gtids_event::read::read;
use set_check::check::check;

// Joins all ids of a Previous-GTIDs body to a set, and writes the set with them, in set form. Refused are, in this order, bytes that are no
// set (14), bodies that can't be read (11, 1, 6), an interval outside the gno rule (15), more than an entry (17) or a set may hold (16),
// judged on the result alone, and an output that is too short (13).
pub fn join_in(set: &[u8], body: &[u8], out: &mut [u8]) -> Result<usize, WriteError>
    ensures value { result ≡ join_answers set.now body.now out.old }
    ensures out_after { out.new ≡ join_leaves set.now body.now out.old }
{
    let checked = check(set)?;
    read(body)?;
    if !lawful_body(body) {
        return Err(WriteError::Refused(Refusal::BadGno));
    }
    merge::<ROOM>(set, checked, body, out)
}

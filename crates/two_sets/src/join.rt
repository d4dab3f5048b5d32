// Joining the body of a Previous-GTIDs event to a set, as `set_join::join_in` does it. A body that is a set itself, as servers write it, is
// combined with the set in one walk over both; any other is left to `join_in`.
ghost use Rattle.std.specs.Prelude.{◌≡◌};
ghost use Rattle.set_join.specs.JoinIn.{join_answers, join_leaves};

use crate::begin;
use crate::operation::Either;
use crate::write::write_combined;
use misc::refusal::WriteError;
use previous_gtids_event::read::read;
use set_join::join_in::join_in;

// Joins all ids of a Previous-GTIDs body to a set, and writes the set with them, in set form. Refused are, in this order, bytes that are no
// set (14), bodies that can't be read (11, 1, 6), an interval outside the gno rule (15), more than an entry (17) or a set may hold (16),
// judged on the result alone, and an output that is too short (13).
pub fn join(set: &[u8], body: &[u8], out: &mut [u8]) -> Result<usize, WriteError>
    ensures value { result ≡ join_answers set.now body.now out.old }
    ensures out_after { out.new ≡ join_leaves set.now body.now out.old }
{
    let Ok(said) = read(body) else {
        return join_in(set, body, out);
    };
    let used = said.used;
    let other = &body[..used];
    let Ok(from) = begin(set, other) else {
        return join_in(set, body, out);
    };
    write_combined::<Either>(set, other, from, out)
}

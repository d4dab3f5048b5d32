// Joining an id to a set.
ghost use Rattle.std.specs.Prelude.{◌≡◌, ◌++◌, ◌≤◌, false, length, take, Err};
ghost use Rattle.misc.specs.declared.refusal.WriteError.TheVariants.{Refused};
ghost use Rattle.misc.specs.Output.{output_of};
ghost use Rattle.gtid_sets.specs.Run.{names};
ghost use Rattle.gtid_sets.specs.Lent.{form, lent_set};
ghost use Rattle.set_check.specs.SetOf.{set_of, Fits};
ghost use Rattle.set_join.specs.Answers.{output, joined_id};

use crate::join::{lent, plan_join, write_joined};
use crate::{Joined, KeyParts};
use misc::UUID_LEN;
use misc::bytes::{smaller, write_bytes};
use misc::refusal::{Refusal, WriteError};
use packets::{MAX_TAG, is_gno};
use previous_gtids_event::IntervalRead;
use set_check::Checked;
use set_check::check::check;
use set_intervals::held_behind;

// An id that isn't joined.
fn refused(refusal: Refusal) -> Joined
    ensures { result ≡ record { already = false; wrote = Err (Refused refusal) } }
{
    Joined {
        already: false,
        wrote: Err(WriteError::Refused(refusal)),
    }
}

// Joins an id to a set that has been checked.
fn join_checked(set: &[u8], checked: Checked, key: KeyParts, gno: u64, out: &mut [u8]) -> Joined
    requires fits { Fits set.now checked }
    requires uuid_len { (length key.uuid.now ≡ 16) × (length key.tag.now ≤ 32) }
    ensures value { result ≡ joined_id (form (set_of set.now)) (key.entry.uuid.now ++ key.entry.tag.now) gno out.old }
    ensures out_after { out.new ≡ output_of out.old (output (form (set_of set.now)) (names (key.entry.uuid.now ++ key.entry.tag.now) gno)) }
{
    if !is_gno(gno) {
        return refused(Refusal::BadGno);
    }
    let span = IntervalRead {
        start: gno,
        end: gno + 1,
    };
    let plan = plan_join(set, lent(checked, set.len()), key, span);
    let own = plan.found.own;
    let already = held_behind(&set[own.from..own.to], plan.splice.before, gno);
    if already {
        return Joined {
            already,
            wrote: write_bytes(set, out),
        };
    }
    Joined {
        already,
        wrote: write_joined(set, key, span, plan, out),
    }
}

// Joins the id of a uuid, the first bytes of a tag, so many of them, and a gno to a set, and writes the set with it, or as it is where it
// has the id. Refused are, in this order, bytes that are no set (14), a gno outside its rule (15), an entry (17) or a set (16) that would
// be too great, and an output that is too short (13). The tag's rule isn't judged here: it was when an event was read, and with bytes that
// are neither none nor a tag what is written is no set.
pub fn join_id(
    set: &[u8],
    uuid: [u8; UUID_LEN],
    tag: [u8; MAX_TAG],
    tag_len: usize,
    gno: u64,
    out: &mut [u8],
) -> Joined
    ensures value { result ≡ joined_id (lent_set set.now) (uuid ++ take tag_len tag) gno out.old }
    ensures out_after { out.new ≡ output_of out.old (output (lent_set set.now) (names (uuid ++ take tag_len tag) gno)) }
{
    let checked = match check(set) {
        Ok(checked) => checked,
        Err(refusal) => return refused(refusal),
    };
    let shown = smaller(tag_len, MAX_TAG);
    let key = KeyParts {
        uuid: &uuid,
        tag: &tag[..shown],
    };
    join_checked(set, checked, key, gno, out)
}

// Finding a key in a set, and joining to it: `contains` tells whether an id is a member, `join_id` gives a set an id, `join_in` all ids of
// a Previous-GTIDs body, and `take_in` begins a set with such a body. No event is read here. What they answer is said by `contained`,
// `joined_id`, `take_in_answers` of specs/Answers.antt and `join_answers` of specs/JoinIn.antt, on `lent_set` of gtid_sets.
#![tactic(auto)]

ghost use Rattle.std.specs.Prelude.{◌≡◌};
ghost use Rattle.gtid_sets.specs.Lent.{lent_set};
ghost use Rattle.set_join.specs.Answers.{contained};

use find::find;
use misc::UUID_LEN;
use misc::refusal::{Refusal, WriteError};
use packets::{is_gno, none_or_tag};
use set_check::check::check;
use set_check::walk::entries_of;
use set_intervals::{Splice, held_in};

mod find;
mod join;
pub mod join_id;
pub mod join_in;
mod put;
pub mod take_in;

// An id joined to a set: whether it was there already, and what was written.
#[derive(Clone, Copy)]
pub struct Joined {
    // told with a refusal too (`joined_id`), so it is no case of the answer
    pub already: bool,
    pub wrote: Result<usize, WriteError>,
}

// ---- inside

// A key in two parts: the uuid, and the tag (none: no bytes).
#[derive(Clone, Copy)]
pub(crate) struct KeyParts<'a> {
    pub(crate) uuid: &'a [u8],
    pub(crate) tag: &'a [u8],
}

// Entries, or the intervals of one, that stand one after another: from where to where, and how many.
#[derive(Clone, Copy)]
pub(crate) struct Run {
    pub(crate) from: usize,
    pub(crate) to: usize,
    pub(crate) count: usize,
}

// Where a key stands in a set: the entries before it, and its intervals; where it isn't there it has none, and they stand where its entry
// would. The entries after it begin where they end.
#[derive(Clone, Copy)]
pub(crate) struct Found {
    pub(crate) before: Run,
    pub(crate) own: Run,
}

// A set in a work buffer: whether it has tags; how many entries, intervals, and entries with too many intervals it has; and its length.
#[derive(Clone, Copy)]
pub(crate) struct Held {
    pub(crate) tagged: bool,
    pub(crate) entries: usize,
    pub(crate) intervals: usize,
    pub(crate) crowded: usize,
    pub(crate) len: usize,
}

// How a set grows by an interval: whether it then has tags, and had none; its counts, that of the key's own intervals, and its length; and
// where the interval goes.
#[derive(Clone, Copy)]
pub(crate) struct Plan {
    pub(crate) tags: bool,
    pub(crate) widen: bool,
    pub(crate) entries: usize,
    pub(crate) intervals: usize,
    pub(crate) held: usize,
    pub(crate) len: usize,
    pub(crate) found: Found,
    pub(crate) splice: Splice,
}

// Whether a set has the id of a uuid, a tag (none: no bytes) and a gno. What breaks the rules of ids is no member.
pub fn contains(set: &[u8], uuid: &[u8], tag: &[u8], gno: u64) -> Result<bool, Refusal>
    ensures { result ≡ contained (lent_set set.now) uuid.now tag.now gno }
{
    let checked = check(set)?;
    if uuid.len() != UUID_LEN || !none_or_tag(tag) || !is_gno(gno) {
        return Ok(false);
    }
    let own = find(set, entries_of(checked), KeyParts { uuid, tag }).own;
    Ok(held_in(&set[own.from..own.to], gno))
}

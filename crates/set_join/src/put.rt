// Putting runs of a set's bytes at a place of an output.
ghost use Rattle.std.specs.Prelude.{◌≡◌, false, ◌+◌, ◌*◌, ◌≤◌, length};
ghost use Rattle.misc.specs.Put.{PutsWhereFits};
ghost use Rattle.previous_gtids_event.specs.Rewrite.{head_run};
ghost use Rattle.set_check.specs.Places.{EntriesIn};
ghost use Rattle.set_intervals.specs.Intervals.{spliced_run};
ghost use Rattle.set_join.specs.Put.{wider_run, widened, entries_run, EntriesThere};

use crate::{KeyParts, Run};
use misc::put::Put;
use misc::{INTERVAL_LEN, UUID_LEN};
use packets::uuid_bytes;
use previous_gtids_event::rewrite::put_head;
use set_check::Cursor;
use set_check::walk::{beyond, entry_here};
use set_intervals::Splice;

// The head of an entry. Its uuid is copied first: of one that is lent the compiler can't know that it doesn't lie in the output, and it
// would put it byte by byte.
pub(crate) fn put_head_of(put: &mut Put<'_>, key: KeyParts, tags: bool, count: u64)
    requires { length key.uuid.now ≡ 16 }
    ensures { PutsWhereFits put.old (head_run key.entry.uuid.now tags key.entry.tag.now count) put.new }
{
    let own = uuid_bytes(&key.uuid[..UUID_LEN]);
    put_head(put, &own, key.tag, tags, count);
}

// Intervals, with one in the place of those that it takes up.
pub(crate) fn put_spliced(put: &mut Put<'_>, intervals: &[u8], splice: Splice)
    requires { 16 * (splice.before + splice.taken) ≤ length intervals.now }
    ensures { PutsWhereFits put.old (spliced_run intervals.now splice) put.new }
{
    let kept = INTERVAL_LEN * splice.before;
    let rest = INTERVAL_LEN * (splice.before + splice.taken);
    put.bytes(&intervals[..kept]);
    put.u64_le(splice.start);
    put.u64_le(splice.end);
    put.bytes(&intervals[rest..]);
}

// An untagged entry, which ends at `next`, with the length of a tag that has no bytes.
fn put_wider(put: &mut Put<'_>, set: &[u8], from: usize, next: usize)
    requires { (from + 16 ≤ next) × (next ≤ length set.now) }
    ensures { PutsWhereFits put.old (wider_run set.now from next) put.new }
{
    let counted = from + UUID_LEN;
    put.bytes(&set[from..counted]);
    put.varlen_uint(0);
    put.bytes(&set[counted..next]);
}

// Untagged entries, each with the length of a tag that has no bytes.
fn put_widened(put: &mut Put<'_>, set: &[u8], run: Run)
    requires { EntriesIn run.count false set.now run.from }
    ensures { PutsWhereFits put.old (widened run.count set.now run.from) put.new }
{
    let mut rest = Cursor {
        tagged: false,
        at: run.from,
        left: run.count,
    };
    for _ in 0..run.count {
        let entry = entry_here(set, rest);
        put_wider(put, set, rest.at, entry.next);
        rest = beyond(rest, entry);
    }
}

// Entries as they are, or with tags' lengths.
pub(crate) fn put_entries(put: &mut Put<'_>, set: &[u8], run: Run, widen: bool)
    requires { EntriesThere widen set.now run }
    ensures { PutsWhereFits put.old (entries_run widen set.now run) put.new }
{
    if widen {
        return put_widened(put, set, run);
    }
    put.bytes(&set[run.from..run.to]);
}

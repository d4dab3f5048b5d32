// The set limits, judged by counts.
ghost use Rattle.std.specs.Prelude.{◌≡◌, ◌≤◌};
ghost use Rattle.gtid_sets.specs.Limits.{over, judged_as, judged};

use crate::{MAX_ENTRIES, MAX_INTERVALS, MAX_OF_ENTRY};
use misc::refusal::Refusal;

// 1 for more intervals than one entry may have.
pub fn over(count: usize) -> usize
    ensures { (result ≡ over count) × (result ≤ 1) }
{
    usize::from(MAX_OF_ENTRY < count)
}

// What the limits say of a set: 17 if an entry has too many intervals, else 16 if there are too many entries or intervals.
pub fn judge(crowd: usize, entries: usize, total: usize) -> Result<(), Refusal>
    ensures { result ≡ judged_as (judged crowd entries total) }
{
    if 0 < crowd {
        return Err(Refusal::Crowded);
    }
    if MAX_ENTRIES < entries {
        return Err(Refusal::Full);
    }
    if MAX_INTERVALS < total {
        return Err(Refusal::Full);
    }
    Ok(())
}

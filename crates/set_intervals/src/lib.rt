// The intervals of an entry, in the bytes that they are: sixteen to each, the start and then the end. Whether they are in written form,
// whether they hold a number, and where a new one goes. The functions take any bytes; fewer than sixteen at the end are no interval.
#![tactic(auto)]

ghost use Rattle.std.specs.Prelude.{◌≡◌, drop};
ghost use Rattle.misc.specs.Le.{number_at};
ghost use Rattle.gtid_sets.specs.Interval.{gapped};
ghost use Rattle.gtid_sets.specs.Splice.{earlier, from};
ghost use Rattle.gtid_sets.specs.TakeIn.{proper};
ghost use Rattle.set_intervals.specs.Intervals.{intervals_in, first_holds, held_in, splice_of, told, reach_of};

use misc::INTERVAL_LEN;
use misc::le::number_at;
use packets::is_interval;

// How an interval goes into others: how many stand before it, how many it takes up, and from where to where it then reaches.
#[derive(Clone, Copy)]
pub struct Splice {
    pub before: usize,
    pub taken: usize,
    pub start: u64,
    pub end: u64,
}

// How many intervals one that ends at a number takes up, and the end that it comes to.
#[derive(Clone, Copy)]
struct Reach {
    taken: usize,
    end: u64,
}

// The numbers from a start up to, and without, an end, as sixteen bytes spell them (`IntervalRead` is what a body answers for one of its).
#[derive(Clone, Copy)]
struct Interval {
    start: u64,
    end: u64,
}

// An interval as its bytes.
type Chunk = [u8; INTERVAL_LEN];

impl Interval {
    fn read(chunk: &Chunk) -> Self
        ensures { (result.start ≡ number_at chunk.now 0) × (result.end ≡ number_at chunk.now 8) }
    {
        Interval {
            start: number_at(chunk, 0),
            end: number_at(chunk, 8),
        }
    }
}

fn chunks(intervals: &[u8]) -> &[Chunk]
    ensures { told result.now ≡ intervals_in intervals.now }
{
    let (chunks, _) = intervals.as_chunks();
    chunks
}

// ---- their form

// Whether the intervals obey the gno rule.
pub fn proper_in(intervals: &[u8]) -> bool
    ensures { result ≡ proper (intervals_in intervals.now) }
{
    chunks(intervals)
        .iter()
        .map(Interval::read)
        .all(|next| is_interval(next.start, next.end))
}

// Whether the intervals obey the gno rule and rise with gaps.
pub fn gapped_in(intervals: &[u8]) -> bool
    ensures { result ≡ gapped 0 (intervals_in intervals.now) }
{
    let mut low = 0;
    for chunk in chunks(intervals) {
        let next = Interval::read(chunk);
        let fine = (low < next.start) & is_interval(next.start, next.end);
        if !fine {
            return false;
        }
        low = next.end;
    }
    true
}

// ---- whether they hold a number

// How many first intervals end before a number.
pub fn earlier_in(intervals: &[u8], a: u64) -> usize
    ensures { result ≡ earlier a (intervals_in intervals.now) }
{
    chunks(intervals)
        .iter()
        .map(Interval::read)
        .take_while(|next| next.end < a)
        .count()
}

// Whether the interval behind so many first ones holds a number.
pub fn held_behind(intervals: &[u8], before: usize, n: u64) -> bool
    ensures { result ≡ first_holds n (drop before (intervals_in intervals.now)) }
{
    match chunks(intervals).get(before) {
        Some(chunk) => {
            let next = Interval::read(chunk);
            (next.start <= n) & (n < next.end)
        }
        None => false,
    }
}

// Whether gapped intervals hold a number: only the first that doesn't end before it can.
pub fn held_in(intervals: &[u8], n: u64) -> bool
    ensures { result ≡ held_in n (intervals_in intervals.now) }
{
    let before = earlier_in(intervals, n);
    held_behind(intervals, before, n)
}

// ---- where a new one goes

// The start of an interval that takes up the first of those that follow.
fn start_from(chunks: &[Chunk], a: u64, b: u64) -> u64
    ensures { result ≡ from a b (told chunks.now) }
{
    match chunks {
        [] => a,
        [first, ..] => {
            let next = Interval::read(first);
            if b < next.start { a } else { a.min(next.start) }
        }
    }
}

// How many of those that follow one that ends at b takes up, and the end that it comes to.
fn reach_from(chunks: &[Chunk], b: u64) -> Reach
    ensures { result ≡ reach_of b (told chunks.now) }
{
    let mut end = b;
    for (taken, chunk) in chunks.iter().enumerate() {
        let next = Interval::read(chunk);
        if end < next.start {
            return Reach { taken, end };
        }
        end = end.max(next.end);
    }
    Reach {
        taken: chunks.len(),
        end,
    }
}

// How the interval from a up to b goes into gapped ones.
pub fn splice_in(intervals: &[u8], a: u64, b: u64) -> Splice
    ensures { result ≡ splice_of a b (intervals_in intervals.now) }
{
    let before = earlier_in(intervals, a);
    let rest = &chunks(intervals)[before..];
    let reach = reach_from(rest, b);
    Splice {
        before,
        taken: reach.taken,
        start: start_from(rest, a, b),
        end: reach.end,
    }
}

// The sums over lines.
ghost use Rattle.std.specs.Prelude.{◌≡◌, ◌^◌, ◌≤◌, ◌<◌, map, sum, length};
ghost use Rattle.report.specs.Report.{high_word, low_word, ids_of, counts_of, sum_of};

use crate::{Counts, Line};

// A number has two words of 64 bits: it is the high one times this, and the low one.
const WORD: u128 = 0x1_0000_0000_0000_0000;

pub(crate) fn high_word(n: u128) -> u64
    ensures { result ≡ high_word n }
{
    (n / WORD) as u64
}

pub(crate) fn low_word(n: u128) -> u64
    ensures { result ≡ low_word n }
{
    (n % WORD) as u64
}

impl Line {
    // The ids that it says.
    fn ids(self) -> u128
        ensures { (result ≡ ids_of self) × (result < 2 ^ 96) }
    {
        u128::from(self.high) * WORD + u128::from(self.low)
    }

    // Its numbers.
    pub(crate) fn counts(self) -> Counts
        ensures { result ≡ counts_of self }
    {
        Counts {
            entries: u64::from(self.entries),
            intervals: u64::from(self.intervals),
            high: u64::from(self.high),
            low: self.low,
        }
    }
}

// The numbers of so many lines, each summed by itself.
fn entries_of(lines: &[Line]) -> u64
    requires { length lines.now ≤ 64 }
    ensures { result ≡ sum (map (λ l. l.entries) lines.now) }
{
    lines.iter().map(|line| u64::from(line.entries)).sum()
}

fn intervals_of(lines: &[Line]) -> u64
    requires { length lines.now ≤ 64 }
    ensures { result ≡ sum (map (λ l. l.intervals) lines.now) }
{
    lines.iter().map(|line| u64::from(line.intervals)).sum()
}

fn all_ids(lines: &[Line]) -> u128
    requires { length lines.now ≤ 64 }
    ensures { result ≡ sum (map ids_of lines.now) }
{
    lines.iter().map(|line| line.ids()).sum()
}

// The sums of so many lines.
pub(crate) fn sum_of(lines: &[Line]) -> Counts
    requires { length lines.now ≤ 64 }
    ensures { result ≡ sum_of lines.now }
{
    let ids = all_ids(lines);
    Counts {
        entries: entries_of(lines),
        intervals: intervals_of(lines),
        high: high_word(ids),
        low: low_word(ids),
    }
}

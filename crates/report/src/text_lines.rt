// The lines of a report as text.
ghost use Rattle.std.specs.Prelude.{◌≡◌, ◌∷◌, ◌≤◌, length};
ghost use Rattle.misc.specs.Put.{PutsWhereFits};
ghost use Rattle.text.specs.Digits.{decimal};
ghost use Rattle.text.specs.Lines.{space};
ghost use Rattle.report.specs.Text.{counts_text, set_word, line_text, lines_text};

use crate::{Counts, Line};
use misc::put::Put;
use text::digits::{decimal_len, put_decimal};
use text::lines::{put_refused, refused_len};

// How long a line of four numbers after a word of three letters is.
pub(crate) fn counts_len(counts: Counts) -> usize
    ensures { (result ≡ length (counts_text set_word counts)) × (result ≤ 88) }
{
    8 + decimal_len(counts.entries)
        + decimal_len(counts.intervals)
        + decimal_len(counts.high)
        + decimal_len(counts.low)
}

// Puts a space and a number.
fn put_number(put: &mut Put<'_>, n: u64)
    ensures { PutsWhereFits put.old (space ∷ decimal n) put.new }
{
    put.byte(b' ');
    put_decimal(put, n);
}

// Puts a line of four numbers after a word.
pub(crate) fn put_counts(put: &mut Put<'_>, word: &[u8], counts: Counts)
    ensures { PutsWhereFits put.old (counts_text word.now counts) put.new }
{
    put.bytes(word);
    put_number(put, counts.entries);
    put_number(put, counts.intervals);
    put_number(put, counts.high);
    put_number(put, counts.low);
    put.byte(b'\n');
}

fn line_len(line: Line) -> usize
    ensures { (result ≡ length (line_text line)) × (result ≤ 88) }
{
    if line.refusal == 0 {
        return counts_len(line.counts());
    }
    refused_len(line.refusal)
}

fn put_line(put: &mut Put<'_>, line: Line)
    ensures { PutsWhereFits put.old (line_text line) put.new }
{
    if line.refusal == 0 {
        return put_counts(put, b"set", line.counts());
    }
    put_refused(put, line.refusal);
}

// How long so many lines are.
pub(crate) fn lines_len(lines: &[Line]) -> u32
    requires { length lines.now ≤ 64 }
    ensures { result ≡ length (lines_text lines.now) }
{
    lines.iter().map(|line| line_len(*line) as u32).sum()
}

// Puts them.
pub(crate) fn put_lines(put: &mut Put<'_>, lines: &[Line])
    ensures { PutsWhereFits put.old (lines_text lines.now) put.new }
{
    for line in lines {
        put_line(put, *line);
    }
}

// The listing program: one type byte and a body on standard input, text on standard output. Nothing of a longer input is read than tells
// that the body is too long. That the rooms for both are enough is proved: `text_of` asks for as much, and promises the listing of the
// whole input.
#![tactic(auto)]

ghost use Rattle.std.specs.Prelude.{◌≤◌, length, take};
ghost use Rattle.listing.specs.EventText.{enough_input, longest_text};
ghost use Rattle.gtid_list.specs.Program.{Listed};

use listing::LONGEST_TEXT;
use listing::event_text::list_input;
use misc::MAX_BODY;

// A type byte, the longest body and one byte more.
const INPUT_ROOM: usize = 1 + MAX_BODY + 1;

// Puts the listing at the front of `text` and returns its length. So many bytes were read into `input`: the whole input or, of one that
// is as long or longer, as much as `input` holds.
fn text_of(input: &[u8], len: usize, text: &mut [u8]) -> usize
    requires { (enough_input ≤ length input.now) × (len ≤ length input.now) × (longest_text ≤ length text.old) }
    ensures { Listed (length input.now) (take len input.now) result text.new }
{
    list_input(&input[..len], text).unwrap()
}

// Lists what was read into `input`, over `text`, and writes it.
fn list(input: &[u8], len: usize, text: &mut [u8]) -> bool
    requires { (enough_input ≤ length input.now) × (len ≤ length input.now) × (longest_text ≤ length text.old) }
{
    let end = text_of(input, len, text);
    io::write_all(1, &text[..end])
}

fn main() {
    let mut input = [0u8; INPUT_ROOM];
    let mut text = [0u8; LONGEST_TEXT];
    let len = io::read_full(0, &mut input);
    list(&input, len, &mut text);
}

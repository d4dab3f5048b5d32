// The builder's steps: each is a letter and its argument.
ghost use Rattle.std.specs.Prelude.{◌<◌};

use gtid_event::GtidEvent;
use misc::refusal::Refusal;
use probe_lines::parts::{byte_at, from_on, front, u32_at, u64_at};

fn len_at(s: &[u8], at: usize) -> usize
    ensures { result < 256 }
{
    byte_at(s, at) as usize
}

// The tag that follows its length, which stands at a place.
fn tag_after(s: &[u8], at: usize) -> &[u8]
    requires { at < 300 }
{
    front(from_on(s, at + 1), len_at(s, at))
}

// The record of a step.
fn step(letter: u8, s: &[u8], event: GtidEvent) -> Result<GtidEvent, Refusal> {
    let long = u64_at(s, 0);
    Ok(match letter {
        b'n' => GtidEvent::new(packets::uuid_bytes(s), u64_at(s, 16)),
        b't' => GtidEvent::new_tagged(packets::uuid_bytes(s), tag_after(s, 24), u64_at(s, 16))?,
        b'T' => event.with_tag(tag_after(s, 0))?,
        b'c' => event.with_lc_typecode(),
        b'C' => event.without_lc_typecode(),
        b'f' => event.with_flags(byte_at(s, 0)),
        b'g' => event.with_gno(long),
        b'l' => event.with_last_committed(long),
        b'q' => event.with_sequence_number(long),
        b'i' => event.with_immediate_commit_timestamp(long),
        b'o' => event.with_original_commit_timestamp(long),
        b'x' => event.with_tx_length(long),
        b'k' => event.with_commit_group_ticket(long),
        b'v' => event.with_immediate_server_version(u32_at(s, 0)),
        b'w' => event.with_original_server_version(u32_at(s, 0)),
        _ => event.with_sid(packets::uuid_bytes(s)),
    })
}

// How many bytes the argument of a step has.
fn used_by(letter: u8, s: &[u8]) -> usize
    ensures { result < 300 }
{
    match letter {
        b'n' => 24,
        b't' => 25 + len_at(s, 24),
        b'T' => 1 + len_at(s, 0),
        b'c' | b'C' => 0,
        b'f' => 1,
        b'g' | b'l' | b'q' | b'i' | b'o' | b'x' | b'k' => 8,
        b'v' | b'w' => 4,
        _ => 16,
    }
}

// All steps, up to the first refusal.
pub(crate) fn steps(s: &[u8]) -> Result<GtidEvent, Refusal> {
    let mut event = GtidEvent::none();
    let mut rest = s;
    // each takes a byte at least
    for _ in 0..s.len() {
        let Some((letter, argument)) = rest.split_first() else {
            break;
        };
        event = step(*letter, argument, event)?;
        rest = from_on(argument, used_by(*letter, argument));
    }
    Ok(event)
}

// The text of an event.
ghost use Rattle.std.specs.Prelude.{◌≡◌, ◌≤◌, length};
ghost use Rattle.misc.specs.Output.{bytes, output_of, answer_of};
ghost use Rattle.previous_gtids_event.specs.Previous.{previous};
ghost use Rattle.set_join.specs.Answers.{taken_in};
ghost use Rattle.resume_set.specs.Answers.{event_of};
ghost use Rattle.text.specs.Lines.{refused_text};
ghost use Rattle.listing.specs.EventText.{record_text, gtid_text, taken_text, event_text, listing};

use crate::set_text::list_set;
use gtid_event::{ANONYMOUS_GTID_EVENT, GtidEvent};
use gtid_event_read::read_named;
use misc::bytes::write_bytes;
use misc::put::Put;
use misc::refusal::{Refusal, WriteError};
use previous_gtids_event::PREVIOUS_GTIDS_EVENT;
use set_check::LONGEST_SET;
use set_join::take_in::take_in;
use text::digits::{decimal_len, put_decimal};
use text::keys::{key_len, put_key};
use text::lines::{put_refused, refused_len};

// Writes that an event is refused, and the number, which may be a refusal's or 13.
fn write_refused(refusal: u8, out: &mut [u8]) -> Result<usize, WriteError>
    ensures value { result ≡ answer_of out.old (bytes (refused_text refusal)) }
    ensures out_after { out.new ≡ output_of out.old (bytes (refused_text refusal)) }
{
    let len = refused_len(refusal);
    if out.len() < len {
        return Err(WriteError::NoRoom(len));
    }
    let mut put = Put { out, at: 0 };
    put_refused(&mut put, refusal);
    Ok(len)
}

// Writes the id of an event.
fn write_id(event: GtidEvent, out: &mut [u8]) -> Result<usize, WriteError>
    requires { (length event.sid ≡ 16) × (event.tag_len ≤ 32) × (length event.tag ≡ 32) }
    ensures value { result ≡ answer_of out.old (bytes (record_text event)) }
    ensures out_after { out.new ≡ output_of out.old (bytes (record_text event)) }
{
    let uuid = event.sid;
    let tag = event.tag;
    let tag_len = event.tag_len as usize;
    let gno = event.gno;
    let len = 7 + key_len(&tag[..tag_len]) + decimal_len(gno);
    if out.len() < len {
        return Err(WriteError::NoRoom(len));
    }
    let mut put = Put { out, at: 0 };
    put.bytes(b"gtid ");
    put_key(&mut put, uuid, &tag[..tag_len]);
    put.byte(b':');
    put_decimal(&mut put, gno);
    put.byte(b'\n');
    Ok(len)
}

// Writes the text of a GTID event, or that it is refused.
fn list_gtid(event_type: u8, body: &[u8], out: &mut [u8]) -> Result<usize, WriteError>
    ensures value { result ≡ answer_of out.old (bytes (gtid_text (event_of event_type body.now))) }
    ensures out_after { out.new ≡ output_of out.old (bytes (gtid_text (event_of event_type body.now))) }
{
    match read_named(event_type, body) {
        Err(refusal) => write_refused(refusal.number(), out),
        Ok(_) if event_type == ANONYMOUS_GTID_EVENT => write_bytes(b"anonymous\n", out),
        Ok(said) => write_id(said.event, out),
    }
}

// Writes the text of a Previous-GTIDs event: the set that it becomes when it is taken in, or that it is refused.
fn list_previous(body: &[u8], out: &mut [u8]) -> Result<usize, WriteError>
    ensures value { result ≡ answer_of out.old (bytes (taken_text (taken_in (previous body.now)))) }
    ensures out_after { out.new ≡ output_of out.old (bytes (taken_text (taken_in (previous body.now)))) }
{
    let mut set = [0u8; LONGEST_SET];
    match take_in(body, &mut set) {
        Ok(len) => list_set(b"previous-gtids", &set[..len], out),
        Err(error) => write_refused(error.number(), out),
    }
}

// Writes the text of an event; what is refused is said in the text. The call itself is refused only where the output is too short (13).
pub fn list(event_type: u8, body: &[u8], out: &mut [u8]) -> Result<usize, WriteError>
    ensures value { result ≡ answer_of out.old (bytes (event_text event_type body.now)) }
    ensures out_after { out.new ≡ output_of out.old (bytes (event_text event_type body.now)) }
{
    if event_type == PREVIOUS_GTIDS_EVENT {
        return list_previous(body, out);
    }
    list_gtid(event_type, body, out)
}

// The same for a type byte with a body behind it, or nothing at all.
pub fn list_input(input: &[u8], out: &mut [u8]) -> Result<usize, WriteError>
    ensures value { result ≡ answer_of out.old (bytes (listing input.now)) }
    ensures out_after { out.new ≡ output_of out.old (bytes (listing input.now)) }
{
    match input {
        [] => write_refused(Refusal::Ended.number(), out),
        [event_type, body @ ..] => list(*event_type, body, out),
    }
}

// The public calls: writing a record, and its length.
ghost use Rattle.std.specs.Prelude.{◌≡◌};
ghost use Rattle.misc.specs.Output.{output_of, answer_of};
ghost use Rattle.gtid_event_write.specs.Write.{event_output, length_of};

use crate::tagged::{len_tagged_v2, serialize_tagged_v2};
use crate::untagged::{len_untagged, serialize_untagged};
use crate::writable::is_writable;
use gtid_event::GtidEvent;
use misc::refusal::{Refusal, WriteError};

// Writes the record, tagged if it has a tag.
pub fn write(event: GtidEvent, out: &mut [u8]) -> Result<usize, WriteError>
    ensures value { result ≡ answer_of out.old (event_output event) }
    ensures out_after { out.new ≡ output_of out.old (event_output event) }
{
    if !is_writable(event) {
        return Err(WriteError::Refused(Refusal::NotWritable));
    }
    if event.is_tagged() {
        return serialize_tagged_v2(event, out);
    }
    serialize_untagged(event, out)
}

pub fn length(event: GtidEvent) -> Result<usize, Refusal>
    ensures { result ≡ length_of event }
{
    if !is_writable(event) {
        return Err(Refusal::NotWritable);
    }
    if event.is_tagged() {
        return Ok(len_tagged_v2(event));
    }
    Ok(len_untagged(event))
}

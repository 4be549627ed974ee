// What a host notes of what it puts.
ghost use Rattle.std.specs.Prelude.{◌≡◌};
ghost use Rattle.aip_frame.specs.Frame.{frame_of};
ghost use Rattle.aip_rules.specs.Standing.{noted_of};
ghost use Rattle.aip_host.specs.After.{logged, with_noted};

use aip_frame::{is_frame, packet_hash, to_of};
use aip_rules::Reaction;
use sent_log::SentLog;

// Notes bytes that are put, if they are a frame.
#[tactic(auto, using(crate::proofs::Noting::noted_is, crate::proofs::Noting::none_is))]
fn note(log: &mut SentLog, bytes: &[u8])
    ensures { log.new ≡ with_noted log.old (noted_of (frame_of bytes.now)) }
{
    if is_frame(bytes) {
        log.note(&packet_hash(bytes), &to_of(bytes).eid.key_id());
    }
}

/// Notes what a reaction puts, if it is a frame.
pub fn note_put(log: &mut SentLog, reaction: &Reaction)
    ensures { log.new ≡ logged log.old reaction.now.put }
{
    if let Some(flight) = &reaction.put {
        note(log, flight.bytes.as_slice());
    }
}

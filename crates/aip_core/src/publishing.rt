//! What comes of bytes that are published.

ghost use Rattle.std.specs.Prelude.{◌≡◌, List};
ghost use Rattle.aip_registry.specs.declared.records.Record.{Record as Fields};
ghost use Rattle.aip_registry.specs.Record.{fields_in};
ghost use Rattle.aip_registry.specs.Kept.{after, publication};
ghost use Rattle.aip_rules.specs.Records.{kept_record_event, publication_event};
ghost use Rattle.aip_core.specs.Machine.{kept_published};
ghost use Rattle.aip_core.specs.Moves.{Does};

use crate::reactions::NoReaction;
use aip_event::Event;
use aip_registry::{Published, Record, RecordKind, Registry, read_record};
use aip_rules::{MOST_BYTES, Reaction, StepFault};
use std::alloc::Global;

// The event of a record that is kept from now on.
fn kept_record_event(fields: &Record) -> Event
    ensures { result ≡ kept_record_event fields.now.kind fields.now }
{
    match fields.kind {
        RecordKind::Peer => Event::PublishedPeer {
            ad: fields.ad,
            other: fields.other,
            number: fields.number,
            until: fields.until,
        },
        RecordKind::Bind => Event::PublishedBind {
            ad: fields.ad,
            other: fields.other,
            number: fields.number,
            until: fields.until,
        },
    }
}

// The event of a record of which this is said.
fn publication_event(fields: &Record, said: Published) -> Event
    ensures { result ≡ publication_event fields.now said }
{
    match said {
        Published::Ok => kept_record_event(fields),
        refusal => Event::Unpublished {
            number: refusal.number(),
        },
    }
}

// The event of bytes of which this is said.
fn event_of(bytes: &[u8], said: Published) -> Event
    ensures { (kept : List Fields) → said ≡ publication kept bytes.now
        → result ≡ publication_event (fields_in bytes.now) (publication kept bytes.now) }
{
    match read_record(bytes) {
        Some(fields) => publication_event(&fields, said),
        None => Event::Unpublished {
            number: said.number(),
        },
    }
}

/// Publishes bytes, if they aren't too many: they are kept as a record, or the reason why not is told.
pub fn publish(alloc: Global, registry: &mut Registry, bytes: &[u8]) -> Result<Reaction, NoReaction>
    ensures { Does (kept_published registry.old bytes.now) (λ reaction old new. new ≡ after old bytes.now) registry.old result registry.new }
{
    if bytes.len() > MOST_BYTES {
        return Err(NoReaction::Fault(StepFault::Range));
    }
    let said = registry.publish(bytes)?;
    Ok(Reaction::happens(alloc, event_of(bytes, said))?)
}

// What a host with a guard does with a shut-off, and what it says once it is up again.
ghost use Rattle.std.specs.Prelude.{◌≡◌, ◌<◌, ◌^◌, ◌++◌, None, Some, false, IfOk, IfSome, IsSome, OnOk};
ghost use Rattle.aip_event.specs.declared.event.Event.TheVariants as event;
ghost use Rattle.aip_addr.specs.Ids.{key_id_of};
ghost use Rattle.aip_frame.specs.declared.frame.Frame.{Frame as Framed};
ghost use Rattle.aip_frame.specs.Frame.{frame_of};
ghost use Rattle.aip_frame.specs.declared.frame.Kind.TheVariants as kind;
ghost use Rattle.shutoff_filter.specs.Entries.{in_force, others_in_force};
ghost use Rattle.aip_rules.specs.Host.{kept_events};
ghost use Rattle.aip_rules.specs.Reaction.{happens};
ghost use Rattle.aip_host.specs.Guarding.{Keeps, obeying_of};
ghost use Rattle.aip_host.specs.Withholding.{GuardFollows, LeavesUnordered, order_event, verdict_event, verdict_of};

use crate::guard::{Guard, Obeying};
use aip_addr::{KeyId, Name};
use aip_event::{Event, Events};
use aip_frame::from_of;
use aip_rules::Reaction;
use sent_log::SentLog;
use shutoff_filter::{Heard, ShutOffEntry};
use std::alloc::{AllocError, Global};

// What an order comes to that ends so.
fn order_event(host: Name, sender: KeyId, until: u64, obeying: Obeying) -> Event
    ensures { result ≡ order_event host sender until obeying }
{
    match obeying {
        Obeying::Obeyed => Event::Obeyed {
            host,
            sender,
            until,
        },
        Obeying::Halted { call, byte } => Event::Halted {
            host,
            sender,
            until,
            call: call.into(),
            byte: byte.into(),
        },
    }
}

// A guard obeys an order, unless a halt falls.
fn obey(
    alloc: Global,
    host: Name,
    guard: &mut Guard,
    sender: KeyId,
    until: u64,
    now: u64,
) -> Result<Reaction, AllocError>
    requires up { guard.old.is_down ≡ false }
    requires soon { now < 2 ^ 48 }
    requires later { now < until }
    requires few { others_in_force now sender guard.old.entries < guard.old.room }
    ensures reaction { IfOk result (λ reaction. reaction ≡ happens (order_event host sender until (obeying_of guard.old sender until))) }
    ensures follows { IfOk result (λ reaction. GuardFollows now host guard.old reaction guard.new) }
    ensures unordered { IfOk result (λ reaction. LeavesUnordered reaction guard.old guard.new) }
    ensures room { guard.new.room ≡ guard.old.room }
    ensures keeps { Keeps guard.new }
{
    match guard.obey(&sender, until, now) {
        Ok(obeying) => Reaction::happens(alloc, order_event(host, sender, until, obeying)),
        Err(end) => Err(end),
    }
}

/// What a host does with a shut-off that it judges by its log and its guard, which is up. The only error is want of memory.
pub fn hear(
    alloc: Global,
    host: Name,
    guard: &mut Guard,
    log: &SentLog,
    now: u64,
    frame: &[u8],
) -> Result<Reaction, AllocError>
    requires up { guard.old.is_down ≡ false }
    requires soon { now < 2 ^ 48 }
    requires frame { IsSome (frame_of frame.now) }
    requires shutoff { IfSome (frame_of frame.now) (λ f. f.kind ≡ kind.ShutOff) }
    ensures reaction { (f : Framed) → frame_of frame.now ≡ Some f → IfOk result (λ reaction. reaction
        ≡ happens (verdict_event host guard.old (key_id_of f.from.eid) (verdict_of guard.old log.now now f))) }
    ensures follows { IfOk result (λ reaction. GuardFollows now host guard.old reaction guard.new) }
    ensures unordered { IfOk result (λ reaction. LeavesUnordered reaction guard.old guard.new) }
    ensures room { guard.new.room ≡ guard.old.room }
    ensures keeps { Keeps guard.new }
{
    let sender = from_of(frame).eid.key_id();
    match guard.judge(log, frame, now) {
        Heard::Obeyed { until } => obey(alloc, host, guard, sender, until, now),
        verdict => Reaction::happens(
            alloc,
            Event::Heard {
                host,
                number: verdict.number(),
            },
        ),
    }
}

// That a host keeps this entry.
fn kept_event(host: Name, entry: &ShutOffEntry) -> Event
    ensures { result ≡ event.Kept host entry.now.to entry.now.until }
{
    Event::Kept {
        host,
        sender: entry.to,
        until: entry.until,
    }
}

// The events by which a host tells these entries.
fn kept_events(alloc: Global, host: Name, entries: &[ShutOffEntry]) -> Result<Events, AllocError>
    ensures { IfOk result (λ events. events ≡ kept_events host entries.now) }
{
    let mut events = Events::new(alloc);
    'entries: for entry in entries {
        events.push(kept_event(host, entry))?;
    }
    Ok(events)
}

/// What a host says whose guard is up again: the key identifiers in force. The only error is want of memory.
pub fn kept(alloc: Global, host: Name, guard: &Guard, now: u64) -> Result<Reaction, AllocError>
    requires up { guard.now.is_down ≡ false }
    requires soon { now < 2 ^ 48 }
    ensures { IfOk result (λ reaction. reaction ≡ record { events = kept_events host (in_force now guard.now.entries); put = None }) }
{
    let entries = guard.kept(alloc, now)?;
    let events = kept_events(alloc, host, entries.as_slice())?;
    Ok(Reaction { events, put: None })
}

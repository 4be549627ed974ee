ghost use Rattle.std.specs.Prelude.{◌≡◌, ◌++◌, ◌∷◌, IfOk, OnErr, OnOk, decimal};
ghost use Rattle.aip_text.specs.Fields.{id_word};
ghost use Rattle.aip_event.specs.declared.event.Event.TheVariants as event;
ghost use Rattle.aip_event.specs.Lines.{event_line, event_text, events_text, key_id_word};

use crate::event::{Cause, Event, Reason};
use crate::fields::{push_address, push_content, push_count, push_id, push_key_id, push_target};
use crate::input::Target;
use crate::shapes::{name_line, name_number_line, name_numbers_line, number_line};
use aip_addr::{Address, Bytes, Id, KeyId, Name};
use aip_text::{push_text, push_word};
use std::alloc::{AllocError, Global};

/// Appends the event's line, without a line feed. After want of memory `out` is as before.
pub fn write_event(alloc: Global, event: &Event, out: &mut Vec<u8>) -> Result<(), AllocError>
    ensures ok { OnOk result (out.new.items ≡ out.old.items ++ event_line event.now) }
    ensures err { OnErr result (out.new.items ≡ out.old.items) }
{
    let line = line_of(alloc, event)?;
    out.extend_from_slice(line.as_slice())
}

/// Appends what is written for events, the first first: the line of each behind `< `, with a line feed. After want of
/// memory `out` is as before.
pub fn write_events(alloc: Global, events: &[Event], out: &mut Vec<u8>) -> Result<(), AllocError>
    ensures ok { OnOk result (out.new.items ≡ out.old.items ++ events_text events.now) }
    ensures err { OnErr result (out.new.items ≡ out.old.items) }
{
    let text = text_of_events(alloc, events)?;
    out.extend_from_slice(text.as_slice())
}

fn text_of_events(alloc: Global, events: &[Event]) -> Result<Vec<u8>, AllocError>
    ensures { IfOk result (λ text. text.items ≡ events_text events.now) }
{
    let mut text = Vec::new(alloc);
    for event in events {
        push_event(alloc, event, &mut text)?;
    }
    Ok(text)
}

fn push_event(alloc: Global, event: &Event, text: &mut Vec<u8>) -> Result<(), AllocError>
    ensures { OnOk result (text.new.items ≡ text.old.items ++ event_text event.now) }
{
    push_text(text, b"< ")?;
    write_event(alloc, event, text)?;
    push_text(text, b"\n")
}

fn line_of(alloc: Global, event: &Event) -> Result<Vec<u8>, AllocError>
    ensures { IfOk result (λ line. line.items ≡ event_line event.now) }
{
    match event {
        Event::Put {
            flight,
            target,
            bytes,
        } => put_line(alloc, *flight, target, bytes),
        Event::Forward {
            router,
            in_port,
            out_port,
            cause,
        } => forward_line(alloc, router, *in_port, *out_port, *cause),
        Event::Ask {
            router,
            in_port,
            out_port,
        } => name_numbers_line(alloc, b"ask", router, *in_port, *out_port),
        Event::Proved {
            router,
            source,
            port,
        } => proved_line(alloc, router, source, *port),
        Event::Wild { router, ad, port } => wild_line(alloc, router, ad, *port),
        Event::Refuse { router, number } => name_number_line(alloc, b"refuse", router, *number),
        Event::Drop { node, reason } => drop_line(alloc, node, *reason),
        Event::Got { host, packet } => name_number_line(alloc, b"got", host, *packet),
        Event::Signed { host, leaf } => name_number_line(alloc, b"signed", host, *leaf),
        Event::Stopped {
            host,
            leaf,
            call,
            byte,
        } => stopped_line(alloc, host, *leaf, *call, *byte),
        Event::Withheld { host, to } => withheld_line(alloc, host, to),
        Event::Obeyed {
            host,
            sender,
            until,
        } => name_key_id_line(alloc, b"obeyed", host, sender, *until),
        Event::Heard { host, number } => name_number_line(alloc, b"heard", host, *number),
        Event::Halted {
            host,
            sender,
            until,
            call,
            byte,
        } => halted_line(alloc, host, sender, *until, *call, *byte),
        Event::Kept {
            host,
            sender,
            until,
        } => name_key_id_line(alloc, b"kept", host, sender, *until),
        Event::PublishedPeer {
            ad,
            other,
            number,
            until,
        } => published_line(alloc, b"published peer", ad, other, *number, *until),
        Event::PublishedBind {
            ad,
            other,
            number,
            until,
        } => published_line(alloc, b"published bind", ad, other, *number, *until),
        Event::Unpublished { number } => number_line(alloc, b"unpublished", *number),
    }
}

fn put_line(
    alloc: Global,
    flight: u64,
    target: &Target,
    bytes: &Bytes,
) -> Result<Vec<u8>, AllocError>
    ensures { IfOk result (λ line. line.items ≡ event_line (event.Put flight target.now bytes.now)) }
{
    let mut line = number_line(alloc, b"put", flight)?;
    push_target(&mut line, target)?;
    push_content(&mut line, bytes)?;
    Ok(line)
}

fn forward_line(
    alloc: Global,
    router: &Name,
    in_port: u64,
    out_port: u64,
    cause: Cause,
) -> Result<Vec<u8>, AllocError>
    ensures { IfOk result (λ line. line.items ≡ event_line (event.Forward router.now in_port out_port cause)) }
{
    let mut line = name_numbers_line(alloc, b"forward", router, in_port, out_port)?;
    push_word(&mut line, cause.word())?;
    Ok(line)
}

fn proved_line(
    alloc: Global,
    router: &Name,
    source: &Address,
    port: u64,
) -> Result<Vec<u8>, AllocError>
    ensures { IfOk result (λ line. line.items ≡ event_line (event.Proved router.now source.now port)) }
{
    let mut line = name_line(alloc, b"proved", router)?;
    push_address(&mut line, source)?;
    push_count(&mut line, port)?;
    Ok(line)
}

fn wild_line(alloc: Global, router: &Name, ad: &Id, port: u64) -> Result<Vec<u8>, AllocError>
    ensures { IfOk result (λ line. line.items ≡ event_line (event.Wild router.now ad.now port)) }
{
    let mut line = name_line(alloc, b"wild", router)?;
    push_id(&mut line, ad)?;
    push_count(&mut line, port)?;
    Ok(line)
}

fn drop_line(alloc: Global, node: &Name, reason: Reason) -> Result<Vec<u8>, AllocError>
    ensures { IfOk result (λ line. line.items ≡ event_line (event.Drop node.now reason)) }
{
    let mut line = name_line(alloc, b"drop", node)?;
    push_word(&mut line, reason.word())?;
    Ok(line)
}

fn stopped_line(
    alloc: Global,
    host: &Name,
    leaf: u64,
    call: u64,
    byte: u64,
) -> Result<Vec<u8>, AllocError>
    ensures { IfOk result (λ line. line.items ≡ event_line (event.Stopped host.now leaf call byte)) }
{
    let mut line = name_numbers_line(alloc, b"stopped", host, leaf, call)?;
    push_count(&mut line, byte)?;
    Ok(line)
}

fn withheld_line(alloc: Global, host: &Name, to: &KeyId) -> Result<Vec<u8>, AllocError>
    ensures { IfOk result (λ line. line.items ≡ event_line (event.Withheld host.now to.now)) }
{
    let mut line = name_line(alloc, b"withheld", host)?;
    push_key_id(&mut line, to)?;
    Ok(line)
}

fn name_key_id_line(
    alloc: Global,
    key: &[u8],
    host: &Name,
    sender: &KeyId,
    until: u64,
) -> Result<Vec<u8>, AllocError>
    ensures { IfOk result (λ line. line.items ≡ key.now ++ 32 ∷ host.now ++ 32 ∷ key_id_word sender.now ++ 32 ∷ decimal until) }
{
    let mut line = name_line(alloc, key, host)?;
    push_key_id(&mut line, sender)?;
    push_count(&mut line, until)?;
    Ok(line)
}

fn halted_line(
    alloc: Global,
    host: &Name,
    sender: &KeyId,
    until: u64,
    call: u64,
    byte: u64,
) -> Result<Vec<u8>, AllocError>
    ensures { IfOk result (λ line. line.items ≡ event_line (event.Halted host.now sender.now until call byte)) }
{
    let mut line = name_key_id_line(alloc, b"halted", host, sender, until)?;
    push_count(&mut line, call)?;
    push_count(&mut line, byte)?;
    Ok(line)
}

fn published_line(
    alloc: Global,
    key: &[u8],
    ad: &Id,
    other: &Id,
    number: u64,
    until: u64,
) -> Result<Vec<u8>, AllocError>
    ensures { IfOk result (λ line. line.items ≡ key.now ++ 32 ∷ id_word ad.now ++ 32 ∷ id_word other.now ++ 32 ∷ decimal number ++ 32 ∷ decimal until) }
{
    let mut line = Vec::from_slice(alloc, key)?;
    push_id(&mut line, ad)?;
    push_id(&mut line, other)?;
    push_count(&mut line, number)?;
    push_count(&mut line, until)?;
    Ok(line)
}

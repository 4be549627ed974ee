ghost use Rattle.std.specs.Prelude.{◌≡◌, IfOk, IfSome, Some};
ghost use Rattle.aip_text.specs.Fields.{of_three};
ghost use Rattle.aip_text.specs.Words.{number_of};
ghost use Rattle.aip_event.specs.declared.event.Event.{Event};
ghost use Rattle.aip_event.specs.declared.event.Event.TheVariants as event;
ghost use Rattle.aip_event.specs.Lines.{IsEvent, event_line};
ghost use Rattle.aip_event.specs.Reading.{ask_of, bind_of, drop_of, event_from, event_of, forward_of, got_of, halted_of, heard_of, host_event_from, kept_of, obeyed_of, peer_of, proved_of, published_of, put_of, record_event_from, refuse_of, signed_of, stopped_of, target_of, unpublished_of, wild_of, withheld_of};

use crate::event::Event;
use crate::fields::{read_address, read_cause, read_key_id, read_reason, read_target};
use aip_addr::Bytes;
use aip_text::{
    cut, five_words, four_words, read_bytes, read_id, read_name, read_number, read_u64, three_words,
};
use std::alloc::{AllocError, Global};

/// The event that the line spells, without its line feed, and None where it is no line of an event.
/// The only error is want of memory.
pub fn read_event(alloc: Global, line: &[u8]) -> Result<Option<Event>, AllocError>
    ensures exact { IfOk result (λ found. found ≡ event_of line.now) }
    ensures found { IfOk result (λ found. IfSome found (λ e. IsEvent e × (line.now ≡ event_line e))) }
    ensures again { IfOk result (λ found. (e : Event) → IsEvent e → line.now ≡ event_line e → found ≡ Some e) }
{
    event_in(alloc, line)
}

#[tactic(auto, unfolding(crate::specs::Reading::event_of))]
fn event_in(alloc: Global, line: &[u8]) -> Result<Option<Event>, AllocError>
    ensures { IfOk result (λ found. found ≡ event_of line.now) }
{
    match cut(line) {
        Some((key, rest)) => read_fields(alloc, key, rest),
        None => Ok(None),
    }
}

#[tactic(auto, unfolding(crate::specs::Reading::event_from))]
fn read_fields(alloc: Global, key: &[u8], rest: &[u8]) -> Result<Option<Event>, AllocError>
    ensures { IfOk result (λ found. found ≡ event_from key.now rest.now) }
{
    if key == b"put".as_slice() {
        read_put(alloc, rest)
    } else if key == b"forward".as_slice() {
        Ok(read_forward(rest))
    } else if key == b"ask".as_slice() {
        Ok(read_ask(rest))
    } else if key == b"proved".as_slice() {
        Ok(read_proved(rest))
    } else if key == b"wild".as_slice() {
        Ok(read_wild(rest))
    } else if key == b"refuse".as_slice() {
        Ok(read_refuse(rest))
    } else if key == b"drop".as_slice() {
        Ok(read_drop(rest))
    } else {
        Ok(read_host_event(key, rest))
    }
}

#[tactic(auto, unfolding(crate::specs::Reading::host_event_from))]
fn read_host_event(key: &[u8], rest: &[u8]) -> Option<Event>
    ensures { result ≡ host_event_from key.now rest.now }
{
    if key == b"got".as_slice() {
        read_got(rest)
    } else if key == b"signed".as_slice() {
        read_signed(rest)
    } else if key == b"stopped".as_slice() {
        read_stopped(rest)
    } else if key == b"withheld".as_slice() {
        read_withheld(rest)
    } else if key == b"obeyed".as_slice() {
        read_obeyed(rest)
    } else if key == b"heard".as_slice() {
        read_heard(rest)
    } else if key == b"halted".as_slice() {
        read_halted(rest)
    } else if key == b"kept".as_slice() {
        read_kept(rest)
    } else {
        read_record_event(key, rest)
    }
}

#[tactic(auto, unfolding(crate::specs::Reading::record_event_from))]
fn read_record_event(key: &[u8], rest: &[u8]) -> Option<Event>
    ensures { result ≡ record_event_from key.now rest.now }
{
    if key == b"published".as_slice() {
        read_published(rest)
    } else if key == b"unpublished".as_slice() {
        read_unpublished(rest)
    } else {
        None
    }
}

#[tactic(auto, unfolding(crate::specs::Reading::put_of))]
fn read_put(alloc: Global, rest: &[u8]) -> Result<Option<Event>, AllocError>
    ensures { IfOk result (λ found. found ≡ put_of rest.now) }
{
    match three_words(rest) {
        Some((flight, target, bytes)) => {
            let bytes = read_bytes(alloc, bytes)?;
            Ok(put_from(flight, target, bytes))
        }
        None => Ok(None),
    }
}

fn put_from(flight: &[u8], target: &[u8], bytes: Option<Bytes>) -> Option<Event>
    ensures { result ≡ of_three (λ f t b. event.Put f t b) (number_of flight.now) (target_of target.now) bytes }
{
    let flight = read_number(flight)?;
    let target = read_target(target)?;
    let bytes = bytes?;
    Some(Event::Put {
        flight,
        target,
        bytes,
    })
}

#[tactic(auto, unfolding(crate::specs::Reading::forward_of))]
fn read_forward(rest: &[u8]) -> Option<Event>
    ensures { result ≡ forward_of rest.now }
{
    let (router, in_port, out_port, cause) = four_words(rest)?;
    let router = read_name(router)?;
    let in_port = read_number(in_port)?;
    let out_port = read_number(out_port)?;
    let cause = read_cause(cause)?;
    Some(Event::Forward {
        router,
        in_port,
        out_port,
        cause,
    })
}

#[tactic(auto, unfolding(crate::specs::Reading::ask_of))]
fn read_ask(rest: &[u8]) -> Option<Event>
    ensures { result ≡ ask_of rest.now }
{
    let (router, in_port, out_port) = three_words(rest)?;
    let router = read_name(router)?;
    let in_port = read_number(in_port)?;
    let out_port = read_number(out_port)?;
    Some(Event::Ask {
        router,
        in_port,
        out_port,
    })
}

#[tactic(auto, unfolding(crate::specs::Reading::proved_of))]
fn read_proved(rest: &[u8]) -> Option<Event>
    ensures { result ≡ proved_of rest.now }
{
    let (router, source, port) = three_words(rest)?;
    let router = read_name(router)?;
    let source = read_address(source)?;
    let port = read_number(port)?;
    Some(Event::Proved {
        router,
        source,
        port,
    })
}

#[tactic(auto, unfolding(crate::specs::Reading::wild_of))]
fn read_wild(rest: &[u8]) -> Option<Event>
    ensures { result ≡ wild_of rest.now }
{
    let (router, ad, port) = three_words(rest)?;
    let router = read_name(router)?;
    let ad = read_id(ad)?;
    let port = read_number(port)?;
    Some(Event::Wild { router, ad, port })
}

#[tactic(auto, unfolding(crate::specs::Reading::refuse_of))]
fn read_refuse(rest: &[u8]) -> Option<Event>
    ensures { result ≡ refuse_of rest.now }
{
    let (router, number) = cut(rest)?;
    let router = read_name(router)?;
    let number = read_number(number)?;
    Some(Event::Refuse { router, number })
}

#[tactic(auto, unfolding(crate::specs::Reading::drop_of))]
fn read_drop(rest: &[u8]) -> Option<Event>
    ensures { result ≡ drop_of rest.now }
{
    let (node, reason) = cut(rest)?;
    let node = read_name(node)?;
    let reason = read_reason(reason)?;
    Some(Event::Drop { node, reason })
}

#[tactic(auto, unfolding(crate::specs::Reading::got_of))]
fn read_got(rest: &[u8]) -> Option<Event>
    ensures { result ≡ got_of rest.now }
{
    let (host, packet) = cut(rest)?;
    let host = read_name(host)?;
    let packet = read_number(packet)?;
    Some(Event::Got { host, packet })
}

#[tactic(auto, unfolding(crate::specs::Reading::signed_of))]
fn read_signed(rest: &[u8]) -> Option<Event>
    ensures { result ≡ signed_of rest.now }
{
    let (host, leaf) = cut(rest)?;
    let host = read_name(host)?;
    let leaf = read_number(leaf)?;
    Some(Event::Signed { host, leaf })
}

#[tactic(auto, unfolding(crate::specs::Reading::stopped_of))]
fn read_stopped(rest: &[u8]) -> Option<Event>
    ensures { result ≡ stopped_of rest.now }
{
    let (host, leaf, call, byte) = four_words(rest)?;
    let host = read_name(host)?;
    let leaf = read_number(leaf)?;
    let call = read_number(call)?;
    let byte = read_number(byte)?;
    Some(Event::Stopped {
        host,
        leaf,
        call,
        byte,
    })
}

#[tactic(auto, unfolding(crate::specs::Reading::withheld_of))]
fn read_withheld(rest: &[u8]) -> Option<Event>
    ensures { result ≡ withheld_of rest.now }
{
    let (host, to) = cut(rest)?;
    let host = read_name(host)?;
    let to = read_key_id(to)?;
    Some(Event::Withheld { host, to })
}

#[tactic(auto, unfolding(crate::specs::Reading::obeyed_of))]
fn read_obeyed(rest: &[u8]) -> Option<Event>
    ensures { result ≡ obeyed_of rest.now }
{
    let (host, sender, until) = three_words(rest)?;
    let host = read_name(host)?;
    let sender = read_key_id(sender)?;
    let until = read_number(until)?;
    Some(Event::Obeyed {
        host,
        sender,
        until,
    })
}

#[tactic(auto, unfolding(crate::specs::Reading::heard_of))]
fn read_heard(rest: &[u8]) -> Option<Event>
    ensures { result ≡ heard_of rest.now }
{
    let (host, number) = cut(rest)?;
    let host = read_name(host)?;
    let number = read_number(number)?;
    Some(Event::Heard { host, number })
}

#[tactic(auto, unfolding(crate::specs::Reading::halted_of))]
fn read_halted(rest: &[u8]) -> Option<Event>
    ensures { result ≡ halted_of rest.now }
{
    let (host, sender, until, call, byte) = five_words(rest)?;
    let host = read_name(host)?;
    let sender = read_key_id(sender)?;
    let until = read_number(until)?;
    let call = read_number(call)?;
    let byte = read_number(byte)?;
    Some(Event::Halted {
        host,
        sender,
        until,
        call,
        byte,
    })
}

#[tactic(auto, unfolding(crate::specs::Reading::kept_of))]
fn read_kept(rest: &[u8]) -> Option<Event>
    ensures { result ≡ kept_of rest.now }
{
    let (host, sender, until) = three_words(rest)?;
    let host = read_name(host)?;
    let sender = read_key_id(sender)?;
    let until = read_number(until)?;
    Some(Event::Kept {
        host,
        sender,
        until,
    })
}

#[tactic(auto, unfolding(crate::specs::Reading::published_of, crate::specs::Reading::published_from))]
fn read_published(rest: &[u8]) -> Option<Event>
    ensures { result ≡ published_of rest.now }
{
    let (kind, rest) = cut(rest)?;
    if kind == b"peer".as_slice() {
        read_peer(rest)
    } else if kind == b"bind".as_slice() {
        read_bind(rest)
    } else {
        None
    }
}

#[tactic(auto, unfolding(crate::specs::Reading::peer_of))]
fn read_peer(rest: &[u8]) -> Option<Event>
    ensures { result ≡ peer_of rest.now }
{
    let (ad, other, number, until) = four_words(rest)?;
    let ad = read_id(ad)?;
    let other = read_id(other)?;
    let number = read_u64(number)?;
    let until = read_u64(until)?;
    Some(Event::PublishedPeer {
        ad,
        other,
        number,
        until,
    })
}

#[tactic(auto, unfolding(crate::specs::Reading::bind_of))]
fn read_bind(rest: &[u8]) -> Option<Event>
    ensures { result ≡ bind_of rest.now }
{
    let (ad, other, number, until) = four_words(rest)?;
    let ad = read_id(ad)?;
    let other = read_id(other)?;
    let number = read_u64(number)?;
    let until = read_u64(until)?;
    Some(Event::PublishedBind {
        ad,
        other,
        number,
        until,
    })
}

#[tactic(auto, unfolding(crate::specs::Reading::unpublished_of))]
fn read_unpublished(rest: &[u8]) -> Option<Event>
    ensures { result ≡ unpublished_of rest.now }
{
    let number = read_number(rest)?;
    Some(Event::Unpublished { number })
}

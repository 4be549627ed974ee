ghost use Rattle.std.specs.Prelude.{◌≡◌, IfOk, IfSome, Some};
ghost use Rattle.aip_text.specs.Fields.{name_of, of_four, of_two};
ghost use Rattle.aip_text.specs.Words.{bytes_of, number_of};
ghost use Rattle.aip_event.specs.declared.input.Input.{Input};
ghost use Rattle.aip_event.specs.declared.input.Input.TheVariants as input;
ghost use Rattle.aip_event.specs.Lines.{IsInput, input_line};
ghost use Rattle.aip_event.specs.Reading.{cut_of, deliver_of, halt_of, inject_of, input_from, input_of, mend_of, publish_of, raw_of, restart_of, send_of, shutoff_of, stop_of, target_of, tick_of};

use crate::fields::read_target;
use crate::input::Input;
use aip_addr::Bytes;
use aip_text::{cut, four_words, read_bytes, read_name, read_number, three_words};
use std::alloc::{AllocError, Global};

/// The input that the line spells, without its line feed, and None where it is no line of an input.
/// The only error is want of memory.
pub fn read_input(alloc: Global, line: &[u8]) -> Result<Option<Input>, AllocError>
    ensures exact { IfOk result (λ found. found ≡ input_of line.now) }
    ensures found { IfOk result (λ found. IfSome found (λ i. IsInput i × (line.now ≡ input_line i))) }
    ensures again { IfOk result (λ found. (i : Input) → IsInput i → line.now ≡ input_line i → found ≡ Some i) }
{
    input_in(alloc, line)
}

#[tactic(auto, unfolding(crate::specs::Reading::input_of))]
fn input_in(alloc: Global, line: &[u8]) -> Result<Option<Input>, AllocError>
    ensures { IfOk result (λ found. found ≡ input_of line.now) }
{
    match cut(line) {
        Some((key, rest)) => read_fields(alloc, key, rest),
        None => Ok(None),
    }
}

#[tactic(auto, unfolding(crate::specs::Reading::input_from))]
fn read_fields(alloc: Global, key: &[u8], rest: &[u8]) -> Result<Option<Input>, AllocError>
    ensures { IfOk result (λ found. found ≡ input_from key.now rest.now) }
{
    if key == b"tick".as_slice() {
        Ok(read_tick(rest))
    } else if key == b"send".as_slice() {
        read_send(alloc, rest)
    } else if key == b"raw".as_slice() {
        read_raw(alloc, rest)
    } else if key == b"deliver".as_slice() {
        Ok(read_deliver(rest))
    } else if key == b"inject".as_slice() {
        read_inject(alloc, rest)
    } else if key == b"cut".as_slice() {
        Ok(read_cut(rest))
    } else if key == b"mend".as_slice() {
        Ok(read_mend(rest))
    } else if key == b"shutoff".as_slice() {
        Ok(read_shutoff(rest))
    } else if key == b"restart".as_slice() {
        Ok(read_restart(rest))
    } else if key == b"stop".as_slice() {
        Ok(read_stop(rest))
    } else if key == b"halt".as_slice() {
        Ok(read_halt(rest))
    } else if key == b"publish".as_slice() {
        read_publish(alloc, rest)
    } else {
        Ok(None)
    }
}

#[tactic(auto, unfolding(crate::specs::Reading::tick_of))]
fn read_tick(rest: &[u8]) -> Option<Input>
    ensures { result ≡ tick_of rest.now }
{
    let ticks = read_number(rest)?;
    Some(Input::Tick { ticks })
}

#[tactic(auto, unfolding(crate::specs::Reading::send_of))]
fn read_send(alloc: Global, rest: &[u8]) -> Result<Option<Input>, AllocError>
    ensures { IfOk result (λ found. found ≡ send_of rest.now) }
{
    match four_words(rest) {
        Some((host, node, packet, body)) => {
            let body = read_bytes(alloc, body)?;
            Ok(send_from(host, node, packet, body))
        }
        None => Ok(None),
    }
}

fn send_from(host: &[u8], node: &[u8], packet: &[u8], body: Option<Bytes>) -> Option<Input>
    ensures { result ≡ of_four (λ h n p b. input.Send h n p b) (name_of host.now) (name_of node.now) (number_of packet.now) body }
{
    let host = read_name(host)?;
    let node = read_name(node)?;
    let packet = read_number(packet)?;
    let body = body?;
    Some(Input::Send {
        host,
        node,
        packet,
        body,
    })
}

#[tactic(auto, unfolding(crate::specs::Reading::raw_of))]
fn read_raw(alloc: Global, rest: &[u8]) -> Result<Option<Input>, AllocError>
    ensures { IfOk result (λ found. found ≡ raw_of rest.now) }
{
    match cut(rest) {
        Some((host, bytes)) => {
            let bytes = read_bytes(alloc, bytes)?;
            Ok(raw_from(host, bytes))
        }
        None => Ok(None),
    }
}

fn raw_from(host: &[u8], bytes: Option<Bytes>) -> Option<Input>
    ensures { result ≡ of_two (λ h b. input.Raw h b) (name_of host.now) bytes }
{
    let host = read_name(host)?;
    let bytes = bytes?;
    Some(Input::Raw { host, bytes })
}

#[tactic(auto, unfolding(crate::specs::Reading::deliver_of))]
fn read_deliver(rest: &[u8]) -> Option<Input>
    ensures { result ≡ deliver_of rest.now }
{
    let flight = read_number(rest)?;
    Some(Input::Deliver { flight })
}

#[tactic(auto, unfolding(crate::specs::Reading::inject_of))]
fn read_inject(alloc: Global, rest: &[u8]) -> Result<Option<Input>, AllocError>
    ensures { IfOk result (λ found. found ≡ inject_of rest.now) }
{
    match cut(rest) {
        Some((target, bytes)) => {
            let bytes = read_bytes(alloc, bytes)?;
            Ok(inject_from(target, bytes))
        }
        None => Ok(None),
    }
}

fn inject_from(target: &[u8], bytes: Option<Bytes>) -> Option<Input>
    ensures { result ≡ of_two (λ t b. input.Inject t b) (target_of target.now) bytes }
{
    let target = read_target(target)?;
    let bytes = bytes?;
    Some(Input::Inject { target, bytes })
}

#[tactic(auto, unfolding(crate::specs::Reading::cut_of))]
fn read_cut(rest: &[u8]) -> Option<Input>
    ensures { result ≡ cut_of rest.now }
{
    let link = read_number(rest)?;
    Some(Input::Cut { link })
}

#[tactic(auto, unfolding(crate::specs::Reading::mend_of))]
fn read_mend(rest: &[u8]) -> Option<Input>
    ensures { result ≡ mend_of rest.now }
{
    let link = read_number(rest)?;
    Some(Input::Mend { link })
}

#[tactic(auto, unfolding(crate::specs::Reading::shutoff_of))]
fn read_shutoff(rest: &[u8]) -> Option<Input>
    ensures { result ≡ shutoff_of rest.now }
{
    let (host, flight, ttl) = three_words(rest)?;
    let host = read_name(host)?;
    let flight = read_number(flight)?;
    let ttl = read_number(ttl)?;
    Some(Input::Shutoff { host, flight, ttl })
}

#[tactic(auto, unfolding(crate::specs::Reading::restart_of))]
fn read_restart(rest: &[u8]) -> Option<Input>
    ensures { result ≡ restart_of rest.now }
{
    let node = read_name(rest)?;
    Some(Input::Restart { node })
}

#[tactic(auto, unfolding(crate::specs::Reading::stop_of))]
fn read_stop(rest: &[u8]) -> Option<Input>
    ensures { result ≡ stop_of rest.now }
{
    let (host, call, byte) = three_words(rest)?;
    let host = read_name(host)?;
    let call = read_number(call)?;
    let byte = read_number(byte)?;
    Some(Input::Stop { host, call, byte })
}

#[tactic(auto, unfolding(crate::specs::Reading::halt_of))]
fn read_halt(rest: &[u8]) -> Option<Input>
    ensures { result ≡ halt_of rest.now }
{
    let (host, call, byte) = three_words(rest)?;
    let host = read_name(host)?;
    let call = read_number(call)?;
    let byte = read_number(byte)?;
    Some(Input::Halt { host, call, byte })
}

#[tactic(auto, unfolding(crate::specs::Reading::publish_of))]
fn read_publish(alloc: Global, rest: &[u8]) -> Result<Option<Input>, AllocError>
    ensures { IfOk result (λ found. found ≡ publish_of rest.now) }
{
    match read_bytes(alloc, rest)? {
        Some(bytes) => Ok(Some(Input::Publish { bytes })),
        None => Ok(None),
    }
}

ghost use Rattle.std.specs.Prelude.{◌≡◌, ◌++◌, IfOk, OnErr, OnOk};
ghost use Rattle.aip_event.specs.declared.input.Input.TheVariants as input;
ghost use Rattle.aip_event.specs.Lines.{input_line};

use crate::fields::{push_content, push_count, push_name, push_target};
use crate::input::{Input, Target};
use crate::shapes::{name_bytes_line, name_line, name_numbers_line, number_line};
use aip_addr::{Bytes, Name};
use std::alloc::{AllocError, Global};

/// Appends the input's line, without a line feed. After want of memory `out` is as before.
pub fn write_input(alloc: Global, input: &Input, out: &mut Vec<u8>) -> Result<(), AllocError>
    ensures ok { OnOk result (out.new.items ≡ out.old.items ++ input_line input.now) }
    ensures err { OnErr result (out.new.items ≡ out.old.items) }
{
    let line = line_of(alloc, input)?;
    out.extend_from_slice(line.as_slice())
}

fn line_of(alloc: Global, input: &Input) -> Result<Vec<u8>, AllocError>
    ensures { IfOk result (λ line. line.items ≡ input_line input.now) }
{
    match input {
        Input::Tick { ticks } => number_line(alloc, b"tick", *ticks),
        Input::Send {
            host,
            node,
            packet,
            body,
        } => send_line(alloc, host, node, *packet, body),
        Input::Raw { host, bytes } => name_bytes_line(alloc, b"raw", host, bytes),
        Input::Deliver { flight } => number_line(alloc, b"deliver", *flight),
        Input::Inject { target, bytes } => inject_line(alloc, target, bytes),
        Input::Cut { link } => number_line(alloc, b"cut", *link),
        Input::Mend { link } => number_line(alloc, b"mend", *link),
        Input::Shutoff { host, flight, ttl } => {
            name_numbers_line(alloc, b"shutoff", host, *flight, *ttl)
        }
        Input::Restart { node } => name_line(alloc, b"restart", node),
        Input::Stop { host, call, byte } => name_numbers_line(alloc, b"stop", host, *call, *byte),
        Input::Halt { host, call, byte } => name_numbers_line(alloc, b"halt", host, *call, *byte),
        Input::Publish { bytes } => publish_line(alloc, bytes),
    }
}

fn send_line(
    alloc: Global,
    host: &Name,
    node: &Name,
    packet: u64,
    body: &Bytes,
) -> Result<Vec<u8>, AllocError>
    ensures { IfOk result (λ line. line.items ≡ input_line (input.Send host.now node.now packet body.now)) }
{
    let mut line = name_line(alloc, b"send", host)?;
    push_name(&mut line, node)?;
    push_count(&mut line, packet)?;
    push_content(&mut line, body)?;
    Ok(line)
}

fn inject_line(alloc: Global, target: &Target, bytes: &Bytes) -> Result<Vec<u8>, AllocError>
    ensures { IfOk result (λ line. line.items ≡ input_line (input.Inject target.now bytes.now)) }
{
    let mut line = Vec::from_slice(alloc, b"inject")?;
    push_target(&mut line, target)?;
    push_content(&mut line, bytes)?;
    Ok(line)
}

fn publish_line(alloc: Global, bytes: &Bytes) -> Result<Vec<u8>, AllocError>
    ensures { IfOk result (λ line. line.items ≡ input_line (input.Publish bytes.now)) }
{
    let mut line = Vec::from_slice(alloc, b"publish")?;
    push_content(&mut line, bytes)?;
    Ok(line)
}

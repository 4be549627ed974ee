// The frames that a host puts, and what it says of its signings.
ghost use Rattle.std.specs.Prelude.{◌≡◌, ◌≢◌, ◌≤◌, length, IfOk};
ghost use Rattle.aip_frame.specs.Frame.{frame_bytes, most_body};
ghost use Rattle.aip_rules.specs.Host.{sent_frame};
ghost use Rattle.aip_rules.specs.Reaction.{happens, happens_and_puts};

use aip_addr::{Address, Bytes, Name};
use aip_event::{Event, Target};
use aip_frame::{Frame, Kind, encode};
use aip_rules::Reaction;
use std::alloc::{AllocError, Global};

/// The bytes of a frame with hop limit 64 that is no challenge. The only error is want of memory.
pub fn framed(
    alloc: Global,
    kind: Kind,
    packet: u32,
    to: Address,
    from: Address,
    body: Bytes,
) -> Result<Bytes, AllocError>
    requires size { length body ≤ most_body }
    requires kind { kind ≢ Kind.Challenge }
    ensures { IfOk result (λ bytes. bytes ≡ frame_bytes (record {
      kind = kind;
      hop = 64;
      packet = packet;
      to = to;
      from = from;
      body = body;
    })) }
{
    let frame = Frame {
        kind,
        hop: 64,
        packet,
        to,
        from,
        body,
    };
    encode(alloc, &frame)
}

/// The bytes of a data frame of a host. The only error is want of memory.
pub fn data_frame(
    alloc: Global,
    to: Address,
    from: Address,
    packet: u32,
    body: &[u8],
) -> Result<Bytes, AllocError>
    requires { length body.now ≤ most_body }
    ensures { IfOk result (λ bytes. bytes ≡ frame_bytes (sent_frame to from packet body.now)) }
{
    let body = Bytes::from_slice(alloc, body)?;
    framed(alloc, Kind::Data, packet, to, from, body)
}

/// A packet of data is received. The only error is want of memory.
pub fn received(alloc: Global, host: Name, packet: u32) -> Result<Reaction, AllocError>
    ensures { IfOk result (λ reaction. reaction ≡ happens (Event.Got host packet)) }
{
    Reaction::happens(
        alloc,
        Event::Got {
            host,
            packet: packet.into(),
        },
    )
}

/// A signing was stopped. The only error is want of memory.
pub fn stopped(
    alloc: Global,
    host: Name,
    leaf: u32,
    call: u8,
    byte: u8,
) -> Result<Reaction, AllocError>
    ensures { IfOk result (λ reaction. reaction ≡ happens (Event.Stopped host leaf call byte)) }
{
    Reaction::happens(
        alloc,
        Event::Stopped {
            host,
            leaf: leaf.into(),
            call: call.into(),
            byte: byte.into(),
        },
    )
}

/// A leaf signed, and the frame that the signature completes is put. The only error is want of memory.
pub fn signed(
    alloc: Global,
    host: Name,
    towards: Target,
    leaf: u32,
    bytes: Bytes,
) -> Result<Reaction, AllocError>
    ensures { IfOk result (λ reaction. reaction ≡ happens_and_puts (Event.Signed host leaf) towards bytes) }
{
    let event = Event::Signed {
        host,
        leaf: leaf.into(),
    };
    Reaction::happens_and_puts(alloc, event, towards, bytes)
}

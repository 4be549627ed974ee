ghost use Rattle.std.specs.Prelude.{◌≡◌, ◌≤◌, ◌<◌, ◌^◌, ◌∷◌, ◌++◌, Some, length, IfOk, OnOk};
ghost use Rattle.byteorder.specs.Endian.{big_bytes};
ghost use Rattle.aip_addr.specs.Ids.{address_bytes};
ghost use Rattle.aip_frame.specs.Frame.{kind_code, most_body, challenge_body, frame_bytes, frame_of};

use crate::frame::{Frame, Kind};
use aip_addr::{Address, Bytes};
use std::alloc::{AllocError, Global};

/// The bytes of a frame: 90, then the body. They read back as the frame. The only error is want of
/// memory.
pub fn encode(alloc: Global, frame: &Frame) -> Result<Bytes, AllocError>
    requires body { length frame.now.body ≤ most_body }
    requires challenge { frame.now.kind ≡ Kind.Challenge → length frame.now.body ≡ challenge_body }
    ensures spelled { IfOk result (λ b. b ≡ frame_bytes frame.now) }
    ensures read_back { IfOk result (λ b. frame_of b ≡ Some frame.now) }
{
    let body = frame.body.as_slice();
    let mut out = Vec::with_capacity(alloc, 90 + body.len())?;
    push_head(&mut out, frame.kind, frame.hop, frame.packet)?;
    push_address(&mut out, &frame.to)?;
    push_address(&mut out, &frame.from)?;
    push_body(&mut out, body)?;
    Ok(Bytes::from_vec(out))
}

fn push_head(out: &mut Vec<u8>, kind: Kind, hop: u8, packet: u32) -> Result<(), AllocError>
    ensures spelled { OnOk result (out.new.items ≡ out.old.items ++ (1 ∷ kind_code kind ∷ hop ∷ 0 ∷ big_bytes 4 packet)) }
    ensures hop { hop < 256 }
    ensures packet { packet < 2 ^ 32 }
{
    out.extend_from_slice(&[1, code_of(kind), hop, 0])?;
    out.extend_from_slice(&packet.to_be_bytes())
}

fn push_address(out: &mut Vec<u8>, address: &Address) -> Result<(), AllocError>
    ensures spelled { OnOk result (out.new.items ≡ out.old.items ++ address_bytes address.now) }
    ensures ad { length address.now.ad.bytes ≡ 20 }
    ensures eid { length address.now.eid.bytes ≡ 20 }
{
    out.extend_from_slice(&address.write())
}

fn push_body(out: &mut Vec<u8>, body: &[u8]) -> Result<(), AllocError>
    requires { length body.now ≤ most_body }
    ensures { OnOk result (out.new.items ≡ out.old.items ++ (big_bytes 2 (length body.now) ++ body.now)) }
{
    out.extend_from_slice(&(body.len() as u16).to_be_bytes())?;
    out.extend_from_slice(body)
}

fn code_of(kind: Kind) -> u8
    ensures { result ≡ kind_code kind }
{
    match kind {
        Kind::Data => 0,
        Kind::Challenge => 1,
        Kind::Response => 2,
        Kind::ShutOff => 3,
    }
}

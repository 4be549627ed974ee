ghost use Rattle.std.specs.Prelude.{◌≡◌, ◌≤◌, ◌↔◌, Some, length, take, drop, IsTrue, IsSome, IfSome, is_some};
ghost use Rattle.aip_addr.specs.Ids.{address_of};
ghost use Rattle.aip_frame.specs.declared.frame.Frame.{Frame};
ghost use Rattle.aip_frame.specs.Frame.{IsFrame, frame_bytes, frame_of, body_fits, kind_at};
ghost use Rattle.aip_frame.specs.Form.{has_form};

use crate::frame::{Kind, MOST_BODY};
use aip_addr::Address;
use byteorder::{BigEndian, ByteOrder};

/// Whether the bytes are a frame: all of them, the fixed bytes as they must be, one of the four kinds,
/// and a body of the length that is written and that the kind may have.
pub fn is_frame(bytes: &[u8]) -> bool
    ensures computed { result ≡ is_some (frame_of bytes.now) }
    ensures spelled { IsTrue result ↔ ((f : Frame) × IsFrame bytes.now f) }
    ensures exact { (f : Frame) → IsFrame bytes.now f → frame_of bytes.now ≡ Some f }
    ensures sound { IfSome (frame_of bytes.now) (λ f. IsFrame bytes.now f) }
{
    has_form(bytes)
}

fn has_form(bytes: &[u8]) -> bool
    ensures { result ≡ has_form bytes.now }
{
    if bytes.len() < 90 {
        return false;
    }
    let len = bytes.len() - 90;
    bytes[0] == 1
        && bytes[1] <= 3
        && bytes[3] == 0
        && usize::from(BigEndian::read_u16(&bytes[88..])) == len
        && body_fits(kind_at(bytes[1]), len)
}

fn body_fits(kind: Kind, len: usize) -> bool
    ensures { result ≡ body_fits kind len }
{
    match kind {
        Kind::Challenge => len == 154,
        Kind::Data | Kind::Response | Kind::ShutOff => len <= MOST_BODY,
    }
}

fn kind_at(code: u8) -> Kind
    ensures { result ≡ kind_at code }
{
    match code {
        0 => Kind::Data,
        1 => Kind::Challenge,
        2 => Kind::Response,
        _ => Kind::ShutOff,
    }
}

/// The kind of a frame.
#[tactic(auto, using(crate::proofs::Frames::long))]
pub fn kind_of(bytes: &[u8]) -> Kind
    requires { IsSome (frame_of bytes.now) }
    ensures { IfSome (frame_of bytes.now) (λ f. result ≡ f.kind) }
{
    kind_at(bytes[1])
}

/// The hop limit of a frame.
#[tactic(auto, using(crate::proofs::Frames::long))]
pub fn hop_of(bytes: &[u8]) -> u8
    requires { IsSome (frame_of bytes.now) }
    ensures { IfSome (frame_of bytes.now) (λ f. result ≡ f.hop) }
{
    bytes[2]
}

/// The packet id of a frame.
#[tactic(auto, using(crate::proofs::Frames::long))]
pub fn packet_of(bytes: &[u8]) -> u32
    requires { IsSome (frame_of bytes.now) }
    ensures { IfSome (frame_of bytes.now) (λ f. result ≡ f.packet) }
{
    BigEndian::read_u32(&bytes[4..])
}

/// The destination of a frame.
#[tactic(auto, using(crate::proofs::Frames::long))]
pub fn to_of(bytes: &[u8]) -> Address
    requires { IsSome (frame_of bytes.now) }
    ensures { IfSome (frame_of bytes.now) (λ f. result ≡ f.to) }
{
    address_at(&bytes[8..])
}

/// The source of a frame, as the frame claims it.
#[tactic(auto, using(crate::proofs::Frames::long))]
pub fn from_of(bytes: &[u8]) -> Address
    requires { IsSome (frame_of bytes.now) }
    ensures { IfSome (frame_of bytes.now) (λ f. result ≡ f.from) }
{
    address_at(&bytes[48..])
}

fn address_at(bytes: &[u8]) -> Address
    requires { 40 ≤ length bytes.now }
    ensures { result ≡ address_of (take 40 bytes.now) }
{
    Address::read(&bytes[..40]).unwrap()
}

/// The body of a frame.
#[tactic(auto, using(crate::proofs::Frames::long))]
pub fn body_of(bytes: &[u8]) -> &[u8]
    requires { IsSome (frame_of bytes.now) }
    ensures body { IfSome (frame_of bytes.now) (λ f. result.now ≡ f.body) }
    ensures sound { IfSome (frame_of bytes.now) (λ f. IsFrame bytes.now f) }
{
    &bytes[90..]
}

/// Writes the hop limit of a frame. Nothing else changes.
#[tactic(auto, using(crate::proofs::Frames::long))]
pub fn set_hop(bytes: &mut [u8], hop: u8)
    requires { IsSome (frame_of bytes.old) }
    ensures spelled { IfSome (frame_of bytes.old) (λ f. bytes.new ≡ frame_bytes (record f { hop = hop })) }
    ensures frame { IfSome (frame_of bytes.old) (λ f. frame_of bytes.new ≡ Some (record f { hop = hop })) }
{
    bytes[2] = hop;
}

// How a host signs a shut-off.
ghost use Rattle.std.specs.Prelude.{◌≡◌, ◌≤◌, false, length, IfOk, OnOk};
ghost use Rattle.aip_frame.specs.Frame.{frame_bytes, most_body};
ghost use Rattle.lms_core.specs.Tree.{public_key_of};
ghost use Rattle.lms_core.specs.Parameters.{most_signature};
ghost use Rattle.shutoff_filter.specs.Body.{shutoff_of, shutoff_text_of};
ghost use Rattle.aip_host.specs.Signing.{IsShort, Spends, signing_of, next_after, stop_after, down_after};
ghost use Rattle.aip_host.specs.Ended.{demand_frame, ended};

use crate::framing::{framed, signed, stopped};
use crate::signing::{Signing, SigningKey};
use aip_addr::{Address, Bytes};
use aip_event::{Reason, Target};
use aip_frame::Kind;
use aip_rules::{Reaction, Seat};
use lms_core::PublicKey;
use shutoff_filter::{shutoff_body, shutoff_text};
use std::alloc::{AllocError, Global};

/// What a shut-off says.
#[derive(Clone, Copy)]
pub struct Demand {
    /// The source of the frame that it names.
    pub to: Address,
    /// The packet hash of that frame.
    pub hash: [u8; 32],
    /// The tick at which it is issued.
    pub issue: u64,
    /// How many ticks it lasts.
    pub ttl: u32,
}

// The body of a shut-off, which fits a frame.
fn short_demand(
    alloc: Global,
    demand: &Demand,
    key: &PublicKey,
    signature: &[u8],
) -> Result<Bytes, AllocError>
    requires { length signature.now ≤ most_signature }
    ensures body { IfOk result (λ body. body
        ≡ shutoff_of demand.now.hash demand.now.issue demand.now.ttl key.now signature.now) }
    ensures size { IfOk result (λ body. length body ≤ most_body) }
{
    let _key = key.bytes();
    shutoff_body(
        alloc,
        &demand.hash,
        demand.issue,
        demand.ttl,
        key,
        signature,
    )
}

// The bytes of a shut-off.
fn demanded(
    alloc: Global,
    from: Address,
    demand: &Demand,
    key: &PublicKey,
    signature: &[u8],
) -> Result<Bytes, AllocError>
    requires short { length signature.now ≤ most_signature }
    ensures { IfOk result (λ bytes. bytes ≡ frame_bytes (demand_frame from demand.now key.now signature.now)) }
{
    let body = short_demand(alloc, demand, key, signature)?;
    framed(alloc, Kind::ShutOff, 0, demand.to, from, body)
}

// What comes of a signing for a shut-off.
fn silenced(
    alloc: Global,
    seat: &Seat,
    towards: Target,
    demand: &Demand,
    key: &PublicKey,
    signing: Signing,
) -> Result<Reaction, AllocError>
    requires short { IsShort signing }
    ensures { IfOk result (λ reaction. reaction
        ≡ ended seat.now towards (demand_frame seat.now.address demand.now key.now) signing) }
{
    match signing {
        Signing::Dry => Reaction::dropped(alloc, seat.name, Reason::Dry),
        Signing::Stopped { leaf, call, byte } => stopped(alloc, seat.name, leaf, call, byte),
        Signing::Signed { leaf, signature } => {
            let bytes = demanded(alloc, seat.address, demand, key, signature.as_slice())?;
            signed(alloc, seat.name, towards, leaf, bytes)
        }
    }
}

/// Signs a shut-off with a key that is up. The only error is want of memory.
pub fn silence(
    alloc: Global,
    key: &mut SigningKey,
    seat: &Seat,
    towards: Target,
    demand: &Demand,
) -> Result<Reaction, AllocError>
    requires up { key.old.is_down ≡ false }
    ensures reaction { IfOk result (λ reaction. reaction ≡ ended seat.now towards
        (demand_frame seat.now.address demand.now (public_key_of key.old.key))
        (signing_of key.old
        (shutoff_text_of seat.now.address demand.now.to demand.now.hash demand.now.issue demand.now.ttl))) }
    ensures next { OnOk result (key.new.next ≡ next_after key.old) }
    ensures stop { OnOk result (key.new.stop ≡ stop_after key.old) }
    ensures down { OnOk result (key.new.is_down ≡ down_after key.old) }
    ensures key { key.new.key ≡ key.old.key }
    ensures spends { Spends key.new }
{
    let public = key.public();
    let text = shutoff_text(
        &seat.address,
        &demand.to,
        &demand.hash,
        demand.issue,
        demand.ttl,
    );
    match key.sign(alloc, &text) {
        Ok(signing) => silenced(alloc, seat, towards, demand, &public, signing),
        Err(end) => Err(end),
    }
}

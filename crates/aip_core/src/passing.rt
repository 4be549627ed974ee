//! How a router passes a frame on: open, or by its verdict on the frame's source.

ghost use Rattle.std.specs.Prelude.{◌≡◌, ◌<◌, ◌^◌, not, length, IsSome, IfSome, IfOk, OnOk, Some};
ghost use Rattle.aip_addr.specs.Ids.{is_same_id};
ghost use Rattle.accept_cache.specs.Keys.{pair_of};
ghost use Rattle.accept_cache.specs.Kept.{has_fresh};
ghost use Rattle.first_hop.specs.Verdict.{host_verdict};
ghost use Rattle.aip_frame.specs.Frame.{frame_bytes, frame_of};
ghost use Rattle.aip_rules.specs.Nodes.{neighbour_at};
ghost use Rattle.aip_rules.specs.Routes.{port_over};
ghost use Rattle.aip_rules.specs.Router.{by_verdict, forwarded, is_challenge, key_after, of_border, of_host, one_hop_less};
ghost use Rattle.aip_rules.specs.declared.Neighbour.TheVariants as neighbour;
ghost use Rattle.aip_core.specs.RouterMachine.{arrival_of, basis_of, kept_verdict, kept_judged, kept_checked, kept_passed, after_verdict, after_judged, after_checked, after_passed};
ghost use Rattle.aip_core.specs.Wiring.{IsWiringOf};

use crate::asking::{ask, key_of};
use crate::checks::Checks;
use crate::network::Network;
use crate::ports::{port_over, target_at};
use crate::router::Arrival;
use crate::trust::trusts;
use aip_addr::{Address, Bytes};
use aip_event::{Cause, Event, Reason};
use aip_frame::{Kind, from_of, hop_of, kind_of, set_hop, to_of};
use aip_rules::{Neighbour, Reaction, Verdict};
use border_check::PortVerdict;
use first_hop::HostVerdict;
use std::alloc::{AllocError, Global};

// The bytes of the frame with its hop limit lowered by one.
fn one_hop_less(alloc: Global, bytes: &[u8]) -> Result<Bytes, AllocError>
    requires { IsSome (frame_of bytes.now) }
    ensures { IfOk result (λ less. IfSome (frame_of bytes.now) (λ frame. less ≡ frame_bytes (one_hop_less frame))) }
{
    let mut frame = Vec::from_slice(alloc, bytes)?;
    set_hop(&mut frame, hop_of(bytes).saturating_sub(1));
    Ok(Bytes::from_vec(frame))
}

// The router forwards the frame on the port `out` for a cause.
fn forward(
    alloc: Global,
    network: &Network,
    at: &Arrival,
    out: u16,
    cause: Cause,
    bytes: &[u8],
) -> Result<Reaction, AllocError>
    requires wired { IsWiringOf network.now.directory network.now.wiring }
    requires there { at.now.place < length network.now.directory.routers }
    requires frame { IsSome (frame_of bytes.now) }
    ensures { IfOk result (λ reaction. IfSome (frame_of bytes.now) (λ frame.
        reaction ≡ forwarded network.now.directory (arrival_of at.now) out cause frame)) }
{
    let target = target_at(network, at.place, out);
    let event = Event::Forward {
        router: at.own.name,
        in_port: at.port,
        out_port: out.into(),
        cause,
    };
    let less = one_hop_less(alloc, bytes)?;
    Reaction::happens_and_puts(alloc, event, target, less)
}

// What the verdict at a host's port comes to: the challenge leaves by that port.
fn of_host(port: u16, verdict: HostVerdict) -> Verdict
    ensures { result ≡ of_host port verdict }
{
    match verdict {
        HostVerdict::Foreign => Verdict::Foreign,
        HostVerdict::Proved => Verdict::Forwards(Cause::Proved),
        HostVerdict::Ask => Verdict::Asks(Some(port)),
    }
}

// What the verdict at a link's port comes to: the challenge leaves by the port towards the source.
fn of_border(back: Option<u16>, verdict: PortVerdict) -> Verdict
    ensures { result ≡ of_border back verdict }
{
    match verdict {
        PortVerdict::Trusted => Verdict::Forwards(Cause::Trusted),
        PortVerdict::Reverse => Verdict::Forwards(Cause::Reverse),
        PortVerdict::Proved => Verdict::Forwards(Cause::Proved),
        PortVerdict::Wild => Verdict::Forwards(Cause::Wild),
        PortVerdict::Ask => Verdict::Asks(back),
    }
}

// The verdict on the source of a frame that came at a port of a host, whatever its name.
fn verdict_at_host(checks: &mut Checks, at: &Arrival, source: &Address) -> Verdict
    requires low { at.now.port < 2 ^ 16 }
    ensures verdict { result ≡ of_host at.now.port
        (host_verdict (not (is_same_id source.now.ad at.now.own.address.ad)) (has_fresh checks.old.cache (pair_of source.now at.now.port) at.now.time)) }
    ensures after { checks.new ≡ after_verdict checks.old source.now at.now.port result }
    ensures boot { checks.new.boot ≡ checks.old.boot }
{
    let port = at.port as u16;
    let verdict = checks.at_host(&at.own.address.ad, source, port, at.time);
    of_host(port, verdict)
}

// The verdict on the source of a frame that came over a link from another router, whatever the port there.
fn verdict_at_link(
    alloc: Global,
    network: &mut Network,
    checks: &mut Checks,
    at: &Arrival,
    other: u16,
    marked: bool,
    source: &Address,
) -> Result<Verdict, AllocError>
    requires wired { IsWiringOf network.old.directory network.old.wiring }
    requires low { at.now.port < 2 ^ 16 }
    ensures same { network.new ≡ network.old }
    ensures verdict { IfOk result (λ verdict.
        verdict ≡ kept_verdict (basis_of network.old checks.old at.now.time) (arrival_of at.now) (Some (neighbour.Link other 0 marked)) source.now) }
    ensures after { IfOk result (λ verdict. checks.new ≡ after_verdict checks.old source.now at.now.port verdict) }
    ensures boot { checks.new.boot ≡ checks.old.boot }
{
    let back = port_over(alloc, network, at, source)?;
    let trusted = trusts(network, at, other, marked);
    let verdict = checks.at_link(trusted, back, source, at.port as u16, at.time);
    Ok(of_border(back, verdict))
}

// The verdict on the source of a frame, by what lies at the port at which it came. A source or a domain by which the frame is
// forwarded is hit.
fn verdict_on(
    alloc: Global,
    network: &mut Network,
    checks: &mut Checks,
    at: &Arrival,
    source: &Address,
) -> Result<Verdict, AllocError>
    requires wired { IsWiringOf network.old.directory network.old.wiring }
    ensures same { network.new ≡ network.old }
    ensures verdict { IfOk result (λ verdict.
        verdict ≡ kept_verdict (basis_of network.old checks.old at.now.time) (arrival_of at.now)
        (neighbour_at network.old.directory at.now.place at.now.port) source.now) }
    ensures after { IfOk result (λ verdict. checks.new ≡ after_verdict checks.old source.now at.now.port verdict) }
    ensures boot { checks.new.boot ≡ checks.old.boot }
{
    match network.wiring.neighbour(at.place, at.port) {
        Some(Neighbour::Host { name: _ }) => Ok(verdict_at_host(checks, at, source)),
        Some(
            Neighbour::Link {
                router: other,
                port: _,
                marked,
            },
        ) => verdict_at_link(alloc, network, checks, at, other, marked, source),
        None => Ok(Verdict::Asks(port_over(alloc, network, at, source)?)),
    }
}

// What the router, after so many restarts, does by its verdict.
fn act(
    alloc: Global,
    network: &Network,
    boot: u32,
    at: &Arrival,
    out: u16,
    verdict: Verdict,
    bytes: &[u8],
) -> Result<Reaction, AllocError>
    requires wired { IsWiringOf network.now.directory network.now.wiring }
    requires there { at.now.place < length network.now.directory.routers }
    requires epochs { 0 < network.now.directory.settings.epoch }
    requires frame { IsSome (frame_of bytes.now) }
    ensures { IfOk result (λ reaction. IfSome (frame_of bytes.now) (λ frame.
        reaction ≡ by_verdict network.now.directory (key_after network.now.directory boot at.now.place at.now.own) at.now.time (arrival_of at.now) frame out verdict)) }
{
    match verdict {
        Verdict::Forwards(cause) => forward(alloc, network, at, out, cause, bytes),
        Verdict::Foreign => Reaction::dropped(alloc, at.own.name, Reason::Foreign),
        Verdict::Asks(back) => {
            let key = key_of(network, boot, at);
            ask(alloc, network, &key, at, back, bytes)
        }
    }
}

// A frame of a source that is checked: one verdict, and what the router does by it.
fn judge(
    alloc: Global,
    network: &mut Network,
    checks: &mut Checks,
    at: &Arrival,
    out: u16,
    bytes: &[u8],
) -> Result<Reaction, AllocError>
    requires wired { IsWiringOf network.old.directory network.old.wiring }
    requires there { at.now.place < length network.old.directory.routers }
    requires epochs { 0 < network.old.directory.settings.epoch }
    requires frame { IsSome (frame_of bytes.now) }
    ensures same { network.new ≡ network.old }
    ensures reaction { IfOk result (λ reaction. IfSome (frame_of bytes.now) (λ frame.
        reaction ≡ kept_judged (basis_of network.old checks.old at.now.time) (arrival_of at.now) frame out
        (neighbour_at network.old.directory at.now.place at.now.port))) }
    ensures after { OnOk result (IfSome (frame_of bytes.now) (λ frame.
        checks.new ≡ after_judged (basis_of network.old checks.old at.now.time) (arrival_of at.now) frame
        (neighbour_at network.old.directory at.now.place at.now.port))) }
    ensures boot { checks.new.boot ≡ checks.old.boot }
{
    let verdict = verdict_on(alloc, network, checks, at, &from_of(bytes))?;
    act(alloc, network, checks.boot(), at, out, verdict, bytes)
}

// Whether a frame is a challenge.
fn is_challenge(kind: Kind) -> bool
    ensures { result ≡ is_challenge kind }
{
    match kind {
        Kind::Challenge => true,
        Kind::Data | Kind::Response | Kind::ShutOff => false,
    }
}

// A frame that the router could put on the port `out`.
fn pass_on(
    alloc: Global,
    network: &mut Network,
    checks: &mut Checks,
    at: &Arrival,
    out: u16,
    bytes: &[u8],
) -> Result<Reaction, AllocError>
    requires wired { IsWiringOf network.old.directory network.old.wiring }
    requires there { at.now.place < length network.old.directory.routers }
    requires epochs { 0 < network.old.directory.settings.epoch }
    requires frame { IsSome (frame_of bytes.now) }
    ensures same { network.new ≡ network.old }
    ensures reaction { IfOk result (λ reaction. IfSome (frame_of bytes.now) (λ frame.
        reaction ≡ kept_checked (basis_of network.old checks.old at.now.time) (arrival_of at.now) frame out)) }
    ensures after { OnOk result (IfSome (frame_of bytes.now) (λ frame.
        checks.new ≡ after_checked (basis_of network.old checks.old at.now.time) (arrival_of at.now) frame)) }
    ensures boot { checks.new.boot ≡ checks.old.boot }
{
    if !at.own.checking {
        return forward(alloc, network, at, out, Cause::Open, bytes);
    }
    if is_challenge(kind_of(bytes)) {
        return forward(alloc, network, at, out, Cause::Exempt, bytes);
    }
    judge(alloc, network, checks, at, out, bytes)
}

/// A frame that has a hop left and isn't for the router itself. The only error is want of memory.
pub fn pass(
    alloc: Global,
    network: &mut Network,
    checks: &mut Checks,
    at: &Arrival,
    bytes: &[u8],
) -> Result<Reaction, AllocError>
    requires wired { IsWiringOf network.old.directory network.old.wiring }
    requires there { at.now.place < length network.old.directory.routers }
    requires epochs { 0 < network.old.directory.settings.epoch }
    requires frame { IsSome (frame_of bytes.now) }
    ensures same { network.new ≡ network.old }
    ensures reaction { IfOk result (λ reaction. IfSome (frame_of bytes.now) (λ frame.
        reaction ≡ kept_passed (basis_of network.old checks.old at.now.time) (arrival_of at.now) frame
        (port_over network.old.directory network.old.wiring.links at.now.place at.now.own frame.to))) }
    ensures after { OnOk result (IfSome (frame_of bytes.now) (λ frame.
        checks.new ≡ after_passed (basis_of network.old checks.old at.now.time) (arrival_of at.now) frame
        (port_over network.old.directory network.old.wiring.links at.now.place at.now.own frame.to))) }
    ensures boot { checks.new.boot ≡ checks.old.boot }
{
    match port_over(alloc, network, at, &to_of(bytes))? {
        Some(out) => pass_on(alloc, network, checks, at, out, bytes),
        None => Reaction::dropped(alloc, at.own.name, Reason::NoRoute),
    }
}

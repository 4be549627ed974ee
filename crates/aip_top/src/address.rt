// The command `address`: the addresses of a topology, as text.
ghost use Rattle.std.specs.Prelude.{◌≡◌, ◌++◌, true, false, Some, IfSome, IfOk, IfErr, IsErrOf, OnOk, flat_map};
ghost use Rattle.fault_counts.specs.Causes.{HasCause, Rose};
ghost use Rattle.aip_io.specs.Causes.{ReadsOnly};
ghost use Rattle.aip_rules.specs.Nodes.{host_address};
ghost use Rattle.aip_top.specs.Addresses.{ad_line, addresses_of, at_line, part_line, router_line, IsWritten};
ghost use Rattle.aip_top.specs.Commands.{AddressOf};
ghost use Rattle.aip_top.specs.Judged.{refusal_of, IsEarly, IsOpeningEnd, JudgesCommand};
ghost use Rattle.aip_top.specs.Statuses.{kind_of};
ghost use Rattle.aip_top.specs.Words.{Address, IsNamed};

use crate::status::Status;
use crate::topology::topology_under;
use crate::writing::put_text;
use aip_addr::Id;
use aip_io::{Shelf, Sink};
use aip_text::{push_hex, push_space, push_text, push_word};
use aip_topo::{Domain, HostPart, Part, Router, Topology};
use std::alloc::{AllocError, Global};

fn push_domain(out: &mut Vec<u8>, domain: &Domain) -> Result<(), AllocError>
    ensures { OnOk result (out.new.items ≡ out.old.items ++ ad_line domain.now) }
{
    push_text(out, b"ad")?;
    push_word(out, domain.name.bytes())?;
    push_space(out)?;
    push_hex(out, &domain.ad.bytes)?;
    push_text(out, b"\n")
}

fn push_domains(out: &mut Vec<u8>, domains: &[Domain]) -> Result<(), AllocError>
    ensures { OnOk result (out.new.items ≡ out.old.items ++ flat_map ad_line domains.now) }
{
    for domain in domains {
        push_domain(out, domain)?;
    }
    Ok(())
}

// Appends the line of a router or a host.
fn push_address(out: &mut Vec<u8>, name: &[u8], ad: &[u8], eid: &Id) -> Result<(), AllocError>
    ensures { OnOk result (out.new.items ≡ out.old.items ++ at_line name.now (record { ad = record { bytes = ad.now }; eid = eid.now })) }
{
    push_text(out, b"at")?;
    push_word(out, name)?;
    push_space(out)?;
    push_hex(out, ad)?;
    push_text(out, b":")?;
    push_hex(out, &eid.bytes)?;
    push_text(out, b"\n")
}

fn push_router(out: &mut Vec<u8>, router: &Router) -> Result<(), AllocError>
    ensures { OnOk result (out.new.items ≡ out.old.items ++ router_line router.now) }
{
    let address = &router.address;
    push_address(out, router.name.bytes(), &address.ad.bytes, &address.eid)
}

fn push_routers(out: &mut Vec<u8>, routers: &[Router]) -> Result<(), AllocError>
    ensures { OnOk result (out.new.items ≡ out.old.items ++ flat_map router_line routers.now) }
{
    for router in routers {
        push_router(out, router)?;
    }
    Ok(())
}

// A host has the domain's id of its router.
fn push_host(out: &mut Vec<u8>, routers: &[Router], host: &HostPart) -> Result<(), AllocError>
    ensures { OnOk result (out.new.items ≡ out.old.items ++ at_line host.now.name (host_address routers.now host.now)) }
{
    match routers.get(host.router as usize) {
        Some(router) => push_address(out, host.name.bytes(), &router.address.ad.bytes, &host.eid),
        None => push_address(out, host.name.bytes(), &[], &host.eid),
    }
}

fn push_part(out: &mut Vec<u8>, routers: &[Router], part: &Part) -> Result<(), AllocError>
    ensures { OnOk result (out.new.items ≡ out.old.items ++ part_line routers.now part.now) }
{
    match part {
        Part::Host(host) => push_host(out, routers, host),
        Part::Link(_) => Ok(()),
    }
}

fn push_parts(out: &mut Vec<u8>, routers: &[Router], parts: &[Part]) -> Result<(), AllocError>
    ensures { OnOk result (out.new.items ≡ out.old.items ++ flat_map (part_line routers.now) parts.now) }
{
    for part in parts {
        push_part(out, routers, part)?;
    }
    Ok(())
}

// The addresses of the domains, then of the routers, then of the hosts, a line for each, in the order of the file. The
// only error is want of memory.
fn addresses_of(alloc: Global, topology: &Topology) -> Result<Vec<u8>, AllocError>
    ensures { IfOk result (λ text. text.items ≡ addresses_of topology.now) }
{
    let mut out = Vec::new(alloc);
    let routers = topology.routers.as_slice();
    push_domains(&mut out, topology.domains.as_slice())?;
    push_routers(&mut out, routers)?;
    push_parts(&mut out, routers, topology.parts.as_slice())?;
    Ok(out)
}

// The addresses in the topology of this name; or the status that ends the command before anything is written.
fn addresses_in<S: Shelf>(alloc: Global, shelf: &mut S, name: &str) -> Result<Vec<u8>, Status>
    ensures written { IfOk result (λ text. IfSome (S.text shelf.old name.now) (λ told. IsWritten told text.items)) }
    ensures ended { IfErr result (λ end. IfSome (S.text shelf.old name.now) (λ told. IsEarly (refusal_of told) end)) }
    ensures early { IfErr result IsOpeningEnd }
    ensures counts { ReadsOnly (λ other. other ≡ name.now) (IsErrOf result Status.ReadFault)
        (S.text shelf.old) (S.faults shelf.old) (S.faults shelf.new) }
{
    let topology = topology_under(alloc, shelf, name)?;
    let text = addresses_of(alloc, &topology)?;
    Ok(text)
}

/// Writes the addresses in a topology.
pub fn address<S: Shelf, K: Sink>(
    alloc: Global,
    shelf: &mut S,
    topology: &str,
    out: &mut K,
) -> Status
    ensures told { IfSome (S.text shelf.old topology.now) (λ told. AddressOf told
        (Rose (S.faults shelf.old topology.now) (S.faults shelf.new topology.now))
        (Rose (K.faults out.old) (K.faults out.new)) result (K.taken out.old) (K.taken out.new)) }
    ensures judged { IfSome (S.text shelf.old topology.now) (λ told. JudgesCommand (refusal_of told)
        (Rose (S.faults shelf.old topology.now) (S.faults shelf.new topology.now)) (out.new ≡ out.old) result) }
    ensures belongs { (kind_of result).answers (Some (Address topology.now)) ≡ true }
    ensures quiet { (kind_of result).writes (Some (Address topology.now)) ≡ false → out.new ≡ out.old }
    ensures core { (kind_of result).gives_core (Some (Address topology.now)) ≡ false }
    ensures reads { ReadsOnly (IsNamed (Some (Address topology.now))) (result ≡ Status.ReadFault)
        (S.text shelf.old) (S.faults shelf.old) (S.faults shelf.new) }
    ensures sink { HasCause (result ≡ Status.WriteFault) (K.faults out.old) (K.faults out.new) }
{
    match addresses_in(alloc, shelf, topology) {
        Ok(text) => put_text(out, &text),
        Err(end) => end,
    }
}

ghost use Rattle.std.specs.Prelude.{◌≡◌, ◌++◌, ◌∷◌, [], IfOk, OnOk, codes};
ghost use Rattle.hex.specs.Hex.{encode_lower};
ghost use Rattle.aip_topo.specs.Canonical.{ad_origin, canonical_text, domain_line, domain_name, eid_origin, lines_text, part_line, router_line, router_name, settings_text, value_line, values_of};
ghost use Rattle.aip_topo.specs.Lines.{ad_words, eid_words, height_word, line_text, width_word, ◌␣◌};
ghost use Rattle.aip_topo.specs.Reading.{topology_of};
ghost use Rattle.aip_topo.specs.Sound.{IsSound};

use crate::lines::{Line, Setting};
use crate::topology::{Domain, HostPart, Key, LinkPart, Part, Router, Settings, Topology};
use crate::words::{guard_word, height_word, kind_word, setting_word, trust_word, width_word};
use aip_addr::{Bytes, Id};
use aip_text::{push_hex, push_number, push_space, push_text, push_word};
use lms_core::Tree;
use std::alloc::{AllocError, Global};

/// The canonical text of the topology: the eight settings, the domains, the routers, then the hosts
/// and links in their order. The text of a sound topology, as `read` gives them, is read as that
/// topology. The only error is want of memory.
pub fn write(alloc: Global, topology: &Topology) -> Result<Bytes, AllocError>
    ensures spelling { IfOk result (λ text. text ≡ canonical_text topology.now) }
    ensures read_back { IfOk result (λ text. IsSound topology.now → topology_of text ≡ Ok topology.now) }
{
    write_exactly(alloc, topology)
}

fn write_exactly(alloc: Global, topology: &Topology) -> Result<Bytes, AllocError>
    ensures { IfOk result (λ text. text ≡ canonical_text topology.now) }
{
    let mut out = Vec::new(alloc);
    let domains = topology.domains.as_slice();
    let routers = topology.routers.as_slice();
    write_settings(&mut out, &topology.settings)?;
    write_domains(&mut out, domains)?;
    write_routers(&mut out, domains, routers)?;
    write_parts(&mut out, routers, topology.parts.as_slice())?;
    Ok(Bytes::from_vec(out))
}

#[tactic(auto, unfolding(crate::specs::Canonical::settings_text))]
fn write_settings(out: &mut Vec<u8>, settings: &Settings) -> Result<(), AllocError>
    ensures { OnOk result (out.new.items ≡ out.old.items ++ settings_text settings.now) }
{
    let values = values_of(settings);
    write_values(out, &values)
}

fn values_of(settings: &Settings) -> [(Setting, u64); 8]
    ensures { result ≡ values_of settings.now }
{
    [
        (Setting::Accept, settings.accept),
        (Setting::Cache, settings.cache as u64),
        (Setting::Epoch, settings.epoch),
        (Setting::Filter, settings.filter as u64),
        (Setting::Log, settings.log as u64),
        (Setting::Threshold, settings.threshold as u64),
        (Setting::Wild, settings.wild),
        (Setting::Wildcache, settings.wildcache as u64),
    ]
}

fn write_values(out: &mut Vec<u8>, values: &[(Setting, u64)]) -> Result<(), AllocError>
    ensures { OnOk result (out.new.items ≡ out.old.items ++ lines_text value_line values.now) }
{
    for value in values {
        write_value(out, value.0, value.1)?;
    }
    Ok(())
}

fn write_value(out: &mut Vec<u8>, setting: Setting, value: u64) -> Result<(), AllocError>
    ensures { OnOk result (out.new.items ≡ out.old.items ++ (line_text (Line.Set setting value) ++ 10 ∷ [])) }
{
    push_text(out, b"set")?;
    push_word(out, setting_word(setting))?;
    push_space(out)?;
    push_number(out, value)?;
    push_text(out, b"\n")
}

// Appends a space and the bytes in hex.
fn push_hex_word(out: &mut Vec<u8>, bytes: &[u8]) -> Result<(), AllocError>
    ensures { OnOk result (out.new.items ≡ out.old.items ++ 32 ∷ encode_lower bytes.now) }
{
    push_space(out)?;
    push_hex(out, bytes)
}

fn write_domains(out: &mut Vec<u8>, domains: &[Domain]) -> Result<(), AllocError>
    ensures { OnOk result (out.new.items ≡ out.old.items ++ lines_text domain_line domains.now) }
{
    for domain in domains {
        write_domain(out, domain)?;
    }
    Ok(())
}

fn write_domain(out: &mut Vec<u8>, domain: &Domain) -> Result<(), AllocError>
    ensures { OnOk result (out.new.items ≡ out.old.items ++ (line_text (domain_line domain.now) ++ 10 ∷ [])) }
{
    push_text(out, b"domain")?;
    push_word(out, domain.name.bytes())?;
    push_space(out)?;
    push_ad(out, &domain.key, &domain.ad)?;
    push_text(out, b"\n")
}

// Appends `seed`, the width and the height.
fn push_seed(out: &mut Vec<u8>, tree: &Tree) -> Result<(), AllocError>
    ensures { OnOk result (out.new.items ≡ out.old.items ++ (codes "seed" ␣ width_word tree.now.width ␣ height_word tree.now.height)) }
{
    push_text(out, b"seed")?;
    push_word(out, width_word(tree.width()))?;
    push_word(out, height_word(tree.height()))
}

// Appends how a domain's id is given.
fn push_ad(out: &mut Vec<u8>, key: &Key, ad: &Id) -> Result<(), AllocError>
    ensures { OnOk result (out.new.items ≡ out.old.items ++ ad_words (ad_origin key.now ad.now)) }
{
    match key {
        Key::Given => {
            push_text(out, b"id")?;
            push_hex_word(out, &ad.bytes)
        }
        Key::Made(tree) => {
            push_seed(out, tree)?;
            push_hex_word(out, &tree.seed())
        }
    }
}

// Appends how a host's id is given.
fn push_eid(out: &mut Vec<u8>, key: &Key, eid: &Id) -> Result<(), AllocError>
    ensures { OnOk result (out.new.items ≡ out.old.items ++ eid_words (eid_origin key.now eid.now)) }
{
    match key {
        Key::Given => {
            push_text(out, b"id")?;
            push_hex_word(out, &eid.bytes)
        }
        Key::Made(tree) => {
            push_seed(out, tree)?;
            push_space(out)?;
            push_number(out, eid.bytes[19] as u64)?;
            push_hex_word(out, &tree.seed())
        }
    }
}

fn domain_name(domains: &[Domain], place: u16) -> &[u8]
    ensures { result.now ≡ domain_name domains.now place }
{
    match domains.get(place as usize) {
        Some(domain) => domain.name.bytes(),
        None => b"",
    }
}

fn router_name(routers: &[Router], place: u16) -> &[u8]
    ensures { result.now ≡ router_name routers.now place }
{
    match routers.get(place as usize) {
        Some(router) => router.name.bytes(),
        None => b"",
    }
}

fn write_routers(
    out: &mut Vec<u8>,
    domains: &[Domain],
    routers: &[Router],
) -> Result<(), AllocError>
    ensures { OnOk result (out.new.items ≡ out.old.items ++ lines_text (router_line domains.now) routers.now) }
{
    for router in routers {
        write_router(out, domains, router)?;
    }
    Ok(())
}

fn write_router(out: &mut Vec<u8>, domains: &[Domain], router: &Router) -> Result<(), AllocError>
    ensures { OnOk result (out.new.items ≡ out.old.items ++ (line_text (router_line domains.now router.now) ++ 10 ∷ [])) }
{
    push_text(out, b"router")?;
    push_word(out, router.name.bytes())?;
    push_word(out, domain_name(domains, router.domain))?;
    push_word(out, kind_word(router.checking))?;
    push_hex_word(out, &router.master)?;
    push_text(out, b"\n")
}

fn write_parts(out: &mut Vec<u8>, routers: &[Router], parts: &[Part]) -> Result<(), AllocError>
    ensures { OnOk result (out.new.items ≡ out.old.items ++ lines_text (part_line routers.now) parts.now) }
{
    for part in parts {
        write_part(out, routers, part)?;
    }
    Ok(())
}

fn write_part(out: &mut Vec<u8>, routers: &[Router], part: &Part) -> Result<(), AllocError>
    ensures { OnOk result (out.new.items ≡ out.old.items ++ (line_text (part_line routers.now part.now) ++ 10 ∷ [])) }
{
    match part {
        Part::Host(host) => write_host(out, routers, host),
        Part::Link(link) => write_link(out, routers, link),
    }
}

fn write_host(out: &mut Vec<u8>, routers: &[Router], host: &HostPart) -> Result<(), AllocError>
    ensures { OnOk result (out.new.items ≡ out.old.items ++ (line_text (part_line routers.now (Part.Host host.now)) ++ 10 ∷ [])) }
{
    push_text(out, b"host")?;
    push_word(out, host.name.bytes())?;
    push_word(out, router_name(routers, host.router))?;
    push_word(out, guard_word(host.guarded))?;
    push_space(out)?;
    push_eid(out, &host.key, &host.eid)?;
    push_text(out, b"\n")
}

fn write_link(out: &mut Vec<u8>, routers: &[Router], link: &LinkPart) -> Result<(), AllocError>
    ensures { OnOk result (out.new.items ≡ out.old.items ++ (line_text (part_line routers.now (Part.Link link.now)) ++ 10 ∷ [])) }
{
    push_text(out, b"link")?;
    push_word(out, router_name(routers, link.a))?;
    push_word(out, router_name(routers, link.b))?;
    push_word(out, trust_word(link.a_trusts))?;
    push_word(out, trust_word(link.b_trusts))?;
    push_text(out, b"\n")
}

ghost use Rattle.std.specs.Prelude.{◌≡◌, IfSome, Some};
ghost use Rattle.aip_topo.specs.Lines.{IsLine, line_text};
ghost use Rattle.aip_topo.specs.LineReading.{ad_in, ad_seed_in, domain_in, eid_in, eid_seed_in, host_in, line_by, line_in, link_in, router_in, set_in};
ghost use Rattle.aip_topo.specs.declared.lines.Line.{Line as SpelledLine};

use crate::lines::{Line, Origin};
use crate::words::{
    guard_named, height_named, kind_named, setting_named, trust_named, width_named,
};
use aip_text::{cut, four_words, read_hex_array, read_id, read_name, read_number, three_words};

/// The line that a text spells, without its line feed, and None where it spells no line of a
/// topology.
pub fn read_line(text: &[u8]) -> Option<Line>
    ensures exact { result ≡ line_in text.now }
    ensures found { IfSome result (λ line. IsLine line × (text.now ≡ line_text line)) }
    ensures again { (line : SpelledLine) → IsLine line → text.now ≡ line_text line → result ≡ Some line }
{
    read_exactly(text)
}

#[tactic(auto, unfolding(crate::specs::LineReading::line_in))]
fn read_exactly(text: &[u8]) -> Option<Line>
    ensures { result ≡ line_in text.now }
{
    let (word, rest) = cut(text)?;
    read_by(word, rest)
}

// The line, by its first word.
fn read_by(word: &[u8], rest: &[u8]) -> Option<Line>
    ensures { result ≡ line_by word.now rest.now }
{
    if word == b"set".as_slice() {
        set_in(rest)
    } else if word == b"domain".as_slice() {
        domain_in(rest)
    } else if word == b"router".as_slice() {
        router_in(rest)
    } else if word == b"host".as_slice() {
        host_in(rest)
    } else if word == b"link".as_slice() {
        link_in(rest)
    } else {
        None
    }
}

#[tactic(auto, unfolding(crate::specs::LineReading::set_in))]
fn set_in(rest: &[u8]) -> Option<Line>
    ensures { result ≡ set_in rest.now }
{
    let (setting, value) = cut(rest)?;
    let setting = setting_named(setting)?;
    let value = read_number(value)?;
    Some(Line::Set { setting, value })
}

// Behind `seed` in a domain's line.
fn ad_seed_in(rest: &[u8]) -> Option<Origin>
    ensures { result ≡ ad_seed_in rest.now }
{
    let (width, height, seed) = three_words(rest)?;
    let width = width_named(width)?;
    let height = height_named(height)?;
    let seed = read_hex_array(seed)?;
    Some(Origin::Seed {
        width,
        height,
        interface: 0,
        seed,
    })
}

// Behind `seed` in a host's line.
fn eid_seed_in(rest: &[u8]) -> Option<Origin>
    ensures { result ≡ eid_seed_in rest.now }
{
    let (width, height, interface, seed) = four_words(rest)?;
    let width = width_named(width)?;
    let height = height_named(height)?;
    let interface = read_number(interface)?;
    let seed = read_hex_array(seed)?;
    Some(Origin::Seed {
        width,
        height,
        interface,
        seed,
    })
}

fn ad_in(text: &[u8]) -> Option<Origin>
    ensures { result ≡ ad_in text.now }
{
    let (form, rest) = cut(text)?;
    if form == b"id".as_slice() {
        let id = read_id(rest)?;
        Some(Origin::Given(id))
    } else if form == b"seed".as_slice() {
        ad_seed_in(rest)
    } else {
        None
    }
}

fn eid_in(text: &[u8]) -> Option<Origin>
    ensures { result ≡ eid_in text.now }
{
    let (form, rest) = cut(text)?;
    if form == b"id".as_slice() {
        let id = read_id(rest)?;
        Some(Origin::Given(id))
    } else if form == b"seed".as_slice() {
        eid_seed_in(rest)
    } else {
        None
    }
}

#[tactic(auto, unfolding(crate::specs::LineReading::domain_in))]
fn domain_in(rest: &[u8]) -> Option<Line>
    ensures { result ≡ domain_in rest.now }
{
    let (name, from) = cut(rest)?;
    let name = read_name(name)?;
    let origin = ad_in(from)?;
    Some(Line::Domain { name, origin })
}

#[tactic(auto, unfolding(crate::specs::LineReading::router_in))]
fn router_in(rest: &[u8]) -> Option<Line>
    ensures { result ≡ router_in rest.now }
{
    let (name, domain, kind, master) = four_words(rest)?;
    let name = read_name(name)?;
    let domain = read_name(domain)?;
    let checking = kind_named(kind)?;
    let master = read_hex_array(master)?;
    Some(Line::Router {
        name,
        domain,
        checking,
        master,
    })
}

#[tactic(auto, unfolding(crate::specs::LineReading::host_in))]
fn host_in(rest: &[u8]) -> Option<Line>
    ensures { result ≡ host_in rest.now }
{
    let (name, router, guard, from) = four_words(rest)?;
    let name = read_name(name)?;
    let router = read_name(router)?;
    let guarded = guard_named(guard)?;
    let origin = eid_in(from)?;
    Some(Line::Host {
        name,
        router,
        guarded,
        origin,
    })
}

#[tactic(auto, unfolding(crate::specs::LineReading::link_in))]
fn link_in(rest: &[u8]) -> Option<Line>
    ensures { result ≡ link_in rest.now }
{
    let (a, b, first, second) = four_words(rest)?;
    let a = read_name(a)?;
    let b = read_name(b)?;
    let a_trusts = trust_named(first)?;
    let b_trusts = trust_named(second)?;
    Some(Line::Link {
        a,
        b,
        a_trusts,
        b_trusts,
    })
}

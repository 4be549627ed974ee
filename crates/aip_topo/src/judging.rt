ghost use Rattle.std.specs.Prelude.{◌≡◌};
ghost use Rattle.aip_topo.specs.Steps.{is_many, is_no_ad, is_no_eid, is_out_of_range, is_twice, is_unknown};

use crate::indexed::IndexedDraft;
use crate::lines::{Line, Origin};
use crate::lists::{MOST_DOMAINS, MOST_HOSTS, MOST_LINKS, MOST_ROUTERS};
use crate::topology::Topology;

// Whether there are already as many of the line's kind as there may be.
pub(crate) fn is_many(topology: &Topology, line: &Line) -> bool
    ensures { result ≡ is_many topology.now line.now }
{
    match line {
        Line::Set { .. } => false,
        Line::Domain { .. } => topology.domains.as_slice().len() >= MOST_DOMAINS,
        Line::Router { .. } => topology.routers.as_slice().len() >= MOST_ROUTERS,
        Line::Host { .. } => topology.parts.hosts() >= MOST_HOSTS,
        Line::Link { .. } => topology.parts.links() >= MOST_LINKS,
    }
}

// Whether what the line names or sets is there already.
pub(crate) fn is_twice(draft: &IndexedDraft, line: &Line) -> bool
    ensures { result ≡ is_twice draft.now line.now }
{
    match line {
        Line::Set { setting, .. } => draft.was_set(*setting),
        Line::Domain { name, .. } => draft.is_named(name),
        Line::Router { name, .. } => draft.is_named(name),
        Line::Host { name, .. } => draft.is_named(name),
        Line::Link { .. } => false,
    }
}

// Whether a domain or a router that the line names isn't there.
pub(crate) fn is_unknown(draft: &IndexedDraft, line: &Line) -> bool
    ensures { result ≡ is_unknown draft.now.topology line.now }
{
    match line {
        Line::Set { .. } | Line::Domain { .. } => false,
        Line::Router { domain, .. } => draft.domain_place(domain).is_none(),
        Line::Host { router, .. } => draft.router_place(router).is_none(),
        Line::Link { a, b, .. } => {
            draft.router_place(a).is_none() || draft.router_place(b).is_none()
        }
    }
}

fn is_no_ad(origin: &Origin) -> bool
    ensures { result ≡ is_no_ad origin.now }
{
    match origin {
        Origin::Given(id) => id.bytes[0] == 0 || id.bytes[19] != 0,
        Origin::Seed { interface, .. } => *interface != 0,
    }
}

fn is_no_eid(origin: &Origin) -> bool
    ensures { result ≡ is_no_eid origin.now }
{
    match origin {
        Origin::Given(id) => id.bytes[0] == 0,
        Origin::Seed { interface, .. } => *interface > 255,
    }
}

pub(crate) fn is_out_of_range(line: &Line) -> bool
    ensures { result ≡ is_out_of_range line.now }
{
    match line {
        Line::Set { setting, value } => *value < 1 || *value > setting.most(),
        Line::Domain { origin, .. } => is_no_ad(origin),
        Line::Router { .. } => false,
        Line::Host { origin, .. } => is_no_eid(origin),
        Line::Link { a, b, .. } => *a == *b,
    }
}

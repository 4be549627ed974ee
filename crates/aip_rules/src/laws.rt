//! Laws of the rules. A law is a function that does nothing: what it ensures holds of every topology and every trace.

ghost use Rattle.std.specs.Prelude.{ℕ, List};
ghost use Rattle.aip_topo.specs.declared.topology.Topology.{Topology as Network};
ghost use Rattle.aip_rules.specs.Laws.{InputsPutAtMostOne, NeighboursAreTrustedRightly};
ghost use Rattle.aip_rules.specs.Promises.{ForwardsAreJustified, GuardsAreSilent, HoldsOfAll, NoLeafSignsTwice};
ghost use Rattle.aip_rules.specs.Texts.{IsTraceOfLines};

/// An input puts at most one flight, of at most 9,216 bytes.
pub fn an_input_puts_at_most_one_flight()
    ensures { InputsPutAtMostOne }
{}

/// The trace of a run is that of the inputs on the lines before the one that ends it.
pub fn a_run_has_the_trace_of_its_lines()
    ensures { (topo : Network) (schedule : List ℕ) → IsTraceOfLines topo schedule }
{}

/// Each forward of a trace passes on the frame that is delivered to this router at this port; and at a checking router it is
/// justified, unless that frame is a challenge.
pub fn each_forward_is_justified()
    ensures { HoldsOfAll ForwardsAreJustified }
{}

/// Neighbours are trusted by signed records: on every trace over a sound topology, the verdict on a source, where a frame comes
/// over a link, is trusted from a neighbour of the router's own domain exactly where the router's end of the link is marked; and from one
/// of another domain exactly where its end is marked and a peering record of the router's domain for the neighbour's is kept
/// and in force. That is so exactly where such a record, signed by the router's domain, was published, is in force, and
/// is replaced by no other.
pub fn neighbours_are_trusted_by_records()
    ensures { NeighboursAreTrustedRightly }
{}

/// Guards are silent: on every trace over a sound topology, what a guarded host puts is no frame to a destination under a
/// shut-off in force, a host withholds only behind a guard and for a key identifier under one, and each shut-off that a host
/// obeys, or whose writing is halted, came to it signed by its sender, in time, and names a packet that the host put to the
/// sender.
pub fn guards_are_silent()
    ensures { HoldsOfAll GuardsAreSilent }
{}

/// No leaf of a key signs twice: in no trace over a sound topology are two signatures by one leaf of keys with one identifier.
pub fn no_leaf_signs_twice()
    ensures { HoldsOfAll NoLeafSignsTwice }
{}

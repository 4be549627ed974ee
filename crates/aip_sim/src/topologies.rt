// The topology in a file.
ghost use Rattle.std.specs.Prelude.{◌≡◌, ◌≢◌, ◌+◌, ℕ, List, take, Err, IfSome, IfOk, IsErrOf};
ghost use Rattle.aip_topo.specs.Reading.{most_text, topology_of};
ghost use Rattle.aip_topo.specs.Sound.{IsSound};
ghost use Rattle.aip_io.specs.Causes.{ReadsOnly};
ghost use Rattle.aip_sim.specs.Topologies.{IsReadOf};

use aip_io::{ReadEnd, Shelf, read_all};
use aip_topo::{MOST_READ, TopoEnd, TopoFault, Topology};
use std::alloc::Global;

/// Why no topology could be read.
#[derive(Clone, Copy, Debug, PartialEq, Eq)]
pub enum TopologyEnd {
    /// The file couldn't be read.
    ReadFault,
    /// A line is refused.
    Refused {
        /// The number of the first refused line, from 1.
        line: u32,
        /// The first fault that applies to it.
        fault: TopoFault,
    },
    /// There was no memory.
    Memory,
}

impl From<ReadEnd> for TopologyEnd {
    ghost use Rattle.std.specs.Prelude.{◌≡◌};
    ghost use Rattle.aip_sim.specs.Unread.{topology_unread};

    ghost from_gives = { λ unread end. end ≡ topology_unread unread };

    fn from(end: ReadEnd) -> Self {
        match end {
            ReadEnd::Failed => TopologyEnd::ReadFault,
            ReadEnd::Memory => TopologyEnd::Memory,
        }
    }
}

impl From<TopoEnd> for TopologyEnd {
    ghost use Rattle.std.specs.Prelude.{◌≡◌};
    ghost use Rattle.aip_sim.specs.Unread.{topology_refused};

    ghost from_gives = { λ refused end. end ≡ topology_refused refused };

    fn from(end: TopoEnd) -> Self {
        match end {
            TopoEnd::Line { line, fault } => TopologyEnd::Refused { line, fault },
            TopoEnd::Memory => TopologyEnd::Memory,
        }
    }
}

// The topology that a text gives.
fn topology_in(alloc: Global, text: &[u8]) -> Result<Topology, TopologyEnd>
    ensures read { IsReadOf text.now result }
    ensures decided { (whole : List ℕ) → text.now ≡ take (most_text + 1) whole → topology_of whole ≡ topology_of text.now }
    ensures sound { IfOk result IsSound }
    ensures known { result ≢ Err TopologyEnd.ReadFault }
{
    match aip_topo::read(alloc, text) {
        Ok(topology) => Ok(topology),
        Err(end) => Err(TopologyEnd::from(end)),
    }
}

/// Reads the topology in the file of this name. It reads no further than the byte that decides.
pub fn read_topology<S: Shelf>(
    alloc: Global,
    shelf: &mut S,
    name: &str,
) -> Result<Topology, TopologyEnd>
    ensures read { IfSome (S.text shelf.old name.now) (λ told. IsReadOf told result) }
    ensures sound { IfOk result IsSound }
    ensures text { (other : List ℕ) → S.text shelf.new other ≡ S.text shelf.old other }
    ensures counts { ReadsOnly (λ other. other ≡ name.now) (IsErrOf result TopologyEnd.ReadFault)
        (S.text shelf.old) (S.faults shelf.old) (S.faults shelf.new) }
{
    let text = read_all(alloc, shelf, name, MOST_READ)?;
    topology_in(alloc, &text)
}

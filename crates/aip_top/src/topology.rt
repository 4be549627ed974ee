// The topology that a command names.
ghost use Rattle.std.specs.Prelude.{◌≡◌, ℕ, List, IfSome, IfOk, IfErr, IsErrOf};
ghost use Rattle.aip_topo.specs.Sound.{IsSound};
ghost use Rattle.aip_io.specs.Causes.{ReadsOnly};
ghost use Rattle.aip_top.specs.Judged.{IsTopologyOf, IsOpeningEnd};

use crate::status::Status;
use aip_io::Shelf;
use aip_topo::Topology;
use std::alloc::Global;

/// The topology in a file; or the status that ends the command before anything else is done.
pub fn topology_under<S: Shelf>(
    alloc: Global,
    shelf: &mut S,
    name: &str,
) -> Result<Topology, Status>
    ensures told { IfSome (S.text shelf.old name.now) (λ told. IsTopologyOf told result) }
    ensures sound { IfOk result IsSound }
    ensures early { IfErr result IsOpeningEnd }
    ensures text { (other : List ℕ) → S.text shelf.new other ≡ S.text shelf.old other }
    ensures counts { ReadsOnly (λ other. other ≡ name.now) (IsErrOf result Status.ReadFault)
        (S.text shelf.old) (S.faults shelf.old) (S.faults shelf.new) }
{
    match aip_sim::read_topology(alloc, shelf, name) {
        Ok(topology) => Ok(topology),
        Err(end) => Err(Status::from(end)),
    }
}

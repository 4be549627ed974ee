// Signing a record with the next leaf of a lease file.
ghost use Rattle.std.specs.Prelude.{◌≡◌, ◌≢◌, ◌≤◌, ◌+◌, ℕ, List, Some, IfOk, IfErr, OnOk, true};
ghost use Rattle.std.specs.Option.{ForSome};
ghost use Rattle.fault_counts.specs.Causes.{HasCause};
ghost use Rattle.lease_disk.specs.Images.{AtEachMoment};
ghost use Rattle.lease_disk.specs.Kept.{AfterWrite};
ghost use Rattle.leaf_lease.specs.LeaseFile.{IsGone, head_size};
ghost use Rattle.lms_core.specs.Parameters.{leaves_of, levels_of};
ghost use Rattle.host_signer.specs.Signers.{disk_of, key_of, next_of};
ghost use Rattle.record_signer.specs.Signed.{IsOrCut, IsSigningFault, Signs, is_disk_fault, signed_by, signed_line, spent};

use crate::faults::SigningFault;
use crate::line::line_of;
use aip_addr::Bytes;
use aip_registry::{Record, record_text};
use host_signer::{SignEnd, Signer, SignerEnd};
use leaf_lease::OpenEnd;
use lease_disk::Disk;
use lms_core::Tree;
use std::alloc::Global;

// The height of a tree, as a lease file keeps it.
fn height_of(tree: &Tree) -> u8
    ensures { result ≡ levels_of tree.now.height }
{
    tree.height().levels() as u8
}

// Signs a record, once the lease file is opened. Where no leaf is left the disk isn't touched.
fn sign<D: Disk>(
    alloc: Global,
    signer: Signer<D>,
    fields: &Record,
) -> (Result<Bytes, SigningFault>, D)
    ensures line { IfOk result.0 (λ line. line ≡ signed_line (key_of signer) (next_of signer) fields.now) }
    ensures left { OnOk result.0 (next_of signer ≢ leaves_of (key_of signer).height) }
    ensures gone { OnOk result.0 ((image : List ℕ) → D.may_leave result.1 image → IsGone (next_of signer) image) }
    ensures reads { OnOk result.0 (D.now result.1 ≡ spent (next_of signer) (D.now (disk_of signer))) }
    ensures refused { IfErr result.0 (IsSigningFault (key_of signer) (next_of signer)) }
    ensures dry { next_of signer ≡ leaves_of (key_of signer).height → result.1 ≡ disk_of signer }
    ensures moments { AtEachMoment D.clock D.during (disk_of signer) result.1
        (AfterWrite (D.may_leave (disk_of signer)) (head_size + next_of signer) 1) }
    ensures clock { D.clock result.1 ≤ D.clock (disk_of signer) + 2 }
    ensures cause { HasCause (is_disk_fault result.0 ≡ true) (D.faults (disk_of signer)) (D.faults result.1) }
{
    match signer.sign(alloc, &record_text(fields)) {
        Ok((signer, _, signature)) => {
            let line = line_of(alloc, fields, &signer.public(), signature.as_slice());
            let (disk, _) = signer.close();
            match line {
                Ok(line) => (Ok(line), disk),
                Err(_) => (Err(SigningFault::Memory), disk),
            }
        }
        Err(SignEnd::Memory { signer }) => {
            let (disk, _) = signer.close();
            (Err(SigningFault::Memory), disk)
        }
        Err(SignEnd::Dry { signer }) => {
            let (disk, tree) = signer.close();
            let height = height_of(&tree);
            (Err(SigningFault::Dry { height }), disk)
        }
        Err(SignEnd::Failed { disk, tree: _ }) => (Err(SigningFault::Disk), disk),
    }
}

/// Signs a record with the next leaf of the key's lease file, and gives it as a line of hex. The disk comes back, whatever
/// the answer. Where the line is given, its leaf is gone in every image that a crash may leave by then.
pub fn sign_record<D: Disk>(
    alloc: Global,
    disk: D,
    tree: Tree,
    fields: &Record,
) -> (Result<Bytes, SigningFault>, D)
    // Where the disk tells its file, the answer is the one that the file gives, unless the disk fails or memory is wanting.
    ensures told { ForSome (D.now disk) (λ file. IsOrCut (signed_by tree fields.now file) result.0) }
    // Told or not: the line is signed with a leaf that is gone by then; no leaf that was gone is free again at any moment,
    // and every byte but that leaf's is as it was.
    ensures signs { Signs D.now D.may_leave D.clock D.during tree fields.now disk result.1 result.0 }
    ensures cause { HasCause (is_disk_fault result.0 ≡ true) (D.faults disk) (D.faults result.1) }
{
    match Signer::open(disk, tree) {
        Ok(signer) => sign(alloc, signer, fields),
        Err(SignerEnd { tree: _, end }) => match end {
            OpenEnd::Failed { disk } => (Err(SigningFault::Disk), disk),
            OpenEnd::Unformatted { disk, length, gate } => {
                (Err(SigningFault::Unformatted { length, gate }), disk)
            }
            OpenEnd::OtherKey { disk, id, height } => {
                (Err(SigningFault::OtherKey { id, height }), disk)
            }
        },
    }
}

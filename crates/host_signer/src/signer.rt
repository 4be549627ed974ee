// Signing with a leaf that was leased.
ghost use Rattle.std.specs.Prelude.{◌≡◌, ◌≢◌, ◌+◌, ◌<◌, ◌≤◌, ℕ, List, [], ◌∷◌, length, Some, option_map, true};
ghost use Rattle.std.specs.Prelude.{Err, IfOk, OnOk, OnErr, IsTrue, not, ◌||◌, if◌then◌else◌};
ghost use Rattle.std.specs.Option.{ForSome};
ghost use Rattle.lease_disk.specs.Call.{Len, Read, Sync};
ghost use Rattle.lease_disk.specs.Calls.{Ran};
ghost use Rattle.fault_counts.specs.Causes.{HasCause};
ghost use Rattle.lease_disk.specs.Images.{overwritten, AtEachMoment};
ghost use Rattle.lease_disk.specs.Kept.{AfterWrite, KeepsByte, NoLongerThan};
ghost use Rattle.leaf_lease.specs.Kept.{KeepsGone};
ghost use Rattle.leaf_lease.specs.LeaseFile.{IsGone, file_size, head_size};
ghost use Rattle.leaf_lease.specs.Leases as lease;
ghost use Rattle.lms_core.specs.Parameters.{levels_of, leaves_of, signature_len_of};
ghost use Rattle.lms_core.specs.Tree.{identifier_of, public_key_of, signature_of};
ghost use Rattle.lms_core.specs.Verify.{IsValidSignature};

use crate::signature::Signature;
use leaf_lease::{LeaseEnd, Leases, OpenEnd, open};
use lease_disk::{Disk, MemDisk};
use lms_core::{PublicKey, Tree, signature_len};
use std::alloc::{AllocError, Global};

/// A key with the leaves of it that are left on a disk. Its leases are those of the identifier and of the height of
/// its key.
#[derive(Drop)]
pub struct Signer<D: Disk> {
    leases: Leases<D>,
    tree: Tree,
    ghost same_id: { lease.id_of leases ≡ identifier_of tree.seed },
    ghost same_height: { lease.height_of leases ≡ levels_of tree.height },
}

/// Why no signer was opened, with the tree that was to sign.
#[derive(Drop)]
pub struct SignerEnd<D: Disk> {
    /// The tree.
    pub tree: Tree,
    /// Why the lease file was not opened, with the disk.
    pub end: OpenEnd<D>,
}

/// Why nothing was signed.
#[derive(Drop)]
pub enum SignEnd<D: Disk> {
    /// There is no memory for the signature. No leaf was spent, and the disk was not touched.
    Memory { signer: Signer<D> },
    /// No leaf is left. The disk was not touched.
    Dry { signer: Signer<D> },
    /// The disk failed. It has to be opened again.
    Failed { disk: D, tree: Tree },
}

// The height of a tree, as a lease file keeps it.
fn height_of(tree: &Tree) -> u8
    ensures { result ≡ levels_of tree.now.height }
{
    tree.height().levels() as u8
}

// Room for a signature by the tree.
fn blank(alloc: Global, tree: &Tree) -> Result<Vec<u8>, AllocError>
    ensures { IfOk result (λ bytes.
        length bytes.items ≡ signature_len_of tree.now.width tree.now.height) }
{
    vec![in alloc; 0; signature_len(tree.width(), tree.height())]
}

impl<D: Disk> Signer<D> {
    ghost use Rattle.host_signer.specs.Signers.{disk_of, key_of, id_of, height_of, next_of};
    ghost use Rattle.host_signer.specs.Ends.{SignerSays, signer_disk, signer_key, signer_failed};
    ghost use Rattle.leaf_lease.specs.Leases.{lease_calls};
    ghost use Rattle.host_signer.specs.Ends.{signed_disk, signed_key, sign_failed, is_memory, is_dry};

    /// Opens the lease file of the key of a tree, after making firm what was written before. The leaf that signs next is
    /// one past the last that is gone, or 0. Where the file is not opened, the end tells why, as `leaf_lease::open` does,
    /// and the disk and the tree come back.
    pub fn open(disk: D, tree: Tree) -> Result<Signer<D>, SignerEnd<D>>
        // What it says of the file, where the disk tells what it reads.
        ensures says { ForSome (D.now disk) (λ file. SignerSays tree file result) }
        // A leaf that is gone in the file lies below the next: no leaf signs twice.
        ensures none_twice { IfOk result (λ signer. ForSome (D.now disk) (λ file. (leaf : ℕ)
            → leaf < leaves_of tree.height → IsGone leaf file → leaf < next_of signer)) }
        ensures tree { signer_key result ≡ tree }
        ensures key { IfOk result (λ signer.
            (id_of signer ≡ identifier_of tree.seed) × (height_of signer ≡ levels_of tree.height)) }
        ensures content { D.now (signer_disk result) ≡ D.now disk }
        ensures firm { OnOk result ((image : List ℕ)
            → D.may_leave (signer_disk result) image → D.now (signer_disk result) ≡ Some image) }
        ensures cause { HasCause (signer_failed result ≡ true) (D.faults disk) (D.faults (signer_disk result)) }

        // Each image of each moment is one of those at the start, whatever the answer.
        ensures moments { AtEachMoment D.clock D.during disk (signer_disk result) (D.may_leave disk) }
        ensures keeps_gone { KeepsGone (D.may_leave disk) (D.during (signer_disk result) (D.clock disk)) }
        ensures keeps_bytes { (at : ℕ)
            → KeepsByte at (D.may_leave disk) (D.during (signer_disk result) (D.clock disk)) }
        ensures no_longer { NoLongerThan 0 (D.may_leave disk) (D.during (signer_disk result) (D.clock disk)) }
        ensures clock { D.clock (signer_disk result) ≤ D.clock disk + 1 }

        // It syncs, asks for the length and reads once.
        ensures calls { Ran D.led disk (Sync ∷ Len ∷ Read 0 (file_size (levels_of tree.height)) ∷ [])
            (not (signer_failed result)) (signer_disk result) }
    {
        match open(disk, tree.id(), height_of(&tree)) {
            Ok(leases) => Ok(Signer { leases, tree }),
            Err(end) => Err(SignerEnd { tree, end }),
        }
    }

    /// Signs with the next leaf (RFC 8554, section 5.4), once it is gone on the disk, and answers which leaf that was. The
    /// memory for the signature is taken before the leaf, so that want of memory spends none.
    pub fn sign(
        self,
        alloc: Global,
        message: &[u8],
    ) -> Result<(Signer<D>, u32, Signature), SignEnd<D>>
        // The leaf that was next signs, and the signature is valid under the public key.
        ensures leaf { IfOk result (λ given. given.1 ≡ next_of self) }
        ensures signature { IfOk result (λ given.
            given.2 ≡ signature_of (key_of self) (next_of self) message.now) }
        ensures valid { IfOk result (λ given.
            IsValidSignature (public_key_of (key_of self)) message.now given.2) }
        ensures next { IfOk result (λ given. (next_of given.0 ≡ next_of self + 1)
            × (id_of given.0 ≡ id_of self) × (height_of given.0 ≡ height_of self)) }
        ensures tree { signed_key result ≡ key_of self }

        // That leaf is gone in every image that a crash may leave.
        ensures gone { OnOk result ((image : List ℕ)
            → D.may_leave (signed_disk result) image → IsGone (next_of self) image) }
        ensures firm { OnOk result ((image : List ℕ)
            → D.may_leave (signed_disk result) image → D.now (signed_disk result) ≡ Some image) }
        ensures content { OnOk result (D.now (signed_disk result) ≡ option_map
            (λ file. overwritten file (head_size + next_of self) (1 ∷ [])) (D.now (disk_of self))) }

        // Where memory is wanting or no leaf is left, nothing changes.
        ensures memory { IsTrue (is_memory result) → result ≡ Err (SignEnd.Memory self) }
        ensures dry { IsTrue (is_dry result)
            → (next_of self ≡ leaves_of (key_of self).height) × (result ≡ Err (SignEnd.Dry self)) }
        ensures none_left { next_of self ≡ leaves_of (key_of self).height
            → IsTrue (is_dry result || is_memory result) }
        ensures cause { HasCause (sign_failed result ≡ true) (D.faults (disk_of self)) (D.faults (signed_disk result)) }

        // In each image of each moment, whatever the answer: a leaf that was gone is gone, and all other bytes stay.
        ensures moments { AtEachMoment D.clock D.during (disk_of self) (signed_disk result)
            (AfterWrite (D.may_leave (disk_of self)) (head_size + next_of self) 1) }
        ensures keeps_gone { KeepsGone
            (D.may_leave (disk_of self)) (D.during (signed_disk result) (D.clock (disk_of self))) }
        ensures keeps_bytes { (at : ℕ) → at ≢ head_size + next_of self → KeepsByte at
            (D.may_leave (disk_of self)) (D.during (signed_disk result) (D.clock (disk_of self))) }
        ensures no_longer { NoLongerThan 0
            (D.may_leave (disk_of self)) (D.during (signed_disk result) (D.clock (disk_of self))) }
        ensures clock { D.clock (signed_disk result) ≤ D.clock (disk_of self) + 2 }

        // It makes the calls of a lease, and none where memory is wanting or no leaf is left.
        ensures calls { Ran D.led (disk_of self)
            (if is_dry result || is_memory result then [] else lease_calls (next_of self))
            (not (sign_failed result)) (signed_disk result) }
    {
        let mut bytes = match blank(alloc, &self.tree) {
            Ok(bytes) => bytes,
            Err(_) => return Err(SignEnd::Memory { signer: self }),
        };
        let Signer { leases, tree } = self;
        match leases.lease() {
            Ok((leases, lease)) => {
                let leaf = lease.spend();
                tree.sign(leaf, message, &mut bytes);
                Ok((Signer { leases, tree }, leaf, Signature { bytes }))
            }
            Err(LeaseEnd::Dry { leases }) => Err(SignEnd::Dry {
                signer: Signer { leases, tree },
            }),
            Err(LeaseEnd::Failed { disk }) => Err(SignEnd::Failed { disk, tree }),
        }
    }

    /// Gives the disk and the tree back.
    pub fn close(self) -> (D, Tree)
        ensures disk { result.0 ≡ disk_of self }
        ensures tree { result.1 ≡ key_of self }
    {
        let Signer { leases, tree } = self;
        (leases.close(), tree)
    }

    /// The leaf that signs next, or the number of leaves where none is left.
    pub fn next(&self) -> u32
        ensures next { result ≡ next_of self.now }
    {
        self.leases.next()
    }

    /// The public key, under which its signatures are valid.
    pub fn public(&self) -> PublicKey
        ensures key { result ≡ public_key_of (key_of self.now) }
    {
        self.tree.public()
    }
}

impl Signer<MemDisk> {
    ghost use Rattle.lease_disk.specs.MemDisk.{reserved, stopped_at};
    ghost use Rattle.host_signer.specs.Signers.{disk_of, key_of, id_of, height_of, next_of};

    /// Arms a stop of the disk at its write or sync of that number, counted from 1 from here on. A signing makes two: it
    /// writes the leaf's byte, and syncs.
    pub fn stop_at(&mut self, call: u8, fill: u8)
        requires first { 1 ≤ call }
        requires last { call ≤ 4 }
        ensures disk { disk_of self.new ≡ stopped_at (disk_of self.old) call fill }
        ensures same { (key_of self.new ≡ key_of self.old) × (id_of self.new ≡ id_of self.old)
            × (height_of self.new ≡ height_of self.old) × (next_of self.new ≡ next_of self.old) }
    {
        self.leases.stop_at(call, fill);
    }

    /// Makes place in the record of the disk for so many further entries, with so many bytes in all. Where memory is
    /// wanting, the disk stays as it was.
    pub fn reserve(&mut self, calls: usize, bytes: usize) -> Result<(), AllocError>
        ensures ok { OnOk result (disk_of self.new ≡ reserved (disk_of self.old) calls bytes) }
        ensures err { OnErr result (disk_of self.new ≡ disk_of self.old) }
        ensures same { (key_of self.new ≡ key_of self.old) × (id_of self.new ≡ id_of self.old)
            × (height_of self.new ≡ height_of self.old) × (next_of self.new ≡ next_of self.old) }
    {
        self.leases.reserve(calls, bytes)
    }
}

// Texts under names, which are read piece by piece.
ghost use Rattle.std.specs.Prelude.{◌≡◌, ◌≢◌, ◌<◌, ◌≤◌, ◌^◌, ◌+◌, ℕ, List, Option, take, length, vec_len, IsSome, IfSome, IfOk, OnOk, OnErr, IsErrOf};
ghost use Rattle.fault_counts.specs.Causes.{Rose};
ghost use Rattle.aip_io.specs.Shelf.{IsRead};

use crate::Failed;
use std::alloc::{AllocError, Global};

/// Texts under names. A name is any text, and its bytes are what tells it from others.
pub trait Shelf {
    /// The text under a name, where it is told. No call changes it. An absent name has none.
    ghost text: { Self → List ℕ → Option (List ℕ) };

    /// How often a read of a name has failed. It stays at the greatest value of a `u64` once it is there.
    ghost faults: { Self → List ℕ → ℕ };

    /// Reads bytes of the text under `name`, from the offset `at` on, into the front of `into`, and
    /// says how many. 0 means that the text ends at `at` or before. What stands in the buffer behind
    /// them is left open. Of a failure only the name that was asked for bears the count, and names
    /// whose text isn't told.
    fn read(&mut self, name: &str, at: u64, into: &mut [u8]) -> Result<usize, Failed>
        requires { 0 < length into.old }

        ensures within { IfOk result (λ n. n ≤ length into.new) }
        ensures bytes { IfOk result (λ n. IfSome (text self.old name.now) (λ told. IsRead told at n into.new)) }
        ensures short { IfSome (text self.old name.now) (λ told. length told < 2 ^ 64) }
        ensures text { (other : List ℕ) → text self.new other ≡ text self.old other }

        // It fails by a fault at this name alone.
        ensures failed { OnErr result (Rose (faults self.old name.now) (faults self.new name.now)) }
        ensures fine { OnOk result ((other : List ℕ) → faults self.new other ≡ faults self.old other) }
        ensures never_falls { (other : List ℕ) → faults self.old other ≤ faults self.new other }
        ensures others { (other : List ℕ) → other ≢ name.now → IsSome (text self.old other)
            → faults self.new other ≡ faults self.old other };
}

/// Why a text was not read whole.
#[derive(Debug, Drop)]
pub enum ReadEnd {
    /// A read of its name failed.
    Failed,
    /// There was no memory for it.
    Memory,
}

impl From<AllocError> for ReadEnd {
    ghost use Rattle.std.specs.Prelude.{◌≡◌};
    ghost use Rattle.aip_io.specs.declared.shelf.ReadEnd.TheVariants.{Memory};

    ghost from_gives = { λ _ e. e ≡ Memory };

    fn from(_: AllocError) -> Self {
        ReadEnd::Memory
    }
}

impl From<Failed> for ReadEnd {
    ghost use Rattle.std.specs.Prelude.{◌≡◌};
    ghost use Rattle.aip_io.specs.declared.shelf.ReadEnd.TheVariants.{Failed};

    ghost from_gives = { λ _ e. e ≡ Failed };

    fn from(_: Failed) -> Self {
        ReadEnd::Failed
    }
}

// How many bytes one read asks for at most.
const PIECE: usize = 4096;

// Reads on behind the bytes that are there, and no further than `most` bytes. Says how many came.
fn read_on<S: Shelf>(
    shelf: &mut S,
    name: &str,
    most: usize,
    bytes: &mut Vec<u8>,
) -> Result<usize, ReadEnd>
    requires { vec_len bytes.old < most }
    ensures within { vec_len bytes.new ≤ most }
    ensures goes_on { IfOk result (λ n. vec_len bytes.new ≡ vec_len bytes.old + n) }
    ensures bytes { OnOk result (IfSome (S.text shelf.old name.now) (λ told.
        bytes.old.items ≡ take (vec_len bytes.old) told → bytes.new.items ≡ take (vec_len bytes.new) told)) }
    ensures ended { IfOk result (λ n. n ≡ 0 → IfSome (S.text shelf.old name.now) (λ told. length told ≤ vec_len bytes.old)) }
    ensures text { (other : List ℕ) → S.text shelf.new other ≡ S.text shelf.old other }
    ensures failed { IsErrOf result ReadEnd.Failed → Rose (S.faults shelf.old name.now) (S.faults shelf.new name.now) }
    ensures fine { OnOk result ((other : List ℕ) → S.faults shelf.new other ≡ S.faults shelf.old other) }
    ensures memory { IsErrOf result ReadEnd.Memory → (other : List ℕ) → S.faults shelf.new other ≡ S.faults shelf.old other }
    ensures never_falls { (other : List ℕ) → S.faults shelf.old other ≤ S.faults shelf.new other }
    ensures others { (other : List ℕ) → other ≢ name.now → IsSome (S.text shelf.old other)
        → S.faults shelf.new other ≡ S.faults shelf.old other }
{
    let mut piece = [0u8; PIECE];
    let (room, _) = piece.split_at_mut(PIECE.min(most - bytes.len()));
    let at = bytes.len() as u64;
    let came = shelf.read(name, at, room)?;
    bytes.extend_from_slice(&room[..came])?;
    Ok(came)
}

/// Reads the text under a name, its first `most` bytes where it has more. It asks for none behind them,
/// so a text without an end takes no more memory than the limit does.
pub fn read_all<S: Shelf>(
    alloc: Global,
    shelf: &mut S,
    name: &str,
    most: usize,
) -> Result<Vec<u8>, ReadEnd>
    ensures bytes { IfOk result (λ bytes. IfSome (S.text shelf.old name.now) (λ told. bytes.items ≡ take most told)) }
    ensures within { IfOk result (λ bytes. vec_len bytes ≤ most) }
    ensures text { (other : List ℕ) → S.text shelf.new other ≡ S.text shelf.old other }

    // It fails by a fault at this name alone, and want of memory counts no fault.
    ensures failed { IsErrOf result ReadEnd.Failed → Rose (S.faults shelf.old name.now) (S.faults shelf.new name.now) }
    ensures fine { OnOk result ((other : List ℕ) → S.faults shelf.new other ≡ S.faults shelf.old other) }
    ensures memory { IsErrOf result ReadEnd.Memory → (other : List ℕ) → S.faults shelf.new other ≡ S.faults shelf.old other }
    ensures never_falls { (other : List ℕ) → S.faults shelf.old other ≤ S.faults shelf.new other }
    ensures others { (other : List ℕ) → other ≢ name.now → IsSome (S.text shelf.old other)
        → S.faults shelf.new other ≡ S.faults shelf.old other }
{
    let mut bytes = Vec::new(alloc);
    'pieces: while bytes.len() < most {
        let came = read_on(shelf, name, most, &mut bytes)?;
        if came == 0 {
            break;
        }
    }
    Ok(bytes)
}

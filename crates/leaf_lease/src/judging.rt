// What the front of a lease file says of it.
ghost use Rattle.std.specs.Prelude.{◌≡◌, ◌≤◌, ◌↔◌, ℕ, List, IsTrue, ◌||◌, ◌==◌, length};
ghost use Rattle.leaf_lease.specs.LeaseFile.{file_size, open_gate};
ghost use Rattle.lease_disk.specs.Shows.{Shows};
ghost use Rattle.leaf_lease.specs.Judged.{JudgeSays, IsWithin, FrontSays};

use crate::layout::{HEAD, OPEN, first_free, id_in};

/// What a lease file is to one who would open it for a key.
#[derive(Drop)]
pub enum Judgement {
    /// Formatted for the key, with its first free leaf.
    Free(u32),
    /// Not formatted, with its gate.
    Unformatted(u8),
    /// Formatted for the key of that identifier and height.
    OtherKey([u8; 16], u8),
}

// Whether both are the identifier of one key.
fn is_same(id: &[u8; 16], other: &[u8; 16]) -> bool
    ensures { IsTrue result ↔ (id.now ≡ other.now) }
{
    id == other
}

/// Judges the bytes of a lease file, of which so many were read, for the key of that identifier and height.
pub fn judged(bytes: &[u8], count: usize, id: &[u8; 16], height: u8) -> Judgement
    requires tall { height ≤ 10 }
    requires size { length bytes.now ≡ file_size height }
    ensures says { (file : List ℕ) → Shows file bytes.now count → JudgeSays id.now height file result }
    ensures within { IsWithin height result }
{
    let gate = bytes[0];
    if count < HEAD {
        return Judgement::Unformatted(gate);
    }
    if gate != OPEN {
        return Judgement::Unformatted(gate);
    }
    let kept = id_in(bytes);
    let kept_height = bytes[17];
    if !is_same(&kept, id) {
        return Judgement::OtherKey(kept, kept_height);
    }
    if kept_height != height {
        return Judgement::OtherKey(kept, kept_height);
    }
    if count < bytes.len() {
        return Judgement::Unformatted(gate);
    }
    Judgement::Free(first_free(&bytes[HEAD..]) as u32)
}

/// What the head of a file says to one who would format it.
#[derive(Drop)]
pub enum Front {
    /// Formatted for the key of that identifier and height.
    Formatted([u8; 16], u8),
    /// Not formatted, and whether its gate has to be closed first.
    Unformatted(bool),
}

// Whether the gate has to be closed before anything is written.
fn is_to_shut(count: usize, gate: u8) -> bool
    ensures { result ≡ ((count == 0) || (gate == open_gate)) }
{
    count == 0 || gate == OPEN
}

/// Judges the head of a file, of which so many bytes were read.
pub fn front_of(head: &[u8], count: usize) -> Front
    requires size { length head.now ≡ 18 }
    ensures says { (file : List ℕ) → Shows file head.now count → FrontSays file result }
{
    let gate = head[0];
    if count < HEAD {
        return Front::Unformatted(is_to_shut(count, gate));
    }
    if gate != OPEN {
        return Front::Unformatted(is_to_shut(count, gate));
    }
    Front::Formatted(id_in(head), head[17])
}

// What the front of a filter file says of it.
ghost use Rattle.std.specs.Prelude.{◌≡◌, ◌≤◌, ℕ, List, length};
ghost use Rattle.lease_disk.specs.Shows.{Shows};
ghost use Rattle.shutoff_filter.specs.FilterFile.{file_size};
ghost use Rattle.shutoff_filter.specs.Fronts.{JudgeSays};

use crate::layout::{HEAD, OPEN, room_in};

/// What a filter file is to one who would open it with slots of a room.
#[derive(Drop)]
pub enum Judgement {
    /// Formatted for that room, with all its slots.
    Whole,
    /// Not formatted, with its gate.
    Unformatted(u8),
    /// Formatted for the room that is named.
    OtherRoom(u16),
}

/// Judges the bytes of a filter file, of which so many were read, for a room.
pub fn judged(bytes: &[u8], count: usize, room: u16) -> Judgement
    requires few { room ≤ 256 }
    requires size { length bytes.now ≡ file_size room }
    ensures says { (file : List ℕ) → Shows file bytes.now count → JudgeSays room file result }
{
    let gate = bytes[0];
    if count < HEAD {
        return Judgement::Unformatted(gate);
    }
    if gate != OPEN {
        return Judgement::Unformatted(gate);
    }
    let kept = room_in(bytes);
    if kept != room {
        return Judgement::OtherRoom(kept);
    }
    if count < bytes.len() {
        return Judgement::Unformatted(gate);
    }
    Judgement::Whole
}

// Formatting a filter file.
ghost use Rattle.std.specs.Prelude.{◌≡◌, ◌+◌, ◌*◌, ◌<◌, ◌≤◌, ◌++◌, [], ◌∷◌, ℕ, List, Some, true, max, length, take, replicate, option_map, not, is_ok, OnOk, IsErr};
ghost use Rattle.std.specs.Option.{ForSome};
ghost use Rattle.lease_disk.specs.Calls.{Ran};
ghost use Rattle.fault_counts.specs.Causes.{HasCause};
ghost use Rattle.lease_disk.specs.Images.{OnlyLooks, AtEachMoment};
ghost use Rattle.lease_disk.specs.Shows.{Shows};
ghost use Rattle.shutoff_filter.specs.FilterFile.{file_size};
ghost use Rattle.shutoff_filter.specs.Format.{FormatSays, FrontSays, format_calls, format_failed, formatted, formatted_disk, fresh_calls, fresh_file, fresh_rest, is_already};

use crate::layout::{HEAD, LARGEST, OPEN, file_size, room_in};
use lease_disk::{Disk, Failed, inspect, write_firm, write_gated};

/// Why a filter file was not formatted.
#[derive(Drop)]
pub enum StoreFormatEnd<D> {
    /// It is formatted for the room that is named.
    Already { disk: D, room: u16 },
    /// The disk failed.
    Failed { disk: D },
}

/// What the head of a file says to one who would format it.
#[derive(Drop)]
pub enum Front {
    /// Formatted for that room.
    Formatted(u16),
    /// Not formatted.
    Unformatted,
}

// Judges the head of a file, of which so many bytes were read.
fn front_of(head: &[u8], count: usize) -> Front
    requires size { length head.now ≡ 3 }
    ensures says { (file : List ℕ) → Shows file head.now count → FrontSays file result }
{
    if count < HEAD {
        return Front::Unformatted;
    }
    if head[0] != OPEN {
        return Front::Unformatted;
    }
    Front::Formatted(room_in(head))
}

// What stands past the gate of an empty filter, in a buffer of zeros.
fn lay_rest(rest: &mut [u8], room: u16)
    requires zeros { rest.old ≡ replicate (2 + 28 * (room + 1)) 0 }
    ensures rest { rest.new ≡ fresh_rest room }
{
    let (front, _) = rest.split_at_mut(2);
    front.copy_from_slice(&room.to_be_bytes());
}

// Writes an empty filter.
fn write_fresh<D: Disk>(disk: &mut D, room: u16) -> Result<(), Failed>
    requires few { room ≤ 256 }
    ensures content { OnOk result (D.now disk.new ≡ option_map (formatted room) (D.now disk.old)) }
    ensures firm { OnOk result ((image : List ℕ) → D.may_leave disk.new image → D.now disk.new ≡ Some image) }
    ensures lengths { (longest : ℕ) → ((image : List ℕ) → D.may_leave disk.old image → length image ≤ longest)
        → AtEachMoment D.clock D.during disk.old disk.new (λ image. length image ≤ max longest (file_size room)) }
    ensures clock { D.clock disk.new ≤ D.clock disk.old + 6 }
    ensures cause { HasCause (IsErr result) (D.faults disk.old) (D.faults disk.new) }
    ensures calls { Ran D.led disk.old (fresh_calls room) (is_ok result) disk.new }
{
    let mut buffer = [0; LARGEST];
    let (rest, _) = buffer.split_at_mut(file_size(room) - 1);
    lay_rest(rest, room);
    write_firm(disk, 0, &[0])?;
    write_gated(disk, 0, OPEN, rest)
}

/// Formats the filter file of a room for 1 to 256 keys in force, unless the file has a head and its gate is open. What
/// stands past the last slot stays. The gate is closed on the disk before anything else is written, and is opened last.
pub fn format_store<D: Disk>(disk: D, room: u16) -> Result<D, StoreFormatEnd<D>>
    requires some { 1 ≤ room }
    requires few { room ≤ 256 }

    // It was formatted already exactly where its gate was open, and then nothing changes.
    ensures says { ForSome (D.now disk) (λ file. FormatSays file result) }
    ensures untouched { is_already result ≡ true → OnlyLooks D.now D.may_leave D.clock D.during disk (formatted_disk result) }
    ensures content { OnOk result (D.now (formatted_disk result) ≡ option_map (formatted room) (D.now disk)) }
    ensures fresh { OnOk result ((image : List ℕ) → D.may_leave (formatted_disk result) image → take (file_size room) image ≡ fresh_file room) }
    ensures firm { OnOk result ((image : List ℕ) → D.may_leave (formatted_disk result) image → D.now (formatted_disk result) ≡ Some image) }
    ensures cause { HasCause (format_failed result ≡ true) (D.faults disk) (D.faults (formatted_disk result)) }

    // No image of a moment is longer than the longest at the start, or than the file.
    ensures lengths { (longest : ℕ) → ((image : List ℕ) → D.may_leave disk image → length image ≤ longest)
        → AtEachMoment D.clock D.during disk (formatted_disk result) (λ image. length image ≤ max longest (file_size room)) }
    ensures clock { D.clock (formatted_disk result) ≤ D.clock disk + 6 }
    ensures calls { ForSome (D.now disk) (λ file. Ran D.led disk (format_calls room file) (not (format_failed result)) (formatted_disk result)) }
{
    let mut disk = disk;
    let mut head = [0; HEAD];
    let seen = match inspect(&mut disk, &mut head) {
        Ok(seen) => seen,
        Err(_) => return Err(StoreFormatEnd::Failed { disk }),
    };
    match front_of(&head, seen.count) {
        Front::Formatted(room) => return Err(StoreFormatEnd::Already { disk, room }),
        Front::Unformatted => {}
    }
    match write_fresh(&mut disk, room) {
        Ok(()) => Ok(disk),
        Err(_) => Err(StoreFormatEnd::Failed { disk }),
    }
}

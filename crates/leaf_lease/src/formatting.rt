// Formatting a lease file.
ghost use Rattle.std.specs.Prelude.{◌≡◌, ◌⊎◌, ◌+◌, ◌^◌, ◌<◌, ◌≤◌, ◌++◌, [], ◌∷◌, ℕ, List, Some, true, false, not, max, length, take, drop, replicate, option_map, is_ok, OnOk, if◌then◌else◌, IsErr};
ghost use Rattle.std.specs.Option.{ForSome};
ghost use Rattle.lease_disk.specs.Calls.{Ran};
ghost use Rattle.fault_counts.specs.Causes.{HasCause};
ghost use Rattle.lease_disk.specs.Images.{overwritten, OnlyLooks, AtEachMoment};
ghost use Rattle.leaf_lease.specs.Format.{formatted_disk, format_failed, FormatSays, formatted, is_already, shut_calls, fill_calls, format_calls, WhileFilled, IsClosedBy, IsFresh};
ghost use Rattle.lease_disk.specs.Kept.{AfterWrite, KeepsByte};
ghost use Rattle.leaf_lease.specs.Kept.{KeepsGone};
ghost use Rattle.leaf_lease.specs.LeaseFile.{IsOpen, file_size, open_gate, fresh_rest, fresh_file};

use crate::judging::{Front, front_of};
use crate::layout::{HEAD, LARGEST, OPEN, leaf_count};
use lease_disk::{Disk, Failed, inspect, write_firm, write_gated};

// Closes the gate, where that is to be done.
fn shut_gate<D: Disk>(disk: &mut D, shut: bool) -> Result<(), Failed>
    ensures content { OnOk result (D.now disk.new
        ≡ (if shut then option_map (λ file. overwritten file 0 (0 ∷ [])) (D.now disk.old) else D.now disk.old)) }
    ensures firm { OnOk result (shut ≡ true → (image : List ℕ) → D.may_leave disk.new image → D.now disk.new ≡ Some image) }
    ensures left_open { shut ≡ false → disk.new ≡ disk.old }
    ensures moments { AtEachMoment D.clock D.during disk.old disk.new (AfterWrite (D.may_leave disk.old) 0 1) }
    ensures clock { D.clock disk.new ≤ D.clock disk.old + 2 }
    ensures cause { HasCause (IsErr result) (D.faults disk.old) (D.faults disk.new) }
    ensures calls { Ran D.led disk.old (shut_calls shut) (is_ok result) disk.new }
{
    if !shut {
        return Ok(());
    }
    write_firm(disk, 0, &[0])
}

// Writes what stands past the gate, and then opens it.
fn fill<D: Disk>(disk: &mut D, rest: &[u8]) -> Result<(), Failed>
    requires { 1 + length rest.now < 2 ^ 64 }
    ensures content { OnOk result (D.now disk.new
        ≡ option_map (λ file. open_gate ∷ (rest.now ++ drop (1 + length rest.now) file)) (D.now disk.old)) }
    ensures firm { OnOk result ((image : List ℕ) → D.may_leave disk.new image → D.now disk.new ≡ Some image) }
    ensures moments { AtEachMoment D.clock D.during disk.old disk.new (WhileFilled (D.may_leave disk.old) (D.now disk.old) rest.now) }
    ensures clock { D.clock disk.new ≤ D.clock disk.old + 4 }
    ensures cause { HasCause (IsErr result) (D.faults disk.old) (D.faults disk.new) }
    ensures calls { Ran D.led disk.old (fill_calls rest.now) (is_ok result) disk.new }
{
    write_gated(disk, 0, OPEN, rest)
}

// What stands past the gate of a fresh file, in a buffer of zeros.
fn lay_rest(rest: &mut [u8], id: &[u8; 16], height: u8)
    requires zeros { rest.old ≡ replicate (17 + 2 ^ height) 0 }
    ensures rest { rest.new ≡ fresh_rest id.now height }
{
    let (front, back) = rest.split_at_mut(16);
    front.copy_from_slice(id);
    back[0] = height;
}

// Writes a fresh file.
fn write_fresh<D: Disk>(disk: &mut D, id: [u8; 16], height: u8, shut: bool) -> Result<(), Failed>
    requires tall { height ≤ 10 }
    ensures content { OnOk result (D.now disk.new ≡ option_map (formatted id height) (D.now disk.old)) }
    ensures firm { OnOk result ((image : List ℕ) → D.may_leave disk.new image → D.now disk.new ≡ Some image) }
    ensures size { 1 + length (fresh_rest id height) ≡ file_size height }
    ensures from { AtEachMoment D.clock D.during disk.old disk.new (λ image. (before : List ℕ) × D.may_leave disk.old before) }
    ensures lengths { (longest : ℕ) → ((image : List ℕ) → D.may_leave disk.old image → length image ≤ longest)
        → AtEachMoment D.clock D.during disk.old disk.new (λ image. length image ≤ max longest (file_size height)) }
    ensures fresh { (file : List ℕ) → D.now disk.old ≡ Some file
        → ((image : List ℕ) → D.may_leave disk.old image → D.now disk.old ≡ Some image) → IsClosedBy shut file
        → AtEachMoment D.clock D.during disk.old disk.new (IsFresh id height) }
    ensures clock { D.clock disk.new ≤ D.clock disk.old + 6 }
    ensures cause { HasCause (IsErr result) (D.faults disk.old) (D.faults disk.new) }
    ensures calls { Ran D.led disk.old (shut_calls shut ++ fill_calls (fresh_rest id height)) (is_ok result) disk.new }
{
    let mut buffer = [0; LARGEST];
    let (rest, _) = buffer.split_at_mut(HEAD - 1 + leaf_count(height) as usize);
    lay_rest(rest, &id, height);
    shut_gate(disk, shut)?;
    fill(disk, rest)
}

/// Why a lease file was not formatted.
#[derive(Drop)]
pub enum FormatEnd<D> {
    /// It is formatted for the key that is named.
    Already { disk: D, id: [u8; 16], height: u8 },
    /// The disk failed.
    Failed { disk: D },
}

/// Formats the lease file of a key of height 5 or 10, unless the file has a head and its gate is open. What stands past
/// the last leaf stays. The gate is closed on the disk before anything else is written, and is opened last.
pub fn format<D: Disk>(disk: D, id: [u8; 16], height: u8) -> Result<D, FormatEnd<D>>
    requires height { (height ≡ 5) ⊎ (height ≡ 10) }

    // It was formatted already exactly where its gate was open, and then nothing changes.
    ensures says { ForSome (D.now disk) (λ file. FormatSays file result) }
    ensures untouched { is_already result ≡ true → OnlyLooks D.now D.may_leave D.clock D.during disk (formatted_disk result) }
    ensures content { OnOk result (D.now (formatted_disk result) ≡ option_map (formatted id height) (D.now disk)) }
    ensures fresh { OnOk result ((image : List ℕ) → D.may_leave (formatted_disk result) image → take (file_size height) image ≡ fresh_file id height) }
    ensures firm { OnOk result ((image : List ℕ) → D.may_leave (formatted_disk result) image → D.now (formatted_disk result) ≡ Some image) }
    ensures cause { HasCause (format_failed result ≡ true) (D.faults disk) (D.faults (formatted_disk result)) }

    // Where every image at the start has an open gate, each image of each moment is one of those at the start.
    ensures open_stays { ((image : List ℕ) → D.may_leave disk image → IsOpen image)
        → AtEachMoment D.clock D.during disk (formatted_disk result) (D.may_leave disk) }
    ensures keeps_gone { ((image : List ℕ) → D.may_leave disk image → IsOpen image)
        → KeepsGone (D.may_leave disk) (D.during (formatted_disk result) (D.clock disk)) }
    ensures keeps_bytes { ((image : List ℕ) → D.may_leave disk image → IsOpen image)
        → (at : ℕ) → KeepsByte at (D.may_leave disk) (D.during (formatted_disk result) (D.clock disk)) }

    // No image of a moment is longer than the longest at the start, or than the file.
    ensures lengths { (longest : ℕ) → ((image : List ℕ) → D.may_leave disk image → length image ≤ longest)
        → AtEachMoment D.clock D.during disk (formatted_disk result) (λ image. length image ≤ max longest (file_size height)) }

    // Where nothing was pending and the gate was closed, each image of each moment whose gate is open is fresh.
    ensures fresh_moments { (file : List ℕ) → D.now disk ≡ Some file
        → ((image : List ℕ) → D.may_leave disk image → D.now disk ≡ Some image) → (¬ IsOpen file)
        → AtEachMoment D.clock D.during disk (formatted_disk result) (IsFresh id height) }
    ensures clock { D.clock (formatted_disk result) ≤ D.clock disk + 6 }
    ensures calls { ForSome (D.now disk) (λ file. Ran D.led disk (format_calls id height file) (not (format_failed result)) (formatted_disk result)) }
{
    let mut disk = disk;
    let mut head = [0; HEAD];
    let seen = match inspect(&mut disk, &mut head) {
        Ok(seen) => seen,
        Err(_) => return Err(FormatEnd::Failed { disk }),
    };
    let shut = match front_of(&head, seen.count) {
        Front::Formatted(id, height) => return Err(FormatEnd::Already { disk, id, height }),
        Front::Unformatted(shut) => shut,
    };
    match write_fresh(&mut disk, id, height, shut) {
        Ok(()) => Ok(disk),
        Err(_) => Err(FormatEnd::Failed { disk }),
    }
}

// The writes of a filter, over every disk.
ghost use Rattle.std.specs.Prelude.{◌≡◌, ◌+◌, ◌≤◌, [], ◌∷◌, ℕ, List, Some, length, option_map, is_ok, OnOk, IsErr};
ghost use Rattle.lease_disk.specs.Calls.{Ran, firm_calls};
ghost use Rattle.fault_counts.specs.Causes.{HasCause};
ghost use Rattle.lease_disk.specs.Images.{AtEachMoment, overwritten};
ghost use Rattle.lease_disk.specs.Kept.{AfterWrite, WhileGated, gated};
ghost use Rattle.shutoff_filter.specs.FilterFile.{open_gate, slot_start};
ghost use Rattle.shutoff_filter.specs.Keeping.{entry_bytes, keep_calls};

use crate::layout::{OPEN, entry_bytes, slot_start};
use aip_addr::KeyId;
use lease_disk::{Disk, Failed, write_firm, write_gated};

/// Closes the gate of a slot, and makes that firm.
pub fn shut_gate<D: Disk>(disk: &mut D, number: u16) -> Result<(), Failed>
    requires { number ≤ 256 }
    ensures content { OnOk result (D.now disk.new ≡ option_map (λ file. overwritten file (slot_start number) (0 ∷ [])) (D.now disk.old)) }
    ensures firm { OnOk result ((image : List ℕ) → D.may_leave disk.new image → D.now disk.new ≡ Some image) }
    ensures moments { AtEachMoment D.clock D.during disk.old disk.new (AfterWrite (D.may_leave disk.old) (slot_start number) 1) }
    ensures clock { D.clock disk.new ≤ D.clock disk.old + 2 }
    ensures cause { HasCause (IsErr result) (D.faults disk.old) (D.faults disk.new) }
    ensures calls { Ran D.led disk.old (firm_calls (slot_start number) (0 ∷ [])) (is_ok result) disk.new }
{
    write_firm(disk, slot_start(number), &[0])
}

/// Writes an entry to a slot past its gate, and opens the gate once the entry is firm.
pub fn write_slot<D: Disk>(disk: &mut D, number: u16, to: &KeyId, until: u64) -> Result<(), Failed>
    requires { number ≤ 256 }
    ensures key { length to.now.bytes ≡ 19 }
    ensures content { OnOk result (D.now disk.new ≡ option_map (gated (slot_start number) open_gate (entry_bytes to.now until)) (D.now disk.old)) }
    ensures firm { OnOk result ((image : List ℕ) → D.may_leave disk.new image → D.now disk.new ≡ Some image) }
    ensures moments { AtEachMoment D.clock D.during disk.old disk.new
        (WhileGated (D.may_leave disk.old) (D.now disk.old) (slot_start number) (entry_bytes to.now until)) }
    ensures clock { D.clock disk.new ≤ D.clock disk.old + 4 }
    ensures cause { HasCause (IsErr result) (D.faults disk.old) (D.faults disk.new) }
    ensures calls { Ran D.led disk.old (keep_calls number to.now until) (is_ok result) disk.new }
{
    let start = slot_start(number);
    let body = entry_bytes(to, until);
    write_gated(disk, start, OPEN, &body)
}

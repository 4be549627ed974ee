// Steps of a few device calls each, over every disk.
ghost use Rattle.std.specs.Prelude.{◌≡◌, ◌+◌, ◌^◌, ◌<◌, ◌≤◌, ◌++◌, [], ◌∷◌, ℕ, List, Some, length, min, take, drop, option_map, is_ok, IsErr, IfOk, OnOk};
ghost use Rattle.std.specs.Option.{ForSome};
ghost use Rattle.lease_disk.specs.Call.{Len, Read, Sync};
ghost use Rattle.lease_disk.specs.Calls.{Ran, firm_calls, gated_calls};
ghost use Rattle.fault_counts.specs.Causes.{HasCause};
ghost use Rattle.lease_disk.specs.Images.{overwritten, OnlyLooks, AtEachMoment};
ghost use Rattle.lease_disk.specs.Kept.{AfterWrite, WhileGated, gated};

use crate::{Disk, Failed};

/// The length of a file, and how many bytes of its front were read.
#[derive(Clone, Copy)]
pub struct Seen {
    /// The length of the whole file in bytes.
    pub length: u64,
    /// How many bytes were read.
    pub count: usize,
}

/// Writes from the byte `at` on, and makes firm what was written. The first call that fails ends it.
pub fn write_firm<D: Disk>(disk: &mut D, at: u64, bytes: &[u8]) -> Result<(), Failed>
    requires { at + length bytes.now < 2 ^ 64 }
    ensures content { OnOk result (D.now disk.new ≡ option_map (λ old. overwritten old at bytes.now) (D.now disk.old)) }
    ensures firm { OnOk result ((image : List ℕ) → D.may_leave disk.new image → D.now disk.new ≡ Some image) }
    ensures moments { AtEachMoment D.clock D.during disk.old disk.new (AfterWrite (D.may_leave disk.old) at (length bytes.now)) }
    ensures clock { D.clock disk.new ≤ D.clock disk.old + 2 }
    ensures cause { HasCause (IsErr result) (D.faults disk.old) (D.faults disk.new) }
    ensures calls { Ran D.led disk.old (firm_calls at bytes.now) (is_ok result) disk.new }
{
    disk.write_at(at, bytes)?;
    disk.sync()
}

/// Writes a gate at the byte `at` and a body past it. The body is firm before the gate is written, and the gate is firm
/// at the end. The first call that fails ends it.
pub fn write_gated<D: Disk>(disk: &mut D, at: u64, gate: u8, body: &[u8]) -> Result<(), Failed>
    requires { at + 1 + length body.now < 2 ^ 64 }
    ensures content { OnOk result (D.now disk.new ≡ option_map (gated at gate body.now) (D.now disk.old)) }
    ensures firm { OnOk result ((image : List ℕ) → D.may_leave disk.new image → D.now disk.new ≡ Some image) }
    ensures moments { AtEachMoment D.clock D.during disk.old disk.new (WhileGated (D.may_leave disk.old) (D.now disk.old) at body.now) }
    ensures clock { D.clock disk.new ≤ D.clock disk.old + 4 }
    ensures cause { HasCause (IsErr result) (D.faults disk.old) (D.faults disk.new) }
    ensures calls { Ran D.led disk.old (gated_calls at gate body.now) (is_ok result) disk.new }
{
    write_firm(disk, at + 1, body)?;
    write_firm(disk, at, &[gate])
}

/// Asks for the length of the file, and reads its front up to its end or that of `into`.
pub fn inspect<D: Disk>(disk: &mut D, into: &mut [u8]) -> Result<Seen, Failed>
    ensures length { IfOk result (λ seen. ForSome (D.now disk.old) (λ file. seen.length ≡ length file)) }
    ensures within { IfOk result (λ seen. seen.count ≤ length into.old) }
    ensures count { IfOk result (λ seen. ForSome (D.now disk.old) (λ file. seen.count ≡ min (length into.old) (length file))) }
    ensures bytes { IfOk result (λ seen. ForSome (D.now disk.old) (λ file. into.new ≡ take seen.count file ++ drop seen.count into.old)) }
    ensures looks { OnlyLooks D.now D.may_leave D.clock D.during disk.old disk.new }
    ensures cause { HasCause (IsErr result) (D.faults disk.old) (D.faults disk.new) }
    ensures calls { Ran D.led disk.old (Len ∷ Read 0 (length into.old) ∷ []) (is_ok result) disk.new }
{
    let length = disk.len()?;
    let count = disk.read(0, into)?;
    Ok(Seen { length, count })
}

/// Makes firm what was written before, and reads the front of the file.
pub fn inspect_firm<D: Disk>(disk: &mut D, into: &mut [u8]) -> Result<Seen, Failed>
    ensures length { IfOk result (λ seen. ForSome (D.now disk.old) (λ file. seen.length ≡ length file)) }
    ensures within { IfOk result (λ seen. seen.count ≤ length into.old) }
    ensures count { IfOk result (λ seen. ForSome (D.now disk.old) (λ file. seen.count ≡ min (length into.old) (length file))) }
    ensures bytes { IfOk result (λ seen. ForSome (D.now disk.old) (λ file. into.new ≡ take seen.count file ++ drop seen.count into.old)) }
    ensures content { D.now disk.new ≡ D.now disk.old }
    ensures firm { OnOk result ((image : List ℕ) → D.may_leave disk.new image → D.now disk.new ≡ Some image) }
    ensures moments { AtEachMoment D.clock D.during disk.old disk.new (D.may_leave disk.old) }
    ensures clock { D.clock disk.new ≤ D.clock disk.old + 1 }
    ensures cause { HasCause (IsErr result) (D.faults disk.old) (D.faults disk.new) }
    ensures calls { Ran D.led disk.old (Sync ∷ Len ∷ Read 0 (length into.old) ∷ []) (is_ok result) disk.new }
{
    disk.sync()?;
    inspect(disk, into)
}

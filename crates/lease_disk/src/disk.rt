// What every disk promises, in memory or on a file.
ghost use Rattle.std.specs.Prelude.{◌≡◌, ◌+◌, ◌-◌, ◌^◌, ◌<◌, ◌≤◌, ◌++◌, ℕ, List, Option, Some, Bool, length, take, drop, min, option_map, is_ok, IsErr, IsSome, IfOk, OnOk, OnErr};
ghost use Rattle.std.specs.Option.{ForSome};
ghost use Rattle.lease_disk.specs.Call.{Call, Len, Read, Write, Sync};
ghost use Rattle.fault_counts.specs.Causes.{HasCause};
ghost use Rattle.lease_disk.specs.Images.{overwritten, Torn, ComesFrom, Told, OnlyLooks, Elapses};

/// The disk did not do what it was asked.
#[derive(Clone, Copy, Debug, PartialEq, Eq)]
pub struct Failed;

/// A file of bytes on a disk that may fail, and that a crash may cut off at any moment.
///
/// Between two syncs that succeeded a crash may leave any bytes in each range that was written, a failed write's
/// among them. Bytes outside these ranges stay. The length that a crash leaves is any from the length at the last
/// sync to the greatest length since. After a sync that succeeded a crash leaves what a read gives.
pub trait Disk {
    /// The bytes as they read, where they are told.
    ghost now: { Self → Option (List ℕ) };

    /// The images that a crash at this moment may leave.
    ghost may_leave: { Self → List ℕ → Type 0 };

    /// The moment, as a number that never falls.
    ghost clock: { Self → ℕ };

    /// The images that a crash at some moment since that one may have left, during a call or between two.
    ghost during: { Self → ℕ → List ℕ → Type 0 };

    /// How often the disk has failed.
    ghost faults: { Self → ℕ };

    /// Whether a call that is answered with Ok, or with `Failed`, may lead from one disk to another.
    ghost led: { Self → Call → Bool → Self → Type 0 };

    /// The length in bytes.
    fn len(&mut self) -> Result<u64, Failed>
        ensures length { IfOk result (λ n. ForSome (now self.old) (λ bytes. n ≡ length bytes)) }
        ensures looks { OnlyLooks now may_leave clock during self.old self.new }
        ensures cause { HasCause (IsErr result) (faults self.old) (faults self.new) }
        ensures led { led self.old Len (is_ok result) self.new };

    /// Reads from the byte `at` on, up to the end of the file or of `into`, and answers how many bytes it read.
    /// The rest of `into` stays. After `Failed` the content of `into` is open.
    fn read(&mut self, at: u64, into: &mut [u8]) -> Result<usize, Failed>
        ensures within { IfOk result (λ n. n ≤ length into.old) }
        ensures count { IfOk result (λ n. ForSome (now self.old) (λ bytes. n ≡ min (length into.old) (length bytes - at))) }
        ensures bytes { IfOk result (λ n. ForSome (now self.old) (λ bytes.
            into.new ≡ take n (drop at bytes) ++ drop n into.old)) }
        ensures looks { OnlyLooks now may_leave clock during self.old self.new }
        ensures cause { HasCause (IsErr result) (faults self.old) (faults self.new) }
        ensures led { led self.old (Read at (length into.old)) (is_ok result) self.new };

    /// Writes over what is there, and past the end. A gap past the end is filled with 0 and counts as written.
    /// Until a sync that succeeds a crash may leave any bytes in the range, also where the write failed.
    fn write_at(&mut self, at: u64, bytes: &[u8]) -> Result<(), Failed>
        requires { at + length bytes.now < 2 ^ 64 }
        ensures written { OnOk result (now self.new ≡ option_map (λ old. overwritten old at bytes.now) (now self.old)) }
        ensures torn { Told (Torn at (length bytes.now)) (now self.old) (now self.new) }
        ensures crash { ComesFrom (Torn at (length bytes.now)) (may_leave self.old) (may_leave self.new) }
        ensures time { Elapses may_leave clock during self.old self.new }
        ensures cause { HasCause (IsErr result) (faults self.old) (faults self.new) }
        ensures led { led self.old (Write at bytes.now) (is_ok result) self.new };

    /// Makes firm what was written: after Ok a crash leaves what a read gives. After `Failed` nothing is firm
    /// that was not.
    fn sync(&mut self) -> Result<(), Failed>
        ensures content { now self.new ≡ now self.old }
        ensures firm { OnOk result ((image : List ℕ) → may_leave self.new image → now self.new ≡ Some image) }
        ensures crash { (image : List ℕ) → may_leave self.new image → may_leave self.old image }
        ensures not_firm { OnErr result ((image : List ℕ) → may_leave self.old image → may_leave self.new image) }
        ensures time { Elapses may_leave clock during self.old self.new }
        ensures cause { HasCause (IsErr result) (faults self.old) (faults self.new) }
        ensures led { led self.old Sync (is_ok result) self.new };

    /// This moment is one of those since an earlier one.
    ghost counts_now: { (disk : Self) (t : ℕ) (image : List ℕ) → t ≤ clock disk → may_leave disk image → during disk t image };

    /// Since this moment there is no other.
    ghost only_now: { (disk : Self) (image : List ℕ) → during disk (clock disk) image → may_leave disk image };

    /// Where the bytes are told, a crash may leave just these.
    ghost content_is_image: { (disk : Self) (image : List ℕ) → now disk ≡ Some image → may_leave disk image };

    /// Where they are not told, no image is.
    ghost untold: { (disk : Self) (t : ℕ) (image : List ℕ) → during disk t image → IsSome (now disk) };
}

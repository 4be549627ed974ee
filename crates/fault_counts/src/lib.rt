//! What a count of faults says of the answer of a call, for every edge that may fail: shelves, sinks and disks.
//!
//! ```text
//! // a call of the edge failed
//! self.faults = one_more(self.faults);
//! ```
#![tactic(auto)]

ghost use Rattle.std.specs.Prelude.{◌≡◌};
ghost use Rattle.fault_counts.specs.Causes.{counted};

/// A count after one more. It stays at the greatest number once it is there.
pub fn one_more(count: u64) -> u64
    ensures { result ≡ counted count }
{
    count.saturating_add(1)
}

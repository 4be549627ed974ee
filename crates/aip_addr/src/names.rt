ghost use Rattle.std.specs.Prelude.{◌≡◌, ◌==◌, ◌≤◌, length, MatchOption};
ghost use Rattle.std.specs.List.{list_all};
ghost use Rattle.aip_addr.specs.Naming.{IsName, begins_with_letter, is_name_byte};
ghost use Rattle.std.proofs.Common.{rules};
ghost use Rattle.std.specs.Cmp.{partial_order_from_own_ties};
ghost use Rattle.std.specs.Cmp.Lexicographic.{pointwise, slice_cmp};
ghost use Rattle.std.specs.Cmp.Rules.{comparing};
ghost use Rattle.std.specs.Ordering.{nat_cmp, as_partial_cmp};

use std::cmp::Ordering;
use std::marker::Model;

/// The most bytes that a name has.
const LONGEST: usize = 16;

/// A name of a domain, router or host: 1 to 16 of `a` to `z`, `0` to `9` and `-`, the first a
/// letter. Contracts see it as the list of its bytes.
#[derive(Clone, Copy, Debug)]
pub struct Name {
    padded: [u8; 16],
    count: usize,
}

impl Model for Name {
    ghost use Rattle.std.specs.Prelude.{◌≡◌, ◌-◌, ◌≤◌, ◌++◌, ℕ, List, length, take, replicate};
    ghost use Rattle.aip_addr.specs.Naming.{IsName};

    ghost Value = { List ℕ };

    ghost view = { λ n. take n.count n.padded };

    ghost invariant = { λ n. IsName (take n.count n.padded) × (n.count ≤ 16) × (length n.padded ≡ 16) × (n.padded ≡ take n.count n.padded ++ replicate (16 - n.count) 0) };

    ghost inverse = { λ xs. record { padded = xs ++ replicate (16 - length xs) 0; count = length xs } };
}

impl Name {
    /// The name that the bytes are, and None exactly where they are outside the grammar of names.
    pub fn read(bytes: &[u8]) -> Option<Name>
        ensures { MatchOption result (¬ (IsName bytes.now)) (λ name. (name ≡ bytes.now) × IsName bytes.now) }
    {
        if bytes.len() > LONGEST || !begins_with_letter(bytes) || !has_name_bytes(bytes) {
            return None;
        }
        Some(padded_name(bytes))
    }

    /// The bytes of the name, 1 to 16.
    pub fn bytes(&self) -> &[u8]
        ensures bytes { result.now ≡ self.now }
        ensures name { IsName self.now }
    {
        &self.padded[..self.count]
    }
}

impl PartialEq for Name {
    ghost eq = { pointwise ◌==◌ };

    ghost laws = { Prim.search (comparing, rules) };

    fn eq(&self, other: &Name) -> bool {
        self.bytes() == other.bytes()
    }
}

impl Eq for Name {
    ghost laws = { Prim.search (comparing, rules) };
}

impl Ord for Name {
    ghost cmp = { slice_cmp nat_cmp };

    ghost total = { Prim.search (comparing, rules) };

    ghost matches_partial_cmp = { Prim.search (comparing, rules) };

    ghost matches_eq = { Prim.search (comparing, rules) };

    fn cmp(&self, other: &Name) -> Ordering {
        self.bytes().cmp(other.bytes())
    }
}

impl PartialOrd for Name {
    ghost partial_cmp = { as_partial_cmp (slice_cmp nat_cmp) };

    ghost laws = { partial_order_from_own_ties (Prim.search (comparing, rules)) (Prim.search (comparing, rules)) };

    fn partial_cmp(&self, other: &Name) -> Option<Ordering> {
        Some(self.cmp(other))
    }
}

fn begins_with_letter(bytes: &[u8]) -> bool
    ensures { result ≡ begins_with_letter bytes.now }
{
    match bytes.first() {
        Some(b) => b.is_ascii_lowercase(),
        None => false,
    }
}

fn has_name_bytes(bytes: &[u8]) -> bool
    ensures { result ≡ list_all is_name_byte bytes.now }
{
    bytes.iter().all(|&b| matches!(b, b'a'..=b'z') || matches!(b, b'0'..=b'9') || b == b'-')
}

fn padded_name(bytes: &[u8]) -> Name
    requires short { length bytes.now ≤ 16 }
    requires name { IsName bytes.now }
    ensures { result ≡ bytes.now }
{
    let mut padded = [0; 16];
    let (front, _) = padded.split_at_mut(bytes.len());
    front.copy_from_slice(bytes);
    Name {
        padded,
        count: bytes.len(),
    }
}

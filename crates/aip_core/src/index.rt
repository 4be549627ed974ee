//! The places of keys in a list, found by the keys.

ghost use Rattle.std.specs.Prelude.{◌≡◌, ◌≤◌, length, IfOk};
ghost use Rattle.std.specs.List.{position_from};
ghost use Rattle.std.specs.Ordering.{is_eq};
ghost use Rattle.std.specs.BTreeMap.{get};

use std::alloc::{AllocError, Global};
use std::collections::BTreeMap;

/// The place of each key among these; of a key that stands twice, its first. The only error is want of memory.
#[tactic(auto, using(crate::proofs::Indexed::finds_more))]
pub fn places_of<K: Ord + Copy>(alloc: Global, keys: &[K]) -> Result<BTreeMap<K, u16>, AllocError>
    requires { length keys.now ≤ 65536 }
    ensures { IfOk result (λ places. (key : K) →
        get K.cmp places key ≡ position_from (λ other. is_eq (K.cmp other key)) 0 keys.now) }
{
    let mut places = BTreeMap::new(alloc);
    let mut left = keys.len();
    'keys: while left > 0 {
        left -= 1;
        places.insert(keys[left], left as u16)?;
    }
    Ok(places)
}

// A law about filters.
ghost use Rattle.shutoff_filter.specs.Listed.{InForceIsListed};

/// A law: what is in force at a time by any entries is listed in ascending order of the keys' bytes, each key once with the
/// greatest until that it has in an entry.
#[tactic(auto, using(crate::specs::InForce::listed))]
pub fn what_is_in_force_is_listed()
    ensures { InForceIsListed }
{}

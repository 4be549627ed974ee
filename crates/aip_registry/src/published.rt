// What is said of bytes that are published.
ghost use Rattle.std.specs.Prelude.{◌≡◌};
ghost use Rattle.aip_registry.specs.Kept.{refusal_number};

/// What is said of bytes that are published: the record is kept, or the first reason why not.
#[derive(Clone, Copy, Debug, PartialEq, Eq)]
pub enum Published {
    /// The record is kept, in place of the one of its kind, AD and other if there was one.
    Ok,
    /// The bytes are no record: fewer than 114, of another version than 1, or neither a peering nor a binding.
    Body,
    /// The key doesn't own the signer's AD.
    Key,
    /// The signature isn't valid.
    Signature,
    /// A record of the same kind, AD and other is kept, with this number or a greater one.
    Old {
        /// The number of the one that is kept.
        kept: u64,
    },
}

impl Published {
    /// The number of a refusal, 1 to 4 in the order of the list, and 0 for a record that is kept.
    pub fn number(self) -> u64
        ensures { result ≡ refusal_number self }
    {
        match self {
            Published::Ok => 0,
            Published::Body => 1,
            Published::Key => 2,
            Published::Signature => 3,
            Published::Old { .. } => 4,
        }
    }
}

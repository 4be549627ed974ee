// The entries of a filter.
use aip_addr::KeyId;

/// An entry of a filter: a key identifier that is withheld until a time.
#[derive(Clone, Copy, Debug, PartialEq, Eq)]
pub struct ShutOffEntry {
    /// The key identifier, of 19 bytes.
    pub to: KeyId,
    /// The first tick at which it isn't withheld any more.
    pub until: u64,
}

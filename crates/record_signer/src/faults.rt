// Why no record was signed.
use thiserror::Error;

/// Why no record was signed.
#[derive(Clone, Copy, Debug, PartialEq, Eq, Error)]
pub enum SigningFault {
    /// The disk failed.
    #[error("the disk failed")]
    Disk,
    /// The file has no head, its gate is closed, or it lacks a byte for some leaf of the key.
    #[error("no lease file of {length} bytes with gate {gate}")]
    Unformatted {
        /// The length of the file.
        length: u64,
        /// Its first byte, or 0 where it has none.
        gate: u8,
    },
    /// The file is of another key, which is named.
    #[error("the lease file of another key")]
    OtherKey {
        /// The identifier that the file keeps.
        id: [u8; 16],
        /// The height that the file keeps.
        height: u8,
    },
    /// No leaf of the key is left.
    #[error("no leaf of a key of height {height} is left")]
    Dry {
        /// The height of the key's tree.
        height: u8,
    },
    /// There was no memory. The leaf that was next may be gone.
    #[error("out of memory")]
    Memory,
}

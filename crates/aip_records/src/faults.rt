// Why a line of a record file is refused, and how its reading ends.
ghost use Rattle.std.specs.Prelude.{◌≡◌};
ghost use Rattle.aip_records.specs.Faults.{number_of_fault};

use std::alloc::AllocError;
use thiserror::Error;

/// Why a line of a record file is refused.
#[derive(Clone, Copy, Debug, PartialEq, Eq, Error)]
pub enum RecordFault {
    /// It isn't hex of at least one byte in lower case, or has a carriage return.
    #[error("no line of hex")]
    Form,
    /// The bytes are no record.
    #[error("no record")]
    Body,
    /// No domain of the topology has the signer's AD.
    #[error("signed by no domain of the topology")]
    Stranger,
    /// The key doesn't own the signer's AD.
    #[error("a key that doesn't own the signer's id")]
    Key,
    /// The signature isn't valid.
    #[error("a wrong signature")]
    Signature,
    /// A record of the same kind, AD and other is kept, with this number or a greater one.
    #[error("not newer than number {kept}")]
    Old {
        /// The number of the one that is kept.
        kept: u64,
    },
    /// The file has too many lines.
    #[error("too many lines")]
    Many,
    /// The line has too many bytes.
    #[error("too long")]
    Long,
}

impl RecordFault {
    /// The number that stands for the fault, 1 to 8 in the order of the list.
    pub fn number(self) -> u64
        ensures { result ≡ number_of_fault self }
    {
        match self {
            RecordFault::Form => 1,
            RecordFault::Body => 2,
            RecordFault::Stranger => 3,
            RecordFault::Key => 4,
            RecordFault::Signature => 5,
            RecordFault::Old { .. } => 6,
            RecordFault::Many => 7,
            RecordFault::Long => 8,
        }
    }
}

/// Why no records were read.
#[derive(Clone, Copy, Debug, PartialEq, Eq, Error)]
pub enum RecordsEnd {
    /// The file couldn't be read.
    #[error("the file couldn't be read")]
    ReadFault,
    /// The first line that is refused, with the first fault that applies to it.
    #[error("line {line}: {fault}")]
    Refused {
        /// The number of the line, from 1.
        line: u32,
        /// Its first fault.
        fault: RecordFault,
    },
    /// There was no memory.
    #[error("out of memory")]
    Memory,
}

impl From<AllocError> for RecordsEnd {
    ghost use Rattle.std.specs.Prelude.{◌≡◌};
    ghost use Rattle.aip_records.specs.declared.faults.RecordsEnd.TheVariants.{Memory};

    ghost from_gives = { λ _ end. end ≡ Memory };

    fn from(_: AllocError) -> Self {
        RecordsEnd::Memory
    }
}

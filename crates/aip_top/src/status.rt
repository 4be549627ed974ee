ghost use Rattle.std.specs.Prelude.{◌≡◌};
ghost use Rattle.aip_top.specs.Statuses.{exit_code_of};

use aip_make::MadeEnd;
use aip_records::{RecordFault, RecordsEnd};
use aip_rules::StepFault;
use aip_sim::{RunEnd, TopologyEnd};
use aip_topo::TopoFault;
use record_signer::SigningFault;
use std::alloc::AllocError;

/// Why a lease or a record is refused.
#[derive(Clone, Copy, Debug, PartialEq, Eq)]
pub enum LeaseFault {
    /// The topology has no domain of that name; or, of a record, no domain or host of the name that it is about.
    Unknown,
    /// The domain was given by its id, so its key isn't known.
    Keyless,
    /// The file is formatted already, for the key with this identifier and height.
    Already {
        /// The identifier I of the key, 16 bytes.
        id: [u8; 16],
        /// The height of its tree.
        height: u8,
    },
    /// The file has no head, its gate is closed, or it lacks a byte for some leaf of the key.
    Unformatted {
        /// The length of the file.
        length: u64,
        /// Its first byte, or 0 where it has none.
        gate: u8,
    },
    /// The file is formatted for another key, with this identifier and height.
    OtherKey {
        /// The identifier I of the key, 16 bytes.
        id: [u8; 16],
        /// The height of its tree.
        height: u8,
    },
    /// No leaf of the key is left.
    Dry {
        /// The height of its tree.
        height: u8,
    },
}

/// How a command ends.
#[derive(Clone, Copy, Debug, PartialEq, Eq)]
pub enum Status {
    /// All was read to its end, and the whole text was taken.
    Done,
    /// The words spell no command. Nothing was read or written.
    Usage,
    /// A named file couldn't be read.
    ReadFault,
    /// The sink failed.
    WriteFault,
    /// The topology is refused. Nothing was written.
    Topology {
        /// The number of the first refused line, from 1.
        line: u32,
        /// The first fault that applies to it.
        fault: TopoFault,
    },
    /// A line of the schedule is refused. The whole text was taken, with the refusal line; of a made workload nothing was
    /// written.
    Schedule {
        /// The number of the first refused line, from 1.
        line: u32,
        /// The first fault that applies to it.
        fault: StepFault,
    },
    /// The file isn't the text of a trace. The whole text was taken.
    Wrong {
        /// The number of the first wrong line, from 1; one past the last where the file only stops too early.
        line: u64,
    },
    /// The disk failed.
    DiskFault,
    /// There was no memory.
    Memory,
    /// The lease or the record is refused. Nothing was written, and no byte of the file changed.
    Lease(LeaseFault),
    /// A line of the record file is refused. Nothing was written.
    Record {
        /// The number of the first refused line, from 1.
        line: u32,
        /// The first fault that applies to it.
        fault: RecordFault,
    },
}

impl Status {
    /// The exit code of the program.
    pub fn exit_code(self) -> u8
        ensures { result ≡ exit_code_of self }
    {
        match self {
            Status::Done => 0,
            Status::Usage => 2,
            Status::ReadFault => 3,
            Status::WriteFault => 4,
            Status::Topology { .. } => 5,
            Status::Schedule { .. } => 6,
            Status::Wrong { .. } => 7,
            Status::DiskFault => 8,
            Status::Memory => 9,
            Status::Lease(_) => 10,
            Status::Record { .. } => 11,
        }
    }
}

impl From<AllocError> for Status {
    ghost use Rattle.std.specs.Prelude.{◌≡◌};
    ghost use Rattle.aip_top.specs.declared.status.Status.TheVariants.{Memory};

    ghost from_gives = { λ _ status. status ≡ Memory };

    fn from(_: AllocError) -> Self {
        Status::Memory
    }
}

impl From<TopologyEnd> for Status {
    ghost use Rattle.std.specs.Prelude.{◌≡◌};
    ghost use Rattle.aip_top.specs.Statuses.{status_without};

    ghost from_gives = { λ end status. status ≡ status_without end };

    fn from(end: TopologyEnd) -> Self {
        match end {
            TopologyEnd::ReadFault => Status::ReadFault,
            TopologyEnd::Refused { line, fault } => Status::Topology { line, fault },
            TopologyEnd::Memory => Status::Memory,
        }
    }
}

impl From<SigningFault> for Status {
    ghost use Rattle.std.specs.Prelude.{◌≡◌};
    ghost use Rattle.aip_top.specs.Recording.{status_unsigned};

    ghost from_gives = { λ fault status. status ≡ status_unsigned fault };

    fn from(fault: SigningFault) -> Self {
        match fault {
            SigningFault::Disk => Status::DiskFault,
            SigningFault::Unformatted { length, gate } => {
                Status::Lease(LeaseFault::Unformatted { length, gate })
            }
            SigningFault::OtherKey { id, height } => {
                Status::Lease(LeaseFault::OtherKey { id, height })
            }
            SigningFault::Dry { height } => Status::Lease(LeaseFault::Dry { height }),
            SigningFault::Memory => Status::Memory,
        }
    }
}

impl From<RecordsEnd> for Status {
    ghost use Rattle.std.specs.Prelude.{◌≡◌};
    ghost use Rattle.aip_top.specs.Statuses.{status_without_records};

    ghost from_gives = { λ end status. status ≡ status_without_records end };

    fn from(end: RecordsEnd) -> Self {
        match end {
            RecordsEnd::ReadFault => Status::ReadFault,
            RecordsEnd::Refused { line, fault } => Status::Record { line, fault },
            RecordsEnd::Memory => Status::Memory,
        }
    }
}

impl From<RunEnd> for Status {
    ghost use Rattle.std.specs.Prelude.{◌≡◌};
    ghost use Rattle.aip_top.specs.Statuses.{status_of_run};

    ghost from_gives = { λ end status. status ≡ status_of_run end };

    fn from(end: RunEnd) -> Self {
        match end {
            RunEnd::Done => Status::Done,
            RunEnd::ReadFault => Status::ReadFault,
            RunEnd::WriteFault => Status::WriteFault,
            RunEnd::Topology { line, fault } => Status::Topology { line, fault },
            RunEnd::Schedule { line, fault } => Status::Schedule { line, fault },
            RunEnd::Memory => Status::Memory,
        }
    }
}

impl From<MadeEnd> for Status {
    ghost use Rattle.std.specs.Prelude.{◌≡◌};
    ghost use Rattle.aip_top.specs.Statuses.{status_without_summary};

    ghost from_gives = { λ end status. status ≡ status_without_summary end };

    fn from(end: MadeEnd) -> Self {
        match end {
            MadeEnd::Topology { line, fault } => Status::Topology { line, fault },
            MadeEnd::Schedule { line, fault } => Status::Schedule { line, fault },
            MadeEnd::Memory => Status::Memory,
        }
    }
}

//! How a run ends, and the exit status.
ghost use Rattle.std.specs.Prelude.{◌≡◌};
ghost use Rattle.outcomes.specs.Statuses.{code_of, status_of_failure};
ghost use Rattle.outcomes.specs.declared.status.Status.TheVariants as status;

use crate::{Failure, FileId, Refusal, SinkId};

/// The exit status if memory ran out while fetching the command line's words, or before the plan text's first byte.
pub const NO_MEMORY: u8 = 11;

/// The exit status if the system doesn't give the words. Then there is no run and no `Status`.
pub const NO_WORDS: u8 = 15;

/// How a run ended.
#[derive(Clone, Copy, Debug, PartialEq, Eq)]
pub enum Status {
    /// Each text that the command writes was written to its end.
    Done,
    /// The words or the files are refused.
    Refused(Refusal),
    /// A read of this file failed, and the store has counted a fault.
    ReadFault { file: FileId },
    /// A write failed.
    WriteFault { sink: SinkId },
    /// Memory ran out before the first byte of the plan text.
    NoMemory,
}

impl Status {
    /// The exit status of a process.
    pub fn code(&self) -> u8
        ensures { result ≡ code_of self.now }
    {
        match self {
            Status::Done => 0,
            Status::Refused(refusal) => refusal.code(),
            Status::ReadFault { .. } => 3,
            Status::WriteFault { .. } => 10,
            Status::NoMemory => NO_MEMORY,
        }
    }
}

impl From<Failure> for Status {
    ghost from_gives = { λ e s. s ≡ status_of_failure e };

    fn from(failure: Failure) -> Self {
        match failure {
            Failure::Refused(refusal) => Status::Refused(refusal),
            Failure::Fault { file } => Status::ReadFault { file },
            Failure::NoMemory => Status::NoMemory,
        }
    }
}

impl From<SinkId> for Status {
    ghost from_gives = { λ sink s. s ≡ status.WriteFault sink };

    fn from(sink: SinkId) -> Self {
        Status::WriteFault { sink }
    }
}

ghost use Rattle.std.specs.Prelude.{◌≡◌};
ghost use Rattle.array_runs.specs.Fault.{status_number};
ghost use Rattle.array_runs.specs.Statuses.{status_of, script_status, served_status};

use array_shape::ShapeNumber;
use eaw_device::AttachFault;
use mars_core::CoreFault;
use record_slots::Name;
use script_run::Ended;

/// How a run ended.
#[derive(Clone, Copy, Debug, PartialEq, Eq)]
pub enum Status {
    /// What was asked for was done. Of a command with an input, that was read to its end and each line was answered.
    Good,
    /// The words ask for nothing that the program knows, or for more callers than the array has transaction numbers.
    Usage,
    /// The input has more bytes than a run takes.
    TooLong,
    ReadFault,
    WriteFault,
    MediaFault,
    NoMemory,
    /// The first page of the data in which the index of the records, or a slot that it names, is not sound.
    Damaged { page: u32 },
    /// This logger's row of this transaction number is decided but names a cell that is not there, or one that holds no part of that
    /// logger.
    BadRow { logger: u8, tid: u8 },
    /// The medium does not begin as an array does.
    NotMars,
    /// A number in the header is out of range, or the medium has not the length that the numbers give.
    BadShape { which: ShapeNumber, given: u64 },
    /// There is no such table, and none was made.
    Refused(Refusal),
    /// The rest of this line, counted from 1, which is meant as a frame, is not just one whole frame that the array can follow.
    BadFrame { line: u64 },
    /// A frame is not the next one. `expected` is 0 behind the last sequence that there is.
    Gap { expected: u64, got: u64 },
}

/// Why a table was not made.
#[derive(Clone, Copy, Debug, PartialEq, Eq)]
pub enum Refusal {
    /// A table has this name.
    Exists(Name),
    /// There are eight tables.
    TablesFull,
    /// All `pages` pages for indexes are given.
    PagesFull { pages: u32 },
}

impl Status {
    /// The status that the process ends with.
    pub fn number(self) -> u8
        ensures { result ≡ status_number self }
    {
        match self {
            Status::Good => 0,
            Status::Usage => 2,
            Status::TooLong => 3,
            Status::ReadFault => 4,
            Status::WriteFault => 5,
            Status::MediaFault => 6,
            Status::NoMemory => 7,
            Status::Damaged { .. } => 8,
            Status::BadRow { .. } => 8,
            Status::NotMars => 9,
            Status::BadShape { .. } => 9,
            Status::Refused(_) => 10,
            Status::BadFrame { .. } => 11,
            Status::Gap { .. } => 12,
        }
    }
}

/// The status of an array that was not opened.
pub fn status_of(fault: AttachFault) -> Status
    ensures { result ≡ status_of fault }
{
    match fault {
        AttachFault::NotMars => Status::NotMars,
        AttachFault::BadShape(bad) => Status::BadShape {
            which: bad.which,
            given: bad.given,
        },
        AttachFault::BadRow { logger, tid } => Status::BadRow { logger, tid },
        AttachFault::Media => Status::MediaFault,
        AttachFault::NoMemory => Status::NoMemory,
    }
}

/// The status of a run whose script ended so.
pub fn script_status(ended: Ended) -> Status
    ensures { result ≡ script_status ended }
{
    match ended {
        Ended::All => Status::Good,
        Ended::WriteFault => Status::WriteFault,
        Ended::MediaFault => Status::MediaFault,
        Ended::NoMemory => Status::NoMemory,
    }
}

/// The status of work over the records of an array, or of records that were not taken.
pub fn served_status(served: Result<Ended, CoreFault>) -> Status
    ensures { result ≡ served_status served }
{
    match served {
        Ok(ended) => script_status(ended),
        Err(CoreFault::Damaged { page }) => Status::Damaged { page },
        Err(CoreFault::Media) => Status::MediaFault,
        Err(CoreFault::NoMemory) => Status::NoMemory,
    }
}

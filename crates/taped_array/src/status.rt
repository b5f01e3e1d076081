// What a call answers, as numbers that stay what they are.
ghost use Rattle.std.specs.Prelude.{◌≡◌};
ghost use Rattle.taped_array.specs.Status.{status_of, status_in, status_of_opening};

use eaw_device::AttachFault;
use eaw_face::EawFault;

pub const OK: i32 = 0;

pub const UNKNOWN: i32 = 1;

pub const LOG_FULL: i32 = 2;

pub const MEDIA: i32 = 3;

pub const DEAD: i32 = 4;

pub const NO_MEMORY: i32 = 5;

pub const NOT_MARS: i32 = 6;

pub const BAD_SHAPE: i32 = 7;

pub const BAD_ROW: i32 = 8;

pub const BAD_DEPTH: i32 = 9;

pub const BAD_RANGE: i32 = 10;

pub const BAD_PART: i32 = 11;

pub const IN_USE: i32 = 12;

pub const NO_PIECE: i32 = 13;

pub const IS_CLOSED: i32 = 14;

pub const IS_OPEN: i32 = 15;

/// The status of a refusal.
pub fn status_of(fault: &EawFault) -> i32
    ensures { result ≡ status_of fault.now }
{
    match fault {
        EawFault::UnknownTid { .. } => UNKNOWN,
        EawFault::LogFull { .. } => LOG_FULL,
        EawFault::Media => MEDIA,
        EawFault::Dead => DEAD,
    }
}

/// The status of an answer.
pub fn status_in(answer: &Result<(), EawFault>) -> i32
    ensures { result ≡ status_in answer.now }
{
    match answer {
        Ok(()) => OK,
        Err(fault) => status_of(fault),
    }
}

/// The status of an opening that failed. Its medium is in memory, and had nothing to do: where it failed, memory ran out in a write.
pub fn opening_status(fault: &AttachFault) -> i32
    ensures { result ≡ status_of_opening fault.now }
{
    match fault {
        AttachFault::NotMars => NOT_MARS,
        AttachFault::BadShape(_) => BAD_SHAPE,
        AttachFault::BadRow { .. } => BAD_ROW,
        AttachFault::Media | AttachFault::NoMemory => NO_MEMORY,
    }
}

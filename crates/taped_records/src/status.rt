// What a call answers, as numbers that stay what they are.
ghost use Rattle.std.specs.Prelude.{◌≡◌};
ghost use Rattle.taped_records.specs.Status.{status_of, status_of_opening};

use eaw_device::AttachFault;
use history::Reply;
use mars_core::CoreFault;
use open_records::OpenFault;

pub const OK: i32 = 0;

pub const ABSENT: i32 = 1;

pub const NO_TRANSACTION: i32 = 2;

pub const NO_TABLE: i32 = 3;

pub const ALREADY: i32 = 4;

pub const NO_SAVE: i32 = 5;

pub const SAVES_FULL: i32 = 6;

pub const BUSY: i32 = 7;

pub const LOG_FULL: i32 = 8;

pub const SLOTS_FULL: i32 = 9;

pub const PAGES_FULL: i32 = 10;

pub const MEDIA: i32 = 11;

pub const DEAD: i32 = 12;

pub const NO_MEMORY: i32 = 13;

pub const DAMAGED: i32 = 14;

pub const BAD_CALLER: i32 = 15;

pub const BAD_NAME: i32 = 16;

pub const BAD_VALUE: i32 = 17;

pub const BAD_SHAPE: i32 = 18;

pub const NOT_MARS: i32 = 19;

pub const BAD_ROW: i32 = 20;

pub const NO_PIECE: i32 = 21;

// The inline functions of `mars.h` alone answer it.
pub const FILE: i32 = 22;

pub const IS_CLOSED: i32 = 23;

pub const BAD_KEY: i32 = 24;

pub const TOO_LONG: i32 = 25;

pub const BROKEN: i32 = 26;

pub const HALF: i32 = 27;

pub const IN_USE: i32 = 28;

pub const NAME_TAKEN: i32 = 29;

pub const TABLES_FULL: i32 = 30;

pub const IS_OPEN: i32 = 31;

pub const BAD_DEPTH: i32 = 32;

/// The status of a reply.
pub fn status_of(reply: &Reply) -> i32
    ensures { result ≡ status_of reply.now }
{
    match reply {
        Reply::Fine
        | Reply::Found(_)
        | Reply::Listed(_)
        | Reply::Saved(_)
        | Reply::Committed(_)
        | Reply::Purged(_) => OK,
        Reply::Absent => ABSENT,
        Reply::NoTransaction => NO_TRANSACTION,
        Reply::NoTable => NO_TABLE,
        Reply::Already => ALREADY,
        Reply::NoSave { .. } => NO_SAVE,
        Reply::SavesFull => SAVES_FULL,
        Reply::Busy { .. } => BUSY,
        Reply::LogFull { .. } => LOG_FULL,
        Reply::SlotsFull { .. } => SLOTS_FULL,
        Reply::PagesFull { .. } => PAGES_FULL,
        Reply::Media => MEDIA,
        Reply::Dead => DEAD,
        Reply::NoMemory => NO_MEMORY,
        Reply::Damaged { .. } => DAMAGED,
    }
}

/// The status of an opening that failed.
pub fn opening_status(fault: &OpenFault) -> i32
    ensures { result ≡ status_of_opening fault.now }
{
    match fault {
        OpenFault::Array(AttachFault::NotMars) => NOT_MARS,
        OpenFault::Array(AttachFault::BadShape(_)) => BAD_SHAPE,
        OpenFault::Array(AttachFault::BadRow { .. }) => BAD_ROW,
        OpenFault::Array(AttachFault::Media) | OpenFault::Records(CoreFault::Media) => MEDIA,
        OpenFault::Array(AttachFault::NoMemory)
        | OpenFault::Records(CoreFault::NoMemory)
        | OpenFault::NoMemory => NO_MEMORY,
        OpenFault::Records(CoreFault::Damaged { .. }) => DAMAGED,
        OpenFault::Callers { .. } => BAD_CALLER,
    }
}

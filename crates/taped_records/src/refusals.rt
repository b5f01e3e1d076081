// The statuses of typed calls.
ghost use Rattle.std.specs.Prelude.{◌≡◌};
ghost use Rattle.transactions.specs.Told.{reply_of};
ghost use Rattle.taped_records.specs.Status.{status_of};

use crate::status::*;
use transactions::Refusal;

/// The status of a refusal: that of the reply that it tells.
pub fn refusal_status(refusal: &Refusal) -> i32
    ensures { result ≡ status_of (reply_of refusal.now) }
{
    match refusal {
        Refusal::NoTransaction => NO_TRANSACTION,
        Refusal::NoTable => NO_TABLE,
        Refusal::Already => ALREADY,
        Refusal::NoSave { .. } => NO_SAVE,
        Refusal::SavesFull => SAVES_FULL,
        Refusal::Busy { .. } => BUSY,
        Refusal::LogFull { .. } => LOG_FULL,
        Refusal::SlotsFull { .. } => SLOTS_FULL,
        Refusal::PagesFull { .. } => PAGES_FULL,
        Refusal::Media => MEDIA,
        Refusal::Dead => DEAD,
        Refusal::NoMemory => NO_MEMORY,
        Refusal::Damaged { .. } => DAMAGED,
        Refusal::Strange(reply) => status_of(reply),
    }
}

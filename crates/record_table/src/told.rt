// Answers of the pages below, in terms of records.
ghost use Rattle.std.specs.Prelude.{◌≡◌};
ghost use Rattle.record_table.specs.Faults.{told_as};

use crate::fault::TableFault;
use crate::making::MakeFault;
use page_store::PageFault;

// An answer of pages, in terms of records.
pub fn told<T: Drop>(answer: Result<T, PageFault>) -> Result<T, TableFault>
    ensures { result ≡ told_as answer }
{
    Ok(answer?)
}

// A table is made by a number that is not live, which has room.
impl From<PageFault> for MakeFault {
    ghost use Rattle.std.specs.Prelude.{◌≡◌};
    ghost use Rattle.record_table.specs.Making.{as_make};

    ghost from_gives = { λ below fault. fault ≡ as_make below };

    fn from(below: PageFault) -> Self {
        match below {
            PageFault::Media => MakeFault::Media,
            PageFault::Damaged { page } => MakeFault::Damaged { page },
            PageFault::Dead | PageFault::LogFull { .. } | PageFault::SavesFull => MakeFault::Dead,
        }
    }
}

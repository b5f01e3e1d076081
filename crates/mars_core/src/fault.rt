use page_store::CheckFault;
use record_table::TableFault;
use thiserror::Error;

/// Why a core was not attached.
#[derive(Clone, Copy, Debug, PartialEq, Eq, Error)]
pub enum CoreFault {
    /// The data is not a sound index of records, and this page is the first to fail.
    #[error("page {page} is damaged")]
    Damaged { page: u32 },
    /// The medium failed in this call.
    #[error("the medium failed")]
    Media,
    #[error("no memory")]
    NoMemory,
}

/// Why records could not be taken.
impl From<CheckFault> for CoreFault {
    ghost use Rattle.std.specs.Prelude.{◌≡◌};
    ghost use Rattle.mars_core.specs.Attached.{attach_fault};

    ghost from_gives = { λ refused fault. fault ≡ attach_fault refused };

    fn from(refused: CheckFault) -> Self {
        match refused {
            CheckFault::Damaged { page } => CoreFault::Damaged { page },
            CheckFault::Media | CheckFault::Dead => CoreFault::Media,
            CheckFault::NoMemory => CoreFault::NoMemory,
        }
    }
}

/// Why the records could not be read at the opening, which only the page, the medium or memory prevents.
impl From<TableFault> for CoreFault {
    ghost use Rattle.std.specs.Prelude.{◌≡◌};
    ghost use Rattle.mars_core.specs.Attached.{scan_fault};

    ghost from_gives = { λ refused fault. fault ≡ scan_fault refused };

    fn from(refused: TableFault) -> Self {
        match refused {
            TableFault::Damaged { page } => CoreFault::Damaged { page },
            TableFault::NoMemory => CoreFault::NoMemory,
            _ => CoreFault::Media,
        }
    }
}

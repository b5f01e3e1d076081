use crate::fault::PageFault;
use mars_base::NoMemory;
use thiserror::Error;

/// Why an insertion was refused. After `Dead` the kinds are in order: a later one comes only if no earlier one does.
#[derive(Clone, Copy, Debug, PartialEq, Eq, Error)]
pub enum IndexFault {
    /// All slots are in use.
    #[error("all {slots} slots are given")]
    SlotsFull { slots: u32 },
    /// A split is due, and too few index pages are left for it.
    #[error("all {pages} index pages are given")]
    PagesFull { pages: u32 },
    /// One logger has no room for the parts of an action: it holds `held` parts of the number, and `needed` more are needed.
    #[error("the log of logger {logger} is full: {held} held, {needed} needed")]
    LogFull { logger: u8, held: u16, needed: u16 },
    /// The medium failed in this call.
    #[error("the medium failed")]
    Media,
    /// An earlier call met a fault of the medium.
    #[error("the array is dead")]
    Dead,
    /// A page that was read breaks the layout. An insertion answers it only over a store that does not tell its data.
    #[error("page {page} is damaged")]
    Damaged { page: u32 },
}

// An insertion makes no save.
impl From<PageFault> for IndexFault {
    ghost use Rattle.std.specs.Prelude.{◌≡◌};
    ghost use Rattle.page_store.specs.Faults.{as_index};

    ghost from_gives = { λ fault told. told ≡ as_index fault };

    fn from(fault: PageFault) -> Self {
        match fault {
            PageFault::LogFull {
                logger,
                held,
                needed,
            } => IndexFault::LogFull {
                logger,
                held,
                needed,
            },
            PageFault::Media => IndexFault::Media,
            PageFault::Dead | PageFault::SavesFull => IndexFault::Dead,
            PageFault::Damaged { page } => IndexFault::Damaged { page },
        }
    }
}

/// Why a check did not find an index sound, or an attach of records did not.
#[derive(Clone, Copy, Debug, PartialEq, Eq, Error)]
pub enum CheckFault {
    /// This page is the first that fails.
    #[error("page {page} is damaged")]
    Damaged { page: u32 },
    /// The medium failed in this call.
    #[error("the medium failed")]
    Media,
    /// An earlier call met a fault of the medium.
    #[error("the array is dead")]
    Dead,
    /// There was no memory for the records.
    #[error("no memory")]
    NoMemory,
}

// A check only reads.
impl From<PageFault> for CheckFault {
    ghost use Rattle.std.specs.Prelude.{◌≡◌};
    ghost use Rattle.page_store.specs.Faults.{as_check};

    ghost from_gives = { λ fault told. told ≡ as_check fault };

    fn from(fault: PageFault) -> Self {
        match fault {
            PageFault::Damaged { page } => CheckFault::Damaged { page },
            PageFault::Media => CheckFault::Media,
            PageFault::Dead | PageFault::LogFull { .. } | PageFault::SavesFull => CheckFault::Dead,
        }
    }
}

impl From<NoMemory> for CheckFault {
    ghost use Rattle.std.specs.Prelude.{◌≡◌};
    ghost use Rattle.page_store.specs.declared.index_fault.CheckFault.TheVariants as check;

    ghost from_gives = { λ _ told. told ≡ check.NoMemory };

    fn from(_: NoMemory) -> Self {
        CheckFault::NoMemory
    }
}

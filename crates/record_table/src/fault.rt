// Why calls on records are refused.
use history::Reply;
use mars_base::NoMemory;
use page_store::{IndexFault, PageFault};
use thiserror::Error;

/// Why a call on records was refused. `Dead` goes first, then the kinds in their order: a later one comes only if no earlier one does.
#[derive(Clone, Copy, Debug, PartialEq, Eq, Error)]
pub enum TableFault {
    /// The key is new, and all slots are given out.
    #[error("all {slots} slots are given")]
    SlotsFull { slots: u32 },
    /// The key is new, its insertion splits a page, and the index has too few pages left.
    #[error("all {pages} index pages are given")]
    PagesFull { pages: u32 },
    /// The transaction has 32 saves already.
    #[error("the saves are full")]
    SavesFull,
    /// One logger has no room for more: it holds `held` writes of the transaction, and `needed` more are needed.
    #[error("the log of logger {logger} is full: {held} held, {needed} needed")]
    LogFull { logger: u8, held: u16, needed: u16 },
    /// The medium failed in this call.
    #[error("the medium failed")]
    Media,
    /// An earlier call has met a fault of the medium.
    #[error("the array is dead")]
    Dead,
    /// A page that was read breaks the layout. Only a store that does not tell its data gives this refusal.
    #[error("page {page} is damaged")]
    Damaged { page: u32 },
    /// There was no memory for the rows of a scan.
    #[error("no memory")]
    NoMemory,
}

impl From<PageFault> for TableFault {
    ghost use Rattle.std.specs.Prelude.{◌≡◌};
    ghost use Rattle.record_table.specs.Faults.{as_table};

    ghost from_gives = { λ below fault. fault ≡ as_table below };

    fn from(below: PageFault) -> Self {
        match below {
            PageFault::LogFull {
                logger,
                held,
                needed,
            } => TableFault::LogFull {
                logger,
                held,
                needed,
            },
            PageFault::SavesFull => TableFault::SavesFull,
            PageFault::Media => TableFault::Media,
            PageFault::Dead => TableFault::Dead,
            PageFault::Damaged { page } => TableFault::Damaged { page },
        }
    }
}

impl From<IndexFault> for TableFault {
    ghost use Rattle.std.specs.Prelude.{◌≡◌};
    ghost use Rattle.record_table.specs.Faults.{inserted_as};

    ghost from_gives = { λ below fault. fault ≡ inserted_as below };

    fn from(below: IndexFault) -> Self {
        match below {
            IndexFault::SlotsFull { slots } => TableFault::SlotsFull { slots },
            IndexFault::PagesFull { pages } => TableFault::PagesFull { pages },
            IndexFault::LogFull {
                logger,
                held,
                needed,
            } => TableFault::LogFull {
                logger,
                held,
                needed,
            },
            IndexFault::Media => TableFault::Media,
            IndexFault::Dead => TableFault::Dead,
            IndexFault::Damaged { page } => TableFault::Damaged { page },
        }
    }
}

impl From<NoMemory> for TableFault {
    ghost use Rattle.std.specs.Prelude.{◌≡◌};
    ghost use Rattle.record_table.specs.declared.fault.TableFault.TheVariants as table;

    ghost from_gives = { λ _ fault. fault ≡ table.NoMemory };

    fn from(_none: NoMemory) -> Self {
        TableFault::NoMemory
    }
}

/// A refusal as a reply.
impl From<TableFault> for Reply {
    ghost use Rattle.std.specs.Prelude.{◌≡◌};
    ghost use Rattle.record_table.specs.Faults.{reply_to};

    ghost from_gives = { λ fault reply. reply ≡ reply_to fault };

    fn from(fault: TableFault) -> Self {
        match fault {
            TableFault::SlotsFull { slots } => Reply::SlotsFull { slots },
            TableFault::PagesFull { pages } => Reply::PagesFull { pages },
            TableFault::SavesFull => Reply::SavesFull,
            TableFault::LogFull {
                logger,
                held,
                needed,
            } => Reply::LogFull {
                logger,
                held,
                needed,
            },
            TableFault::Media => Reply::Media,
            TableFault::Dead => Reply::Dead,
            TableFault::Damaged { page } => Reply::Damaged { page },
            TableFault::NoMemory => Reply::NoMemory,
        }
    }
}

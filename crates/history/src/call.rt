use crate::Rows;
use record_slots::{Name, Value};

/// A call within a transaction: on a table, or on the transaction's saves.
#[derive(Clone, Copy, Debug, PartialEq, Eq)]
pub enum TableCall {
    Get { table: Name, key: u64 },
    Put { table: Name, key: u64, value: Value },
    Del { table: Name, key: u64 },
    /// The records of a table from one key to another, both included.
    Scan { table: Name, low: u64, high: u64 },
    Save,
    /// Back to a save, counted from 1.
    Back { save: u32 },
}

/// What ends a transaction, offers it to a group, or comes outside of any.
#[derive(Clone, Copy, Debug, PartialEq, Eq)]
pub enum Control {
    Commit,
    Abort,
    /// Gives the transaction to the next group: it takes no more calls, and is committed together with all that were offered by then.
    Offer,
    /// Ends the offered transaction: if no group has committed it yet, all that were offered are committed as one.
    Settle,
    /// Takes keys without records out of the index, so that their slots are given again. It comes outside of any transaction of its
    /// caller's, and leaves each key whose stripe some live transaction has touched.
    Purge,
}

/// What a caller asks for.
#[derive(Clone, Copy, Debug, PartialEq, Eq)]
pub enum Call {
    Begin,
    Table(TableCall),
    Control(Control),
}

/// The reply to a call.
#[derive(Debug, PartialEq, Eq, Drop)]
pub enum Reply {
    /// A begin, a put, the removal of an existing record, a way back, an abort, or an offer was done.
    Fine,
    Found(Value),
    /// There is no such record.
    Absent,
    Listed(Rows),
    /// The transaction now has this many saves.
    Saved(u32),
    /// The number of the transaction in the history, counted from 1.
    Committed(u64),
    /// So many keys without records were taken out of the index.
    Purged(u32),
    NoTransaction,
    /// There is no table of the name that the call asks for.
    NoTable,
    /// A begin or a purge within a transaction, or before the settle of an offered one.
    Already,
    /// The transaction has no such save.
    NoSave { save: u32 },
    /// The transaction has 32 saves already.
    SavesFull,
    /// Another caller's transaction has touched a stripe of the call, and one of the two touches is for writing. `holder` is the lowest
    /// such caller.
    Busy { holder: u8 },
    /// The logger holds `held` parts of the transaction and has no room for the `needed` ones of the call.
    LogFull { logger: u8, held: u16, needed: u16 },
    /// The key is new, and all `slots` slots are given out.
    SlotsFull { slots: u32 },
    /// The key is new, and too few of the index's `pages` pages are left.
    PagesFull { pages: u32 },
    /// The medium failed.
    Media,
    /// The medium has failed in an earlier call.
    Dead,
    NoMemory,
    /// A page that was read breaks the layout. Only a store that does not tell its data gives this reply.
    Damaged { page: u32 },
}

use history::Reply;
use thiserror::Error;

/// Why a core did not do a call.
#[derive(Debug, PartialEq, Eq, Drop, Error)]
pub enum Refusal {
    /// The caller has no live transaction.
    #[error("no transaction")]
    NoTransaction,
    /// There is no table of this name.
    #[error("no table")]
    NoTable,
    /// The caller has a live transaction already.
    #[error("a transaction is live already")]
    Already,
    /// The transaction has no such save.
    #[error("there is no save {save}")]
    NoSave { save: u32 },
    /// The transaction has 32 saves, which are the most.
    #[error("all 32 saves are taken")]
    SavesFull,
    /// Another caller's transaction holds a stripe of the call: try again when that one has ended. It is the lowest such caller.
    #[error("caller {holder} holds the key")]
    Busy { holder: u8 },
    /// The logger holds `held` parts of the transaction, and has no room for `needed` more.
    #[error("logger {logger} holds {held} parts and has no room for {needed} more")]
    LogFull { logger: u8, held: u16, needed: u16 },
    /// The key is new, and all slots are allocated.
    #[error("all {slots} slots are allocated")]
    SlotsFull { slots: u32 },
    /// The key is new, and the index has too few pages left.
    #[error("too few of {pages} pages are left")]
    PagesFull { pages: u32 },
    /// The medium failed in this call. A transaction that was being committed may be there or not: open the array again.
    #[error("the medium failed")]
    Media,
    /// The medium failed in an earlier call: open the array again.
    #[error("the medium has failed before")]
    Dead,
    #[error("no memory")]
    NoMemory,
    /// A page that was read breaks the layout. Only a core that does not tell its records answers so.
    #[error("page {page} is damaged")]
    Damaged { page: u32 },
    /// A reply that tells of another call. Only a core that does not tell its records gives one.
    #[error("another reply")]
    Strange(Reply),
}

/// Why a call was not done, in the place of the reply that tells it.
impl From<Reply> for Refusal {
    ghost use Rattle.std.specs.Prelude.{◌≡◌};
    ghost use Rattle.transactions.specs.Told.{reply_of, refusal_of};

    ghost from_gives = { λ reply refusal. (refusal ≡ refusal_of reply) × (reply_of refusal ≡ reply) };

    fn from(reply: Reply) -> Self {
        match reply {
            Reply::NoTransaction => Refusal::NoTransaction,
            Reply::NoTable => Refusal::NoTable,
            Reply::Already => Refusal::Already,
            Reply::NoSave { save } => Refusal::NoSave { save },
            Reply::SavesFull => Refusal::SavesFull,
            Reply::Busy { holder } => Refusal::Busy { holder },
            Reply::LogFull {
                logger,
                held,
                needed,
            } => Refusal::LogFull {
                logger,
                held,
                needed,
            },
            Reply::SlotsFull { slots } => Refusal::SlotsFull { slots },
            Reply::PagesFull { pages } => Refusal::PagesFull { pages },
            Reply::Media => Refusal::Media,
            Reply::Dead => Refusal::Dead,
            Reply::NoMemory => Refusal::NoMemory,
            Reply::Damaged { page } => Refusal::Damaged { page },
            reply => Refusal::Strange(reply),
        }
    }
}

use eaw_face::EawFault;
use thiserror::Error;

/// Why a call of pages was refused.
#[derive(Clone, Copy, Debug, PartialEq, Eq, Error)]
pub enum PageFault {
    /// One logger has no room for one more part: it holds `held` parts of the number, and `needed` more are needed.
    #[error("the log of logger {logger} is full: {held} held, {needed} needed")]
    LogFull { logger: u8, held: u16, needed: u16 },
    /// The transaction has 32 saves already.
    #[error("the saves are full")]
    SavesFull,
    /// The medium failed in this call.
    #[error("the medium failed")]
    Media,
    /// An earlier call met a fault of the medium.
    #[error("the array is dead")]
    Dead,
    /// A page that was read breaks the layout. Look-ups in a sound index answer it only over a store that does not tell its data.
    #[error("page {page} is damaged")]
    Damaged { page: u32 },
}

// Pages ask the store for no number that it does not know.
impl From<EawFault> for PageFault {
    ghost use Rattle.std.specs.Prelude.{◌≡◌};
    ghost use Rattle.page_store.specs.Told.{told_as};

    ghost from_gives = { λ fault told. told ≡ told_as fault };

    fn from(fault: EawFault) -> Self {
        match fault {
            EawFault::LogFull {
                logger,
                held,
                needed,
            } => PageFault::LogFull {
                logger,
                held,
                needed,
            },
            EawFault::Media => PageFault::Media,
            EawFault::Dead | EawFault::UnknownTid { .. } => PageFault::Dead,
        }
    }
}

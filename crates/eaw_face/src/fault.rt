use thiserror::Error;

/// Why a command was refused.
#[derive(Clone, Copy, Debug, PartialEq, Eq, Error)]
pub enum EawFault {
    /// The array has no such transaction number, or the number has no log.
    #[error("number {tid} is unknown")]
    UnknownTid { tid: u8 },
    /// One logger has no room for the write: it holds `held` parts of the number, and `needed` more are needed.
    #[error("the log of logger {logger} is full: {held} held, {needed} needed")]
    LogFull { logger: u8, held: u16, needed: u16 },
    /// The medium failed in this call.
    #[error("the medium failed")]
    Media,
    /// An earlier call met a fault of the medium.
    #[error("the array is dead")]
    Dead,
}

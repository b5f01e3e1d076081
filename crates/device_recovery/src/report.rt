// What recovery answers.
use mars_base::Failed;
use thiserror::Error;

/// The voted rows that recovery found.
#[derive(Clone, Copy, Debug, PartialEq, Eq)]
pub struct Report {
    /// Those that were decided: their parts are in the data now.
    pub decided: u32,
    /// The others: their parts are not.
    pub dropped: u32,
}

/// Why an array was not recovered.
#[derive(Clone, Copy, Debug, PartialEq, Eq, Error)]
pub enum RecoverFault {
    /// A decided row names cells that are not there, or one that holds no part of its logger. Nothing was written.
    #[error("bad row {logger} {tid}")]
    BadRow { logger: u8, tid: u8 },
    /// The medium failed.
    #[error("the medium failed")]
    Media,
}

impl From<Failed> for RecoverFault {
    ghost use Rattle.std.specs.Prelude.{◌≡◌};
    ghost use Rattle.device_recovery.specs.declared.report.RecoverFault.TheVariants.{Media};

    ghost from_gives = { λ _ e. e ≡ Media };

    fn from(_: Failed) -> Self {
        RecoverFault::Media
    }
}

use array_shape::BadShape;
use device_recovery::RecoverFault;
use mars_base::Failed;
use row_bytes::HeaderFault;
use thiserror::Error;

/// Why a medium was not opened. Unless it is `Media`, nothing was written.
#[derive(Clone, Copy, Debug, PartialEq, Eq, Error)]
pub enum AttachFault {
    /// It has fewer than 512 bytes, or does not begin with the mark of an array.
    #[error("not mars")]
    NotMars,
    /// A number of the header is out of range, or the medium has another length than the header says.
    #[error("{0}")]
    BadShape(BadShape),
    /// A decided row names cells that are not there, or one that holds no part of its logger.
    #[error("bad row {logger} {tid}")]
    BadRow { logger: u8, tid: u8 },
    /// The medium failed.
    #[error("the medium failed")]
    Media,
    #[error("no memory")]
    NoMemory,
}

impl From<Failed> for AttachFault {
    ghost use Rattle.std.specs.Prelude.{◌≡◌};
    ghost use Rattle.eaw_device.specs.declared.fault.AttachFault.TheVariants.{Media};

    ghost from_gives = { λ _ fault. fault ≡ Media };

    fn from(_: Failed) -> Self {
        AttachFault::Media
    }
}

impl From<HeaderFault> for AttachFault {
    ghost use Rattle.std.specs.Prelude.{◌≡◌};
    ghost use Rattle.eaw_device.specs.Attaching.{header_fault};

    ghost from_gives = { λ wrong fault. fault ≡ header_fault wrong };

    fn from(wrong: HeaderFault) -> Self {
        match wrong {
            HeaderFault::NotMars => AttachFault::NotMars,
            HeaderFault::BadShape(bad) => AttachFault::BadShape(bad),
        }
    }
}

impl From<RecoverFault> for AttachFault {
    ghost use Rattle.std.specs.Prelude.{◌≡◌};
    ghost use Rattle.eaw_device.specs.Attaching.{recovery_fault};

    ghost from_gives = { λ refused fault. fault ≡ recovery_fault refused };

    fn from(refused: RecoverFault) -> Self {
        match refused {
            RecoverFault::BadRow { logger, tid } => AttachFault::BadRow { logger, tid },
            RecoverFault::Media => AttachFault::Media,
        }
    }
}

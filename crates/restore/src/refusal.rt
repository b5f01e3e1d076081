// Why nothing was restored.
use command_words::WordsFault;
use restore_runs::Stop;
use std::io;
use std::io::ErrorKind;
use thiserror::Error;

/// Why nothing was restored. What stands at the path is as it was.
#[derive(Debug, Drop, Error)]
pub enum Refusal {
    #[error("usage")]
    Usage,
    #[error("no memory")]
    NoMemory,
    /// Something stands at the path.
    #[error("exists")]
    Exists,
    /// What stands at the path is no array.
    #[error("not mars")]
    NotMars,
    /// What stands at the path was not read.
    #[error("media fault")]
    Media,
    /// The image was not written.
    #[error("write fault: {0}")]
    Write(io::Error),
    #[error("{0}")]
    Stop(Stop),
}

impl Refusal {
    /// The status that the process ends with.
    pub fn number(&self) -> u8 {
        match self {
            Refusal::Usage => 2,
            Refusal::Write(_) => 5,
            Refusal::Media => 6,
            Refusal::NoMemory => 7,
            Refusal::NotMars => 9,
            Refusal::Exists => 10,
            Refusal::Stop(stop) => stop.number(),
        }
    }
}

impl From<WordsFault> for Refusal {
    fn from(fault: WordsFault) -> Self {
        match fault {
            WordsFault::NoCommand => Refusal::Usage,
            WordsFault::NoMemory => Refusal::NoMemory,
        }
    }
}

impl From<Stop> for Refusal {
    fn from(stop: Stop) -> Self {
        Refusal::Stop(stop)
    }
}

impl From<io::Error> for Refusal {
    fn from(error: io::Error) -> Self {
        match error.kind() {
            ErrorKind::AlreadyExists => Refusal::Exists,
            ErrorKind::OutOfMemory => Refusal::NoMemory,
            _ => Refusal::Write(error),
        }
    }
}

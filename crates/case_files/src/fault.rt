use std::alloc::{AllocError, AllocFailed};
use thiserror::Error;

/// What is wrong with a line.
#[derive(Clone, Copy, Debug, PartialEq, Eq, Error)]
pub enum LineFault {
    #[error("no line begins with this word")]
    Word,
    #[error("a number is wrong")]
    Number,
    #[error("bytes are wrong")]
    Hex,
    #[error("a repetition is wrong")]
    Repetition,
    #[error("an escape is wrong")]
    Escape,
    #[error("an image is `fresh L T E P` or `zeros N`")]
    Image,
    #[error("what fails is `read`, `write` or `medium`")]
    Trouble,
    #[error("a place is `began`, `answered`, `offered`, `ended` or `read`, and six numbers follow")]
    Hold,
    #[error("two words are needed here")]
    Missing,
    #[error("no memory")]
    NoMemory,
}

impl<T: Drop> From<AllocFailed<T>> for LineFault {
    fn from(_: AllocFailed<T>) -> Self {
        LineFault::NoMemory
    }
}

impl From<AllocError> for LineFault {
    fn from(_: AllocError) -> Self {
        LineFault::NoMemory
    }
}

/// Why a file has no cases: what is wrong with this line of it.
#[derive(Clone, Copy, Debug, Error)]
#[error("{line}: {fault}")]
pub struct BadLine {
    pub line: usize,
    pub fault: LineFault,
}

use array_shape::BadShape;
use mars_base::NoMemory;
use std::alloc::{AllocError, AllocFailed, Global};
use thiserror::Error;

/// Why a case does not pass.
#[derive(Clone, Copy, Debug, Error)]
pub enum CaseFault {
    #[error("{what}")]
    Differs { what: &'static str },
    #[error("there is no such array")]
    Shape,
    #[error("the image has no such place")]
    Place,
    #[error("the image can't be opened")]
    Opening,
    #[error("no memory")]
    NoMemory,
}

impl CaseFault {
    /// Whether it is this that is not as the case says.
    pub fn is_of(self, wrong: &str) -> bool {
        match self {
            CaseFault::Differs { what } => what == wrong,
            CaseFault::Shape | CaseFault::Place | CaseFault::Opening | CaseFault::NoMemory => false,
        }
    }
}

impl From<NoMemory> for CaseFault {
    fn from(_: NoMemory) -> Self {
        CaseFault::NoMemory
    }
}

impl<T: Drop> From<AllocFailed<T>> for CaseFault {
    fn from(_: AllocFailed<T>) -> Self {
        CaseFault::NoMemory
    }
}

impl From<AllocError> for CaseFault {
    fn from(_: AllocError) -> Self {
        CaseFault::NoMemory
    }
}

impl From<BadShape> for CaseFault {
    fn from(_: BadShape) -> Self {
        CaseFault::Shape
    }
}

/// What a case wants and what there was in its place, for a reader.
#[derive(Drop)]
pub struct Report {
    pub wanted: Vec<u8>,
    pub was: Vec<u8>,
}

// As many bytes as one wants to read.
const SHOWN: usize = 2000;

// Puts bytes into a report, as far as memory reaches.
fn put(out: &mut Vec<u8>, bytes: &[u8]) {
    let _ = out.extend_from_slice(&bytes[..bytes.len().min(SHOWN)]);
}

impl Report {
    pub fn new(alloc: Global) -> Report {
        Report {
            wanted: Vec::new(alloc),
            was: Vec::new(alloc),
        }
    }

    pub fn put_wanted(&mut self, bytes: &[u8]) {
        put(&mut self.wanted, bytes);
    }

    pub fn put_was(&mut self, bytes: &[u8]) {
        put(&mut self.was, bytes);
    }

    /// The fault that this is not as the case says.
    pub fn differs(&mut self, what: &'static str, wanted: &[u8], was: &[u8]) -> CaseFault {
        self.put_wanted(wanted);
        self.put_was(was);
        CaseFault::Differs { what }
    }
}

use thiserror::Error;

/// Why a piece of a stream of frames was not followed to its end.
#[derive(Clone, Copy, Debug, PartialEq, Eq, Error)]
pub enum FollowFault {
    /// Nothing makes the bytes a frame that the array can follow.
    #[error("bad frame")]
    BadFrame,
    /// A frame is not the next one. `expected` is 0 behind the last sequence that there is.
    #[error("gap {expected} {got}")]
    Gap { expected: u64, got: u64 },
    /// The medium failed in this call.
    #[error("the medium failed")]
    Media,
    /// An earlier call answered a fault.
    #[error("the follower is dead")]
    Dead,
    /// Memory ran out.
    #[error("no memory")]
    NoMemory,
}

/// How a run of lines that say frames ended.
#[derive(Clone, Copy, Debug, PartialEq, Eq)]
pub enum FollowEnd {
    /// Each line was followed or passed over.
    All,
    /// The rest of this line, counted from 1, is not just one whole frame that the array can follow, in hexadecimal.
    BadFrame { line: u64 },
    /// A frame is not the next one. `expected` is 0 behind the last sequence that there is.
    Gap { expected: u64, got: u64 },
    /// The sink took only part of what was told of a frame.
    WriteFault,
    /// The medium failed in what a frame asks for.
    MediaFault,
    /// There was no memory for a frame.
    NoMemory,
}

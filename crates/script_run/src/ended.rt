/// How a script ended.
#[derive(Clone, Copy, Debug, PartialEq, Eq)]
pub enum Ended {
    /// Each line was answered.
    All,
    /// The sink took only part of an answer.
    WriteFault,
    /// The medium failed in what a line asks for.
    MediaFault,
    /// There was no memory for a line or its answer.
    NoMemory,
}

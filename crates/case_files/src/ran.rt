use crate::traced::Record;
use outside::MemorySink;
use pcm_media::MemoryMedia;

/// What a run came to.
#[derive(Drop)]
pub struct Ran {
    /// The number of its status, and the text told of it.
    pub status: u64,
    pub fault: Vec<u8>,
    pub sink: MemorySink,
    /// Whether a call of the medium failed, or one of the file.
    pub has_failed: bool,
    /// The calls that it made of the medium, the first first.
    pub calls: Vec<Record>,
    /// A medium with what it left.
    pub media: MemoryMedia,
}

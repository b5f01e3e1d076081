// Buffers for the bytes of a command.
use script_text::BLOCK;

// The most bytes that a part has.
pub const PART: usize = 512;

/// Room for the bytes that a command writes or reads, and for those of a logged part.
#[derive(Drop)]
pub struct Buffers {
    pub block: [u8; BLOCK],
    pub part: [u8; PART],
}

impl Buffers {
    pub fn new() -> Buffers {
        Buffers {
            block: [0; BLOCK],
            part: [0; PART],
        }
    }
}

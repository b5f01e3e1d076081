// A piece of an image.

/// The most bytes that a piece has at hand.
pub const PIECE_LEN: usize = 65536;

/// A piece of an image.
#[derive(Clone, Copy, Debug, PartialEq, Eq)]
pub enum Piece {
    /// So many bytes, which lie at this place of the image.
    Bytes { at: u64, len: usize },
    /// So many zeros.
    Zeros { len: u64 },
}

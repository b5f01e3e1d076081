// The image of a new array.
ghost use Rattle.std.specs.Prelude.{◌≡◌, ◌+◌, [], ℕ, length, MatchOption};
ghost use Rattle.eaw_device.specs.Made.{IsNew};
ghost use Rattle.image_pieces.specs.Pieces.{IsNext};

use crate::piece::{PIECE_LEN, Piece};
use crate::stages::{Stage, step};
use array_shape::Shape;
use eaw_device::PageSource;
use std::marker::Model;

/// The image of a new array of a shape whose data has the pages of a source. It is taken piece by piece, and is never whole in memory.
#[derive(Drop)]
pub struct ArrayImage<P: PageSource> {
    shape: Shape,
    source: P,
    stage: Stage,
}

impl<P: PageSource> Model for ArrayImage<P> {
    ghost use Rattle.std.specs.Prelude.{◌≡◌, ℕ, length};
    ghost use Rattle.image_pieces.specs.Image.{IsStage, rest_of};
    ghost use Rattle.image_pieces.specs.Pieces.{Rest};

    ghost Value = { Rest };

    ghost view = { λ i. rest_of i.shape (P.pages i.source) i.stage };

    ghost invariant = { λ i. IsStage i.shape i.stage × ((page : ℕ) → length (P.pages i.source page) ≡ 512) };
}

impl<P: PageSource> ArrayImage<P> {
    /// The whole image, of which no piece is taken yet.
    pub fn new(shape: &Shape, source: P) -> ArrayImage<P>
        requires { (page : ℕ) → length (P.pages source page) ≡ 512 }
        ensures first { result.at ≡ 0 }
        ensures new { IsNew shape.now (P.pages source) result.left }
    {
        ArrayImage {
            shape: *shape,
            source,
            stage: Stage::Header,
        }
    }

    /// The length of the whole image.
    pub fn len(&self) -> u64
        ensures { result ≡ self.now.at + length self.now.left }
    {
        self.shape.media_len()
    }

    /// Takes the next piece. Bytes stand at the front of `out`.
    pub fn next(&mut self, out: &mut [u8; PIECE_LEN]) -> Option<Piece>
        ensures { MatchOption result (self.old.left ≡ []) (λ piece. IsNext self.old piece out.new self.new) }
    {
        let (piece, stage) = step(&self.shape, &self.source, self.stage, out)?;
        self.stage = stage;
        Some(piece)
    }
}

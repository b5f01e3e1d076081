// Short texts that need no memory.
ghost use Rattle.std.specs.Prelude.{◌≡◌, ◌+◌, ◌≤◌, ◌++◌, length};
ghost use Rattle.std.specs.List.{sum_by};
ghost use Rattle.texts.specs.Pieces.{piece_text, text_of, most_bytes};

use crate::pieces::Piece;
use itoa::Buffer;
use std::marker::Model;

// The most bytes of a short text.
const ROOM: usize = 80;

/// A text of at most 80 bytes, which is formed without memory, so that what is told of a lack of memory or a fault does not depend on it.
/// Contracts see the list of its bytes.
#[derive(Drop)]
pub struct ShortText {
    bytes: [u8; ROOM],
    len: usize,
}

impl Model for ShortText {
    ghost use Rattle.std.specs.Prelude.{List, ℕ, ◌≤◌, take};

    ghost Value = { List ℕ };

    ghost view = { λ t. take t.len t.bytes };

    ghost invariant = { λ t. t.len ≤ 80 };
}

impl ShortText {
    /// The text of pieces, for which there has to be room, with 20 bytes for each number.
    #[inline(always)]
    pub fn of(pieces: &[Piece<'_>]) -> ShortText
        requires { sum_by most_bytes pieces.now ≤ 80 }
        ensures text { result ≡ text_of pieces.now }
        ensures most { length result ≤ sum_by most_bytes pieces.now }
    {
        let mut text = ShortText {
            bytes: [0; ROOM],
            len: 0,
        };
        for piece in pieces {
            text.add(piece);
        }
        text
    }

    fn add(&mut self, piece: &Piece<'_>)
        requires { length self.old + most_bytes piece.now ≤ 80 }
        ensures text { self.new ≡ self.old ++ piece_text piece.now }
        ensures room { length self.new ≤ length self.old + most_bytes piece.now }
    {
        match piece {
            Piece::Words(words) => self.add_words(words),
            Piece::Number(n) => {
                let mut buffer = Buffer::new();
                self.add_words(buffer.format(*n).as_bytes());
            }
        }
    }

    fn add_words(&mut self, words: &[u8])
        requires { length self.old + length words.now ≤ 80 }
        ensures { self.new ≡ self.old ++ words.now }
    {
        let end = self.len + words.len();
        self.bytes[self.len..end].copy_from_slice(words);
        self.len = end;
    }

    pub fn as_bytes(&self) -> &[u8]
        ensures { result.now ≡ self.now }
    {
        &self.bytes[..self.len]
    }
}

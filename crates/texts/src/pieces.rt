// Texts in pieces.
ghost use Rattle.std.specs.Prelude.{decimal};
ghost use Rattle.texts.specs.Pieces.{piece_text, text_of};
ghost use Rattle.texts.specs.Written.{Appends};

use crate::text_out::TextOut;
use itoa::Buffer;

/// A piece of a text.
#[derive(Clone, Copy, Debug)]
pub enum Piece<'a> {
    Words(&'a [u8]),
    /// A number in decimal.
    Number(u64),
}

/// Puts the pieces one after another.
pub fn put_pieces<E, T: TextOut<E>>(out: &mut T, pieces: &[Piece<'_>]) -> Result<(), E>
    ensures { Appends T.tells (T.view out.old) (T.view out.new) result (text_of pieces.now) }
{
    for piece in pieces {
        put_piece(out, piece)?;
    }
    Ok(())
}

fn put_piece<E, T: TextOut<E>>(out: &mut T, piece: &Piece<'_>) -> Result<(), E>
    ensures { Appends T.tells (T.view out.old) (T.view out.new) result (piece_text piece.now) }
{
    match piece {
        Piece::Words(words) => out.put(words),
        Piece::Number(n) => put_number(out, *n),
    }
}

/// Puts a number in decimal.
pub fn put_number<E, T: TextOut<E>>(out: &mut T, n: u64) -> Result<(), E>
    ensures { Appends T.tells (T.view out.old) (T.view out.new) result (decimal n) }
{
    let mut buffer = Buffer::new();
    out.put(buffer.format(n).as_bytes())
}

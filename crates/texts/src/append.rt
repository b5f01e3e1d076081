ghost use Rattle.std.specs.Prelude.{◌≡◌, ◌++◌, OnOk, OnErr};
ghost use Rattle.texts.specs.Pieces.{text_of};

use crate::pieces::{Piece, put_pieces};
use mars_base::NoMemory;

/// Appends the pieces one after another, or nothing.
pub fn append_pieces(out: &mut Vec<u8>, pieces: &[Piece<'_>]) -> Result<(), NoMemory>
    ensures ok { OnOk result (out.new.items ≡ out.old.items ++ text_of pieces.now) }
    ensures err { OnErr result (out.new.items ≡ out.old.items) }
{
    let start = out.len();
    let answer = put_pieces(out, pieces);
    if answer.is_err() {
        out.truncate(start);
    }
    answer
}

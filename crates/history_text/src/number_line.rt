// Lines of a word and a number.
ghost use Rattle.std.specs.Prelude.{◌≡◌, ◌++◌, OnOk};
ghost use Rattle.history_text.specs.Text.{number_line};

use mars_base::NoMemory;
use texts::{Piece, append_pieces};

/// Appends a line of a word and a number.
pub fn append_number(text: &mut Vec<u8>, word: &[u8], n: u64) -> Result<(), NoMemory>
    ensures { OnOk result (text.new.items ≡ text.old.items ++ number_line word.now n) }
{
    append_pieces(
        text,
        &[
            Piece::Words(word),
            Piece::Words(b" "),
            Piece::Number(n),
            Piece::Words(b"\n"),
        ],
    )
}

// The texts of keys.
ghost use Rattle.std.specs.Prelude.{◌≡◌, ◌++◌, OnOk};
ghost use Rattle.history_text.specs.Text.{key_text};

use history::{Key, main_table};
use mars_base::NoMemory;
use texts::{Piece, append_pieces};

/// Appends the number of a key, and before it the name of its table, unless that is `main`.
pub fn append_key(text: &mut Vec<u8>, key: &Key) -> Result<(), NoMemory>
    ensures { OnOk result (text.new.items ≡ text.old.items ++ key_text key.now) }
{
    let main = main_table();
    if key.table.as_bytes() == main.as_bytes() {
        return append_pieces(text, &[Piece::Number(key.key)]);
    }
    append_pieces(
        text,
        &[
            Piece::Words(b"@"),
            Piece::Words(key.table.as_bytes()),
            Piece::Words(b" "),
            Piece::Number(key.key),
        ],
    )
}

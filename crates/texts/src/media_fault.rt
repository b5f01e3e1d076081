// What is said of a fault of the medium.
ghost use Rattle.std.specs.Prelude.{◌≡◌};
ghost use Rattle.texts.specs.MediaFault.{numbered_media_line};

use crate::pieces::Piece;
use crate::short_text::ShortText;

/// The words for a fault of the medium.
pub const MEDIA_FAULT: &[u8] = b"media fault";

/// A line of these words alone.
pub const MEDIA_LINE: &[u8] = b"media fault\n";

/// The line that says so in answer to a caller or a number. It needs no memory.
pub fn numbered_media_line(number: u8) -> ShortText
    ensures { result ≡ numbered_media_line number }
{
    ShortText::of(&[
        Piece::Number(u64::from(number)),
        Piece::Words(b" "),
        Piece::Words(MEDIA_LINE),
    ])
}

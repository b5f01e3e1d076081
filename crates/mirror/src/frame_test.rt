// Whether bytes are one whole frame.
ghost use Rattle.std.specs.Prelude.{◌↔◌, IsTrue};
ghost use Rattle.eaw_face.specs.Frame.{AreFrame};

use crate::place::Place;
use array_shape::Shape;

/// Whether these bytes are just one whole frame, of any sequence, that an array of this shape can follow: its numbers and ranges are in the
/// shape, and its parts have room in the logs.
pub fn is_frame(bytes: &[u8], shape: Shape) -> bool
    ensures { IsTrue result ↔ AreFrame shape bytes.now }
{
    let mut place = Place::start();
    for byte in bytes {
        match place.after(shape, *byte) {
            Some(next) => place = next,
            None => return false,
        }
    }
    place.is_end()
}

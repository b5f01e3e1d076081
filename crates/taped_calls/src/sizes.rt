// How large an array is.
ghost use Rattle.taped_calls.specs.Formats.{IsSize};

use array_shape::Shape;

/// How many bytes an array of this shape takes: 0 if there is none.
pub fn array_size(loggers: u8, numbers: u8, entries: u16, pages: u32) -> u64
    ensures { IsSize loggers numbers entries pages result }
{
    match Shape::new(loggers, numbers, entries, pages) {
        Ok(shape) => shape.media_len(),
        Err(_) => 0,
    }
}

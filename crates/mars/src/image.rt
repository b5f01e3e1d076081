// Images in memory.
ghost use Rattle.std.specs.Prelude.{◌≡◌, IfOk};
ghost use Rattle.array_shape.specs.declared.shape.Shape.{Shape};
ghost use Rattle.blank_media.specs.Changes.{blank, content_of};
ghost use Rattle.eaw_device.specs.Fresh.{IsFresh};

use array_shape::Shape;
use blank_media::BlankMedia;
use eaw_device::format;
use mars_base::NoMemory;
use std::alloc::Global;

/// A fresh array of the default numbers in memory.
pub fn fresh_image(alloc: Global) -> Result<BlankMedia, NoMemory>
    ensures fresh { IfOk result (λ media. (shape : Shape) × ⟦<Shape as Default>⟧.is_default shape × IsFresh shape (content_of media)) }
{
    let shape = Shape::default();
    let mut media = BlankMedia::new(alloc, shape.media_len())?;
    match format(&mut media, &shape) {
        Ok(()) => Ok(media),
        // A medium in memory fails only at the last moment, long after these writes.
        Err(_) => Err(NoMemory),
    }
}

/// An image of no bytes, which stands for a file that does not exist.
pub fn no_image(alloc: Global) -> Result<BlankMedia, NoMemory>
    ensures { IfOk result (λ media. media ≡ blank 0) }
{
    BlankMedia::new(alloc, 0)
}

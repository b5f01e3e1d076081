// The counter of a fresh array.
ghost use Rattle.std.specs.Prelude.{◌≡◌};
ghost use Rattle.pcm_media.specs.Images.{Content};
ghost use Rattle.array_shape.specs.declared.shape.Shape.{Shape};
ghost use Rattle.array_shape.specs.Places.{IsShape};
ghost use Rattle.array_image.specs.Image.{data_of};
ghost use Rattle.eaw_device.specs.Fresh.{IsFresh};
ghost use Rattle.counter.specs.Counts.{number_in};

/// The counter of an array that was just formatted is at 0.
pub fn fresh_array_says_zero()
    ensures { (shape : Shape) (content : Content) → IsShape shape → IsFresh shape content → number_in (data_of shape content.bytes) ≡ 0 }
{}

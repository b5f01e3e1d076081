// What an open array is.
ghost use Rattle.std.specs.Prelude.{◌≡◌};
ghost use Rattle.array_shape.specs.Places.{data_len};
ghost use Rattle.taped_array.specs.Shown.{store_in};

use eaw_device::{AnyDepth, Eaw};
use eaw_face::EawStore;
use tape_media::TapeMedia;

/// An array in memory, with a tape of what is still to be done on the device.
pub type TapedArray = Eaw<TapeMedia, AnyDepth>;

/// An array that is open.
#[derive(Drop)]
pub struct OpenArray {
    pub(crate) store: TapedArray,
}

impl OpenArray {
    /// How many bytes its data has.
    pub fn len(&self) -> u64
        ensures { result ≡ data_len (store_in self.now).shape }
    {
        self.store.shape().data_len()
    }
}

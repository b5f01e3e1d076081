// An array over a medium whose work on the device is left to its caller.
ghost use Rattle.std.specs.Prelude.{refl};
ghost use Rattle.eaw_device.specs.Sound.{view_of};

use super::Eaw;
use crate::depth::Depth;
use pcm_media::Media;
use tape_media::{Piece, TapeMedia};
use taped_store::TapedStore;

impl<D: Depth> TapedStore for Eaw<TapeMedia, D> {
    ghost tape = { λ s. s.media };

    ghost device = { λ s. refl };

    fn next_piece(&self) -> Option<&Piece> {
        self.media.next()
    }

    fn piece_done(&mut self) {
        self.media.done();
    }

    fn piece_failed(&mut self) {
        self.media.failed();
    }

    fn moment(&self) -> u64 {
        self.media.moment()
    }

    fn done_up_to(&self) -> u64 {
        self.media.done_up_to()
    }
}

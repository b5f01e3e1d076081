// A fresh array: data without records.
ghost use Rattle.std.specs.Prelude.{◌≡◌, ◌≢◌, ◌≤◌, IsTrue, IfErr, OnOk, IsErrOf};
ghost use Rattle.mars_base.specs.Causes.{Rose};
ghost use Rattle.pcm_media.specs.View.{LeavesOnly};
ghost use Rattle.array_shape.specs.Places.{media_len};
ghost use Rattle.array_image.specs.Image.{data_of};
ghost use Rattle.array_image.specs.Standing.{SameCells};
ghost use Rattle.record_slots.specs.Fresh.{fresh_page};
ghost use Rattle.eaw_device.specs.Attaching.{AllOpenWith};
ghost use Rattle.eaw_device.specs.Made.{LeavesAsRead, IsOldOrNew, IsWrongLength};
ghost use Rattle.eaw_device.specs.Fresh.{IsFresh};

use crate::making::{FormatFault, PageSource, make};
use array_shape::Shape;
use pcm_media::Media;
use record_slots::fresh_page;

// The pages of data without records.
struct FreshPages;

impl PageSource for FreshPages {
    ghost use Rattle.record_slots.specs.Fresh.{fresh_page};

    ghost pages = { λ _. fresh_page };

    fn page(&self, page: u64, out: &mut [u8; 512]) {
        *out = fresh_page(page);
    }
}

/// Makes a fresh array of this shape, whose data has no records, as `make` does.
pub fn format<M: Media>(media: &mut M, shape: &Shape) -> Result<(), FormatFault>
    // Whatever a loss of power leaves after it is the fresh array, and opens.
    ensures fresh { IsTrue M.tells → OnOk result (IsFresh shape.now (M.view media.new).content) }
    ensures sure { IsTrue M.tells → OnOk result (LeavesAsRead (M.view media.new).content) }
    ensures opens { IsTrue M.tells → OnOk result (AllOpenWith shape.now (M.view media.new).content (data_of shape.now (M.view media.new).content.bytes)) }
    ensures any_moment { IsTrue M.tells → LeavesOnly (IsOldOrNew shape.now fresh_page (M.view media.old).content) (M.view media.old) (M.view media.new) }
    ensures cells { IsTrue M.tells → SameCells shape.now (M.view media.old).content.bytes (M.view media.new).content.bytes }
    ensures sized { OnOk result ((M.view media.old).size ≡ media_len shape.now) }
    ensures bad_shape { IfErr result (IsWrongLength shape.now (M.view media.old).size) }
    ensures untouched { IfErr result (λ fault. fault ≢ FormatFault.Media → media.new ≡ media.old) }
    ensures media { IsErrOf result FormatFault.Media → Rose (M.view media.old).faults (M.view media.new).faults }
    ensures kept { OnOk result ((M.view media.new).faults ≡ (M.view media.old).faults) }
    ensures size { (M.view media.new).size ≡ (M.view media.old).size }
    ensures later { (M.view media.old).faults ≤ (M.view media.new).faults }
{
    make(media, shape, &FreshPages)
}

// What an open array is.
ghost use Rattle.std.specs.Prelude.{◌≡◌, ◌≤◌};
ghost use Rattle.caller_steps.specs.Sound.{IsSound};

use crate::sound::Sound;
use btree_pages::BTreePages;
use caller_steps::Core as Steps;
use eaw_device::{AnyDepth, Eaw};
use history::Rows;
use mars_core::Core;
use noted::KeepsNothing;
use tape_media::TapeMedia;

/// Records on an array in memory, with a tape of what is still to be done on the device.
pub type TapedCore = Core<Eaw<TapeMedia, AnyDepth>, BTreePages, KeepsNothing>;

/// A core, how many callers it serves, the rows of the last scan, and how many keys a cursor reads at first.
#[derive(Drop)]
pub struct TapedRecords {
    pub(crate) core: Sound<TapedCore>,
    pub(crate) callers: u8,
    pub(crate) rows: Rows,
    pub(crate) window: u64,
    ghost inside: { callers ≤ (⟦<TapedCore as Steps>⟧.view core).limits.callers },
}

impl TapedRecords {
    pub fn new(core: TapedCore, callers: u8, rows: Rows) -> TapedRecords
        requires inside { callers ≤ (⟦<TapedCore as Steps>⟧.view core).limits.callers }
        requires sound { IsSound (⟦<TapedCore as Steps>⟧.view core).state }
        ensures core { result.core ≡ core }
        ensures callers { result.callers ≡ callers }
        ensures rows { result.rows ≡ rows }
    {
        TapedRecords {
            core: Sound::of(core),
            callers,
            rows,
            window: 1,
        }
    }
}

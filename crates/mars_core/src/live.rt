// A live transaction: its granted calls and the stripes that they touched.
ghost use Rattle.std.specs.Prelude.{◌≡◌, [], false};
ghost use Rattle.mars_core.specs.Masks.{AreMasksOf};

use crate::masks::Masks;
use noted::{Keeper, LiveCalls};
use std::alloc::Global;

/// The calls, each with its reply, and what they touched where the tables have the names that are kept with the seats.
#[derive(Drop)]
pub struct Live<C> {
    pub calls: C,
    pub masks: Masks,
}

impl<H: Keeper> Live<LiveCalls<H>> {
    /// A transaction without calls.
    pub fn new(alloc: Global) -> Live<LiveCalls<H>>
        ensures calls { result.calls ≡ [] }
        ensures masks { AreMasksOf (λ stripe mode. false) result.masks }
    {
        Live {
            calls: LiveCalls::new(alloc),
            masks: Masks::none(),
        }
    }
}

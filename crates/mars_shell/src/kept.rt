// What a core has kept in memory.
ghost use Rattle.std.specs.Prelude.{◌≡◌, IsTrue, IsFalse};

use caller_steps::Core as Steps;
use eaw_face::EawStore;
use history::{Done, Tables};
use mars_core::Core;
use noted::Keeper;
use page_store::KeyIndex;

/// All transactions that were committed, if the core keeps them and gives none up.
pub fn history_of<S: EawStore, I: KeyIndex, H: Keeper>(core: &Core<S, I, H>) -> &[Done]
    requires keeps { IsTrue H.keeps }
    requires whole { IsFalse H.forgets }
    ensures { result.now ≡ core.now.history }
{
    core.history().unwrap().1
}

/// The records at the opening, if the core keeps them.
pub fn base_of<S: EawStore, I: KeyIndex, H: Keeper>(core: &Core<S, I, H>) -> &Tables
    requires { IsTrue H.keeps }
    ensures { result.now ≡ core.now.base }
{
    core.base().unwrap()
}

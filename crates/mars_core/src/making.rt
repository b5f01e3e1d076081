// A table that is made in a store.
ghost use Rattle.std.specs.Prelude.{◌≡◌, ℕ, None, IfOk, IfErr};
ghost use Rattle.eaw_face.specs.Causes.{IsAlive};
ghost use Rattle.mars_core.specs.Attached.{CoreCause, LeftAsItWas, is_media_fault};
ghost use Rattle.mars_core.specs.Making.{MakesTable};

use crate::fault::CoreFault;
use eaw_face::EawStore;
use noted::KeepsNothing;
use page_store::{KeyIndex, Pages, SaveRoom};
use record_slots::Name;
use record_table::{MakeFault, Records};
use std::alloc::Global;

/// Makes a table of this name, without records, in the data of a store that is not dead and on which no number is live, and returns its
/// number. The data is brought to version 2 first. The store is given back. An error says why the records were not taken, and then nothing
/// is written; a refusal within says why there is no new table.
pub fn make_table<S: EawStore, K: KeyIndex>(
    alloc: Global,
    room: SaveRoom,
    store: S,
    name: &Name,
) -> (Result<Result<u8, MakeFault>, CoreFault>, S)
    requires alive { IsAlive (S.view store) }
    requires idle { (t : ℕ) → (S.view store).ranges t ≡ None }
    ensures makes { IfOk result.0 (λ made. MakesTable S.tells (S.opens (S.view store).shape) K.index name.now (S.view store) (S.view result.1) made) }
    ensures cause { IfErr result.0 (λ fault. CoreCause S.tells K.index (S.view store) fault) }
    ensures left { IfErr result.0 (λ fault. LeftAsItWas S.tells (S.opens (S.view store).shape) (is_media_fault fault) (S.view store) (S.view result.1)) }
{
    let (mut records, _) = match Records::<S, K>::attach::<KeepsNothing>(
        alloc,
        Pages::attach_in(room, store),
    ) {
        Ok(attached) => attached,
        Err((fault, pages)) => return (Err(CoreFault::from(fault)), pages.into_store()),
    };
    let made = records.make(name);
    let store = records.into_pages().into_store();
    (Ok(made), store)
}

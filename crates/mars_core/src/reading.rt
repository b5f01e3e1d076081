// The records of a store that is left as it is.
ghost use Rattle.std.specs.Prelude.{◌≡◌, IfOk, IfErr, OnOk, IsTrue};
ghost use Rattle.std.specs.FinMap.{entries};
ghost use Rattle.eaw_face.specs.Causes.{IsAlive};
ghost use Rattle.history.specs.Rows.{records_in};
ghost use Rattle.record_table.specs.Shown.{table_of};
ghost use Rattle.mars_core.specs.Attached.{CoreCause, LeftAsItWas, is_failed};

use crate::fault::CoreFault;
use eaw_face::EawStore;
use history::Rows;
use page_store::{KeyIndex, Pages, SaveRoom};
use record_slots::Name;
use record_table::read_tables;
use std::alloc::Global;

/// The records of the data of a store that is not dead: each table's name with its records, in the order of the names and then of
/// the keys. Nothing is written, so the data keeps its version. The store is given back. An error says why there are none: the
/// data is not a sound index, the medium failed, or memory ran out.
pub fn read_records<S: EawStore, K: KeyIndex>(
    alloc: Global,
    room: SaveRoom,
    store: S,
) -> (Result<Vec<(Name, Rows)>, CoreFault>, S)
    requires { IsAlive (S.view store) }
    ensures sound { OnOk result.0 (IsTrue S.tells → K.index.sound (S.view store).state.bytes) }
    ensures records { IfOk result.0 (λ tables. IsTrue S.tells → records_in tables.items ≡ entries (table_of K.index (S.view store).state.bytes)) }
    ensures cause { IfErr result.0 (λ fault. CoreCause S.tells K.index (S.view store) fault) }
    ensures left { LeftAsItWas S.tells (S.opens (S.view store).shape) (is_failed result.0) (S.view store) (S.view result.1) }
{
    let mut pages = Pages::attach_in(room, store);
    match read_tables::<S, K>(alloc, &mut pages) {
        Ok(tables) => (Ok(tables), pages.into_store()),
        Err(fault) => (Err(CoreFault::from(fault)), pages.into_store()),
    }
}

// Which index the data of a store has.
ghost use Rattle.std.specs.Prelude.{IfOk, IfErr};
ghost use Rattle.eaw_face.specs.Causes.{IsAlive};
ghost use Rattle.record_table.specs.Form.{form_number};
ghost use Rattle.mars_core.specs.Attached.{CoreCause, LeftAsItWas, is_media_fault};
ghost use Rattle.array_runs.specs.Forms.{index_at, SaysForm};

use eaw_face::EawStore;
use mars_core::CoreFault;
use page_store::CheckFault;
use record_table::{Form, form_of};

/// Which index the data of a store names. An error says why the records are not taken.
pub fn find_form<S: EawStore>(store: &mut S) -> Result<Form, CoreFault>
    requires alive { IsAlive (S.view store.old) }
    ensures says { IfOk result (λ form. SaysForm S.tells (S.opens (S.view store.old).shape) (form_number form) (S.view store.old) (S.view store.new)) }
    ensures cause { IfErr result (λ fault. CoreCause S.tells (index_at (S.view store.old).state.bytes) (S.view store.old) fault) }
    ensures left { IfErr result (λ fault. LeftAsItWas S.tells (S.opens (S.view store.old).shape) (is_media_fault fault) (S.view store.old) (S.view store.new)) }
{
    match form_of(store) {
        Ok(form) => Ok(form),
        Err(CheckFault::Damaged { page }) => Err(CoreFault::Damaged { page }),
        Err(CheckFault::Media) => Err(CoreFault::Media),
        Err(CheckFault::Dead) => Err(CoreFault::Media),
        Err(CheckFault::NoMemory) => Err(CoreFault::NoMemory),
    }
}

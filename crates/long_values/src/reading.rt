// Long values are read.
ghost use Rattle.std.specs.Prelude.{◌≡◌, ◌+◌, ◌*◌, ◌^◌, ◌<◌, ◌≤◌, ◌⊎◌, [], ℕ, List, Option, Some, None, IsTrue, IfOk, IfErr, MatchOption, length};
ghost use Rattle.base64.specs.GeneralPurpose.{IsBytes};
ghost use Rattle.caller_steps.specs.Sound.{IsSound};
ghost use Rattle.transactions.specs.Adds.{Stays};
ghost use Rattle.transactions.specs.Went.{WentWithin, IsOfCore};
ghost use Rattle.long_values.specs.declared.unkept.Unkept.TheVariants.{Broken, NoMemory};
ghost use Rattle.long_values.specs.Values.{IsKept, length_of, rows_of};
ghost use Rattle.long_values.specs.Changing.{seen_by, IsUnread};

use crate::Unkept;
use crate::key::{LongKey, STRIDE};
use crate::parts::push_part;
use caller_steps::Core;
use record_slots::{Name, Value};
use std::alloc::Global;
use transactions::{Stop, number_in, scan};

/// The bytes that the caller sees under the key of a table of long values, if there are any. It is one scan.
pub fn get<C: Core>(
    alloc: Global,
    core: &mut C,
    caller: u8,
    table: Name,
    key: LongKey,
) -> Result<Option<Vec<u8>>, Stop<Unkept>>
    requires inside { caller < (C.view core.old).limits.callers }
    requires sound { IsTrue C.tells → IsSound (C.view core.old).state }
    ensures limits { (C.view core.new).limits ≡ (C.view core.old).limits }
    ensures stays { IsTrue C.tells → Stays caller (C.view core.old) (C.view core.new) }
    ensures within { IsTrue C.tells → WentWithin caller (C.view core.old) (C.view core.new) }
    ensures of_core { IsTrue C.tells → IfErr result (IsOfCore caller (C.view core.old) (C.view core.new)) }
    ensures same { IsTrue C.tells → seen_by caller (C.view core.new) ≡ seen_by caller (C.view core.old) }
    // What is told is the value, or none where there is none.
    ensures told { IsTrue C.tells → IfOk result (λ told. (value : Option (List ℕ)) → IsKept table key value (seen_by caller (C.view core.old)) → MatchOption told (value ≡ None) (λ bytes. value ≡ Some bytes.items)) }
    ensures unread { IsTrue C.tells → IfErr result (IsUnread table key (seen_by caller (C.view core.old))) }
{
    let first = key.first();
    let rows = scan(core, caller, table, first, first + (STRIDE - 1))?;
    match bytes_in(alloc, rows.as_slice()) {
        Ok(told) => Ok(told),
        Err(unkept) => Err(Stop::GivenUp(unkept)),
    }
}

/// How many bytes the caller sees under the key of a table of long values, if there is a value. It is one look-up.
pub fn length<C: Core>(
    core: &mut C,
    caller: u8,
    table: Name,
    key: LongKey,
) -> Result<Option<u64>, Stop<Unkept>>
    requires inside { caller < (C.view core.old).limits.callers }
    requires sound { IsTrue C.tells → IsSound (C.view core.old).state }
    ensures limits { (C.view core.new).limits ≡ (C.view core.old).limits }
    ensures stays { IsTrue C.tells → Stays caller (C.view core.old) (C.view core.new) }
    ensures within { IsTrue C.tells → WentWithin caller (C.view core.old) (C.view core.new) }
    ensures of_core { IsTrue C.tells → IfErr result (IsOfCore caller (C.view core.old) (C.view core.new)) }
    ensures same { IsTrue C.tells → seen_by caller (C.view core.new) ≡ seen_by caller (C.view core.old) }
    ensures told { IsTrue C.tells → IfOk result (λ told. (value : Option (List ℕ)) → IsKept table key value (seen_by caller (C.view core.old)) → told ≡ length_of value) }
    ensures unread { IsTrue C.tells → IfErr result (IsUnread table key (seen_by caller (C.view core.old))) }
{
    let Some(text) = transactions::get(core, caller, table, key.first())? else {
        return Ok(None);
    };
    match number_in(&text) {
        Some(length) => Ok(Some(length)),
        None => Err(Stop::GivenUp(Unkept::Broken)),
    }
}

// The bytes of the parts that rows spell, behind the row of the length.
fn bytes_in(alloc: Global, rows: &[(u64, Value)]) -> Result<Option<Vec<u8>>, Unkept>
    ensures none { rows.now ≡ [] → result ≡ Ok None }
    ensures some { (first : ℕ) (bytes : List ℕ) → IsBytes bytes → rows.now ≡ rows_of first bytes → IfOk result (λ told. MatchOption told ⊥ (λ v. v.items ≡ bytes)) }
    ensures cause { IfErr result (λ unkept. (unkept ≡ Broken) ⊎ (unkept ≡ NoMemory)) }
    ensures err { (first : ℕ) (bytes : List ℕ) → IsBytes bytes → rows.now ≡ rows_of first bytes → IfErr result (λ unkept. unkept ≡ NoMemory) }
{
    if rows.is_empty() {
        return Ok(None);
    }
    let mut spelled = Vec::new(alloc);
    for n in 1..rows.len() {
        push_part(&rows[n].1, &mut spelled)?;
    }
    Ok(Some(spelled))
}

// Long values are put and removed.
ghost use Rattle.std.specs.Prelude.{◌≡◌, ◌+◌, ◌*◌, ◌^◌, ◌<◌, ◌≤◌, ◌++◌, ◌∷◌, [], ℕ, suc, List, Option, Some, None, IsTrue, IsSome, ◌↔◌, ◌⊎◌, IfOk, IfErr, OnOk, OnErr, length};
ghost use Rattle.std.specs.FinMap as map;
ghost use Rattle.history.specs.Key.{of_table};
ghost use Rattle.history.specs.Writes.{Table};
ghost use Rattle.caller_steps.specs.Sound.{IsSound};
ghost use Rattle.transactions.specs.Adds.{Stays};
ghost use Rattle.transactions.specs.Went.{WentWithin, IsOfCore, Refuses};
ghost use Rattle.transactions.specs.declared.work.Stop.TheVariants.{Refused, GivenUp};
ghost use Rattle.long_values.specs.declared.unkept.Unkept.TheVariants.{Half};
ghost use Rattle.long_values.specs.Values.{part_count, text_at, record_at, IsKeptFrom, IsKept};
ghost use Rattle.long_values.specs.Changing.{seen_by, saved_by, Changes, SameButAt, IsUnwritten, IsUnfit, IsUndone};

use crate::Unkept;
use crate::key::{LongKey, STRIDE};
use crate::parts::{part, part_count};
use caller_steps::Core;
use record_slots::Name;
use transactions::{Refusal, Stop, back, calls_join, save, value_of};

/// The most bytes of a long value.
pub const LONG_MAX: usize = 16_384;

// Where the records of a value lie: in this table, from this key on.
#[derive(Clone, Copy)]
struct Place {
    table: Name,
    first: u64,
}

/// Puts the bytes under the key of a table of long values, in the place of those that were there, within the caller's transaction. A put that
/// is refused leaves what was there: it goes back to a save that it made, one of the 32 of a transaction.
pub fn put<C: Core>(
    core: &mut C,
    caller: u8,
    table: Name,
    key: LongKey,
    bytes: &[u8],
) -> Result<(), Stop<Unkept>>
    requires inside { caller < (C.view core.old).limits.callers }
    requires sound { IsTrue C.tells → IsSound (C.view core.old).state }
    ensures limits { (C.view core.new).limits ≡ (C.view core.old).limits }
    ensures stays { IsTrue C.tells → Stays caller (C.view core.old) (C.view core.new) }
    ensures within { IsTrue C.tells → WentWithin caller (C.view core.old) (C.view core.new) }
    ensures of_core { IsTrue C.tells → IfErr result (IsOfCore caller (C.view core.old) (C.view core.new)) }
    // If it is put, and there was a value or none, then the value is just these bytes.
    ensures kept { IsTrue C.tells → OnOk result ((was : Option (List ℕ)) → IsKept table key was (seen_by caller (C.view core.old)) → IsKept table key (Some bytes.now) (seen_by caller (C.view core.new))) }
    ensures others { IsTrue C.tells → SameButAt table key (seen_by caller (C.view core.old)) (seen_by caller (C.view core.new)) }
    ensures saves { IsTrue C.tells → OnOk result (saved_by caller (C.view core.new) ≡ saved_by caller (C.view core.old) ++ seen_by caller (C.view core.old) ∷ []) }
    // If not, the caller sees what it saw, unless the way back was refused too.
    ensures refused { IsTrue C.tells → IfErr result (IsUnwritten table key caller (C.view core.old) (C.view core.new)) }
    ensures cause { IfErr result (IsUnfit (length bytes.now)) }
    ensures short { OnOk result (length bytes.now ≤ 16384) }
{
    calls_join::<C, Unkept>();
    let saved = save(core, caller)?;
    if bytes.len() > LONG_MAX {
        return Err(Stop::GivenUp(Unkept::TooLong));
    }
    let at = Place {
        table,
        first: key.first(),
    };
    match write(core, caller, &at, bytes) {
        Ok(()) => Ok(()),
        Err(refusal) => Err(undo(core, caller, saved, refusal)),
    }
}

/// Removes the value under the key of a table of long values, with all its records. It answers whether there was one. If it is refused, it
/// leaves what was there, as `put` does.
pub fn del<C: Core>(
    core: &mut C,
    caller: u8,
    table: Name,
    key: LongKey,
) -> Result<bool, Stop<Unkept>>
    requires inside { caller < (C.view core.old).limits.callers }
    requires sound { IsTrue C.tells → IsSound (C.view core.old).state }
    ensures limits { (C.view core.new).limits ≡ (C.view core.old).limits }
    ensures stays { IsTrue C.tells → Stays caller (C.view core.old) (C.view core.new) }
    ensures within { IsTrue C.tells → WentWithin caller (C.view core.old) (C.view core.new) }
    ensures of_core { IsTrue C.tells → IfErr result (IsOfCore caller (C.view core.old) (C.view core.new)) }
    // If it is done, and there was a value or none, then there is none.
    ensures gone { IsTrue C.tells → IfOk result (λ there. (was : Option (List ℕ)) → IsKept table key was (seen_by caller (C.view core.old)) → IsKept table key None (seen_by caller (C.view core.new)) × (IsTrue there ↔ IsSome was)) }
    ensures others { IsTrue C.tells → SameButAt table key (seen_by caller (C.view core.old)) (seen_by caller (C.view core.new)) }
    ensures saves { IsTrue C.tells → OnOk result (saved_by caller (C.view core.new) ≡ saved_by caller (C.view core.old) ++ seen_by caller (C.view core.old) ∷ []) }
    ensures refused { IsTrue C.tells → IfErr result (IsUnwritten table key caller (C.view core.old) (C.view core.new)) }
    ensures cause { IfErr result (IsUnfit 0) }
{
    calls_join::<C, Unkept>();
    let saved = save(core, caller)?;
    let at = Place {
        table,
        first: key.first(),
    };
    match erase(core, caller, &at) {
        Ok(there) => Ok(there),
        Err(refusal) => Err(undo(core, caller, saved, refusal)),
    }
}

// Writes the records of the bytes, and removes those of a longer value that was there.
fn write<C: Core>(core: &mut C, caller: u8, at: &Place, bytes: &[u8]) -> Result<(), Refusal>
    requires inside { caller < (C.view core.old).limits.callers }
    requires sound { IsTrue C.tells → IsSound (C.view core.old).state }
    requires room { at.now.first + 512 ≤ 2 ^ 64 }
    requires short { length bytes.now ≤ 16384 }
    ensures limits { (C.view core.new).limits ≡ (C.view core.old).limits }
    ensures changes { IsTrue C.tells → Changes caller at.now.table at.now.first (at.now.first + 512) (C.view core.old) (C.view core.new) }
    ensures stays { IsTrue C.tells → Stays caller (C.view core.old) (C.view core.new) }
    ensures refused { IsTrue C.tells → IfErr result (Refuses caller (C.view core.old) (C.view core.new)) }
    ensures kept { IsTrue C.tells → OnOk result ((was : Option (List ℕ)) → IsKeptFrom at.now.table at.now.first was (seen_by caller (C.view core.old)) → IsKeptFrom at.now.table at.now.first (Some bytes.now) (seen_by caller (C.view core.new))) }
{
    calls_join::<C, Unkept>();
    transactions::put(
        core,
        caller,
        at.table,
        at.first,
        value_of(bytes.len() as u64),
    )?;
    write_parts(core, caller, at, bytes)?;
    clear(core, caller, at, part_count(bytes) as u64 + 1)?;
    Ok(())
}

// Writes the records of the parts.
fn write_parts<C: Core>(core: &mut C, caller: u8, at: &Place, bytes: &[u8]) -> Result<(), Refusal>
    requires inside { caller < (C.view core.old).limits.callers }
    requires sound { IsTrue C.tells → IsSound (C.view core.old).state }
    requires room { at.now.first + 512 ≤ 2 ^ 64 }
    requires short { length bytes.now ≤ 16384 }
    ensures limits { (C.view core.new).limits ≡ (C.view core.old).limits }
    ensures changes { IsTrue C.tells → Changes caller at.now.table (at.now.first + 1) (at.now.first + 1 + part_count bytes.now) (C.view core.old) (C.view core.new) }
    ensures stays { (start : C) → IsTrue C.tells → Stays caller (C.view start) (C.view core.old) → Stays caller (C.view start) (C.view core.new) }
    ensures refused { (start : C) → IsTrue C.tells → Stays caller (C.view start) (C.view core.old) → IfErr result (Refuses caller (C.view start) (C.view core.new)) }
    ensures written { IsTrue C.tells → OnOk result ((n : ℕ) → n < part_count bytes.now → map.get (seen_by caller (C.view core.new)) (of_table at.now.table (at.now.first + 1 + n)) ≡ Some (text_at bytes.now (suc n))) }
{
    calls_join::<C, Unkept>();
    for n in 0..part_count(bytes) {
        transactions::put(
            core,
            caller,
            at.table,
            at.first + 1 + n as u64,
            part(bytes, n),
        )?;
    }
    Ok(())
}

// Removes the records from number `from` on, up to one that is not there.
fn clear<C: Core>(core: &mut C, caller: u8, at: &Place, from: u64) -> Result<(), Refusal>
    requires inside { caller < (C.view core.old).limits.callers }
    requires sound { IsTrue C.tells → IsSound (C.view core.old).state }
    requires below { from ≤ 512 }
    requires room { at.now.first + 512 ≤ 2 ^ 64 }
    ensures limits { (C.view core.new).limits ≡ (C.view core.old).limits }
    ensures changes { IsTrue C.tells → Changes caller at.now.table (at.now.first + from) (at.now.first + 512) (C.view core.old) (C.view core.new) }
    ensures stays { (start : C) → IsTrue C.tells → Stays caller (C.view start) (C.view core.old) → Stays caller (C.view start) (C.view core.new) }
    ensures refused { (start : C) → IsTrue C.tells → Stays caller (C.view start) (C.view core.old) → IfErr result (Refuses caller (C.view start) (C.view core.new)) }
    // If those that were there are the last of a value, none is left.
    ensures gone { IsTrue C.tells → OnOk result ((was : Option (List ℕ)) → ((n : ℕ) → from ≤ n → n < 512 → map.get (seen_by caller (C.view core.old)) (of_table at.now.table (at.now.first + n)) ≡ record_at was n)
        → (n : ℕ) → from ≤ n → n < 512 → map.get (seen_by caller (C.view core.new)) (of_table at.now.table (at.now.first + n)) ≡ None) }
{
    calls_join::<C, Unkept>();
    for n in from..STRIDE {
        let was_there = transactions::del(core, caller, at.table, at.first + n)?;
        if !was_there {
            return Ok(());
        }
    }
    Ok(())
}

// Removes all records of a value. It answers whether there was one.
fn erase<C: Core>(core: &mut C, caller: u8, at: &Place) -> Result<bool, Refusal>
    requires inside { caller < (C.view core.old).limits.callers }
    requires sound { IsTrue C.tells → IsSound (C.view core.old).state }
    requires room { at.now.first + 512 ≤ 2 ^ 64 }
    ensures limits { (C.view core.new).limits ≡ (C.view core.old).limits }
    ensures changes { IsTrue C.tells → Changes caller at.now.table at.now.first (at.now.first + 512) (C.view core.old) (C.view core.new) }
    ensures stays { IsTrue C.tells → Stays caller (C.view core.old) (C.view core.new) }
    ensures refused { IsTrue C.tells → IfErr result (Refuses caller (C.view core.old) (C.view core.new)) }
    ensures gone { IsTrue C.tells → IfOk result (λ there. (was : Option (List ℕ)) → IsKeptFrom at.now.table at.now.first was (seen_by caller (C.view core.old)) → IsKeptFrom at.now.table at.now.first None (seen_by caller (C.view core.new)) × (IsTrue there ↔ IsSome was)) }
{
    calls_join::<C, Unkept>();
    let was_there = transactions::del(core, caller, at.table, at.first)?;
    if !was_there {
        return Ok(false);
    }
    clear(core, caller, at, 1)?;
    Ok(true)
}

// Goes back to a save after a refusal.
fn undo<C: Core>(core: &mut C, caller: u8, saved: u32, refusal: Refusal) -> Stop<Unkept>
    requires inside { caller < (C.view core.old).limits.callers }
    requires sound { IsTrue C.tells → IsSound (C.view core.old).state }
    ensures limits { (C.view core.new).limits ≡ (C.view core.old).limits }
    ensures stays { IsTrue C.tells → Stays caller (C.view core.old) (C.view core.new) }
    ensures within { IsTrue C.tells → WentWithin caller (C.view core.old) (C.view core.new) }
    ensures undone { IsTrue C.tells → (before : List Table) (there : Table) → saved ≡ length before + 1 → saved_by caller (C.view core.old) ≡ before ++ there ∷ []
        → IsUndone caller there (C.view core.old) (C.view core.new) result }
    ensures told { (result ≡ Refused refusal) ⊎ (result ≡ GivenUp (Half refusal)) }
{
    match back(core, caller, saved) {
        Ok(()) => Stop::Refused(refusal),
        Err(_) => Stop::GivenUp(Unkept::Half(refusal)),
    }
}

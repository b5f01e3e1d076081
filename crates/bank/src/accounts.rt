// Accounts, and why a transfer is given up.
ghost use Rattle.std.specs.Prelude.{◌≡◌, ◌<◌, ◌^◌, decimal, IsTrue, IfOk, IfErr};
ghost use Rattle.history.specs.Key.{main_name};
ghost use Rattle.history.specs.declared.call.TableCall.TheVariants.{Get, Put};
ghost use Rattle.history.specs.declared.call.Reply.TheVariants.{Fine, Found};
ghost use Rattle.caller_steps.specs.Sound.{IsSound};
ghost use Rattle.transactions.specs.Adds.{Stays, Adds};
ghost use Rattle.transactions.specs.Went.{WentWithin, IsOfCore};
ghost use Rattle.bank.specs.Moves.{IsOfRead, HasFoundNone, HasNoReason};

use caller_steps::Core;
use history::main_table;
use transactions::{Stop, get, number_in, put, value_of};

/// Why a transfer was not made, or a balance was not given.
#[derive(Clone, Copy, Debug, PartialEq, Eq)]
pub enum Refusal {
    /// There is no such account, or its record is not the decimal of a u64.
    NoAccount { account: u64 },
    /// The account has too little.
    Insufficient { balance: u64 },
    /// The other account would exceed a u64.
    TooMuch { balance: u64 },
}

// Reads an account.
pub(crate) fn read<C: Core>(core: &mut C, caller: u8, account: u64) -> Result<u64, Stop<Refusal>>
    requires inside { caller < (C.view core.old).limits.callers }
    requires sound { IsTrue C.tells → IsSound (C.view core.old).state }
    ensures limits { (C.view core.new).limits ≡ (C.view core.old).limits }
    ensures stays { IsTrue C.tells → Stays caller (C.view core.old) (C.view core.new) }
    ensures within { IsTrue C.tells → WentWithin caller (C.view core.old) (C.view core.new) }
    ensures cause { IfErr result (IsOfRead account) }
    ensures of_core { IsTrue C.tells → IfErr result (IsOfCore caller (C.view core.old) (C.view core.new)) }
    ensures small { IfOk result (λ n. n < 2 ^ 64) }
    ensures none { IsTrue C.tells → IfErr result (HasFoundNone account caller (C.view core.old) (C.view core.new)) }
    ensures found { IsTrue C.tells → IfOk result (λ n. Adds caller (Get main_name account) (Found (decimal n)) (C.view core.old) (C.view core.new)) }
{
    let Some(value) = get(core, caller, main_table(), account)? else {
        return Err(Stop::GivenUp(Refusal::NoAccount { account }));
    };
    match number_in(&value) {
        Some(number) => Ok(number),
        None => Err(Stop::GivenUp(Refusal::NoAccount { account })),
    }
}

// Writes an account.
pub(crate) fn write<C: Core>(
    core: &mut C,
    caller: u8,
    account: u64,
    number: u64,
) -> Result<(), Stop<Refusal>>
    requires inside { caller < (C.view core.old).limits.callers }
    requires sound { IsTrue C.tells → IsSound (C.view core.old).state }
    ensures limits { (C.view core.new).limits ≡ (C.view core.old).limits }
    ensures stays { IsTrue C.tells → Stays caller (C.view core.old) (C.view core.new) }
    ensures within { IsTrue C.tells → WentWithin caller (C.view core.old) (C.view core.new) }
    ensures cause { IfErr result HasNoReason }
    ensures of_core { IsTrue C.tells → IfErr result (IsOfCore caller (C.view core.old) (C.view core.new)) }
    ensures written { IsTrue C.tells → IfOk result (λ done. Adds caller (Put main_name account (decimal number)) Fine (C.view core.old) (C.view core.new)) }
{
    put(core, caller, main_table(), account, value_of(number))?;
    Ok(())
}

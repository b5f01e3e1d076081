// The first record of a table from a key on.
ghost use Rattle.std.specs.Prelude.{◌≡◌, ◌<◌, IsTrue};
ghost use Rattle.caller_steps.specs.Sound.{IsSound};
ghost use Rattle.taped_records.specs.Cursor.{ReadsFirst};

use crate::sound::Sound;
use caller_steps::Core as Steps;
use record_slots::{Name, Value};
use transactions::{Refusal, calls_join, scan};

/// The first record, or none, or why it was not read.
pub type First = Result<Option<(u64, Value)>, Refusal>;

impl<C: Steps> Sound<C> {
    pub fn first(&mut self, caller: u8, table: Name, from: u64, to: u64, window: u64) -> First
        requires { caller < (C.view self.old).limits.callers }
        ensures limits { (C.view self.new).limits ≡ (C.view self.old).limits }
        ensures reads { IsTrue C.tells → ReadsFirst table from to caller (C.view self.old) (C.view self.new) result }
    {
        first_from(&mut self.core, caller, table, from, to, window)
    }
}

/// The first record from one key to another, both included, as the caller sees it. It scans the `window` keys behind the first one too, and then, as
/// long as there is no record, about four times as many.
fn first_from<C: Steps>(
    core: &mut C,
    caller: u8,
    table: Name,
    from: u64,
    to: u64,
    window: u64,
) -> First
    requires inside { caller < (C.view core.old).limits.callers }
    requires sound { IsTrue C.tells → IsSound (C.view core.old).state }
    ensures limits { (C.view core.new).limits ≡ (C.view core.old).limits }
    ensures reads { IsTrue C.tells → ReadsFirst table from to caller (C.view core.old) (C.view core.new) result }
{
    calls_join::<C, ()>();
    let high = from.saturating_add(window).min(to);
    let rows = scan(core, caller, table, from, high)?;
    if let Some((key, value)) = rows.as_slice().first() {
        return Ok(Some((*key, *value)));
    }
    if high >= to {
        return Ok(None);
    }
    first_from(core, caller, table, high + 1, to, wider(window))
}

/// About four times as many keys.
pub fn wider(window: u64) -> u64 {
    window.saturating_mul(4).saturating_add(3)
}

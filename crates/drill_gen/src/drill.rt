// The script of a drill.
ghost use Rattle.std.specs.Prelude.{◌≡◌, ◌<◌, ◌^◌, ◌++◌, true, false, IfOk, OnOk};
ghost use Rattle.drill_gen.specs.Drill.{drill, in_turn};

use crate::draws::Draws;
use crate::transaction::{Turns, draw_transaction, push_alone, push_pair};
use mars_base::NoMemory;
use std::alloc::Global;

/// The script of `transactions` transactions, drawn from a seed below 2^31. With at least two callers they come in pairs of callers 0 and
/// 1, and a last one without a partner is caller 0's. Else all are caller 0's.
pub fn script(alloc: Global, seed: u32, transactions: u32, callers: u8) -> Result<Turns, NoMemory>
    requires { seed < 2 ^ 31 }
    ensures { IfOk result (λ turns. turns ≡ drill seed transactions callers) }
{
    let mut turns = Turns::new(alloc);
    let mut draws = Draws { x: u64::from(seed) };
    if callers >= 2 {
        push_pairs(&mut turns, &mut draws, transactions)?;
        return Ok(turns);
    }
    push_singles(&mut turns, &mut draws, transactions)?;
    Ok(turns)
}

fn push_singles(turns: &mut Turns, draws: &mut Draws, count: u32) -> Result<(), NoMemory>
    requires small { draws.old.x < 2 ^ 31 }
    ensures { OnOk result (turns.new ≡ turns.old ++ in_turn false draws.old.x count) }
{
    for _nth in 0..count {
        let drawn = draw_transaction(draws);
        push_alone(turns, &drawn)?;
    }
    Ok(())
}

fn push_pairs(turns: &mut Turns, draws: &mut Draws, count: u32) -> Result<(), NoMemory>
    requires small { draws.old.x < 2 ^ 31 }
    ensures { OnOk result (turns.new ≡ turns.old ++ in_turn true draws.old.x count) }
{
    for _nth in 0..count / 2 {
        let first = draw_transaction(draws);
        let second = draw_transaction(draws);
        push_pair(turns, &first, &second)?;
    }
    if count % 2 == 1 {
        let last = draw_transaction(draws);
        push_alone(turns, &last)?;
    }
    Ok(())
}

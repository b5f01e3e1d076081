// Calls of callers, made one after another.
ghost use Rattle.std.specs.Prelude.{◌≡◌, ◌<◌, false, IfOk, IfErr};
ghost use Rattle.std.specs.List.{All};
ghost use Rattle.script_run.specs.Answers.{HasStopCause};
ghost use Rattle.mars_shell.specs.Made.{MadeAll, EndsEarly};

use crate::tally::{Tally, going_on};
use caller_steps::Core;
use history::Call;
use script_run::Stop;

/// Makes the calls of a script until all are made or a reply ends it, and counts their replies. An error says why it ended.
pub fn make_turns<C: Core>(core: &mut C, script: &[(u8, Call)]) -> Result<Tally, Stop>
    requires inside { All (λ turn. turn.0 < (C.view core.old).limits.callers) script.now }
    requires alive { (C.view core.old).state.is_dead ≡ false }
    ensures all { IfOk result (λ tally. MadeAll C.tells (C.view core.old) script.now tally (C.view core.new)) }
    ensures early { IfErr result (λ stop. EndsEarly C.tells (C.view core.old) script.now stop (C.view core.new)) }
    ensures cause { HasStopCause (C.view core.old).faults (C.view core.new).faults result }
{
    let mut tally = Tally::new();
    for turn in script {
        let reply = core.step(turn.0, &turn.1);
        going_on(turn.0, &reply)?;
        tally.count(&turn.1, &reply);
    }
    Ok(tally)
}

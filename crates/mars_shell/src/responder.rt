// A core answers its callers' lines.
ghost use Rattle.std.specs.Prelude.{◌≡◌};
ghost use Rattle.mars_shell.specs.Lines.{Replied};

use crate::tally::going_on;
use caller_steps::Core;
use history::Reply;
use script_run::{Responder, Stop};
use script_text::{Line, read_line, write_bad_line, write_reply};

/// A core, and how many callers it has.
pub struct LineCore<C: Core> {
    pub core: C,
    pub callers: u8,
}

impl<C: Core> Responder for LineCore<C> {
    ghost use Rattle.std.specs.Prelude.{◌≡◌, ◌⊎◌, IsTrue};
    ghost use Rattle.mars_shell.specs.Standing.{Progress, HasData, line_script, IsReady, IsShown, Stands, Comes};
    ghost use Rattle.mars_shell.specs.Coming.{comes_to_itself, comes_further};

    ghost tells = { C.tells };

    ghost State = { Progress };

    ghost script = { line_script };

    ghost is_ready = { λ lines. IsReady lines.callers (C.view lines.core) };

    ghost stands = { λ lines. Stands (C.view lines.core) };

    ghost comes = { λ old before new. Comes (C.view old.core) before (C.view new.core) };

    ghost faults = { λ lines. (C.view lines.core).faults };

    ghost holds = { HasData };

    ghost sends = { λ old new. (new.core ≡ old.core)
        ⊎ (C.sends old.core new.core × (IsTrue C.tells → IsShown (C.view old.core) → IsShown (C.view new.core))) };

    ghost comes_none = { λ lines progress told ready stands. comes_to_itself (C.view lines.core) progress stands };

    ghost comes_on = { λ first mid last s t u told ready stands before behind.
        comes_further (C.view first.core) (C.view mid.core) (C.view last.core) s t u before behind };

    fn answer(&mut self, line: &[u8], n: u64, out: &mut Vec<u8>) -> Result<(), Stop> {
        out.clear();
        match read_line(line, self.callers) {
            Line::Nothing => Ok(()),
            Line::Bad => match write_bad_line(out, n) {
                Ok(()) => Ok(()),
                Err(_) => Err(Stop::NoMemory),
            },
            Line::Told { caller, call } => {
                let reply = self.core.step(caller, &call);
                tell(out, caller, &reply)
            }
        }
    }
}

// Writes a caller's reply, after which the script goes on, or says how the script ends.
fn tell(out: &mut Vec<u8>, caller: u8, reply: &Reply) -> Result<(), Stop>
    ensures { Replied caller reply.now out.old.items out.new.items result }
{
    going_on(caller, reply)?;
    match write_reply(out, caller, reply) {
        Ok(()) => Ok(()),
        Err(_) => Err(Stop::NoMemory),
    }
}

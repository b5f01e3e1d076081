// The work of a drawn script, which ends with a summary.
ghost use Rattle.std.specs.Prelude.{◌≡◌, ◌<◌, ◌^◌, IsTrue, IfOk, IfErr};
ghost use Rattle.history.specs.Key.{main_name};
ghost use Rattle.history.specs.declared.call.Call.TheVariants.{Table};
ghost use Rattle.history.specs.declared.call.TableCall.TheVariants.{Scan};
ghost use Rattle.mars_manager.specs.Sharing.{CanShare};
ghost use Rattle.mars_shell.specs.Drill.{drill_calls};
ghost use Rattle.mars_shell.specs.Tally.{last_key};
ghost use Rattle.mars_core.specs.Held.{core_of};
ghost use Rattle.script_run.specs.Answers.{HasStopCause};
ghost use Rattle.mars_shell.specs.Made.{SummedUp, EndsEarly};

use crate::core_work::CoreWork;
use crate::summary::summary_text;
use crate::tally::going_on;
use crate::turns::make_turns;
use array_runs::write_ended;
use caller_steps::Core as Steps;
use command_words::DrillNumbers;
use drill_gen::script;
use eaw_face::EawStore;
use history::{Call, TableCall, main_table};
use mars_base::NoMemory;
use mars_core::Core;
use noted::Keeper;
use outside::Sink;
use page_store::KeyIndex;
use script_run::{Ended, Stop};
use std::alloc::Global;
use texts::{MEDIA_LINE, write_front};

// The caller that looks at the records at the end.
const LOOKER: u8 = 0;

/// The calls of the script that the numbers draw are made, and a summary is written.
#[derive(Drop)]
pub struct DrawnScript {
    pub numbers: DrillNumbers,
}

impl CoreWork for DrawnScript {
    ghost use Rattle.std.specs.Prelude.{◌<◌, ◌^◌, true, false};
    ghost use Rattle.mars_shell.specs.Drill.{Drills};

    ghost reads = { false };

    ghost can_be_done = { λ work. work.numbers.seed < 2 ^ 31 };

    ghost at_once = { true };

    ghost does = { λ work input. Drills work.numbers };

    fn reads(&self) -> bool {
        false
    }

    fn work_on<K: Sink, S: EawStore + Drop + Send, I: KeyIndex + Send, H: Keeper>(
        &self,
        alloc: Global,
        _input: &[u8],
        numbers: u8,
        sink: &mut K,
        core: Core<S, I, H>,
    ) -> (Result<Ended, NoMemory>, Core<S, I, H>) {
        let mut core = core;
        match sum_up(alloc, &self.numbers, numbers, &mut core) {
            Ok(text) => (Ok(write_ended(sink, &text)), core),
            Err(Stop::Media { number: _ }) => {
                // This line needs no memory, so how the script ends does not depend on memory.
                write_front(sink, MEDIA_LINE);
                (Ok(Ended::MediaFault), core)
            }
            Err(Stop::NoMemory) => (Ok(Ended::NoMemory), core),
        }
    }
}

// What it asks: all records of `main`.
fn whole_scan() -> Call
    ensures { result ≡ Table (Scan main_name 0 last_key) }
{
    Call::Table(TableCall::Scan {
        table: main_table(),
        low: 0,
        high: u64::MAX,
    })
}

// Makes the calls on a core and forms the summary. An error says why there is none.
fn sum_up<S: EawStore, I: KeyIndex, H: Keeper>(
    alloc: Global,
    numbers: &DrillNumbers,
    callers: u8,
    core: &mut Core<S, I, H>,
) -> Result<Vec<u8>, Stop>
    requires seed { numbers.now.seed < 2 ^ 31 }
    requires callers { callers ≡ (S.view core.old.records.store).shape.numbers }
    requires ready { CanShare S.tells 0 (core_of S.opens I.index (S.view core.old.records.store) core.old) }
    requires shows { IsTrue S.tells → (core_of S.opens I.index (S.view core.old.records.store) core.old).shows (core_of S.opens I.index (S.view core.old.records.store) core.old).state }
    ensures summed { IfOk result (λ text. SummedUp S.tells numbers.now (core_of S.opens I.index (S.view core.old.records.store) core.old)
        (drill_calls numbers.now.seed numbers.now.count callers) text.items (core_of S.opens I.index (S.view core.new.records.store) core.new)) }
    ensures early { IfErr result (λ stop. EndsEarly S.tells (core_of S.opens I.index (S.view core.old.records.store) core.old)
        (drill_calls numbers.now.seed numbers.now.count callers) stop (core_of S.opens I.index (S.view core.new.records.store) core.new)) }
    ensures cause { HasStopCause (S.view core.old.records.store).faults (S.view core.new.records.store).faults result }
{
    let Ok(turns) = script(alloc, numbers.seed, numbers.count, callers) else {
        return Err(Stop::NoMemory);
    };
    let tally = make_turns(core, turns.as_slice())?;
    let begun = core.step(LOOKER, &Call::Begin);
    going_on(LOOKER, &begun)?;
    let scan = whole_scan();
    let look = core.step(LOOKER, &scan);
    going_on(LOOKER, &look)?;
    match summary_text(alloc, numbers, &tally, &look) {
        Ok(text) => Ok(text),
        Err(_) => Err(Stop::NoMemory),
    }
}

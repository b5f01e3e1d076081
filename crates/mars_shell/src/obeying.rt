// What is asked, once the words are read.
ghost use Rattle.std.specs.Prelude.{◌≡◌, ◌<◌, ◌⊎◌, ℕ, List, IsTrue};
ghost use Rattle.mars_base.specs.Causes.{Rose};
ghost use Rattle.texts.specs.Written.{Wrote};
ghost use Rattle.command_words.specs.Asked.{AsksFor};
ghost use Rattle.command_words.specs.declared.words.CallersNumbers.{CallersNumbers};
ghost use Rattle.command_words.specs.declared.words.FormatNumbers.{FormatNumbers};
ghost use Rattle.command_words.specs.declared.words.Words.TheVariants.{Callers, Format};
ghost use Rattle.mars_shell.specs.Asked.{IfReads, OutcomeFor, IsComplete, IsFit, TellsLate};
ghost use Rattle.mars_shell.specs.Formats.{FormatSays};
ghost use Rattle.array_runs.specs.Input.{InputSays};
ghost use Rattle.array_runs.specs.Statuses.{Counts, IsSilent};

use crate::callers::{Crew, run_callers};
use crate::commands::run_commands;
use crate::doorway::Doorway;
use crate::drilling::DrawnScript;
use crate::following::run_follow;
use crate::formatting::run_format;
use crate::lines::run_lines;
use crate::records::over_records;
use array_runs::Status;
use command_words::Words;
use noted::KeepsNothing;
use outside::{Sink, Source};
use pcm_media::Media;
use std::marker::Brand;
use std::sync::Wait;
use std::thread::Threads;
use told_commands::{Dump, NewTable, Purge, run_told};

// Does what is asked, and returns the medium.
#[tactic(auto, using(crate::proofs::Waiting::run_depth, crate::proofs::Waiting::drill_depth))]
pub fn obey<
    R: AllocGlobal + Threads + Wait + Sync,
    S: Source,
    K: Sink,
    M: Media + Drop + Send,
    W: Doorway,
>(rt: &R, asked: Words, source: &mut S, sink: &mut K, media: M, doorway: &mut W) -> (Status, M)
    requires asked { (words : List (List ℕ)) × AsksFor words asked }
    ensures usage { result.0 ≡ Status.Usage → (numbers : CallersNumbers) × (asked ≡ Callers numbers) }
    ensures early { (result.0 ≡ Status.TooLong) ⊎ (result.0 ≡ Status.ReadFault) → result.1 ≡ media }
    ensures silent { IsSilent result.0 → sink.new ≡ sink.old }
    ensures shut { ((numbers : CallersNumbers) → asked ≡ Callers numbers → ⊥) → doorway.new ≡ doorway.old }
    ensures counts { Counts result.0 (S.faults source.old) (S.faults source.new) (K.faults sink.old) (K.faults sink.new) (M.view media).faults (M.view result.1).faults }
    ensures steady { IsTrue (S.steady source.old) → result.0 ≡ Status.ReadFault → ⊥ }
    ensures input { IfReads asked (source.new ≡ source.old) (IsTrue S.tells → InputSays result.0 (S.left source.old) (S.left source.new)) }
    ensures formats { (numbers : FormatNumbers) → asked ≡ Format numbers → FormatSays numbers (M.view media).size result.0 (sink.new ≡ sink.old) (result.1 ≡ media) }
    ensures untold { TellsLate asked result.0 → sink.new ≡ sink.old }
    ensures ran { Wrote K.tells (K.written sink.old) (K.written sink.new) (K.faults sink.old) (K.faults sink.new)
        (λ cut text. (input : List ℕ) × (IsTrue S.tells → S.left source.old ≡ input) × (IsTrue M.tells → OutcomeFor asked (W.Behind.told (W.gate doorway.old)) (M.view media) result.0 (M.view result.1) input cut text)) }
    ensures complete { IsFit asked S.tells (S.left source.old) M.tells (M.view media)
        → (Rose (S.faults source.old) (S.faults source.new) → ⊥) → (Rose (K.faults sink.old) (K.faults sink.new) → ⊥) → (Rose (M.view media).faults (M.view result.1).faults → ⊥)
        → IsComplete asked result.0 }
{
    match asked {
        Words::Run(options) => run_lines::<S, K, M, Brand>(
            rt.alloc(),
            source,
            sink,
            media,
            options,
        ),
        Words::Callers(numbers) => {
            let gate = doorway.open();
            let crew = Crew {
                rt,
                numbers,
                gate: &gate,
            };
            run_callers::<R, S, K, M, Brand, W::Behind>(rt.alloc(), source, sink, media, &crew)
        }
        Words::Eaw(options) => run_commands(rt.alloc(), source, sink, media, options),
        Words::Follow => run_follow(rt.alloc(), source, sink, media),
        Words::Dump => run_told(rt.alloc(), source, sink, media, &Dump),
        Words::Drill(numbers) => {
            let work = DrawnScript { numbers };
            over_records::<S, K, M, Brand, KeepsNothing, DrawnScript>(
                rt.alloc(),
                source,
                sink,
                media,
                numbers.writing,
                &work,
            )
        }
        Words::Format(numbers) => run_format(sink, media, &numbers),
        Words::Make(ref name) => {
            run_told(rt.alloc(), source, sink, media, &NewTable { name: *name })
        }
        Words::Purge => run_told(rt.alloc(), source, sink, media, &Purge),
    }
}

// None of these has failed but where it is spent.
pub fn fail_when_spent<S: Source, K: Sink, M: Media>(source: &S, sink: &K, media: &M)
    ensures source { 0 < S.faults source.now → S.spent source.now }
    ensures sink { 0 < K.faults sink.now → K.spent sink.now }
    ensures media { 0 < (M.view media.now).faults → M.spent media.now }
{
    source.fails_when_spent();
    sink.fails_when_spent();
    media.fails_when_spent();
}

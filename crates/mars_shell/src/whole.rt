// The whole run.
ghost use Rattle.std.specs.Prelude.{◌≡◌, ◌⊎◌, ℕ, List, map, IsTrue, string_bytes};
ghost use Rattle.mars_base.specs.Causes.{Rose};
ghost use Rattle.texts.specs.Written.{Wrote};
ghost use Rattle.command_words.specs.Asked.{AsksFor};
ghost use Rattle.command_words.specs.declared.words.CallersNumbers.{CallersNumbers};
ghost use Rattle.command_words.specs.declared.words.FormatNumbers.{FormatNumbers};
ghost use Rattle.command_words.specs.declared.words.Words.{Words};
ghost use Rattle.command_words.specs.declared.words.Words.TheVariants.{Callers, Format};
ghost use Rattle.mars_shell.specs.Asked.{WordsSay, IfReads, OutcomeFor, IsComplete, IsFit, TellsLate};
ghost use Rattle.mars_shell.specs.Formats.{FormatSays};
ghost use Rattle.array_runs.specs.Input.{InputSays};
ghost use Rattle.array_runs.specs.Statuses.{Counts, IsSilent};

use crate::doorway::Doorway;
use crate::obeying::{fail_when_spent, obey};
use array_runs::Status;
use command_words::{WordsFault, read_words};
use outside::{Sink, Source};
use pcm_media::Media;
use std::sync::Wait;
use std::thread::Threads;

/// Does all that the program does with the words after the image's, and returns the medium.
///
/// `run` reads the input, opens and recovers the array, reads its records, and then answers the lines. `callers` does the same, but each
/// caller's transactions are made by a worker of its own on a thread, which calls between its calls the gate behind the doorway. `eaw`
/// does not read the records, nor does `follow`, which applies frames that lines say. `drill`, `dump`, `make`, `purge` and `format` read
/// no input. Only `callers` may wait. In `run`, `callers` and `drill` commits may be answered before their data is written to its place,
/// if the words say so, but no more of them wait for that than the words say.
pub fn run<
    R: AllocGlobal + Threads + Wait + Sync,
    S: Source,
    K: Sink,
    M: Media + Drop + Send,
    W: Doorway,
>(rt: &R, words: &[String], source: &mut S, sink: &mut K, media: M, doorway: &mut W) -> (Status, M)
    // `Usage` comes exactly when the words ask for nothing, or for more callers than the array has numbers (`ran`).
    ensures words { WordsSay (map string_bytes words.now) result.0 (Unit {0}) (λ asked. Unit {0}) }
    // If the words ask for nothing, nothing is touched. A run that ends before the medium is opened leaves the medium as it was. If no line
    // is answered and no array is made, nothing is written.
    ensures usage { ((asked : Words) → AsksFor (map string_bytes words.now) asked → ⊥) → (source.new ≡ source.old) × (sink.new ≡ sink.old) × (result.1 ≡ media) }
    ensures early { (result.0 ≡ Status.TooLong) ⊎ (result.0 ≡ Status.ReadFault) → result.1 ≡ media }
    ensures silent { IsSilent result.0 → sink.new ≡ sink.old }
    // Unless the words ask for callers, no gate is told of anything.
    ensures shut { ((numbers : CallersNumbers) → AsksFor (map string_bytes words.now) (Callers numbers) → ⊥) → doorway.new ≡ doorway.old }
    // A fault is reported as what it is, and none is hidden.
    ensures counts { Counts result.0 (S.faults source.old) (S.faults source.new) (K.faults sink.old) (K.faults sink.new) (M.view media).faults (M.view result.1).faults }
    ensures steady { IsTrue (S.steady source.old) → result.0 ≡ Status.ReadFault → ⊥ }
    // A count rises only where the object is spent: with no listed call and enough room none does, and no fault is reported.
    ensures spent { (Rose (S.faults source.old) (S.faults source.new) → S.spent source.new)
        × (Rose (K.faults sink.old) (K.faults sink.new) → K.spent sink.new)
        × (Rose (M.view media).faults (M.view result.1).faults → M.spent result.1) }
    // `TooLong` comes exactly when the input exceeds the limit. A command that reads the input and ends well has read all of it. The other
    // commands read none.
    ensures input { WordsSay (map string_bytes words.now) result.0 (source.new ≡ source.old) (λ asked. IfReads asked
        (source.new ≡ source.old) (IsTrue S.tells → InputSays result.0 (S.left source.old) (S.left source.new))) }
    ensures formats { WordsSay (map string_bytes words.now) result.0 ((sink.new ≡ sink.old) × (result.1 ≡ media)) (λ asked. (numbers : FormatNumbers)
        → asked ≡ Format numbers → FormatSays numbers (M.view media).size result.0 (sink.new ≡ sink.old) (result.1 ≡ media)) }
    // A format, a dump, a purge and the making of a table write nothing if the medium failed or memory ran out, and callers and a drill if
    // memory did.
    ensures untold { WordsSay (map string_bytes words.now) result.0 (sink.new ≡ sink.old) (λ asked. TellsLate asked result.0 → sink.new ≡ sink.old) }
    // What the words ask for was done, and each status has its cause. For `run` the text answers the lines of the input one by one, and for
    // `drill` it is the summary of the replies. For both the history is legal and obeys the prefix law. For `dump` the text is the records,
    // for `make` the number of the new table, for `purge` how many keys were taken out, for `eaw` it answers the commands by the model,
    // with the frames that they send if that is asked for, and for `follow` it counts the frames that are applied.
    ensures ran { WordsSay (map string_bytes words.now) result.0 ((source.new ≡ source.old) × (sink.new ≡ sink.old) × (result.1 ≡ media)) (λ asked. Wrote K.tells (K.written sink.old) (K.written sink.new) (K.faults sink.old) (K.faults sink.new)
        (λ cut text. (input : List ℕ) × (IsTrue S.tells → S.left source.old ≡ input) × (IsTrue M.tells → OutcomeFor asked (W.Behind.told (W.gate doorway.old)) (M.view media) result.0 (M.view result.1) input cut text))) }
    // What can be done is done, unless memory runs out.
    ensures complete { WordsSay (map string_bytes words.now) result.0 (Unit {0}) (λ asked. IsFit asked S.tells (S.left source.old) M.tells (M.view media)
        → (Rose (S.faults source.old) (S.faults source.new) → ⊥) → (Rose (K.faults sink.old) (K.faults sink.new) → ⊥) → (Rose (M.view media).faults (M.view result.1).faults → ⊥)
        → IsComplete asked result.0) }
{
    fail_when_spent(source, sink, &media);
    match read_words(rt.alloc(), words) {
        Err(WordsFault::NoCommand) => (Status::Usage, media),
        Err(WordsFault::NoMemory) => (Status::NoMemory, media),
        Ok(asked) => {
            let (status, media) = obey(rt, asked, source, sink, media, doorway);
            fail_when_spent(source, sink, &media);
            (status, media)
        }
    }
}

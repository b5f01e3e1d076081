// Laws of whole runs, which follow from the definitions alone.
ghost use Rattle.std.specs.Prelude.{ℕ, ◌≡◌, ◌⊎◌, ◌<◌, ◌≤◌, ◌^◌, List, [], ◌++◌, length, Bool, None, IsTrue, IsFalse, Contains};
ghost use Rattle.history.specs.Legal.{IsLegal};
ghost use Rattle.history.specs.declared.call.Reply.TheVariants.{Committed};
ghost use Rattle.history.specs.Writes.{Table};
ghost use Rattle.caller_steps.specs.State.{State};
ghost use Rattle.caller_steps.specs.Run.{Turn, has_write};
ghost use Rattle.script_run.specs.declared.ended.Ended.{Ended};
ghost use Rattle.array_shape.specs.declared.shape.Shape.{Shape};
ghost use Rattle.command_words.specs.declared.words.FormatNumbers.{FormatNumbers};
ghost use Rattle.command_words.specs.declared.words.Words.{Words};
ghost use Rattle.command_words.specs.declared.words.EawOptions.{EawOptions};
ghost use Rattle.command_words.specs.declared.words.Words.TheVariants.{Eaw, Follow};
ghost use Rattle.eaw_device.specs.Opens.{AllOpen};
ghost use Rattle.eaw_face.specs.Frame.{Frame};
ghost use Rattle.frame_lines.specs.Framed.{Framed, framed, lines_of_frames};
ghost use Rattle.array_image.specs.Decided.{settled_data};
ghost use Rattle.record_table.specs.Upgrading.{upgraded};
ghost use Rattle.script_text.specs.Replies.{reply_line};
ghost use Rattle.told_commands.specs.Told.{names_on};
ghost use Rattle.mars_shell.specs.Leaving.{LeadFrom, leads_from};
ghost use Rattle.mars_shell.specs.Lines.{call_script};
ghost use Rattle.mars_shell.specs.Run.{AnswersLines};
ghost use Rattle.array_runs.specs.Forms.{index_in};
ghost use Rattle.mars_shell.specs.Asked.{OutcomeFor};
ghost use Rattle.mars_shell.specs.Formats.{FormatOutcome};
ghost use Rattle.mars_shell.specs.Next.{AllSound, IsOfRecords, LeavesFresh, records_on};
ghost use Rattle.array_runs.specs.Records.{HasAll, HoldsRecords};
ghost use Rattle.array_runs.specs.declared.status.Status.{Status};

use btree_pages::BTreePages;
use caller_work::Gate;
use key_list::KeyList;
use pcm_media::Media;
use record_table::version_two_keeps;

/// What turns over an array leave, which follows from their run (`TakesTurns.runs`). The names and the records at first are those that were
/// opened, and on these the history is legal, also with what is in doubt. If no turn asked to write or to remove a record, and the medium has
/// not failed, the data at the end is byte for byte what was opened, in version 2. What was acknowledged as committed is kept: the history
/// has at least n transactions if an answer is the whole line `c committed n`, also behind lines of frames.
pub fn what_turns_leave<M: Media>()
    ensures names { (old : M) (shape : Shape) (depth : ℕ) (turns : List Turn) (final : State) → LeadFrom shape (M.view old) depth turns final → final.names ≡ names_on shape (M.view old) }
    ensures base { (old : M) (shape : Shape) (depth : ℕ) (turns : List Turn) (final : State) → LeadFrom shape (M.view old) depth turns final → final.base ≡ records_on shape (M.view old) }
    ensures legal { (old : M) (shape : Shape) (depth : ℕ) (turns : List Turn) (final : State) → LeadFrom shape (M.view old) depth turns final → IsLegal final.base (final.history ++ final.doubt) }
    ensures unwritten { (old new : M) (shape : Shape) (depth : ℕ) (turns : List Turn) (final : State) → LeadFrom shape (M.view old) depth turns final → IsFalse (has_write turns)
        → IsFalse final.is_dead → HasAll (index_in shape (M.view new)) (settled_data shape (M.view new).content.bytes) final
        → settled_data shape (M.view new).content.bytes ≡ upgraded (settled_data shape (M.view old).content.bytes) }
    ensures acknowledged { (old : M) (shape : Shape) (depth : ℕ) (turns : List Turn) (final : State) → LeadFrom shape (M.view old) depth turns final
        → (input text : List ℕ) (ended : Ended) (cut : Bool) (told : AnswersLines (call_script shape.numbers) [] [] input ended cut text turns)
        → (caller n : ℕ) → caller < 2 ^ 64 → n < 2 ^ 64 → Contains told.answers (reply_line caller (Committed n)) → n ≤ length final.history }
    ensures framed { (old : M) (shape : Shape) (depth : ℕ) (turns : List Turn) (final : State) → LeadFrom shape (M.view old) depth turns final
        → (first last : Framed (List Turn)) → first.inner ≡ [] → last.inner ≡ turns
        → (before input text : List ℕ) (ended : Ended) (cut : Bool) (told : AnswersLines (framed (leads_from shape (M.view old) depth) (call_script shape.numbers)) first before input ended cut text last)
        → (frames : List Frame) (caller n : ℕ) → caller < 2 ^ 64 → n < 2 ^ 64 → Contains told.answers (lines_of_frames frames ++ reply_line caller (Committed n)) → n ≤ length final.history }
{}

/// Runs compose, over a medium that tells its bytes. If all that a loss of power may leave is sound, then that is so after a run too,
/// whatever its status and also where it was refused; and it is what the clauses of the next run ask for. After raw commands and frames all
/// still opens, and after a format that made an array all is sound, whatever was there before.
pub fn runs_compose<M: Media, G: Gate>()
    ensures premises { (media : M) (shape : Shape) (form : ℕ) → IsTrue M.tells → AllSound shape form (M.view media).content → AllOpen shape (M.view media).content × HoldsRecords shape (M.view media) }
    ensures run { (old new : M) (shape : Shape) (form : ℕ) (gate : G) (asked : Words) (status : Status) (input text : List ℕ) (cut : Bool) → IsTrue M.tells → IsOfRecords asked
        → AllSound shape form (M.view old).content → OutcomeFor asked (G.told gate) (M.view old) status (M.view new) input cut text → AllSound shape form (M.view new).content }
    ensures raw { (old new : M) (shape : Shape) (given : EawOptions) (status : Status) (input text : List ℕ) (cut : Bool) → IsTrue M.tells
        → AllOpen shape (M.view old).content → OutcomeFor (Eaw given) (λ place. Unit {0}) (M.view old) status (M.view new) input cut text → AllOpen shape (M.view new).content }
    ensures follow { (old new : M) (shape : Shape) (status : Status) (input text : List ℕ) (cut : Bool) → IsTrue M.tells
        → AllOpen shape (M.view old).content → OutcomeFor Follow (λ place. Unit {0}) (M.view old) status (M.view new) input cut text → AllOpen shape (M.view new).content }
    ensures fresh { (old new : M) (numbers : FormatNumbers) (status : Status) (text : List ℕ) (cut : Bool) → (status ≡ Status.Good) ⊎ (status ≡ Status.WriteFault)
        → FormatOutcome numbers (M.view old) status (M.view new) cut text → LeavesFresh numbers (M.view new).content }
{
    version_two_keeps::<KeyList>();
    version_two_keeps::<BTreePages>();
}

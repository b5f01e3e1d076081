// What images hold, which follows from the definitions alone.
ghost use Rattle.std.specs.Prelude.{ℕ, ◌≡◌, ◌⊎◌, List, [], ◌∷◌, ◌++◌, length, Bool};
ghost use Rattle.std.specs.FinMap.{empty};
ghost use Rattle.pcm_media.specs.Images.{MayLeave};
ghost use Rattle.array_shape.specs.declared.shape.Shape.{Shape};
ghost use Rattle.eaw_device.specs.Opens.{AllOpen, OpensLike};
ghost use Rattle.history.specs.Key.{main_name};
ghost use Rattle.history.specs.Writes.{Table};
ghost use Rattle.caller_steps.specs.State.{State};
ghost use Rattle.command_words.specs.declared.words.FormatNumbers.{FormatNumbers};
ghost use Rattle.command_words.specs.declared.words.Words.{Words};
ghost use Rattle.command_words.specs.declared.words.Words.TheVariants.{Make};
ghost use Rattle.array_runs.specs.Outcome.{OpensInTwo};
ghost use Rattle.array_runs.specs.declared.status.Status.{Status};
ghost use Rattle.mars_shell.specs.Asked.{OutcomeFor};
ghost use Rattle.mars_shell.specs.Formats.{FormatOutcome, HasAsked};
ghost use Rattle.mars_shell.specs.Next.{IsOf, AllAreOf, IsOfPrefix, LeavesOf, records_on};
ghost use Rattle.mars_shell.specs.PrefixLaw.{PrefixLaw};
ghost use Rattle.told_commands.specs.Told.{names_on};

use btree_pages::BTreePages;
use caller_work::Gate;
use key_list::KeyList;
use pcm_media::Media;
use record_table::version_two_keeps;

/// What images hold, without their bytes, over a medium that tells them. An image is of at most one array, with one list of tables and one
/// set of records. What a format leaves has the table `main` and no record. A run begins with the tables and the records that all images
/// have which the medium may leave. Each image that a loss of power might have left since its entry, within the opening too, is of the same
/// array with the same tables: with the records of the first so many transactions of the run, whole groups of them, or with those that there
/// were if nothing was answered or the command changes none. Only the making of a table adds one: each image has it once that was told, and
/// may have it meanwhile. So the tables and the records of an array that a format made, and that only these commands have written since,
/// are known from what was told, whatever its bytes are; and a table that was made stays, with records or without.
pub fn what_images_hold<M: Media, G: Gate>()
    ensures one { (shape other : Shape) (form its : ℕ) (names called : List (List ℕ)) (table records : Table) (image : List ℕ) → IsOf shape form names table image → IsOf other its called records image
        → (shape ≡ other) × (names ≡ called) × (table ≡ records) }
    ensures made { (numbers : FormatNumbers) (old new : M) (status : Status) (cut : Bool) (text : List ℕ) → (status ≡ Status.Good) ⊎ (status ≡ Status.WriteFault)
        → FormatOutcome numbers (M.view old) status (M.view new) cut text → (shape : Shape) × HasAsked numbers shape × AllAreOf shape 1 (main_name ∷ []) empty (M.view new).content }
    ensures opens { (old : M) (shape : Shape) (form : ℕ) (names : List (List ℕ)) (table : Table) → AllAreOf shape form names table (M.view old).content → AllOpen shape (M.view old).content }
    ensures begins { (old : M) (shape : Shape) (form : ℕ) (names : List (List ℕ)) (table : Table) → AllAreOf shape form names table (M.view old).content
        → (names_on shape (M.view old) ≡ names) × (records_on shape (M.view old) ≡ table) }
    ensures first { (old : M) (shape : Shape) (form : ℕ) (names : List (List ℕ)) (table : Table) → AllAreOf shape form names table (M.view old).content
        → (new : M) (final : State) → final.names ≡ names_on shape (M.view old) → final.base ≡ records_on shape (M.view old)
        → PrefixLaw shape (M.view old) final (M.view new) → (image : List ℕ) → (M.view new).left_since (M.view old).moment image → IsOfPrefix shape form final 0 image }
    ensures all { (old : M) (shape : Shape) (form : ℕ) (names : List (List ℕ)) (table : Table) → AllAreOf shape form names table (M.view old).content
        → (new : M) (final : State) → final.names ≡ names_on shape (M.view old) → final.base ≡ records_on shape (M.view old)
        → PrefixLaw shape (M.view old) final (M.view new) → (image : List ℕ) → MayLeave (M.view new).content image → IsOfPrefix shape form final (length final.history) image }
    ensures kept { (old : M) (shape : Shape) (form : ℕ) (names : List (List ℕ)) (table : Table) → AllAreOf shape form names table (M.view old).content → (image : List ℕ)
        → OpensLike shape (M.view old).content image ⊎ OpensInTwo shape (M.view old).content image → IsOf shape form names table image }
    ensures named { (old : M) (shape : Shape) (form : ℕ) (names : List (List ℕ)) (table : Table) → AllAreOf shape form names table (M.view old).content
        → (new : M) (name : List ℕ) (status : Status) (input : List ℕ) (cut : Bool) (text : List ℕ) → (status ≡ Status.Good) ⊎ (status ≡ Status.WriteFault)
        → OutcomeFor (Make name) (λ place. Unit {0}) (M.view old) status (M.view new) input cut text → AllAreOf shape form (names ++ name ∷ []) table (M.view new).content }
    ensures leaves { (old : M) (shape : Shape) (form : ℕ) (names : List (List ℕ)) (table : Table) → AllAreOf shape form names table (M.view old).content
        → (new : M) (image : List ℕ) → (M.view new).left_since (M.view old).moment image
        → (gate : G) (asked : Words) (status : Status) (input : List ℕ) (cut : Bool) (text : List ℕ) → OutcomeFor asked (G.told gate) (M.view old) status (M.view new) input cut text
        → LeavesOf asked shape form names table image }
{
    version_two_keeps::<KeyList>();
    version_two_keeps::<BTreePages>();
}

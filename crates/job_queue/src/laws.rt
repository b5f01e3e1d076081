// What holds of a queue whatever power does.
ghost use Rattle.std.specs.Prelude.{◌≡◌, ◌≤◌, [], ℕ, List};
ghost use Rattle.std.specs.FinMap.{empty};
ghost use Rattle.history.specs.Writes.{Table};
ghost use Rattle.caller_steps.specs.Core.{IsSafe};
ghost use Rattle.caller_steps.specs.State.{Index, opened};
ghost use Rattle.job_queue.specs.Queue.{IsQueue};
ghost use Rattle.job_queue.specs.Along.{Deed, GoesAlong, IsLeft};

use caller_steps::Core;

/// A core begins with a queue and no deed. If its transactions are deeds on the queue, as pushes and takes keep them, each image that a loss
/// of power may leave opens with a queue after the first so many of them, of which no job is lost and none is given twice. What was
/// committed is among them, as long as the prefix law holds, as it does along all steps (`caller_steps::prefix_law`).
pub fn no_job_is_lost<C: Core>()
    ensures begun { (size : ℕ) (names : List (List ℕ)) (base : Table) (index : Index) (jobs : List (List ℕ)) → IsQueue size base jobs → GoesAlong size jobs [] (opened names base index) }
    ensures images { (core : C) (since least size : ℕ) (image : List ℕ) (first : List (List ℕ)) (deeds : List Deed) → GoesAlong size first deeds (C.view core).state
        → IsSafe (C.view core) since least → (C.view core).left_since since image → IsLeft size first deeds least (C.view core) image }
{}

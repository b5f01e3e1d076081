// What two tables in step say about images.
ghost use Rattle.std.specs.Prelude.{ℕ, List};
ghost use Rattle.history.specs.Writes.{Table};
ghost use Rattle.caller_steps.specs.Core.{IsSafe};
ghost use Rattle.caller_steps.specs.State.{Index, opened};
ghost use Rattle.membership.specs.Enrolled.{AreInStep, StaysInStep};

use caller_steps::Core;

/// A core begins with no transaction, so in step if its records are. If its transactions keep both tables in step, each image that a loss of
/// power may leave opens with tables that say the same, as long as the prefix law holds, as it does along all steps
/// (`caller_steps::prefix_law`).
pub fn every_image_agrees<C: Core>()
    ensures begun { (groups : List ℕ) (names : List (List ℕ)) (base : Table) (index : Index) → AreInStep groups base → StaysInStep groups (opened names base index) }
    ensures images { (groups : List ℕ) (core : C) (since least : ℕ) (image : List ℕ) → StaysInStep groups (C.view core).state → IsSafe (C.view core) since least → (C.view core).left_since since image
        → (table : Table) × (C.view core).opens image table × AreInStep groups table }
{}

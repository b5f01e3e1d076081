// What the sum law says about images.
ghost use Rattle.std.specs.Prelude.{◌≡◌, ℕ, List};
ghost use Rattle.history.specs.Writes.{Table};
ghost use Rattle.caller_steps.specs.Core.{IsSafe};
ghost use Rattle.caller_steps.specs.State.{Index, opened};
ghost use Rattle.bank.specs.Accounts.{sum_of};
ghost use Rattle.bank.specs.Moves.{IsBalanced};

use caller_steps::Core;

/// A core begins with no transaction. If its transactions keep the sum, each image that a loss of power may leave opens with records of
/// that sum, as long as the prefix law holds, as it does along all steps (`caller_steps::prefix_law`).
pub fn every_image_keeps_the_sum<C: Core>()
    ensures begun { (names : List (List ℕ)) (base : Table) (index : Index) → IsBalanced (opened names base index) }
    ensures images { (core : C) (since least : ℕ) (image : List ℕ) → IsBalanced (C.view core).state → IsSafe (C.view core) since least → (C.view core).left_since since image
        → (table : Table) × (C.view core).opens image table × (sum_of table ≡ sum_of (C.view core).state.base) }
{}

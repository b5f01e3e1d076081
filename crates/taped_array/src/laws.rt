// A law of all commands, which follows from the definitions alone.
ghost use Rattle.std.specs.Prelude.{◌≤◌, ◌∷◌, ℕ, List};
ghost use Rattle.tape_media.specs.Tape.{Tape};
ghost use Rattle.taped_array.specs.declared.open_array.OpenArray.{OpenArray};
ghost use Rattle.taped_array.specs.Shown.{store_in};
ghost use Rattle.taped_array.specs.Safe.{IsOneOf, IsSafe, IsSafeOnDevice, LeavesEither};
ghost use Rattle.taped_array.specs.Tells.{GoesOn, IsDoneUpTo};

/// What a loss of power leaves, whatever is called meanwhile: since a moment (`IsMoment` tells of its data) a command adds the data after it and no
/// other, and a piece adds none. On the device no other is left, once all pieces up to that moment were done.
pub fn data_stays_safe()
    ensures command { (since : ℕ) (datas : List (List ℕ)) (after : List ℕ) (old new : OpenArray) → since ≤ (store_in old).moment
        → LeavesEither after old new → IsSafe old since datas → IsOneOf datas (store_in old).state.bytes → IsSafe new since (after ∷ datas) }
    ensures piece { (since : ℕ) (datas : List (List ℕ)) (next : Tape) (old new : OpenArray) → GoesOn next old new
        → IsSafe old since datas → IsSafe new since datas }
    ensures device { (moment since : ℕ) (datas : List (List ℕ)) (array : OpenArray) → IsDoneUpTo moment array → since ≤ moment
        → IsSafe array since datas → IsSafeOnDevice array datas }
{}

// What holds of a table of long values, from the definitions alone.
ghost use Rattle.std.specs.Prelude.{◌≡◌, ◌≢◌, ℕ, List, Option, None};
ghost use Rattle.std.specs.FinMap.{get};
ghost use Rattle.history.specs.Key.{of_table};
ghost use Rattle.history.specs.Writes.{Table};
ghost use Rattle.long_values.specs.Values.{IsKept, AreKept, with_value};
ghost use Rattle.long_values.specs.Changing.{SameButAt};

/// A table without records has no value. A change of the value under one key leaves those under all others, and a table of long values is
/// one of these values with the new one among them.
pub fn values_stand_apart()
    ensures none { (name : List ℕ) (table : Table) → ((key : ℕ) → get table (of_table name key) ≡ None) → AreKept name (λ key. None) table }
    ensures others { (name : List ℕ) (key other : ℕ) (value : Option (List ℕ)) (old new : Table) → other ≢ key → SameButAt name key old new → IsKept name other value old → IsKept name other value new }
    ensures all { (name : List ℕ) (key : ℕ) (values : ℕ → Option (List ℕ)) (value : Option (List ℕ)) (old new : Table) → AreKept name values old → SameButAt name key old new → IsKept name key value new
        → AreKept name (with_value values key value) new }
{}

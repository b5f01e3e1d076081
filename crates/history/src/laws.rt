// Laws of calls and locks, each of which follows from the definitions alone.
ghost use Rattle.std.specs.Prelude.{◌≡◌, ◌≢◌, ◌≤◌, ◌<◌, ◌++◌, List, ℕ, Option, Some, All, length, take, slice_get};
ghost use Rattle.std.specs.FinMap.{get};
ghost use Rattle.history.specs.Key.{Key};
ghost use Rattle.history.specs.Writes.{Table, set_or_remove, all_written};
ghost use Rattle.history.specs.Table.{Granted, IsRight, left_by};
ghost use Rattle.history.specs.Locks.{has_touched, has_written, AreApart, Agree, AgreeOff};
ghost use Rattle.history.specs.Log.{log_of};
ghost use Rattle.history.specs.Legal.{IsLegal, AreNumberedFrom};
ghost use Rattle.history.specs.Groups.{AreGrouped, AreAlone, AreWhole};
ghost use Rattle.history.specs.declared.transaction.Done.{Done};

/// Calls that are right on a table are right, with the same replies, on each table that agrees with it at the keys that they touched. What
/// they leave of the two tables agrees there too, and nothing is changed but what they touched for writing.
pub fn strict_locking()
    ensures right { (names : List (List ℕ)) (calls : Granted) (one other : Table) → Agree (has_touched names calls) one other → IsRight one calls → IsRight other calls }
    ensures same { (names : List (List ℕ)) (calls : Granted) (one other : Table) → Agree (has_touched names calls) one other → Agree (has_touched names calls) (left_by one calls) (left_by other calls) }
    ensures unwritten { (names : List (List ℕ)) (calls : Granted) (table : Table) → AgreeOff (has_written names calls) (left_by table calls) table }
{}

/// When a transaction commits, the calls of another transaction that clash with it at no stripe stay right and leave the same at what they
/// touched. Nothing that the other read or wrote is changed.
pub fn others_stay_right()
    ensures right { (names : List (List ℕ)) (table : Table) (committed calls : Granted) → AreApart names committed calls → IsRight table calls → IsRight (left_by table committed) calls }
    ensures same { (names : List (List ℕ)) (table : Table) (committed calls : Granted) → AreApart names committed calls → Agree (has_touched names calls) (left_by table calls) (left_by (left_by table committed) calls) }
    ensures unchanged { (names : List (List ℕ)) (table : Table) (committed calls : Granted) → AreApart names committed calls → Agree (has_touched names calls) table (left_by table committed) }
{}

/// The log of right calls, written into the table on which they are right, gives the table that they leave.
pub fn logs_show_what_is_seen()
    ensures { (table : Table) (calls : Granted) → IsRight table calls → left_by table calls ≡ all_written table (log_of calls).writes }
{}

/// What is found after a write: under its key what it set there, or nothing after a removal, and under each other key what was there.
pub fn what_a_write_shows()
    ensures here { (table : Table) (key : Key) (value : Option (List ℕ)) → get (set_or_remove table key value) key ≡ value }
    ensures there { (table : Table) (key other : Key) (value : Option (List ℕ)) → other ≢ key → get (set_or_remove table key value) other ≡ get table other }
{}

/// Groups in a history: the last one of a group is no earlier one. A first part of the history in which groups are whole has all of a group
/// or none of it, and is so in each longer history too. The whole history is one.
pub fn groups_are_there_or_not()
    ensures numbered { (base : Table) (history : List Done) → IsLegal base history → AreNumberedFrom 1 history }
    ensures no_earlier { (history : List Done) → AreNumberedFrom 1 history → AreGrouped history → All (λ done. done.at ≤ done.last) history }
    ensures all { (history : List Done) (count one other : ℕ) (first second : Done) → AreNumberedFrom 1 history → AreGrouped history → AreWhole count (take count history)
        → slice_get history one ≡ Some first → slice_get history other ≡ Some second → second.last ≡ first.last → one < count → other < count }
    ensures longer { (history more : List Done) (count : ℕ) → count ≤ length history → AreWhole count (take count history) → AreWhole count (take count (history ++ more)) }
    ensures whole { (history : List Done) → AreNumberedFrom 1 history → AreGrouped history → AreWhole (length history) history }
{}

/// Transactions that were committed alone are groups of one, and each first part of a history of them is whole. Behind groups comes another.
pub fn groups_of_one()
    ensures grouped { (history : List Done) → AreAlone history → AreGrouped history }
    ensures whole { (history : List Done) (count : ℕ) → AreNumberedFrom 1 history → AreAlone history → AreWhole count (take count history) }
    ensures more { (history more : List Done) → AreGrouped history → AreGrouped more → AreGrouped (history ++ more) }
{}

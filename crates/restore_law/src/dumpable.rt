// Which records and tables a dump tells.
ghost use Rattle.std.specs.Prelude.{List, ℕ, ◌<◌, ◌^◌, length};
ghost use Rattle.std.specs.FinMap.{entries};
ghost use Rattle.std.specs.List.{Contains};
ghost use Rattle.record_table.specs.Names.{names_of};
ghost use Rattle.record_table.specs.Shown.{table_of};
ghost use Rattle.dump_text.specs.Again.{AreOfArray};
ghost use Rattle.restore_law.specs.Told.{IsTold};

use page_store::KeyIndex;

/// The records of sound data are such as the text of a dump tells: names, keys and values are proper, no key stands twice, and there are
/// at most eight tables. Each table that is told is one of the data.
pub fn records_may_be_dumped<K: KeyIndex>()
    ensures records { (bytes : List ℕ) → K.index.sound bytes → length bytes < 2 ^ 32 → AreOfArray (entries (table_of K.index bytes)) }
    ensures tables { (bytes name : List ℕ) → K.index.sound bytes → IsTold (table_of K.index bytes) name → Contains (names_of bytes) name }
{}

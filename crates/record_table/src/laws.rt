// What data in version 2 has of the data before.
ghost use Rattle.std.specs.Prelude.{ℕ, ◌≡◌, ◌<◌, ◌^◌, List, length};
ghost use Rattle.record_slots.specs.Places.{tables_of, version_of};
ghost use Rattle.record_table.specs.Shown.{keys_of, table_of};
ghost use Rattle.record_table.specs.Upgrading.{upgraded};

use page_store::KeyIndex;

/// Sound data is sound in version 2 too, and has the same tables, records and keys.
pub fn version_two_keeps<K: KeyIndex>()
    ensures sound { (bytes : List ℕ) → K.index.sound bytes → length bytes < 2 ^ 32 → K.index.sound (upgraded bytes) }
    ensures version { (bytes : List ℕ) → K.index.sound bytes → length bytes < 2 ^ 32 → version_of (upgraded bytes) ≡ 2 }
    ensures tables { (bytes : List ℕ) → K.index.sound bytes → length bytes < 2 ^ 32 → tables_of (upgraded bytes) ≡ tables_of bytes }
    ensures records { (bytes : List ℕ) → K.index.sound bytes → length bytes < 2 ^ 32 → table_of K.index (upgraded bytes) ≡ table_of K.index bytes }
    ensures keys { (bytes : List ℕ) → K.index.sound bytes → length bytes < 2 ^ 32 → keys_of K.index (upgraded bytes) ≡ keys_of K.index bytes }
{}

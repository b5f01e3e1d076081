// Laws of trees that are built from below.
ghost use Rattle.std.specs.Prelude.{◌≡◌, ◌^◌, ◌<◌, ◌≤◌, [], ◌∷◌, ℕ, List, length, map};
ghost use Rattle.record_slots.specs.Places.{next_page, next_slot, AreGiven};
ghost use Rattle.record_slots.specs.Fresh.{fresh_page};
ghost use Rattle.page_store.specs.Pairs.{Pair, Rise};
ghost use Rattle.index_pages.specs.Keys.{key_end};
ghost use Rattle.index_pages.specs.Written.{AreSmall};
ghost use Rattle.index_pages.specs.Ways.{IsOwn};
ghost use Rattle.btree_laws.specs.Sound.{IsSoundTree};
ghost use Rattle.btree_laws.specs.Tree.{pairs_of_tree};
ghost use Rattle.btree_laws.specs.declared.root.Root.{Root};
ghost use Rattle.btree_pages.specs.Index.{tree};
ghost use Rattle.history.specs.Key.{main_name};
ghost use Rattle.history.specs.Rows.{table_of as table_with};
ghost use Rattle.page_store.specs.Records.{records_of};
ghost use Rattle.record_table.specs.Names.{names_of};
ghost use Rattle.record_table.specs.Shown.{table_of};
ghost use Rattle.table_builder.specs.Built.{IsBuilt, Level};
ghost use Rattle.table_builder.specs.Image.{Built, IsImage, named_rows};
ghost use Rattle.table_builder.specs.Plan.{CanMake, IsMade, Plan, planned_page, tables_built};

/// A tree that is built of pairs is sound, whatever its number of levels, and has just these pairs, if their keys rise and their slots carry them.
pub fn built_trees_are_sound()
    ensures { (root : Root) (bytes : List ℕ) (first : ℕ) (pairs : List Pair) (levels : List Level) → IsBuilt bytes root.page 0 first pairs levels →
        IsOwn bytes root.page → root.page < first → 2 ≤ first → next_page bytes ≤ 2 ^ 64 →
        Rise 0 key_end pairs → AreSmall pairs → AreGiven bytes root.table pairs →
        IsSoundTree root bytes × (pairs_of_tree bytes root.page ≡ pairs) }
{}

/// Data that is made of records is a sound index of trees. Its records are those that it was made of, and no pair is without one.
pub fn images_are_sound()
    ensures { (bytes : List ℕ) (tables : List Built) → IsImage bytes tables → next_page bytes ≤ 2 ^ 64 → next_slot bytes ≤ 2 ^ 64 →
        tree.sound bytes × (records_of tree bytes ≡ map (λ table. table.rows) tables) × (table_of tree bytes ≡ table_with (map named_rows tables)) }
{}

/// Data that has the pages of a plan that can be made is an image of its tables: a sound index with just these tables and records, however
/// many they are.
pub fn tables_make_an_image()
    ensures { (plan : Plan) (bytes : List ℕ) → CanMake plan → IsMade plan bytes → IsImage bytes (tables_built plan)
        × tree.sound bytes × (table_of tree bytes ≡ table_with plan.tables) × (names_of bytes ≡ map (λ table. table.0) plan.tables) }
{}

/// The plan of `main` without rows is a fresh array's, page by page.
pub fn no_rows_make_a_fresh_array()
    ensures { (fill half page : ℕ) → 2 ≤ half → planned_page (record { fill = fill; half = half; tables = (main_name, []) ∷ [] }) page ≡ fresh_page page }
{}

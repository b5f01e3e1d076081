// Laws of trees, each of which follows from the definitions alone.
ghost use Rattle.std.specs.Prelude.{◌≡◌, ◌≢◌, ◌<◌, ◌≤◌, ◌↔◌, ℕ, suc, List, [], None};
ghost use Rattle.mars_base.specs.Check.{IsSingle};
ghost use Rattle.record_slots.specs.Places.{page_bytes, next_page, AreGiven};
ghost use Rattle.page_store.specs.Pairs.{Rise, found, inserted};
ghost use Rattle.index_pages.specs.Keys.{key_end};
ghost use Rattle.index_pages.specs.Page.{kind_of, level_of, count_of, link_of, page_pairs};
ghost use Rattle.index_pages.specs.Pieces.{Tile};
ghost use Rattle.index_pages.specs.Ways.{above, Keeps, IsOwn};
ghost use Rattle.btree_laws.specs.Changes.{TakesPair, SplitsChild, SplitsRoot};
ghost use Rattle.btree_laws.specs.Descent.{child_for, page_for, leaf_for};
ghost use Rattle.btree_laws.specs.Sound.{IsTree, IsSoundTree};
ghost use Rattle.btree_laws.specs.declared.root.Root.{Root};
ghost use Rattle.btree_laws.specs.Tree.{tree_check, pairs_under, pieces_under, pairs_of_tree, IsPageOfTree};

/// A tree whose root is a given page is sound exactly where its check passes. A check has at most one verdict: at most one page is the
/// first that fails, and if the tree is sound there is none.
pub fn checks_have_one_verdict()
    ensures passes { (root : Root) (bytes : List ℕ) → IsOwn bytes root.page → tree_check root bytes None ↔ IsSoundTree root bytes }
    ensures single { (root : Root) (bytes : List ℕ) → IsSingle (tree_check root bytes) }
{}

/// The children of an inner page tile its range. The pairs of a sound tree rise strictly, and their slots are given out and carry the keys.
pub fn tree_rises()
    ensures tiles { (root : Root) (l : ℕ) (bytes : List ℕ) (page low high : ℕ) → IsTree root (suc l) bytes page low high → Tile low high (pieces_under l bytes page) }
    ensures rises { (root : Root) (bytes : List ℕ) → IsSoundTree root bytes → Rise 0 key_end (pairs_of_tree bytes root.page) }
    ensures given { (root : Root) (bytes : List ℕ) → IsSoundTree root bytes → AreGiven bytes root.table (pairs_of_tree bytes root.page) }
{}

/// A look-up goes down from the root to the leaf of the key.
pub fn descent_finds()
    ensures leaf { (root : Root) (bytes : List ℕ) (key : ℕ) → IsSoundTree root bytes → key < key_end →
        found (pairs_of_tree bytes root.page) key ≡ found (page_pairs bytes (leaf_for bytes root.page key)) key }
    ensures step { (root : Root) (d m : ℕ) (bytes : List ℕ) (key page low high : ℕ) → IsTree root (above d m) bytes page low high → low ≤ key → key < high →
        found (pairs_under (above d m) bytes page) key ≡ found (pairs_under m bytes (page_for d bytes page key)) key }
{}

/// What one action does to a tree. Adding a pair to the key's leaf inserts it among all pairs. Splitting a child on a key's way, or the
/// root, keeps all pairs. The tree stays sound. What becomes of other pages plays no part.
pub fn tree_changes_keep()
    ensures takes { (root : Root) (old new : List ℕ) (key to : ℕ) → IsSoundTree root old → Keeps old new → key < key_end → found (pairs_of_tree old root.page) key ≡ None →
        TakesPair root old new (leaf_for old root.page key) key to →
        ((x : ℕ) → IsPageOfTree old root.page x → x ≢ leaf_for old root.page key → page_bytes new x ≡ page_bytes old x) →
        IsSoundTree root new × (pairs_of_tree new root.page ≡ inserted (pairs_of_tree old root.page) key to) × (level_of new root.page ≡ level_of old root.page) }
    ensures splits { (root : Root) (old new : List ℕ) (d l key right : ℕ) → IsSoundTree root old → Keeps old new → key < key_end → level_of old root.page ≡ above d (suc l) →
        SplitsChild root old new (page_for d old root.page key) key right →
        ((x : ℕ) → IsPageOfTree old root.page x → x ≢ page_for d old root.page key → x ≢ child_for (page_pairs old (page_for d old root.page key)) key → page_bytes new x ≡ page_bytes old x) →
        IsSoundTree root new × (pairs_of_tree new root.page ≡ pairs_of_tree old root.page) × (level_of new root.page ≡ level_of old root.page) }
    ensures grows { (root : Root) (old new : List ℕ) (left right : ℕ) → IsSoundTree root old → Keeps old new → level_of old root.page < 7 → SplitsRoot root old new left right →
        ((x : ℕ) → IsPageOfTree old root.page x → x ≢ root.page → page_bytes new x ≡ page_bytes old x) →
        IsSoundTree root new × (pairs_of_tree new root.page ≡ pairs_of_tree old root.page) }
{}

/// A tree is as it was on data where its own pages are as they were, and where slots carry what they carried, or those of its own pairs do.
/// A page that is neither a leaf nor an inner page belongs to no tree.
pub fn the_rest_leaves_the_tree()
    ensures rests { (root : Root) (old new : List ℕ) → IsSoundTree root old → Keeps old new →
        ((x : ℕ) → IsPageOfTree old root.page x → page_bytes new x ≡ page_bytes old x) →
        IsSoundTree root new × (pairs_of_tree new root.page ≡ pairs_of_tree old root.page) × (level_of new root.page ≡ level_of old root.page) }
    ensures moved { (root : Root) (old new : List ℕ) → IsSoundTree root old → next_page old ≤ next_page new →
        ((x : ℕ) → IsPageOfTree old root.page x → page_bytes new x ≡ page_bytes old x) → AreGiven new root.table (pairs_of_tree old root.page) →
        IsSoundTree root new × (pairs_of_tree new root.page ≡ pairs_of_tree old root.page) × (level_of new root.page ≡ level_of old root.page) }
    ensures apart { (root : Root) (bytes : List ℕ) (x : ℕ) → IsSoundTree root bytes → (kind_of bytes x ≡ 1 → ⊥) → (kind_of bytes x ≡ 2 → ⊥) →
        IsPageOfTree bytes root.page x → ⊥ }
{}

/// Trees of different roots, of different tables, share no page.
pub fn trees_are_apart()
    ensures { (bytes : List ℕ) (a b : Root) → a.table ≢ b.table → (x : ℕ) → a.page ≢ b.page → IsSoundTree a bytes → IsSoundTree b bytes →
        IsPageOfTree bytes a.page x → IsPageOfTree bytes b.page x → ⊥ }
{}

/// If its root is a given page, a leaf without pairs and without a link is a sound tree of no pairs.
pub fn fresh_is_sound()
    ensures { (root : Root) (bytes : List ℕ) → IsOwn bytes root.page → kind_of bytes root.page ≡ 1 → level_of bytes root.page ≡ 0 → link_of bytes root.page ≡ 0 →
        count_of bytes root.page ≡ 0 → IsSoundTree root bytes × (pairs_of_tree bytes root.page ≡ []) }
{}

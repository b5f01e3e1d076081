// Laws of a removal, each of which follows from the definitions alone.
ghost use Rattle.std.specs.Prelude.{◌≡◌, ◌≢◌, ◌⊎◌, ◌<◌, ◌≤◌, ℕ, suc, List, length, nat_eq, if◌then◌else◌, true, Option, Some, None};
ghost use Rattle.record_slots.specs.Places.{page_bytes, next_page};
ghost use Rattle.page_store.specs.Index.{HasCounts};
ghost use Rattle.page_store.specs.Pairs.{Pair, Rise, found, removed};
ghost use Rattle.index_pages.specs.Keys.{key_end};
ghost use Rattle.index_pages.specs.Page.{count_of, level_of, page_pairs};
ghost use Rattle.index_pages.specs.Ways.{above};
ghost use Rattle.index_pages.specs.Written.{AreSmall};
ghost use Rattle.btree_laws.specs.Descent.{child_for, page_for, leaf_for};
ghost use Rattle.btree_laws.specs.Removals.{MayLose, IsAlone, Neighbours, KeepsBut, Lacks, IsJoinPlace, LosesPair, JoinsRight, JoinsLeft, right_of, without_right, without_last, parent_for, stays_last};
ghost use Rattle.btree_laws.specs.Sound.{IsSoundTree};
ghost use Rattle.btree_laws.specs.declared.root.Root.{Root};
ghost use Rattle.btree_laws.specs.Tree.{pairs_of_tree, IsPageOfTree};

/// After the removal of a key nothing is found there, and all else as before. The keys still rise, and there is one pair less.
pub fn removal_takes_one()
    ensures rises { (low high key : ℕ) (ps : List Pair) → Rise low high ps → Rise low high (removed ps key) }
    ensures found { (low high key other : ℕ) (ps : List Pair) → Rise low high ps → found (removed ps key) other ≡ (if nat_eq key other then None else found ps other) }
    ensures one_less { (key slot : ℕ) (ps : List Pair) → found ps key ≡ Some slot → length ps ≡ suc (length (removed ps key)) }
{}

/// What a removal does to a tree: the key's leaf loses the pair, or takes the pairs of the page to its right, or is itself named no more.
/// Just that pair is taken out of all pairs. The tree stays sound, and the root keeps its level. The slot of the pair, and the page that
/// is named no more, may say anything.
pub fn tree_removals_keep()
    ensures loses { (root : Root) (old new : List ℕ) (key slot : ℕ) → IsSoundTree root old → KeepsBut slot old new → found (pairs_of_tree old root.page) key ≡ Some slot →
        HasCounts old → HasCounts new → key < key_end → LosesPair root old new (leaf_for old root.page key) key →
        ((x : ℕ) → IsPageOfTree old root.page x → x ≢ leaf_for old root.page key → page_bytes new x ≡ page_bytes old x) →
        Lacks root old new key }
    ensures joins_right { (root : Root) (old new : List ℕ) (key slot : ℕ) → IsSoundTree root old → KeepsBut slot old new → found (pairs_of_tree old root.page) key ≡ Some slot →
        HasCounts old → HasCounts new → key < key_end → (d : ℕ) → level_of old root.page ≡ above d 1 → JoinsRight old new (page_for d old root.page key) key →
        ((x : ℕ) → IsPageOfTree old root.page x → x ≢ page_for d old root.page key → x ≢ child_for (page_pairs old (page_for d old root.page key)) key →
        x ≢ right_of (page_pairs old (page_for d old root.page key)) key → page_bytes new x ≡ page_bytes old x) →
        Lacks root old new key }
    ensures joins_left { (root : Root) (old new : List ℕ) (key slot : ℕ) → IsSoundTree root old → KeepsBut slot old new → found (pairs_of_tree old root.page) key ≡ Some slot →
        HasCounts old → HasCounts new → key < key_end → (d : ℕ) → level_of old root.page ≡ above d 1 → JoinsLeft old new (page_for d old root.page key) key →
        ((x : ℕ) → IsPageOfTree old root.page x → x ≢ page_for d old root.page key → x ≢ child_for (page_pairs old (page_for d old root.page key)) key →
        page_bytes new x ≡ page_bytes old x) →
        Lacks root old new key }
{}

/// Where the leaf of a key is below the root, its parent is one level up, and the page to its right is another leaf under that parent.
pub fn leaves_are_joined_here()
    ensures { (root : Root) (bytes : List ℕ) (d key : ℕ) → IsSoundTree root bytes → key < key_end → level_of bytes root.page ≡ above d 1 →
        IsJoinPlace bytes (page_for d bytes root.page key) (leaf_for bytes root.page key) key }
{}

/// Which action it is: the key's leaf loses the pair, or has no other. Then there is a page to its right, or it is the last of several, or
/// it is the only one under its parent.
pub fn removals_are_chosen()
    ensures leaf { (root : Root) (bytes : List ℕ) (key slot : ℕ) → IsSoundTree root bytes → key < key_end → found (pairs_of_tree bytes root.page) key ≡ Some slot →
        MayLose root bytes key ⊎ ((d : ℕ) × IsAlone root bytes d key) }
    ensures parent { (root : Root) (bytes : List ℕ) (d key : ℕ) → IsSoundTree root bytes → key < key_end → level_of bytes root.page ≡ above d 1 →
        Neighbours bytes (page_for d bytes root.page key) key }
{}

/// What is left of numbers of 64 bits are such.
pub fn what_is_left_is_small()
    ensures pairs { (key : ℕ) (ps : List Pair) → AreSmall ps → AreSmall (removed ps key) }
    ensures right { (key : ℕ) (es : List Pair) → AreSmall es → AreSmall (without_right es key) }
    ensures last { (es : List Pair) → AreSmall es → AreSmall (without_last es) }
{}

/// Each page of a tree after a removal was a page of it before.
pub fn removals_add_no_page()
    ensures loses { (root : Root) (old new : List ℕ) (x : ℕ) → IsSoundTree root old → level_of new root.page ≡ level_of old root.page → (leaf : ℕ) → level_of old leaf ≡ 0 →
        ((p : ℕ) → 1 ≤ p → p < next_page old → p ≢ leaf → page_bytes new p ≡ page_bytes old p) →
        IsPageOfTree new root.page x → IsPageOfTree old root.page x }
    ensures joins_right { (root : Root) (old new : List ℕ) (key x : ℕ) → IsSoundTree root old → level_of new root.page ≡ level_of old root.page →
        (d : ℕ) → key < key_end → level_of old root.page ≡ above d 1 → JoinsRight old new (page_for d old root.page key) key →
        ((p : ℕ) → 1 ≤ p → p < next_page old → p ≢ page_for d old root.page key → p ≢ child_for (page_pairs old (page_for d old root.page key)) key →
        p ≢ right_of (page_pairs old (page_for d old root.page key)) key → page_bytes new p ≡ page_bytes old p) →
        IsPageOfTree new root.page x → IsPageOfTree old root.page x }
    ensures joins_left { (root : Root) (old new : List ℕ) (key x : ℕ) → IsSoundTree root old → level_of new root.page ≡ level_of old root.page →
        (d : ℕ) → key < key_end → level_of old root.page ≡ above d 1 → JoinsLeft old new (page_for d old root.page key) key →
        ((p : ℕ) → 1 ≤ p → p < next_page old → p ≢ page_for d old root.page key → p ≢ child_for (page_pairs old (page_for d old root.page key)) key →
        page_bytes new p ≡ page_bytes old p) →
        IsPageOfTree new root.page x → IsPageOfTree old root.page x }
{}

/// Each page of a tree before its leaves were joined is one of it after, but for the one that is named no more. (A loss of a pair alone
/// changes no inner page.)
pub fn removals_lose_no_page()
    ensures joins_right { (root : Root) (old new : List ℕ) (key d x : ℕ) → IsSoundTree root old → level_of new root.page ≡ level_of old root.page → key < key_end →
        level_of old root.page ≡ above d 1 → JoinsRight old new (page_for d old root.page key) key →
        ((p : ℕ) → IsPageOfTree old root.page p → p ≢ page_for d old root.page key → p ≢ child_for (page_pairs old (page_for d old root.page key)) key →
        p ≢ right_of (page_pairs old (page_for d old root.page key)) key → page_bytes new p ≡ page_bytes old p) →
        IsPageOfTree old root.page x → IsPageOfTree new root.page x ⊎ (x ≡ right_of (page_pairs old (page_for d old root.page key)) key) }
    ensures joins_left { (root : Root) (old new : List ℕ) (key d x : ℕ) → IsSoundTree root old → level_of new root.page ≡ level_of old root.page → key < key_end →
        level_of old root.page ≡ above d 1 → JoinsLeft old new (page_for d old root.page key) key →
        ((p : ℕ) → IsPageOfTree old root.page p → p ≢ page_for d old root.page key → p ≢ child_for (page_pairs old (page_for d old root.page key)) key →
        page_bytes new p ≡ page_bytes old p) →
        IsPageOfTree old root.page x → IsPageOfTree new root.page x ⊎ (x ≡ child_for (page_pairs old (page_for d old root.page key)) key) }
{}

/// A pair that stays as the last of an only child stays so still, if the root keeps its level, the inner pages above the parents of leaves
/// and the parent of its own leaf are as they were, and that leaf has no more pairs.
pub fn last_pairs_stay()
    ensures { (root : Root) (old new : List ℕ) (key : ℕ) → IsSoundTree root old → key < key_end → level_of new root.page ≡ level_of old root.page →
        ((x : ℕ) → IsPageOfTree old root.page x → 1 < level_of old x → page_bytes new x ≡ page_bytes old x) →
        page_bytes new (parent_for old root.page key) ≡ page_bytes old (parent_for old root.page key) → count_of new (leaf_for old root.page key) ≤ 1 →
        stays_last old root.page key ≡ true → stays_last new root.page key ≡ true }
{}

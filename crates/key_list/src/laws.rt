// Laws of chains: each follows from the definitions alone.
ghost use Rattle.std.specs.Prelude.{◌≡◌, ◌≢◌, ◌<◌, ◌≤◌, ℕ, List, [], Some, None};
ghost use Rattle.record_slots.specs.Places.{page_bytes, next_page, AreGiven};
ghost use Rattle.page_store.specs.Index.{HasCounts, KeepsIndex, IsTable};
ghost use Rattle.page_store.specs.Pairs.{Rise, found, inserted, removed};
ghost use Rattle.index_pages.specs.Keys.{key_end};
ghost use Rattle.index_pages.specs.Page.{kind_of, level_of, count_of, link_of, page_pairs};
ghost use Rattle.index_pages.specs.Pieces.{joined, Tile};
ghost use Rattle.index_pages.specs.Ways.{Keeps, KeepsBut, IsOwn};
ghost use Rattle.key_list.specs.Chain.{chain_check, IsSoundChain, IsFirstDamagedOfChain, pieces_of_chain, pairs_of_chain, page_of_key};
ghost use Rattle.key_list.specs.Changes.{TakesPairInChain, SplitsPage, LosesPairInChain};
ghost use Rattle.key_list.specs.Index.{IsPageOfChain};

/// The pages of a sound chain of a table tile all keys, and have its pairs. These rise strictly, with slots that are given and carry the
/// keys for that table.
pub fn chain_rises()
    ensures pairs { (bytes : List ℕ) (root : ℕ) → joined (pieces_of_chain bytes root) ≡ pairs_of_chain bytes root }
    ensures tiles { (bytes : List ℕ) (root table : ℕ) → chain_check bytes root table None → Tile 0 key_end (pieces_of_chain bytes root) }
    ensures rises { (bytes : List ℕ) (root table : ℕ) → chain_check bytes root table None → Rise 0 key_end (pairs_of_chain bytes root) }
    ensures given { (bytes : List ℕ) (root table : ℕ) → chain_check bytes root table None → AreGiven bytes table (pairs_of_chain bytes root) }
{}

/// What one action makes of the chain of a table. A look-up goes to the page of the key. A pair that this page takes is inserted among all
/// pairs. A split of this page keeps all pairs. The chain stays sound.
pub fn chain_changes_keep()
    ensures finds { (bytes : List ℕ) (root table key : ℕ) → chain_check bytes root table None → found (pairs_of_chain bytes root) key ≡ found (page_pairs bytes (page_of_key bytes root key)) key }
    ensures takes { (old new : List ℕ) (root table key to : ℕ) → IsOwn old root → chain_check old root table None → Keeps old new → next_page new ≡ next_page old → key < key_end →
        found (pairs_of_chain old root) key ≡ None → TakesPairInChain old new table (page_of_key old root key) key to →
        ((x : ℕ) → 1 ≤ x → x < next_page old → kind_of old x ≡ 1 → x ≢ page_of_key old root key → page_bytes new x ≡ page_bytes old x) →
        chain_check new root table None × (pairs_of_chain new root ≡ inserted (pairs_of_chain old root) key to) }
    ensures splits { (old new : List ℕ) (root table fresh key : ℕ) → IsOwn old root → chain_check old root table None → Keeps old new → key < key_end →
        SplitsPage old new (page_of_key old root key) fresh →
        ((x : ℕ) → 1 ≤ x → x < next_page old → kind_of old x ≡ 1 → x ≢ page_of_key old root key → page_bytes new x ≡ page_bytes old x) →
        chain_check new root table None × (pairs_of_chain new root ≡ pairs_of_chain old root) }
{}

/// What a removal makes of the chain of a table, whatever the slot of the pair says then: the page of the key loses the pair, and keeps
/// others or is the root alone, and just that pair is taken out of all. A chain is as it was on data where its own pages are, and where the
/// slots of its pairs are given and carry their keys.
pub fn chain_removals_keep()
    ensures loses { (old new : List ℕ) (root table key slot : ℕ) → IsOwn old root → chain_check old root table None → KeepsBut slot old new → HasCounts old →
        found (pairs_of_chain old root) key ≡ Some slot → next_page new ≡ next_page old → LosesPairInChain old new root (page_of_key old root key) key →
        ((x : ℕ) → 1 ≤ x → x < next_page old → kind_of old x ≡ 1 → x ≢ page_of_key old root key → page_bytes new x ≡ page_bytes old x) →
        chain_check new root table None × (pairs_of_chain new root ≡ removed (pairs_of_chain old root) key) }
    ensures moved { (old new : List ℕ) (table root : ℕ) → IsOwn old root → chain_check old root table None → next_page old ≤ next_page new → AreGiven new table (pairs_of_chain old root) →
        ((x : ℕ) → IsPageOfChain old root x → page_bytes new x ≡ page_bytes old x) → chain_check new root table None × (pairs_of_chain new root ≡ pairs_of_chain old root) }
{}

/// Writes into slots that leave their keys leave the chains of all tables as they are.
pub fn slots_leave_the_chain()
    ensures { (old new : List ℕ) → IsSoundChain old → KeepsIndex old new → IsSoundChain new × ((table root : ℕ) → IsTable old table root → pairs_of_chain new root ≡ pairs_of_chain old root) }
{}

/// At most one page is the first that fails, and none is if the data is sound.
pub fn damage_is_first()
    ensures sound { (bytes : List ℕ) (bad : ℕ) → IsFirstDamagedOfChain bytes bad → IsSoundChain bytes → ⊥ }
    ensures one { (bytes : List ℕ) (bad other : ℕ) → IsFirstDamagedOfChain bytes bad → IsFirstDamagedOfChain bytes other → bad ≡ other }
{}

/// A root with no pairs and no link is a sound chain of no pairs, for any table.
pub fn fresh_is_sound()
    ensures { (bytes : List ℕ) (root table : ℕ) → 1 ≤ next_page bytes → kind_of bytes root ≡ 1 → level_of bytes root ≡ 0 → link_of bytes root ≡ 0 → count_of bytes root ≡ 0 →
        chain_check bytes root table None × (pairs_of_chain bytes root ≡ []) }
{}

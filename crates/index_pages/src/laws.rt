// Laws of lists of pairs, and of lists of what is free: each follows from the definitions alone.
ghost use Rattle.std.specs.Prelude.{◌≡◌, ◌≢◌, ◌+◌, ◌-◌, ◌<◌, ◌≤◌, ℕ, suc, List, length, drop, nat_eq, if◌then◌else◌, Option, Some, None};
ghost use Rattle.record_slots.specs.Free.{next_of, member_at};
ghost use Rattle.record_slots.specs.Places.{free_page_of};
ghost use Rattle.record_slots.specs.declared.free.Free.{Free};
ghost use Rattle.index_pages.specs.Page.{kind_of};
ghost use Rattle.index_pages.specs.Slots.{list_check};
ghost use Rattle.page_store.specs.Pairs.{Pair, Rise, found, next, inserted};
ghost use Rattle.index_pages.specs.Keys.{or_else, head};
ghost use Rattle.index_pages.specs.Pieces.{Piece, joined, Tile, piece_at, IsIn, with_piece};

/// A key that was not there is found after its insertion, and all others as before. The keys still rise.
pub fn insertion_adds()
    ensures rises { (low high key to : ℕ) (ps : List Pair) → Rise low high ps → low ≤ key → key < high → found ps key ≡ None → Rise low high (inserted ps key to) }
    ensures found { (low high key to other : ℕ) (ps : List Pair) → Rise low high ps → found ps key ≡ None →
        found (inserted ps key to) other ≡ (if nat_eq key other then Some to else found ps other) }
    ensures one_more { (key to : ℕ) (ps : List Pair) → length (inserted ps key to) ≡ suc (length ps) }
{}

/// A key lies in the range of just one piece, and is found, or inserted, in all pairs as in those of that piece.
pub fn pieces_answer()
    ensures some { (low high key : ℕ) (pieces : List Piece) → Tile low high pieces → low ≤ key → key < high → (i : ℕ) × IsIn pieces high i key }
    ensures one { (low high key : ℕ) (pieces : List Piece) (i j : ℕ) → Tile low high pieces → IsIn pieces high i key → IsIn pieces high j key → i ≡ j }
    ensures found { (low high key : ℕ) (pieces : List Piece) (i : ℕ) → Tile low high pieces → IsIn pieces high i key →
        found (joined pieces) key ≡ found (piece_at pieces i) key }
    ensures inserted { (low high key to : ℕ) (pieces : List Piece) (i : ℕ) → Tile low high pieces → IsIn pieces high i key →
        inserted (joined pieces) key to ≡ joined (with_piece pieces i (inserted (piece_at pieces i) key to)) }
    ensures next { (low high from : ℕ) (pieces : List Piece) (i : ℕ) → Tile low high pieces → IsIn pieces high i from →
        next (joined pieces) from ≡ or_else (next (piece_at pieces i) from) (head (joined (drop (suc i) pieces))) }
{}

/// A list of what is free is a stack: what is given back goes on top and ranks above all others, and the top is what is taken. No member
/// comes twice. Where a number of its range is not free, there is room for one more. A free page is of a kind that no chain and no tree
/// has.
pub fn free_lists_are_stacks()
    ensures pushes { (old new : ℕ → Option Free) (page_of : ℕ → ℕ) (low end n first m page : ℕ) → list_check old page_of low end n first page None → low ≤ m → m < end →
        new m ≡ Some (record { next = first; rank = suc n }) → ((x : ℕ) → low ≤ x → x < end → old x ≢ None → new x ≡ old x) → list_check new page_of low end (suc n) (suc m) page None }
    ensures pops { (old new : ℕ → Option Free) (page_of : ℕ → ℕ) (low end n first page : ℕ) → list_check old page_of low end (suc n) first page None →
        ((x : ℕ) → x ≢ first - 1 → old x ≢ None → new x ≡ old x) → list_check new page_of low end n (next_of (old (first - 1))) page None }
    ensures once { (said : ℕ → Option Free) (page_of : ℕ → ℕ) (low end n first page i j : ℕ) → list_check said page_of low end n first page None → i < n → j < n → i ≢ j →
        member_at said first i ≢ member_at said first j }
    ensures room { (said : ℕ → Option Free) (page_of : ℕ → ℕ) (low end n first page m : ℕ) → list_check said page_of low end n first page None → low ≤ m → m < end → said m ≡ None →
        n + low < end }
    ensures apart { (bytes : List ℕ) (page : ℕ) → free_page_of bytes page ≢ None → kind_of bytes page ≡ 255 }
{}

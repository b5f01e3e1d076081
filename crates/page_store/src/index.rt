// An index over pages, as the layers above see it.
ghost use Rattle.std.specs.Prelude.{◌≡◌, ◌^◌, ◌<◌, ◌≤◌, ◌++◌, List, [], ℕ, None, false, is_some, IfOk, IfSome, OnOk, IsErrOf, IsTrue};
ghost use Rattle.array_shape.specs.Places.{page_count};
ghost use Rattle.eaw_face.specs.Causes.{IsAlive};
ghost use Rattle.record_slots.specs.Places.{next_page, page_bytes, version_of, AreGiven};
ghost use Rattle.page_store.specs.Access.{Access};
ghost use Rattle.page_store.specs.Index.{Index, IsTable, HasCounts, KeepsIndex, IsEmptyRoot, Extends, slots_of};
ghost use Rattle.page_store.specs.Follows.{Follows};
ghost use Rattle.page_store.specs.Inserts.{Inserts, are_slots_full};
ghost use Rattle.page_store.specs.Removes.{HasAbsent, Removes};
ghost use Rattle.page_store.specs.Looks.{Looks, LookCause, CheckCause, is_failed, is_check_failed};
ghost use Rattle.page_store.specs.Pairs.{Rise, AreInside, AreNext, found};
ghost use Rattle.page_store.specs.Placed.{FollowsToPlace, IsPlaceIn, IsSoughtFor, IsSoughtIn, slot_sought};
ghost use Rattle.page_store.specs.Records.{records_of};
ghost use Rattle.page_store.specs.Shown.{pages_of, top_in};
ghost use Rattle.page_store.specs.Tested.{Tests};
ghost use Rattle.page_store.specs.Works.{Works, blamed, blamed_index, insertion_limits, is_done, removal_actions, removal_limits, unless_full};

use crate::fault::PageFault;
use crate::index_fault::{CheckFault, IndexFault};
use crate::leaf_page::{LeafPage, Sought};
use crate::pages::Pages;
use crate::table_rows::TableRows;
use arrayvec::ArrayVec;
use eaw_face::EawStore;
use noted::Keeper;
use std::alloc::Global;

/// The most pairs that a look gives: as many as a page of an index has.
pub const NEXT_MAX: usize = 30;

/// Keys, and the slots that they lead to.
pub type NextPairs = ArrayVec<(u64, u32), NEXT_MAX>;

/// Indexes of u64 keys in the data of pages, one for each table, told by the page of its root: for each key the slot that holds its record.
/// They have no state of their own.
///
/// Look-ups read the committed data, and insertions and removals change it by nested top actions, which stay whatever becomes of the
/// transaction around them. What a look-up reads and answers is known of any store (`Follows`): it goes from page to page as each says,
/// makes the calls of the medium that these reads cost and no other, and answers what the pages say. Over a store that does not tell its
/// data, a page that breaks the layout is answered with `Damaged`, and so is one that leads on where a look-up has read as many pages as it
/// may.
pub trait KeyIndex {
    /// What it makes of data: whether it is sound, the pairs of key and slot under a root, and what an insertion takes.
    ghost index: { Index };

    /// How it is read: how look-ups and its test go from page to page.
    ghost access: { Access };

    /// There is at most one proof of soundness.
    ghost alone: { (bytes : List ℕ) → IsProp (index.sound bytes) };

    /// Tests the super page, the lists of what is free, and the index of each table by its number, and names the first page that fails. The
    /// records of each table, which are met on the way, come behind those that were gathered before.
    fn check<S: EawStore, H: Keeper>(
        alloc: Global,
        pages: &mut Pages<S>,
        tables: &mut TableRows<H>,
    ) -> Result<(), CheckFault>
        ensures looks { Looks S.tells (S.opens (S.view pages.old.store).shape) (is_check_failed result)
            (pages_of (S.view pages.old.store) pages.old) (pages_of (S.view pages.new.store) pages.new) }
        ensures cause { CheckCause S.tells index (S.view pages.old.store) result }
        ensures records { IsTrue S.tells → OnOk result (tables.new ≡ tables.old ++ records_of index (S.view pages.old.store).state.bytes) }
        ensures tests { Tests S.tells (S.calls pages.old.store) (S.calls pages.new.store) (access.testing (S.view pages.old.store).shape)
            (S.view pages.old.store) (S.view pages.new.store) result }
        ensures dead { IsErrOf result CheckFault.Dead → pages.new ≡ pages.old };

    /// The slot of a key of a table, if its index has the key.
    fn find<S: EawStore>(
        pages: &mut Pages<S>,
        root: u32,
        table: u8,
        key: u64,
    ) -> Result<Option<u32>, PageFault>
        requires table { table < 8 }
        requires root { root < page_count (S.view pages.old.store).shape }
        requires sound { IsTrue S.tells → IsAlive (S.view pages.old.store) → index.sound (S.view pages.old.store).state.bytes }
        requires named { IsTrue S.tells → IsAlive (S.view pages.old.store) → IsTable (S.view pages.old.store).state.bytes table root }
        ensures looks { Looks S.tells (S.opens (S.view pages.old.store).shape) (is_failed result)
            (pages_of (S.view pages.old.store) pages.old) (pages_of (S.view pages.new.store) pages.new) }
        ensures cause { LookCause S.tells (S.view pages.old.store) result }
        ensures follows { Follows S.tells (S.calls pages.old.store) (S.calls pages.new.store) (access.finding root key) (λ slot. slot)
            (S.view pages.old.store) (S.view pages.new.store) result }
        ensures found { IsTrue S.tells → IfOk result (λ slot. slot ≡ found (index.pairs (S.view pages.old.store).state.bytes root) key) }
        ensures inside { IfOk result (λ slot. IfSome slot (λ slot. slot < slots_of (S.view pages.old.store).shape)) }
        ensures dead { IsErrOf result PageFault.Dead → pages.new ≡ pages.old };

    /// The slot of a key of a table, if its index has the key, and else the place where it goes, for an insertion that comes right behind.
    /// It reads just what `find` does.
    fn find_place<S: EawStore>(
        pages: &mut Pages<S>,
        root: u32,
        table: u8,
        key: u64,
    ) -> Result<Sought, PageFault>
        requires table { table < 8 }
        requires root { root < page_count (S.view pages.old.store).shape }
        requires sound { IsTrue S.tells → IsAlive (S.view pages.old.store) → index.sound (S.view pages.old.store).state.bytes }
        requires named { IsTrue S.tells → IsAlive (S.view pages.old.store) → IsTable (S.view pages.old.store).state.bytes table root }
        ensures looks { Looks S.tells (S.opens (S.view pages.old.store).shape) (is_failed result)
            (pages_of (S.view pages.old.store) pages.old) (pages_of (S.view pages.new.store) pages.new) }
        ensures cause { LookCause S.tells (S.view pages.old.store) result }
        ensures follows { FollowsToPlace S.tells (S.calls pages.old.store) (S.calls pages.new.store) access root key
            (S.view pages.old.store) (S.view pages.new.store) result }
        ensures found { IsTrue S.tells → IfOk result (λ sought. slot_sought sought ≡ found (index.pairs (S.view pages.old.store).state.bytes root) key) }
        ensures place { IsTrue S.tells → IfOk result (IsSoughtFor index access (S.view pages.old.store).state.bytes root key) }
        ensures inside { IfOk result (IsSoughtIn (S.view pages.old.store).shape) }
        ensures dead { IsErrOf result PageFault.Dead → pages.new ≡ pages.old };

    /// The pairs of a table that come next from the key `from` on, one after another, as far as one page has them: none only if the table
    /// has none from there on.
    fn next_pairs<S: EawStore>(
        pages: &mut Pages<S>,
        root: u32,
        table: u8,
        from: u64,
    ) -> Result<NextPairs, PageFault>
        requires table { table < 8 }
        requires root { root < page_count (S.view pages.old.store).shape }
        requires sound { IsTrue S.tells → IsAlive (S.view pages.old.store) → index.sound (S.view pages.old.store).state.bytes }
        requires named { IsTrue S.tells → IsAlive (S.view pages.old.store) → IsTable (S.view pages.old.store).state.bytes table root }
        ensures looks { Looks S.tells (S.opens (S.view pages.old.store).shape) (is_failed result)
            (pages_of (S.view pages.old.store) pages.old) (pages_of (S.view pages.new.store) pages.new) }
        ensures cause { LookCause S.tells (S.view pages.old.store) result }
        ensures follows { Follows S.tells (S.calls pages.old.store) (S.calls pages.new.store) (access.nexting root from) (λ some. some.items)
            (S.view pages.old.store) (S.view pages.new.store) result }
        ensures next { IsTrue S.tells → IfOk result (λ some. AreNext (index.pairs (S.view pages.old.store).state.bytes root) from some.items) }
        ensures inside { IfOk result (λ some. AreInside from (slots_of (S.view pages.old.store).shape) some.items) }
        ensures dead { IsErrOf result PageFault.Dead → pages.new ≡ pages.old };

    /// Inserts a key that is not there, as number `tid`, and returns its slot: the first free one, or the next if none is free. It is then
    /// absent and carries the key. Splits of full pages come first, each a nested top action of its own, and take free pages first. They
    /// stay if the insertion is refused after them.
    ///
    /// It reads the super page, the pages on the way of the key, each once, and the first of a list of what is free for each page and slot
    /// that it takes from one. A place is a page that an index may have, with room for one more pair (`place`), and the data is still what
    /// it was when that was found (`fits`): with one, no page of the way is read.
    fn insert<S: EawStore>(
        pages: &mut Pages<S>,
        tid: u8,
        root: u32,
        table: u8,
        key: u64,
        place: Option<LeafPage>,
    ) -> Result<u32, IndexFault>
        requires tid { tid < (S.view pages.old.store).shape.numbers }
        requires table { table < 8 }
        requires root { root < page_count (S.view pages.old.store).shape }
        requires closed { IsAlive (S.view pages.old.store) → top_in pages.old.marks tid ≡ None }
        requires sound { IsTrue S.tells → IsAlive (S.view pages.old.store) → index.sound (S.view pages.old.store).state.bytes }
        requires named { IsTrue S.tells → IsAlive (S.view pages.old.store) → IsTable (S.view pages.old.store).state.bytes table root }
        requires absent { IsTrue S.tells → IsAlive (S.view pages.old.store) → found (index.pairs (S.view pages.old.store).state.bytes root) key ≡ None }
        requires place { IfSome place (λ leaf. IsPlaceIn (S.view pages.old.store).shape leaf.page leaf.pairs.items) }
        requires fits { IsTrue S.tells → IsAlive (S.view pages.old.store)
            → IfSome place (λ leaf. access.fits (S.view pages.old.store).state.bytes root key leaf.page leaf.link leaf.pairs.items) }
        ensures inserts { Inserts S.tells (S.opens (S.view pages.old.store).shape) index tid root table key
            (pages_of (S.view pages.old.store) pages.old) (pages_of (S.view pages.new.store) pages.new) result }
        ensures works { Works (IsTrue S.tells) S.tells (is_done result) S.view S.calls tid (access.finding root key).goes
            (unless_full (are_slots_full result) (insertion_limits (is_some place) (access.finding root key) (S.view pages.old.store).shape))
            (index.actions (S.view pages.old.store).state.bytes root key)
            (blamed_index result) (S.view pages.old.store) (S.view pages.new.store) }
        ensures full { IsTrue (are_slots_full result) → Looks S.tells (S.opens (S.view pages.old.store).shape) false
            (pages_of (S.view pages.old.store) pages.old) (pages_of (S.view pages.new.store) pages.new) }
        ensures dead { IsErrOf result IndexFault.Dead → pages.new ≡ pages.old };

    /// Takes out the pair of a key, whose slot is absent, as number `tid`, and frees the slot. A page that would be left without pairs is
    /// freed too, or it keeps its last pair: `false` is returned exactly then, and nothing is changed. All of it is one nested top action of
    /// at most five parts. What is free is kept from version 2 on. It reads the super page, the pages on the way of the key, each once, and
    /// at most one page beside them.
    fn remove<S: EawStore>(
        pages: &mut Pages<S>,
        tid: u8,
        root: u32,
        table: u8,
        key: u64,
    ) -> Result<bool, PageFault>
        requires tid { tid < (S.view pages.old.store).shape.numbers }
        requires table { table < 8 }
        requires root { root < page_count (S.view pages.old.store).shape }
        requires closed { IsAlive (S.view pages.old.store) → top_in pages.old.marks tid ≡ None }
        requires sound { IsTrue S.tells → IsAlive (S.view pages.old.store) → index.sound (S.view pages.old.store).state.bytes }
        requires named { IsTrue S.tells → IsAlive (S.view pages.old.store) → IsTable (S.view pages.old.store).state.bytes table root }
        requires lists { IsTrue S.tells → IsAlive (S.view pages.old.store) → version_of (S.view pages.old.store).state.bytes ≡ 2 }
        requires absent { IsTrue S.tells → IsAlive (S.view pages.old.store) → HasAbsent index root table key (S.view pages.old.store).state.bytes }
        ensures removes { Removes S.tells (S.opens (S.view pages.old.store).shape) index tid root key
            (pages_of (S.view pages.old.store) pages.old) (pages_of (S.view pages.new.store) pages.new) result }
        ensures works { Works (Unit {0}) S.tells (is_done result) S.view S.calls tid (access.finding root key).goes
            (removal_limits (access.finding root key) (S.view pages.old.store).shape) (removal_actions (index.removal (S.view pages.old.store).state.bytes root key))
            (blamed result) (S.view pages.old.store) (S.view pages.new.store) }
        ensures dead { IsErrOf result PageFault.Dead → pages.new ≡ pages.old };

    /// Keys of a table rise strictly.
    ghost rises: { (bytes : List ℕ) (table root : ℕ) → index.sound bytes → IsTable bytes table root → Rise 0 (2 ^ 64) (index.pairs bytes root) };

    /// The slot of each pair of a table was given, and carries its key for that table.
    ghost given: { (bytes : List ℕ) (table root : ℕ) → index.sound bytes → IsTable bytes table root → AreGiven bytes table (index.pairs bytes root) };

    /// The super page counts no more slots and pages as given than there are, and no more as free than were given.
    ghost counts: { (bytes : List ℕ) → index.sound bytes → HasCounts bytes };

    /// Writes into slots that leave their keys leave the indexes of all tables as they are.
    ghost rests: { (old new : List ℕ) → index.sound old → KeepsIndex old new → index.sound new
        × ((table root : ℕ) → IsTable old table root → (index.pairs new root ≡ index.pairs old root) × (index.level new root ≡ index.level old root)) };

    /// A super page with further tables, each with an empty root in a page that was not given, leaves the indexes of those that were there.
    ghost extends: { (old new : List ℕ) → index.sound old → Extends old new → index.sound new
        × ((table root : ℕ) → IsTable old table root → (index.pairs new root ≡ index.pairs old root) × (index.level new root ≡ index.level old root))
        × ((table root : ℕ) → IsTable new table root → next_page old ≤ root → IsEmptyRoot (page_bytes new root) → (index.pairs new root ≡ []) × (index.level new root ≡ 0)) };

    /// No page of sound data fails.
    ghost excluded: { (bytes : List ℕ) (page : ℕ) → index.fails bytes page → index.sound bytes → ⊥ };

    /// At most one page is the first that fails.
    ghost first: { (bytes : List ℕ) (page other : ℕ) → index.fails bytes page → index.fails bytes other → page ≡ other };
}

// Records over pages, under an index.
ghost use Rattle.std.specs.Prelude.{List, ◌≡◌, ◌<◌, ◌≤◌, ℕ, [], codes, Some, None, IfOk, IfErr, IfSome, IfNone, OnOk, OnErr, IsErrOf, IsTrue, if◌then◌else◌, filter, length, slice_get, slice_index_or};
ghost use Rattle.std.specs.FinMap.{entries};
ghost use Rattle.array_shape.specs.NumberSet.{members};
ghost use Rattle.eaw_face.specs.Causes.{IsAlive};
ghost use Rattle.eaw_face.specs.State.{listed};
ghost use Rattle.eaw_face.specs.Mirroring.{GivesUp};
ghost use Rattle.page_store.specs.Index.{IsTable};
ghost use Rattle.page_store.specs.Looks.{Looks};
ghost use Rattle.page_store.specs.Shown.{counts_in, top_in, pages_of};
ghost use Rattle.history.specs.Rows.{records_in};
ghost use Rattle.history.specs.Table.{found};
ghost use Rattle.history.specs.declared.call.Call.TheVariants.{Table as OnTable, Control};
ghost use Rattle.history.specs.declared.call.TableCall.TheVariants.{Get, Put, Del, Scan, Save, Back};
ghost use Rattle.history.specs.declared.call.Control.TheVariants.{Commit, Abort};
ghost use Rattle.history.specs.declared.call.Reply.TheVariants.{Fine, Absent, Listed, Saved, Committed};
ghost use Rattle.record_table.specs.Attached.{Attached, AttachCause, BlamesTested, is_refused_by_media};
ghost use Rattle.record_slots.specs.Places.{version_of};
ghost use Rattle.record_table.specs.Removing.{IsAbsent, IsUnwritten, IsNextAbsent, SearchCause, Removes};
ghost use Rattle.record_table.specs.Groups.{CommitsGroup, group_writes};
ghost use Rattle.record_table.specs.Does.{Does, replied, is_failed};
ghost use Rattle.record_table.specs.Blames.{BlamesOne, BlamesFrontHere, BlamesFrontMade};
ghost use Rattle.record_table.specs.Hearing.{Hearing, HearsAbsent, HearsRows};
ghost use Rattle.record_table.specs.Seeks.{Erases, Gets, row_cost};
ghost use Rattle.record_table.specs.Shown.{state_of, table_of, pairs_of, held_on, is_write_on, AreNamed};
ghost use Rattle.record_table.specs.Sought.{LooksAs};
ghost use Rattle.record_table.specs.Upgrading.{Upgrades};
ghost use Rattle.record_table.specs.Making.{Makes};
ghost use Rattle.record_table.specs.Walked.{Walked, data_cost};
ghost use Rattle.record_table.specs.Works.{RemovesFrom};
ghost use Rattle.record_table.specs.Names.{BeginsWithMain, IsNew, IsCalled, names_of, name_at, key_in};

mod taped;

use crate::fault::TableFault;
use crate::hearings::Hearings;
use crate::making::{MakeFault, make};
use crate::names::Roots;
use crate::placing::{place_of, slot_of};
use crate::reading::{Whole, read_whole};
use crate::removing::{next_absent, remove};
use crate::scanning::gather;
use crate::slots::{seek, value_at, write_as};
use crate::told::told;
use crate::upgrading::upgrade;
use array_shape::{NumberSet, Shape};
use eaw_face::EawStore;
use history::Rows;
use noted::{Keeper, NotedRows};
use page_store::{CheckFault, KeyIndex, Pages};
use record_slots::{Name, Names, Slot, Value};
use std::alloc::Global;
use std::marker::{Model, PhantomData};

/// Records under u64 keys over pages, under any index: tables and, over them, what each transaction number has written and not committed.
///
/// Each call is one that a caller asks for, made as a number. `Does` says what it is answered, what it makes of the table and of the
/// number's log, when each refusal comes, and what a loss of power within it may leave. After a refusal other than `Media` table and logs
/// are as they were. After `Media` each call that can be refused answers `Dead`.
#[derive(Drop)]
pub struct Records<S: EawStore, K: KeyIndex> {
    pages: Pages<S>,
    names: Names,
    // The roots of their indexes.
    roots: Roots,
    index: PhantomData<K>,
}

impl<S: EawStore, K: KeyIndex> Model for Records<S, K> {
    ghost use Rattle.page_store.specs.Shown.{Shown, pages_of};
    ghost use Rattle.record_table.specs.Invariant.{Holds};
    ghost use Rattle.record_table.specs.Names.{KeepsTables};

    ghost Value = { Shown S };

    ghost view = { λ r. r.pages };

    ghost invariant = { λ r. Holds S.tells K.index (pages_of (S.view r.pages.store) r.pages) × KeepsTables S.tells (pages_of (S.view r.pages.store) r.pages) r.names r.roots.at };
}

impl<S: EawStore, K: KeyIndex> Records<S, K> {
    /// Records over pages, once the whole index has been tested, and the records of all tables, which that test met on its way: each table's
    /// name with its rows, in the order of the names. An error returns the pages.
    pub fn attach<H: Keeper>(
        alloc: Global,
        pages: Pages<S>,
    ) -> Result<(Records<S, K>, Vec<(Name, NotedRows<H>)>), (CheckFault, Pages<S>)>
        requires idle { IsAlive (S.view pages.store) → (t : ℕ) → listed ((S.view pages.store).ranges t) ≡ [] }
        requires closed { IsAlive (S.view pages.store) → (t : ℕ) → top_in pages.marks t ≡ None }
        ensures attached { IfOk result (λ attached. Attached S.tells (S.opens (S.view pages.store).shape) K.index
            (pages_of (S.view pages.store) pages) (pages_of (S.view attached.0.store) attached.0)) }
        ensures rows { IsTrue S.tells → IfOk result (λ attached. records_in attached.1.items ≡ entries (table_of K.index (S.view pages.store).state.bytes)) }
        ensures cause { IfErr result (λ failed. AttachCause S.tells K.index (S.view pages.store) failed.0) }
        ensures blames { IfErr result (λ failed. BlamesTested S.tells (S.calls pages.store) K.access (S.view pages.store) failed.0) }
        ensures looks { IfErr result (λ failed. Looks S.tells (S.opens (S.view pages.store).shape) (is_refused_by_media failed.0)
            (pages_of (S.view pages.store) pages) (pages_of (S.view failed.1.store) failed.1)) }
        ensures dead { IfErr result (λ failed. failed.0 ≡ CheckFault.Dead → failed.1 ≡ pages) }
    {
        let mut pages = pages;
        match read_whole::<S, K, H>(alloc, &mut pages) {
            Ok(whole) => {
                let Whole {
                    names,
                    roots,
                    tables,
                } = whole;
                let records = Records {
                    pages,
                    names,
                    roots,
                    index: PhantomData,
                };
                Ok((records, tables))
            }
            Err(fault) => Err((fault, pages)),
        }
    }

    /// Brings the super page to version 2 by one write, unless it is of that version. The number 0 must not be live.
    pub fn upgrade(&mut self) -> Result<(), TableFault>
        requires free { (S.view self.old.store).ranges 0 ≡ None }
        ensures upgrades { Upgrades S.tells (S.opens (S.view self.old.store).shape) K.index
            (pages_of (S.view self.old.store) self.old) (pages_of (S.view self.new.store) self.new) result }
        ensures blames { BlamesFrontHere result }
        ensures dead { IsErrOf result TableFault.Dead → self.new ≡ self.old }
    {
        told(upgrade::<S, K>(&mut self.pages))
    }

    /// Makes a table of this name, without records, and returns its number: it comes behind those that there are. The super page is brought
    /// to version 2 first. No number may be live.
    pub fn make(&mut self, name: &Name) -> Result<u8, MakeFault>
        requires free { (S.view self.old.store).ranges 0 ≡ None }
        ensures makes { Makes S.tells (S.opens (S.view self.old.store).shape) K.index name.now
            (pages_of (S.view self.old.store) self.old) (pages_of (S.view self.new.store) self.new) result }
        ensures blames { BlamesFrontMade result }
        ensures dead { IsErrOf result MakeFault.Dead → self.new ≡ self.old }
    {
        let mut root = 0;
        let number = make::<S, K>(&mut self.pages, name, &mut root)?;
        self.names.push(name);
        self.roots.at[usize::from(number)] = root;
        Ok(number)
    }

    /// The number of the table of this name, if there is one: of those that the records were attached with, and those made since.
    pub fn table_of(&self, name: &Name) -> Option<u8>
        ensures some { IsTrue S.tells → IsAlive (S.view self.now.store) → IfSome result (λ j. slice_get (names_of (S.view self.now.store).state.bytes) j ≡ Some name.now) }
        ensures none { IsTrue S.tells → IsAlive (S.view self.now.store) → IfNone result (IsNew name.now (names_of (S.view self.now.store).state.bytes)) }
        ensures main { name.now ≡ codes "main" → result ≡ Some 0 }
    {
        self.names.number(name)
    }

    /// The name of the table of this number, if there is one.
    pub fn name_at(&self, table: u8) -> Option<Name>
        ensures name { IsTrue S.tells → IsAlive (S.view self.now.store) → result ≡ slice_get (names_of (S.view self.now.store).state.bytes) table }
        ensures main { table ≡ 0 → result ≡ Some (codes "main") }
    {
        self.names.name(table)
    }

    /// The names of the tables, by their numbers.
    pub fn names(&self) -> Names
        ensures names { IsTrue S.tells → IsAlive (S.view self.now.store) → result ≡ names_of (S.view self.now.store).state.bytes }
        ensures main { BeginsWithMain result }
    {
        self.names.copy()
    }

    /// The pages below. What numbers have written is still in them.
    pub fn into_pages(self) -> Pages<S>
        ensures { result ≡ self }
    {
        let Records {
            pages,
            names: _,
            roots: _,
            index: _,
        } = self;
        pages
    }

    /// The shape of the array below.
    pub fn shape(&self) -> Shape
        ensures { result ≡ (S.view self.now.store).shape }
    {
        self.pages.shape()
    }

    /// Whether an earlier call has met a fault of the medium. While none has, what a logger holds of a number is the writes to its slots,
    /// and the index has their keys.
    pub fn is_dead(&self) -> bool
        ensures dead { result ≡ (S.view self.now.store).is_dead }
        ensures held { IsTrue S.tells → IsAlive (S.view self.now.store) → (t g : ℕ) → held_on (pages_of (S.view self.now.store) self.now) t g ≡
            length (filter (is_write_on (S.view self.now.store).shape (pairs_of K.index (S.view self.now.store).state.bytes) g)
            ((state_of K.index (pages_of (S.view self.now.store) self.now)).logs t).writes) }
        ensures named { IsTrue S.tells → IsAlive (S.view self.now.store) → (t : ℕ) → AreNamed (pairs_of K.index (S.view self.now.store).state.bytes)
            ((state_of K.index (pages_of (S.view self.now.store) self.now)).logs t).writes }
    {
        self.pages.is_dead()
    }

    /// The oldest frame that the store below has sent and not yet given up. It is empty if there is none.
    pub fn first_frame(&self) -> &[u8]
        ensures { IsTrue (S.view self.now.store).sending.told → result.now ≡ slice_index_or (S.view self.now.store).sending.frames 0 [] }
    {
        self.pages.first_frame()
    }

    /// Gives that frame up. If there is none, it does nothing.
    pub fn drop_frame(&mut self)
        ensures gives_up { GivesUp (S.view self.old.store) (S.view self.new.store) }
        ensures marks { self.new.marks ≡ self.old.marks }
    {
        self.pages.drop_frame();
    }

    /// Whether the sending of frames has ended.
    pub fn link_down(&self) -> bool
        ensures { result ≡ (S.view self.now.store).sending.is_down }
    {
        self.pages.link_down()
    }

    /// How many saves the number has, at most 32.
    pub fn saves(&self, tid: u8) -> u32
        requires { tid < (S.view self.now.store).shape.numbers }
        ensures count { result ≡ length (counts_in self.now.marks tid) }
        ensures most { result ≤ 32 }
    {
        self.pages.saves(tid)
    }

    /// The value of a key, as the number sees it. It reads the pages of the index that lead to the key's slot, each once, and that slot.
    pub fn get(&mut self, tid: u8, table: u8, key: u64) -> Result<Option<Value>, TableFault>
        requires tid { tid < (S.view self.old.store).shape.numbers }
        requires table { table < 8 }
        requires there { IsTrue S.tells → IsAlive (S.view self.old.store) → table < length (names_of (S.view self.old.store).state.bytes) }
        ensures does { (name : List ℕ) → (IsTrue S.tells → IsAlive (S.view self.old.store) → IsCalled (S.view self.old.store).state.bytes table name)
            → Does S.tells (S.opens (S.view self.old.store).shape) K.index table tid (OnTable (Get name key))
            (pages_of (S.view self.old.store) self.old) (pages_of (S.view self.new.store) self.new) (replied found result) }
        ensures gets { (root : ℕ) × Gets (K.access.finding root key) key tid (S.calls self.old.store) (S.view self.old.store) (S.view self.new.store) result × (IsTrue S.tells → IsAlive (S.view self.old.store) → IsTable (S.view self.old.store).state.bytes table root) }
        ensures dead { IsErrOf result TableFault.Dead → self.new ≡ self.old }
    {
        let root = self.roots.of_table(table);
        let mut hearings = Hearings::new();
        let found = seek::<S, K>(&mut self.pages, tid, table, root, key, &mut hearings)?;
        Ok(value_at(&found))
    }

    /// Gives the key this value, at once in the number's own view, and in the table once it commits. A key that the index lacks is inserted
    /// first, at the place where the look-up ended, and stays there whatever becomes of the number.
    pub fn put(&mut self, tid: u8, table: u8, key: u64, value: Value) -> Result<(), TableFault>
        requires tid { tid < (S.view self.old.store).shape.numbers }
        requires table { table < 8 }
        requires there { IsTrue S.tells → IsAlive (S.view self.old.store) → table < length (names_of (S.view self.old.store).state.bytes) }
        ensures does { (name : List ℕ) → (IsTrue S.tells → IsAlive (S.view self.old.store) → IsCalled (S.view self.old.store).state.bytes table name)
            → Does S.tells (S.opens (S.view self.old.store).shape) K.index table tid (OnTable (Put name key value))
            (pages_of (S.view self.old.store) self.old) (pages_of (S.view self.new.store) self.new) (replied (λ done. Fine) result) }
        ensures blames { BlamesOne (S.view self.old.store).shape result }
        ensures dead { IsErrOf result TableFault.Dead → self.new ≡ self.old }
    {
        let root = self.roots.of_table(table);
        let present = Slot::Present { table, key, value };
        let sought = K::find_place(&mut self.pages, root, table, key)?;
        if let Some(slot) = slot_of(&sought) {
            return told(write_as(&mut self.pages, tid, slot, &present));
        }
        let place = place_of(sought);
        let slot = K::insert(&mut self.pages, tid, root, table, key, place)?;
        told(write_as(&mut self.pages, tid, slot, &present))
    }

    /// Removes the record of a key, at once in the number's own view, and in the table once it commits. Returns whether the number saw one.
    pub fn del(&mut self, tid: u8, table: u8, key: u64) -> Result<bool, TableFault>
        requires tid { tid < (S.view self.old.store).shape.numbers }
        requires table { table < 8 }
        requires there { IsTrue S.tells → IsAlive (S.view self.old.store) → table < length (names_of (S.view self.old.store).state.bytes) }
        ensures does { (name : List ℕ) → (IsTrue S.tells → IsAlive (S.view self.old.store) → IsCalled (S.view self.old.store).state.bytes table name)
            → Does S.tells (S.opens (S.view self.old.store).shape) K.index table tid (OnTable (Del name key))
            (pages_of (S.view self.old.store) self.old) (pages_of (S.view self.new.store) self.new) (replied (λ was. if was then Fine else Absent) result) }
        ensures erases { (root : ℕ) × Erases (K.access.finding root key) key tid (S.calls self.old.store) (S.view self.old.store) result × (IsTrue S.tells → IsAlive (S.view self.old.store) → IsTable (S.view self.old.store).state.bytes table root) }
        ensures dead { IsErrOf result TableFault.Dead → self.new ≡ self.old }
    {
        let root = self.roots.of_table(table);
        let mut hearings = Hearings::new();
        let sought = seek::<S, K>(&mut self.pages, tid, table, root, key, &mut hearings)?;
        let Some(place) = sought else {
            return Ok(false);
        };
        if place.value.is_none() {
            return Ok(false);
        }
        write_as(
            &mut self.pages,
            tid,
            place.slot,
            &Slot::Absent { table, key },
        )?;
        Ok(true)
    }

    /// The records from one key to another, both included, as the number sees them. The memory for them is taken here. It looks for keys at
    /// most once more than there are slots, whatever the store says (`Walked`).
    pub fn scan(
        &mut self,
        alloc: Global,
        tid: u8,
        table: u8,
        low: u64,
        high: u64,
    ) -> Result<Rows, TableFault>
        requires tid { tid < (S.view self.old.store).shape.numbers }
        requires table { table < 8 }
        requires there { IsTrue S.tells → IsAlive (S.view self.old.store) → table < length (names_of (S.view self.old.store).state.bytes) }
        ensures does { (name : List ℕ) → (IsTrue S.tells → IsAlive (S.view self.old.store) → IsCalled (S.view self.old.store).state.bytes table name)
            → Does S.tells (S.opens (S.view self.old.store).shape) K.index table tid (OnTable (Scan name low high))
            (pages_of (S.view self.old.store) self.old) (pages_of (S.view self.new.store) self.new) (replied Listed result) }
        ensures hears { (hearings : List Hearing) × HearsRows (S.view self.old.store).shape hearings (λ rows. rows) result × (root : ℕ)
            × Walked K.access root (S.calls self.old.store) (row_cost (S.calls self.old.store) tid (S.view self.old.store)) (S.view self.old.store).shape
            (is_failed result) (S.view self.old.store).moment (S.view self.new.store).moment hearings }
        ensures looks { LooksAs S.tells (S.opens (S.view self.old.store).shape) tid (is_failed result)
            (pages_of (S.view self.old.store) self.old) (pages_of (S.view self.new.store) self.new) }
        ensures dead { IsErrOf result TableFault.Dead → self.new ≡ self.old }
    {
        if self.pages.is_dead() {
            return Err(TableFault::Dead);
        }
        let mut rows = Rows::new(alloc);
        let root = self.roots.of_table(table);
        let mut hearings = Hearings::new();
        gather::<S, K>(
            &mut self.pages,
            tid,
            table,
            root,
            low,
            high,
            &mut rows,
            &mut hearings,
        )?;
        Ok(rows)
    }

    /// Saves what the number has written, and returns how many saves it has now.
    pub fn save(&mut self, tid: u8) -> Result<u32, TableFault>
        requires { tid < (S.view self.old.store).shape.numbers }
        ensures does { Does S.tells (S.opens (S.view self.old.store).shape) K.index 0 tid (OnTable Save)
            (pages_of (S.view self.old.store) self.old) (pages_of (S.view self.new.store) self.new) (replied Saved result) }
        ensures count { IfOk result (λ n. n ≡ length (counts_in self.new.marks tid)) }
        ensures refused { OnErr result (self.new ≡ self.old) }
        ensures due { IsErrOf result TableFault.Media → ⊥ }
    {
        told(self.pages.save(tid))
    }

    /// Takes the number back to its save `n`, counted from 1: it sees again what it saw there, over the table as it is now. Later saves are
    /// gone, this one stays.
    pub fn back(&mut self, tid: u8, n: u32) -> Result<(), TableFault>
        requires tid { tid < (S.view self.old.store).shape.numbers }
        requires some { 0 < n }
        requires there { n ≤ length (counts_in self.old.marks tid) }
        ensures does { Does S.tells (S.opens (S.view self.old.store).shape) K.index 0 tid (OnTable (Back n))
            (pages_of (S.view self.old.store) self.old) (pages_of (S.view self.new.store) self.new) (replied (λ done. Fine) result) }
        ensures refused { OnErr result (self.new ≡ self.old) }
        ensures due { IsErrOf result TableFault.Media → ⊥ }
    {
        if self.pages.is_dead() {
            return Err(TableFault::Dead);
        }
        told(self.pages.back(tid, n))
    }

    /// Makes what the number has written part of the table, all at once, and forgets its saves. The number is then free.
    pub fn commit(&mut self, tid: u8) -> Result<(), TableFault>
        requires { tid < (S.view self.old.store).shape.numbers }
        // Whatever number its caller tells it with.
        ensures does { (n : ℕ) → Does S.tells (S.opens (S.view self.old.store).shape) K.index 0 tid (Control Commit)
            (pages_of (S.view self.old.store) self.old) (pages_of (S.view self.new.store) self.new) (replied (λ done. Committed n) result) }
        // A commit of nothing uses no medium.
        ensures due { IsTrue S.tells → IsAlive (S.view self.old.store) → IsErrOf result TableFault.Media
            → 0 < length ((state_of K.index (pages_of (S.view self.old.store) self.old)).logs tid).writes }
        ensures free { OnOk result ((S.view self.new.store).ranges tid ≡ None) }
        ensures dead { IsErrOf result TableFault.Dead → self.new ≡ self.old }
    {
        told(self.pages.end(tid, true))
    }

    /// Makes what the numbers of a set have written part of the table, all at once, that of the lowest number first, and forgets their
    /// saves. A number that has written nothing adds nothing.
    pub fn commit_group(&mut self, tids: NumberSet) -> Result<(), TableFault>
        ensures does { CommitsGroup S.tells (S.opens (S.view self.old.store).shape) K.index (members tids)
            (pages_of (S.view self.old.store) self.old) (pages_of (S.view self.new.store) self.new) result }
        // A commit of nothing uses no medium.
        ensures due { IsTrue S.tells → IsAlive (S.view self.old.store) → IsErrOf result TableFault.Media
            → 0 < length (group_writes (state_of K.index (pages_of (S.view self.old.store) self.old)) (members tids)) }
        ensures dead { IsErrOf result TableFault.Dead → self.new ≡ self.old }
    {
        told(self.pages.end_group(tids))
    }

    /// The least key of a table from `from` on that has no record in the data, while the index of the table still has the key. Nothing is
    /// changed. It looks for keys at most once more than there are slots (`Walked`).
    pub fn next_absent(&mut self, table: u8, from: u64) -> Result<Option<u64>, TableFault>
        requires table { table < 8 }
        requires there { IsTrue S.tells → IsAlive (S.view self.old.store) → table < length (names_of (S.view self.old.store).state.bytes) }
        ensures looks { Looks S.tells (S.opens (S.view self.old.store).shape) (is_failed result)
            (pages_of (S.view self.old.store) self.old) (pages_of (S.view self.new.store) self.new) }
        ensures cause { SearchCause S.tells (pages_of (S.view self.old.store) self.old) result }
        ensures next { IsTrue S.tells → IfOk result (IsNextAbsent K.index (S.view self.old.store).state.bytes (name_at (S.view self.old.store).state.bytes table) from) }
        ensures inside { IfOk result (λ key. IfSome key (λ key. from ≤ key)) }
        ensures hears { (hearings : List Hearing) × HearsAbsent (S.view self.old.store).shape hearings result × (root : ℕ)
            × Walked K.access root (S.calls self.old.store) (data_cost (S.calls self.old.store) (S.view self.old.store).shape) (S.view self.old.store).shape
            (is_failed result) (S.view self.old.store).moment (S.view self.new.store).moment hearings }
        ensures dead { IsErrOf result TableFault.Dead → self.new ≡ self.old }
    {
        if self.pages.is_dead() {
            return Err(TableFault::Dead);
        }
        let root = self.roots.of_table(table);
        let mut hearings = Hearings::new();
        told(next_absent::<S, K>(&mut self.pages, table, root, from, &mut hearings))
    }

    /// Takes a key of a table that has no record out of the index, as this number, and gives its slot back: the next key that is inserted
    /// gets it. Returns whether it was taken out; a pair that its page keeps as its last one is not. No number may have written the key, and
    /// the super page is of version 2.
    pub fn remove(&mut self, tid: u8, table: u8, key: u64) -> Result<bool, TableFault>
        requires tid { tid < (S.view self.old.store).shape.numbers }
        requires table { table < 8 }
        requires there { IsTrue S.tells → IsAlive (S.view self.old.store) → table < length (names_of (S.view self.old.store).state.bytes) }
        requires lists { IsTrue S.tells → IsAlive (S.view self.old.store) → version_of (S.view self.old.store).state.bytes ≡ 2 }
        requires absent { IsTrue S.tells → IsAlive (S.view self.old.store) → IsAbsent K.index (S.view self.old.store).state.bytes (key_in (S.view self.old.store).state.bytes table key) }
        requires unwritten { IsTrue S.tells → IsAlive (S.view self.old.store) → IsUnwritten K.index (pages_of (S.view self.old.store) self.old) (key_in (S.view self.old.store).state.bytes table key) }
        ensures removes { Removes S.tells (S.opens (S.view self.old.store).shape) K.index table tid key
            (pages_of (S.view self.old.store) self.old) (pages_of (S.view self.new.store) self.new) result }
        ensures works { (root : ℕ) × RemovesFrom S.tells S.view S.calls K.index K.access tid root key (S.view self.old.store) (S.view self.new.store) result × (IsTrue S.tells → IsAlive (S.view self.old.store) → IsTable (S.view self.old.store).state.bytes table root) }
        ensures blames { BlamesOne (S.view self.old.store).shape result }
        ensures dead { IsErrOf result TableFault.Dead → self.new ≡ self.old }
    {
        let root = self.roots.of_table(table);
        told(remove::<S, K>(&mut self.pages, tid, table, root, key))
    }

    /// Discards what the number has written, and its saves. The number is then free.
    pub fn abort(&mut self, tid: u8) -> Result<(), TableFault>
        requires { tid < (S.view self.old.store).shape.numbers }
        ensures does { Does S.tells (S.opens (S.view self.old.store).shape) K.index 0 tid (Control Abort)
            (pages_of (S.view self.old.store) self.old) (pages_of (S.view self.new.store) self.new) (replied (λ done. Fine) result) }
        ensures free { OnOk result ((S.view self.new.store).ranges tid ≡ None) }
        ensures dead { IsErrOf result TableFault.Dead → self.new ≡ self.old }
        ensures due { IsErrOf result TableFault.Media → ⊥ }
    {
        told(self.pages.end(tid, false))
    }
}

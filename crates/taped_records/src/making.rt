// A table is made in an open array.
ghost use Rattle.std.specs.Prelude.{◌≡◌, ◌<◌, ◌≤◌, ℕ, None, true, IfOk, IfErr, IfSome, IfNone, IsSome};
ghost use Rattle.tape_media.specs.Steps.{device_of};
ghost use Rattle.tape_media.specs.Tape.{view_of};
ghost use Rattle.btree_pages.specs.Index.{tree};
ghost use Rattle.open_records.specs.Opens.{Begins, OfData, KeepsRecords};
ghost use Rattle.taped_records.specs.Shown.{tape_of, core_in};
ghost use Rattle.taped_records.specs.Making.{MayMake, MakesTable, UnmadeCause, IsLeft, IsByChance, MayClose, status_of_unmade};
ghost use Rattle.taped_records.specs.Remaking.{IsPutDown};

use crate::records::{TapedCore, TapedRecords};
use crate::sound::Sound;
use crate::status::{
    BAD_NAME, DEAD, IN_USE, MEDIA, NAME_TAKEN, NO_MEMORY, PAGES_FULL, TABLES_FULL,
};
use btree_pages::BTreePages;
use caller_steps::Core as Steps;
use eaw_device::{AttachFault, Eaw};
use eaw_face::EawStore;
use history::Rows;
use mars_core::{CoreFault, make_table};
use open_records::{OpenFault, open};
use page_store::{KeyIndex, SaveRoom};
use record_slots::{Name, TABLES_MAX};
use record_table::MakeFault;
use std::alloc::Global;
use tape_media::TapeMedia;

/// Why no table was made.
#[derive(Drop)]
pub enum Unmade {
    /// The text is no name of a table.
    BadName,
    /// A table has this name.
    Exists,
    /// There are eight tables.
    TablesFull,
    /// A caller has a transaction.
    InUse,
    /// No page is left for its index.
    PagesFull,
    /// The medium failed: memory ran out in a write, or a piece had failed on the device.
    Media,
    /// The medium had failed before.
    Dead,
    NoMemory,
}

/// The number of the table, and the array with it; or why there is none, and the array, unless it had to be closed.
pub type Made = Result<(u8, Box<TapedRecords>), (Unmade, Option<Box<TapedRecords>>)>;

impl TapedRecords {
    /// Makes a table of this name, without records. No caller has a transaction: the array is taken apart for it, and its records begin anew.
    pub fn make(alloc: Global, array: Box<TapedRecords>, table: &[u8]) -> Made
        ensures made { IfOk result (λ made. MakesTable table.now made.0 array.value made.1.value) }
        ensures cause { IfErr result (λ unmade. UnmadeCause table.now array.value unmade.0) }
        ensures left { IfErr result (λ unmade. IfSome unmade.1 (λ left. IsLeft table.now unmade.0 array.value left.value)) }
        ensures closed { IfErr result (λ unmade. IfNone unmade.1 (MayClose unmade.0)) }
    {
        let Some(name) = Name::of(table) else {
            return Err((Unmade::BadName, Some(array)));
        };
        if let Some(bar) = array.bar_to(&name) {
            return Err((bar, Some(array)));
        }
        let Ok(room) = SaveRoom::new(alloc) else {
            return Err((Unmade::NoMemory, Some(array)));
        };
        match remade(alloc, room, Box::into_inner(array), &name) {
            Ok((Ok(number), array)) => Ok((number, array)),
            Ok((Err(unmade), array)) => Err((unmade, Some(array))),
            Err(unmade) => Err((unmade, None)),
        }
    }

    // What stands in the way of a table of this name.
    fn bar_to(&self, name: &Name) -> Option<Unmade>
        ensures cause { IfSome result (UnmadeCause name.now self.now) }
        ensures left { IfSome result (λ bar. IsLeft name.now bar self.now self.now) }
        ensures none { IfNone result (MayMake name.now self.now) }
    {
        let names = self.core.core().names();
        if names.number(name).is_some() {
            return Some(Unmade::Exists);
        }
        if usize::from(names.count()) == TABLES_MAX {
            return Some(Unmade::TablesFull);
        }
        if self.first_live().is_some() {
            return Some(Unmade::InUse);
        }
        None
    }

    // The first caller that has a transaction.
    fn first_live(&self) -> Option<u8>
        ensures some { IfSome result (λ caller. (caller < self.now.callers) × IsSome ((core_in self.now).state.live caller)) }
        ensures none { IfNone result ((caller : ℕ) → caller < self.now.callers → (core_in self.now).state.live caller ≡ None) }
    {
        for caller in 0..self.callers {
            if self.core.core().live(caller) {
                return Some(caller);
            }
        }
        None
    }
}

// The array anew, with the table under this number or without it, and why. An error says why it had to be closed.
#[tactic(auto, using(crate::proofs::Remaking::by_chance))]
fn remade(
    alloc: Global,
    room: SaveRoom,
    array: TapedRecords,
    name: &Name,
) -> Result<(Result<u8, Unmade>, Box<TapedRecords>), Unmade>
    requires { MayMake name.now array }
    ensures made { IfOk result (λ made. IfOk made.0 (λ number. MakesTable name.now number array made.1.value)) }
    ensures left { IfOk result (λ made. IfErr made.0 (λ unmade. UnmadeCause name.now array unmade × IsLeft name.now unmade array made.1.value)) }
    ensures closed { IfErr result (λ unmade. UnmadeCause name.now array unmade × MayClose unmade) }
{
    let TapedRecords {
        core,
        callers,
        rows,
        window: _,
    } = array;
    let Some((media, depth)) = put_down(core) else {
        return Err(Unmade::Dead);
    };
    let store: Eaw<TapeMedia> = match Eaw::attach(alloc, media) {
        Ok(store) => store,
        Err((fault, _)) => return Err(unopened(&OpenFault::Array(fault))),
    };
    match make_table::<Eaw<TapeMedia>, BTreePages>(alloc, room, store, name) {
        (Ok(Ok(number)), store) => {
            let array = reopened(alloc, store.into_media(), callers, depth, rows)?;
            Ok((Ok(number), array))
        }
        (Ok(Err(MakeFault::PagesFull { pages })), store) => {
            let array = reopened(alloc, store.into_media(), callers, depth, rows)?;
            Ok((Err(Unmade::PagesFull), array))
        }
        // The name is new, and there is a number for it.
        (Ok(Err(_)), _) => Err(Unmade::Media),
        (Err(fault), _) => Err(unopened(&OpenFault::Records(fault))),
    }
}

// The medium below, and how many commits may wait for their write-back. There is none where the medium had failed.
fn put_down(core: Sound<TapedCore>) -> Option<(TapeMedia, u8)>
    ensures down { IfSome result (λ down. IsPutDown core.records.store.shape down.1 (⟦<TapedCore as Steps>⟧.view core) (view_of down.0)) }
    ensures depth { IfSome result (λ down. down.1 ≤ 64) }
    ensures device { IfSome result (λ down. device_of down.0.past ≡ device_of core.records.store.media.past) }
    ensures dead { IfNone result ((⟦<TapedCore as Steps>⟧.view core).state.is_dead ≡ true) }
{
    let store = core.into_core().into_store();
    if store.is_dead() {
        return None;
    }
    let depth = store.depth();
    Some((store.into_media(), depth))
}

// The array on this medium, for so many callers.
fn reopened(
    alloc: Global,
    media: TapeMedia,
    callers: u8,
    depth: u8,
    rows: Rows,
) -> Result<Box<TapedRecords>, Unmade>
    requires { depth ≤ 64 }
    ensures begins { IfOk result (λ array. OfData true (view_of media) (λ shape bytes. Begins tree depth shape bytes (core_in array.value))) }
    ensures keeps { IfOk result (λ array. KeepsRecords true (view_of media) (core_in array.value).moment (core_in array.value).left_since) }
    ensures callers { IfOk result (λ array. array.value.callers ≡ callers) }
    ensures rows { IfOk result (λ array. array.value.rows ≡ rows) }
    ensures device { IfOk result (λ array. device_of (tape_of array.value).past ≡ device_of media.past) }
    ensures chance { IfErr result IsByChance }
{
    let core: TapedCore = match open(alloc, media, callers, depth) {
        Ok(core) => core,
        Err((fault, _)) => return Err(unopened(&fault)),
    };
    match Box::new(alloc, TapedRecords::new(core, callers, rows)) {
        Ok(array) => Ok(array),
        Err(_) => Err(Unmade::NoMemory),
    }
}

// Why an array that was open is not opened again: memory ran out, or its medium failed.
fn unopened(fault: &OpenFault) -> Unmade
    ensures { IsByChance result }
{
    match fault {
        OpenFault::Array(AttachFault::NoMemory)
        | OpenFault::Records(CoreFault::NoMemory)
        | OpenFault::NoMemory => Unmade::NoMemory,
        _ => Unmade::Media,
    }
}

/// The status of a table that was not made.
pub fn unmade_status(unmade: &Unmade) -> i32
    ensures { result ≡ status_of_unmade unmade.now }
{
    match unmade {
        Unmade::BadName => BAD_NAME,
        Unmade::Exists => NAME_TAKEN,
        Unmade::TablesFull => TABLES_FULL,
        Unmade::InUse => IN_USE,
        Unmade::PagesFull => PAGES_FULL,
        Unmade::Media => MEDIA,
        Unmade::Dead => DEAD,
        Unmade::NoMemory => NO_MEMORY,
    }
}

// The making of a table.
ghost use Rattle.std.specs.Prelude.{◌≡◌, ◌+◌, ◌*◌, ◌<◌, ◌≤◌, None, Ok, Err, [], ◌∷◌, IfOk, OnOk, IsErrOf, IsTrue};
ghost use Rattle.array_shape.specs.Places.{page_count};
ghost use Rattle.eaw_face.specs.Causes.{IsAlive};
ghost use Rattle.index_pages.specs.Acts.{Acts};
ghost use Rattle.page_store.specs.Index.{index_pages_of};
ghost use Rattle.page_store.specs.Shown.{pages_of, top_in};
ghost use Rattle.record_slots.specs.Fresh.{fresh_page};
ghost use Rattle.record_slots.specs.Super.{super_bytes};
ghost use Rattle.record_slots.specs.Places.{next_page};
ghost use Rattle.record_table.specs.Blames.{BlamesFrontMade};
ghost use Rattle.record_table.specs.Invariant.{Holds};
ghost use Rattle.record_table.specs.Making.{Makes, PlaceCause};

use crate::upgrading::{read_front, upgrade};
use eaw_face::EawStore;
use index_pages::{act_all, index_page_count, whole_page};
use page_store::{KeyIndex, PageFault, Pages};
use record_slots::{
    Name, Names, Super, TABLES_MAX, VERSION, fresh_page, has_tables, with_table, write_super,
};
use thiserror::Error;

const PAGE_LEN: usize = 512;

// The number that writes the table. It is not live before or after.
const MAKER: u8 = 0;

// The page of data without records that is a root without pairs.
const EMPTY_ROOT: u64 = 1;

/// Why a table was not made. `Dead` goes first, then the kinds in their order: a later one comes only if no earlier one does.
#[derive(Clone, Copy, Debug, PartialEq, Eq, Error)]
pub enum MakeFault {
    /// A table has this name.
    #[error("a table has this name")]
    Exists,
    /// There are eight tables.
    #[error("all tables are in use")]
    TablesFull,
    /// No page is left for the root of its index: all `pages` behind the super page are given.
    #[error("all {pages} index pages are given")]
    PagesFull { pages: u32 },
    /// The medium failed in this call.
    #[error("the medium failed")]
    Media,
    /// An earlier call has met a fault of the medium.
    #[error("the array is dead")]
    Dead,
    /// The super page breaks the layout. Only a store that does not tell its data gives this refusal.
    #[error("page {page} is damaged")]
    Damaged { page: u32 },
}

// The number of a new table of this name, in an array with so many pages for indexes.
fn place_for(front: &Super, name: &Name, half: u32) -> Result<u8, MakeFault>
    requires half { 2 ≤ half }
    requires oldest { 1 ≤ front.now.version }
    requires newest { front.now.version ≤ 2 }
    ensures cause { PlaceCause name.now half front.now result }
    ensures blames { BlamesFrontMade result }
{
    if front.version != VERSION {
        return Err(MakeFault::Damaged { page: 0 });
    }
    if front.next_page < 2 {
        return Err(MakeFault::Damaged { page: 0 });
    }
    if !has_tables(front) {
        return Err(MakeFault::Damaged { page: 0 });
    }
    let names = Names::of(front);
    if names.number(name).is_some() {
        return Err(MakeFault::Exists);
    }
    let number = names.count();
    if usize::from(number) == TABLES_MAX {
        return Err(MakeFault::TablesFull);
    }
    if front.next_page >= half {
        return Err(MakeFault::PagesFull { pages: half - 1 });
    }
    Ok(number)
}

// Writes an empty root and the super page, as one nested top action.
fn write_table<S: EawStore>(pages: &mut Pages<S>, front: &Super, root: u32) -> Result<(), PageFault>
    requires closed { IsAlive (S.view pages.old.store) → top_in pages.old.marks 0 ≡ None }
    requires root { root < index_pages_of (S.view pages.old.store).shape }
    ensures acts { Acts S.tells (S.opens (S.view pages.old.store).shape) 0 (root ∷ 0 ∷ []) ((512 * root + 0, fresh_page 1) ∷ (512 * 0 + 0, super_bytes front.now) ∷ [])
        (pages_of (S.view pages.old.store) pages.old) (pages_of (S.view pages.new.store) pages.new) result }
    ensures dead { IsErrOf result PageFault.Dead → pages.new ≡ pages.old }
{
    let leaf = fresh_page(EMPTY_ROOT);
    let mut bytes = [0; PAGE_LEN];
    write_super(front, &mut bytes);
    act_all(
        pages,
        MAKER,
        &[whole_page(root, &leaf), whole_page(0, &bytes)],
    )
}

// Makes a table of this name, behind those that there are, and returns its number.
// That of its index is put in `root`.
pub fn make<S: EawStore, K: KeyIndex>(
    pages: &mut Pages<S>,
    name: &Name,
    root: &mut u32,
) -> Result<u8, MakeFault>
    requires free { (S.view pages.old.store).ranges 0 ≡ None }
    requires holds { Holds S.tells K.index (pages_of (S.view pages.old.store) pages.old) }
    ensures makes { Makes S.tells (S.opens (S.view pages.old.store).shape) K.index name.now
        (pages_of (S.view pages.old.store) pages.old) (pages_of (S.view pages.new.store) pages.new) result }
    ensures holds { Holds S.tells K.index (pages_of (S.view pages.new.store) pages.new) }
    ensures blames { BlamesFrontMade result }
    ensures root { IsTrue S.tells → OnOk result (root.new ≡ next_page (S.view pages.old.store).state.bytes) }
    ensures inside { OnOk result (root.new < page_count (S.view pages.old.store).shape) }
    ensures number { IfOk result (λ number. number < 8) }
    ensures dead { IsErrOf result MakeFault.Dead → pages.new ≡ pages.old }
{
    upgrade::<S, K>(pages)?;
    let front = read_front::<S, K>(pages)?;
    let number = place_for(&front, name, index_page_count(pages))?;
    write_table(pages, &with_table(&front, name), front.next_page)?;
    pages.end(MAKER, false)?;
    *root = front.next_page;
    Ok(number)
}

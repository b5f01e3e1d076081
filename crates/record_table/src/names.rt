// The names of the tables and the roots of their indexes, as the super page has them.
ghost use Rattle.std.specs.Prelude.{◌≡◌, ◌<◌, IfOk, IfSome, IsTrue, get_or, length, slice_get};
ghost use Rattle.std.specs.Option.{option_map};
ghost use Rattle.array_shape.specs.Places.{page_count};
ghost use Rattle.eaw_face.specs.Causes.{IsAlive};
ghost use Rattle.page_store.specs.Index.{HasCounts};
ghost use Rattle.page_store.specs.Looks.{Looks, LookCause, is_failed};
ghost use Rattle.page_store.specs.Shown.{pages_of};
ghost use Rattle.record_slots.specs.Super.{tables_in};
ghost use Rattle.record_table.specs.Blames.{BlamesFront};
ghost use Rattle.record_table.specs.Names.{names_of, AreRootsOf, ArePages, BeginsWithMain};

use eaw_face::EawStore;
use index_pages::fetch_page;
use page_store::{PageFault, Pages};
use record_slots::{Names, Super, has_tables, read_super, table_root};

const PAGE_LEN: usize = 512;

/// The roots of the indexes of tables, by the numbers of these.
#[derive(Clone, Copy)]
pub struct Roots {
    pub at: [u32; 8],
}

impl Roots {
    // That of the table of this number.
    pub fn of_table(&self, table: u8) -> u32
        requires { table < 8 }
        ensures { result ≡ get_or self.now.at table 0 }
    {
        self.at[usize::from(table)]
    }
}

// The root of `main`, which each array has.
const MAIN_ROOT: u32 = 1;

// The root of a table, if that is a page of the array, or else that of `main`.
fn root_of<S: EawStore>(pages: &Pages<S>, front: &Super, table: u8) -> u32
    requires { table < 8 }
    ensures inside { result < page_count (S.view pages.now.store).shape }
    ensures root { IfSome (option_map (λ entry. entry.root) (slice_get (tables_in front.now.version front.now.entries) table)) (λ root. root < page_count (S.view pages.now.store).shape → result ≡ root) }
{
    let shape = pages.shape();
    match table_root(front, table) {
        Some(root) if u64::from(root) < u64::from(shape.loggers) * u64::from(shape.pages) => root,
        _ => MAIN_ROOT,
    }
}

// The names of the tables, and the roots of their indexes.
pub fn names_and_roots<S: EawStore>(pages: &mut Pages<S>) -> Result<(Names, Roots), PageFault>
    requires { IsTrue S.tells → IsAlive (S.view pages.old.store) → HasCounts (S.view pages.old.store).state.bytes }
    ensures looks { Looks S.tells (S.opens (S.view pages.old.store).shape) (is_failed result)
        (pages_of (S.view pages.old.store) pages.old) (pages_of (S.view pages.new.store) pages.new) }
    ensures cause { LookCause S.tells (S.view pages.old.store) result }
    ensures blames { BlamesFront result }
    ensures names { IsTrue S.tells → IfOk result (λ read. read.0 ≡ names_of (S.view pages.old.store).state.bytes) }
    ensures main { IfOk result (λ read. BeginsWithMain read.0) }
    ensures roots { IsTrue S.tells → IfOk result (λ read. AreRootsOf (S.view pages.old.store).state.bytes read.1.at) }
    ensures long { IfOk result (λ read. length read.1.at ≡ 8) }
    ensures inside { IfOk result (λ read. ArePages (page_count (S.view pages.old.store).shape) read.1.at) }
{
    let mut bytes = [0; PAGE_LEN];
    fetch_page(pages, 0, &mut bytes)?;
    let Some(front) = read_super(&bytes) else {
        return Err(PageFault::Damaged { page: 0 });
    };
    if !has_tables(&front) {
        return Err(PageFault::Damaged { page: 0 });
    }
    let r0 = root_of(pages, &front, 0);
    let r1 = root_of(pages, &front, 1);
    let r2 = root_of(pages, &front, 2);
    let r3 = root_of(pages, &front, 3);
    let r4 = root_of(pages, &front, 4);
    let r5 = root_of(pages, &front, 5);
    let r6 = root_of(pages, &front, 6);
    let r7 = root_of(pages, &front, 7);
    let at = [r0, r1, r2, r3, r4, r5, r6, r7];
    Ok((Names::of(&front), Roots { at }))
}

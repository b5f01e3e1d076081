// Nested top actions of an index.
ghost use Rattle.std.specs.Prelude.{◌≡◌, ◌<◌, ◌≤◌, None, IsErrOf, length};
ghost use Rattle.eaw_face.specs.Causes.{IsAlive};
ghost use Rattle.eaw_face.specs.StoreView.{log_len};
ghost use Rattle.page_store.specs.Runs.{Runs, acting_of};
ghost use Rattle.page_store.specs.Shown.{pages_of, top_in};
ghost use Rattle.index_pages.specs.Acts.{Acts};
ghost use Rattle.index_pages.specs.Parts.{AreInPages, pages_named, parts_named};

use arrayvec::ArrayVec;
use eaw_face::EawStore;
use page_store::{PageFault, Pages};

/// Bytes that are to stand at a place of a page.
#[derive(Clone, Copy)]
pub struct PagePart<'a> {
    pub page: u32,
    pub at: u32,
    pub bytes: &'a [u8],
}

// The most parts of an action.
const PARTS_MAX: usize = 5;

/// Writes up to five parts, one after another, as one nested top action of the number: all of them or none, whatever becomes of the
/// number. The room for them is tested first. Nothing is done but these writes and the end of the action.
pub fn act_all<S: EawStore>(
    pages: &mut Pages<S>,
    tid: u8,
    parts: &[PagePart<'_>],
) -> Result<(), PageFault>
    requires tid { tid < (S.view pages.old.store).shape.numbers }
    requires closed { IsAlive (S.view pages.old.store) → top_in pages.old.marks tid ≡ None }
    requires few { length parts.now ≤ 5 }
    requires inside { AreInPages (S.view pages.old.store) parts.now }
    ensures acts { Acts S.tells (S.opens (S.view pages.old.store).shape) tid (pages_named parts.now) (parts_named parts.now)
        (pages_of (S.view pages.old.store) pages.old) (pages_of (S.view pages.new.store) pages.new) result }
    ensures runs { Runs S.tells S.view S.calls (acting_of tid (log_len (S.view pages.old.store) tid) (parts_named parts.now))
        (S.view pages.old.store) (S.view pages.new.store) result }
    ensures dead { IsErrOf result PageFault.Dead → pages.new ≡ pages.old }
{
    if pages.is_dead() {
        return Err(PageFault::Dead);
    }
    pages.fits(tid, pages_in(parts).as_slice())?;
    let mark = pages.top_begin(tid);
    for part in parts {
        pages.write_as(tid, part.page, part.at, part.bytes)?;
    }
    pages.top_end(tid, mark)
}

// The pages of the parts.
fn pages_in(parts: &[PagePart<'_>]) -> ArrayVec<u32, PARTS_MAX>
    requires { length parts.now ≤ 5 }
    ensures { result.items ≡ pages_named parts.now }
{
    let mut pages = ArrayVec::new();
    for part in parts {
        pages.push(part.page);
    }
    pages
}

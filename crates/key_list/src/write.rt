// The nested top actions of an insertion.
ghost use Rattle.std.specs.Prelude.{◌≡◌, ◌<◌, None, IsErrOf, length, take, drop};
ghost use Rattle.eaw_face.specs.Causes.{IsAlive};
ghost use Rattle.eaw_face.specs.StoreView.{log_len};
ghost use Rattle.page_store.specs.Index.{index_pages_of};
ghost use Rattle.page_store.specs.Runs.{Runs, acting_of};
ghost use Rattle.page_store.specs.Shown.{pages_of, top_in};
ghost use Rattle.index_pages.specs.Acts.{Acts};
ghost use Rattle.index_pages.specs.Actions.{half_for};
ghost use Rattle.key_list.specs.Located.{IsLocated, cutting_pages, cutting_parts};

use crate::place::Located;
use eaw_face::EawStore;
use index_pages::{
    Claim, HALF, PAGE_LEN, act_all, copy_of, front_part, middle_of, whole_page, write_page,
};
use page_store::{PageFault, Pages};
use record_slots::{PART_LEN, write_super_part};

// Cuts a full page: its upper half goes to the page that is taken.
pub fn cut_page<S: EawStore>(
    pages: &mut Pages<S>,
    tid: u8,
    taken: &Claim,
    at: &Located,
) -> Result<(), PageFault>
    requires tid { tid < (S.view pages.old.store).shape.numbers }
    requires closed { IsAlive (S.view pages.old.store) → top_in pages.old.marks tid ≡ None }
    requires located { IsLocated (S.view pages.old.store).shape at.now.front at.now.page at.now.link at.now.pairs.items }
    requires full { length at.now.pairs.items ≡ 30 }
    requires next { taken.now.number < index_pages_of (S.view pages.old.store).shape }
    ensures acts { Acts S.tells (S.opens (S.view pages.old.store).shape) tid (cutting_pages taken.now.number at.now.page)
        (cutting_parts taken.now.front taken.now.number at.now.page at.now.link at.now.pairs.items)
        (pages_of (S.view pages.old.store) pages.old) (pages_of (S.view pages.new.store) pages.new) result }
    ensures runs { Runs S.tells S.view S.calls (acting_of tid (log_len (S.view pages.old.store) tid)
        (cutting_parts taken.now.front taken.now.number at.now.page at.now.link at.now.pairs.items))
        (S.view pages.old.store) (S.view pages.new.store) result }
    ensures dead { IsErrOf result PageFault.Dead → pages.new ≡ pages.old }
{
    let pairs = at.pairs.as_slice();
    let mut lower = [0; PAGE_LEN];
    write_page(0, taken.number, &pairs[..HALF], &mut lower);
    let mut upper = [0; PAGE_LEN];
    write_page(0, at.link, &pairs[HALF..], &mut upper);
    let mut part = [0; PART_LEN];
    write_super_part(&taken.front, &mut part);
    let parts = [
        whole_page(at.page, &lower),
        whole_page(taken.number, &upper),
        front_part(&part),
    ];
    act_all(pages, tid, &parts)
}

// The half of a full page whose range has the key, once the page is cut.
pub fn half_of(at: &Located, taken: &Claim, key: u64) -> Located
    requires { length at.now.pairs.items ≡ 30 }
    ensures front { result.front ≡ taken.now.front }
    ensures page { result.page ≡ half_for at.now.pairs.items at.now.page taken.now.number key }
    ensures link { result.link ≡ half_for at.now.pairs.items taken.now.number at.now.link key }
    ensures pairs { result.pairs.items ≡ half_for at.now.pairs.items (take 15 at.now.pairs.items) (drop 15 at.now.pairs.items) key }
{
    let pairs = at.pairs.as_slice();
    if key < middle_of(&at.pairs) {
        Located {
            front: taken.front,
            page: at.page,
            link: taken.number,
            pairs: copy_of(&pairs[..HALF]),
        }
    } else {
        Located {
            front: taken.front,
            page: taken.number,
            link: at.link,
            pairs: copy_of(&pairs[HALF..]),
        }
    }
}

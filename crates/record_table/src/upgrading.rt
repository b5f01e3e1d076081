// The super page, brought to version 2.
ghost use Rattle.std.specs.Prelude.{◌≡◌, ◌≤◌, None, IfOk, IsErrOf, IsTrue};
ghost use Rattle.page_store.specs.Looks.{LookCause, is_failed};
ghost use Rattle.page_store.specs.Shown.{pages_of};
ghost use Rattle.record_slots.specs.Places.{page_bytes};
ghost use Rattle.record_slots.specs.Super.{SaysSuper};
ghost use Rattle.record_table.specs.Blames.{BlamesFront};
ghost use Rattle.record_table.specs.Faults.{told_as};
ghost use Rattle.record_table.specs.Invariant.{Holds};
ghost use Rattle.record_table.specs.Sought.{LooksAs};
ghost use Rattle.record_table.specs.Upgrading.{Upgrades};

use eaw_face::EawStore;
use page_store::{KeyIndex, PageFault, Pages};
use record_slots::{Super, VERSION, main_super, read_super};

const PAGE_LEN: usize = 512;

// The number that writes the super page. It is not live before or after.
const UPGRADER: u8 = 0;

// What the super page says.
pub fn read_front<S: EawStore, K: KeyIndex>(pages: &mut Pages<S>) -> Result<Super, PageFault>
    requires holds { Holds S.tells K.index (pages_of (S.view pages.old.store) pages.old) }
    ensures looks { LooksAs S.tells (S.opens (S.view pages.old.store).shape) 0 (is_failed result)
        (pages_of (S.view pages.old.store) pages.old) (pages_of (S.view pages.new.store) pages.new) }
    ensures cause { LookCause S.tells (S.view pages.old.store) result }
    ensures says { IsTrue S.tells → IfOk result (SaysSuper (page_bytes (S.view pages.old.store).state.bytes 0)) }
    ensures version { IfOk result (λ front. (1 ≤ front.version) × (front.version ≤ 2)) }
    ensures blames { BlamesFront result }
    ensures dead { IsErrOf result PageFault.Dead → pages.new ≡ pages.old }
{
    let mut bytes = [0; PAGE_LEN];
    pages.read(0, 0, &mut bytes)?;
    match read_super(&bytes) {
        Some(front) => Ok(front),
        None => Err(PageFault::Damaged { page: 0 }),
    }
}

// Writes the super page in version 2, unless it is of that version.
pub fn upgrade<S: EawStore, K: KeyIndex>(pages: &mut Pages<S>) -> Result<(), PageFault>
    requires free { (S.view pages.old.store).ranges 0 ≡ None }
    requires holds { Holds S.tells K.index (pages_of (S.view pages.old.store) pages.old) }
    ensures upgrades { Upgrades S.tells (S.opens (S.view pages.old.store).shape) K.index
        (pages_of (S.view pages.old.store) pages.old) (pages_of (S.view pages.new.store) pages.new) (told_as result) }
    ensures blames { BlamesFront result }
    ensures holds { Holds S.tells K.index (pages_of (S.view pages.new.store) pages.new) }
    ensures dead { IsErrOf result PageFault.Dead → pages.new ≡ pages.old }
{
    let front = read_front::<S, K>(pages)?;
    if front.version == VERSION {
        return Ok(());
    }
    let bytes = main_super(front.form, front.next_slot, front.next_page);
    pages.atomic_write(UPGRADER, 0, &bytes)
}

// Users in groups over an array in memory, with a second table of the pairs.
ghost use Rattle.std.specs.Prelude.{◌≡◌, ◌<◌, IsTrue};
ghost use Rattle.caller_steps.specs.Sound.{IsSound};

use super::arrays::{Disk, fresh_of, memory_of, whole};
use super::opening::open_bank;
use array_shape::Shape;
use btree_pages::BTreePages;
use caller_steps::{Core as Steps, prefix_law};
use eaw_device::Eaw;
use mars_core::make_table;
use membership::{Taken, enroll};
use page_store::SaveRoom;
use pcm_media::{Media, MemoryMedia};
use record_slots::Name;
use std::alloc::Global;
use std::test::Fail;
use transactions::Stop;

fn groups() -> Option<Name> {
    Name::of(b"groups")
}

// The medium of a fresh array with the second table.
fn with_groups(alloc: Global) -> Option<MemoryMedia> {
    let media = whole(fresh_of(alloc, &Shape::new(1, 1, 8, 8).ok()?)?);
    let room = SaveRoom::new(alloc).ok()?;
    let Ok(store) = Eaw::attach(alloc, media) else {
        return None;
    };
    let (made, store) = make_table::<Eaw<Disk>, BTreePages>(alloc, room, store, &groups()?);
    match made {
        Ok(Ok(_)) => Some(memory_of(store.into_media())),
        _ => None,
    }
}

// What is answered to the user 7 who is to come into a group, behind which the core takes another call.
fn enroll_one<C: Steps>(core: &mut C, group: u32) -> Option<Result<(), Stop<Taken>>>
    requires inside { 0 < (C.view core.old).limits.callers }
    requires sound { IsTrue C.tells → IsSound (C.view core.old).state }
    ensures limits { (C.view core.new).limits ≡ (C.view core.old).limits }
    ensures still { IsTrue C.tells → IsSound (C.view core.new).state }
{
    prefix_law::<C>();
    Some(enroll(core, 0, groups()?, 7, group))
}

// Whether the first of two is done, and the second is told that the user has a group.
fn is_once<C: Steps>(core: &mut C) -> Option<bool>
    requires inside { 0 < (C.view core.old).limits.callers }
    requires sound { IsTrue C.tells → IsSound (C.view core.old).state }
{
    let first = enroll_one(core, 3)?;
    let second = enroll_one(core, 4)?;
    Some(first.is_ok() && second == Err(Stop::GivenUp(Taken)))
}

fn is_once_in<M: Media + Drop>(alloc: Global, media: M) -> Option<bool> {
    let mut core = open_bank(alloc, media)?;
    is_once(&mut core)
}

#[test]
fn a_user_has_one_group(rt: HostRuntime) -> Result<(), Fail> {
    let media = with_groups(rt.alloc()).ok_or("tables")?;
    assert!(rt; is_once_in(rt.alloc(), whole(media)) == Some(true));
    Ok(())
}

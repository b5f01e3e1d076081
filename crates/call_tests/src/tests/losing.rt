// Power that is lost while an array is restored over another: the image that is left opens with the old tables, is no array, or opens with the
// new ones.
use super::arrays::{CHOICES, cut_behind, media_of, memory_of, whole};
use super::opening::Bank;
use super::tables::{Counts, array_with, counts_of, restore_full, two_tables};
use array_shape::Shape;
use caller_steps::Core as Steps;
use eaw_device::{AttachFault, FormatFault};
use open_records::{OpenFault, open};
use pcm_media::{Media, MemoryMedia};
use restoring::RestoreFault;
use std::alloc::Global;
use std::test::Fail;

// How many rows the old tables have, and the new ones, which says which of both are found; and those of an image that is no array.
const OLD: Counts = (31, 2);

const NEW: Counts = (3, 32);

const NONE: Counts = (0, 0);

// More calls than the restore makes.
const CALLS: u64 = 64;

fn shape() -> Option<Shape> {
    Shape::new(2, 1, 8, 8).ok()
}

fn old_array(alloc: Global) -> Option<MemoryMedia> {
    array_with(alloc, &shape()?, two_tables(alloc, OLD)?)
}

// Whether a restore of the new tables ends well; `None` if it is refused for more than its medium.
fn is_restored<M: Media>(alloc: Global, media: &mut M) -> Option<bool> {
    let tables = two_tables(alloc, NEW)?;
    match restore_full(alloc, media, &shape()?, tables) {
        Ok(()) => Some(true),
        Err(RestoreFault::Format(FormatFault::Media)) => Some(false),
        Err(_) => None,
    }
}

// Restores them over an image where power is lost behind so many calls: whether that ended well, and the medium as it is then.
fn restored(alloc: Global, image: &[u8], passes: u64) -> Option<(bool, MemoryMedia)> {
    let mut media = cut_behind(media_of(alloc, image)?, passes);
    let is_done = is_restored(alloc, &mut media)?;
    Some((is_done, memory_of(media)))
}

// How many rows the tables have with which an image opens.
fn found<M: Media + Drop>(alloc: Global, media: M) -> Option<Counts> {
    match opens(alloc, media) {
        Ok(core) => counts_of(core.base()?),
        Err(OpenFault::Array(AttachFault::NotMars)) => Some(NONE),
        Err(_) => None,
    }
}

// Opens the records of an image. The medium goes where it is refused.
fn opens<M: Media + Drop>(alloc: Global, media: M) -> Result<Bank<M>, OpenFault> {
    match open(alloc, media, 1, 0) {
        Ok(core) => Ok(core),
        Err((fault, _)) => Err(fault),
    }
}

// Whether some images held the old tables, and whether some were no arrays.
#[derive(Clone, Copy)]
struct Seen {
    old: bool,
    none: bool,
}

// Adds what an image holds, which has to be one of the three.
fn seen_with(seen: Seen, found: Counts) -> Option<Seen> {
    if found != OLD && found != NONE && found != NEW {
        return None;
    }
    Some(Seen {
        old: seen.old || found == OLD,
        none: seen.none || found == NONE,
    })
}

// What the images hold that a loss of power may leave of a medium.
fn seen_left(alloc: Global, media: &MemoryMedia) -> Option<Seen> {
    let mut seen = Seen {
        old: false,
        none: false,
    };
    for choice in CHOICES {
        seen = seen_with(seen, found(alloc, whole(media.leave(choice).ok()?))?)?;
    }
    Some(seen)
}

// A restore that ended well has left nothing but the new array.
#[test]
fn power_lost_at_each_call_leaves_the_old_array_none_or_the_new_one(
    rt: HostRuntime,
) -> Result<(), Fail> {
    let before = old_array(rt.alloc()).ok_or("an array")?;
    let (mut was_old, mut was_none, mut was_done) = (false, false, false);
    for passes in 0..CALLS {
        let (is_done, media) = restored(rt.alloc(), before.bytes(), passes).ok_or("a restore")?;
        let seen = seen_left(rt.alloc(), &media).ok_or("an image that is none of the three")?;
        assert!(rt; !is_done || !(seen.old || seen.none));
        was_old = was_old || seen.old;
        was_none = was_none || seen.none;
        was_done = was_done || is_done;
    }
    assert!(rt; was_old && was_none && was_done);
    Ok(())
}

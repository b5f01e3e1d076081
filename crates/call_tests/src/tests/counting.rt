// A counter on an array. At which it is left by a loss of power, its clauses say.
use super::arrays::{fresh, memory_of, whole};
use counter::Counter;
use eaw_device::Eaw;
use pcm_media::{Media, MemoryMedia};
use std::alloc::Global;
use std::test::Fail;

fn open<M: Media + Drop>(alloc: Global, media: M) -> Option<Counter<Eaw<M>>> {
    Counter::open(alloc, media).ok()
}

// The medium of a counter at zero that was raised so many times, and counts that.
fn raise_often<M: Media + Drop>(alloc: Global, media: M, times: u64) -> Option<M> {
    let mut counter = open(alloc, media)?;
    for n in 0..times {
        if counter.value() != Ok(n) || counter.add_one() != Ok(n + 1) {
            return None;
        }
    }
    Some(counter.into_media())
}

fn raised(alloc: Global, times: u64) -> Option<MemoryMedia> {
    Some(memory_of(raise_often(alloc, whole(fresh(alloc)?), times)?))
}

fn counts<M: Media + Drop>(alloc: Global, media: M, n: u64) -> Option<bool> {
    let mut counter = open(alloc, media)?;
    Some(counter.value() == Ok(n))
}

#[test]
fn counts_and_counts_on(rt: HostRuntime) -> Result<(), Fail> {
    let media = raised(rt.alloc(), 3).ok_or("raised")?;
    assert!(rt; counts(rt.alloc(), whole(media), 3) == Some(true));
    Ok(())
}

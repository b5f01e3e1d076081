// Arrays in memory.
use super::held_media::HeldMedia;
use array_shape::Shape;
use eaw_device::format;
use pcm_media::{FusedMedia, MemoryMedia};
use std::alloc::Global;

// Room for the record of what is asked of a medium; past it the record grows.
const CALLS: u64 = 256;

const WRITTEN: u64 = 65_536;

/// Bytes for what is not sure behind a loss of power: what a read gave, zeros, others, and the mark of an array.
pub const CHOICES: [&[u8]; 4] = [b"", b"\x00", b"\xC3\x01", b"MARSEAW1"];

/// What all arrays of these tests lie on, whose power may be cut and whose reads may be held. It is one type, since all that stands on a
/// medium is built once for each; and what is said of it is proved once for any.
pub type Disk = HeldMedia<FusedMedia<MemoryMedia>>;

/// A medium whose power is cut behind so many calls.
pub fn cut_behind(media: MemoryMedia, passes: u64) -> Disk {
    HeldMedia::free(FusedMedia::wrap(media, passes))
}

/// A medium whose power is never cut.
pub fn whole(media: MemoryMedia) -> Disk {
    cut_behind(media, u64::MAX)
}

/// The memory in a medium.
pub fn memory_of(disk: Disk) -> MemoryMedia {
    disk.into_inner().into_inner()
}

/// A fresh array of the least numbers; `None` where memory is short.
pub fn fresh(alloc: Global) -> Option<MemoryMedia> {
    fresh_of(alloc, &Shape::new(1, 1, 8, 4).ok()?)
}

/// A fresh array of this shape.
pub fn fresh_of(alloc: Global, shape: &Shape) -> Option<MemoryMedia> {
    let zeros = vec![in alloc; 0; shape.media_len() as usize].ok()?;
    let mut media = media_of(alloc, &zeros)?;
    match format(&mut media, shape) {
        Ok(()) => Some(media),
        Err(_) => None,
    }
}

/// A medium with these bytes, none of whose calls has been made.
pub fn media_of(alloc: Global, bytes: &[u8]) -> Option<MemoryMedia> {
    MemoryMedia::new(alloc, bytes, CALLS, WRITTEN).ok()
}

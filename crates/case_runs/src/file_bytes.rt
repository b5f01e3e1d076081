// What a file has after its calls.
use crate::image::media_of;
use case_files::{CaseFault, Record, TracedMedia};
use media_file::{Done, HonestCalls};
use pcm_media::{Media, MemoryMedia};
use std::alloc::Global;

/// The same bytes, and zeros up to so many.
pub fn lengthened(alloc: Global, bytes: &[u8], least: usize) -> Result<Vec<u8>, CaseFault> {
    let mut image = Vec::from_slice(alloc, bytes)?;
    if image.len() < least {
        image.resize(least, 0)?;
    }
    Ok(image)
}

/// A medium of which just the same is sure as of a file, and the calls that make it so.
pub fn same_as(alloc: Global, file: &HonestCalls) -> Result<(Vec<Record>, MemoryMedia), CaseFault> {
    let mut media = traced(alloc, file.first())?;
    for call in file.calls() {
        follow_call(alloc, &mut media, &call.done)?;
    }
    media.into_parts()
}

fn traced(alloc: Global, bytes: &[u8]) -> Result<TracedMedia<MemoryMedia>, CaseFault> {
    Ok(TracedMedia::wrap(alloc, media_of(alloc, bytes)?))
}

fn follow_call(
    alloc: Global,
    media: &mut TracedMedia<MemoryMedia>,
    done: &Done,
) -> Result<(), CaseFault> {
    match done {
        Done::Measured | Done::Read { .. } => Ok(()),
        Done::Resized { len } => resize(alloc, media, *len as usize),
        Done::Synced => media.barrier().map_err(|_| CaseFault::NoMemory),
        Done::Written { at, bytes } => write(media, *at, bytes),
    }
}

fn resize(
    alloc: Global,
    media: &mut TracedMedia<MemoryMedia>,
    len: usize,
) -> Result<(), CaseFault> {
    let bytes = lengthened(alloc, media.inner().bytes(), len)?;
    *media = traced(alloc, &bytes)?;
    Ok(())
}

fn write(media: &mut TracedMedia<MemoryMedia>, at: u64, bytes: &[u8]) -> Result<(), CaseFault> {
    if at > media.len() || media.len() - at < bytes.len() as u64 {
        return Err(CaseFault::Place);
    }
    media.write(at, bytes).map_err(|_| CaseFault::NoMemory)
}

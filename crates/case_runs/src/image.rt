// The images over which cases are played.
use array_shape::Shape;
use case_files::{CaseFault, Image, Placed, Run};
use eaw_device::format;
use pcm_media::MemoryMedia;
use std::alloc::Global;

// Room for the record of what most runs ask of a medium; past it the record grows.
const CALLS: u64 = 4096;

const WRITTEN: u64 = 65_536;

/// A medium with these bytes, none of whose calls has been made.
pub fn media_of(alloc: Global, bytes: &[u8]) -> Result<MemoryMedia, CaseFault> {
    Ok(MemoryMedia::new(alloc, bytes, CALLS, WRITTEN)?)
}

/// What there is before the first run of a case.
pub fn first_media(alloc: Global, image: Image) -> Result<MemoryMedia, CaseFault> {
    match image {
        Image::Fresh {
            loggers,
            numbers,
            entries,
            pages,
        } => fresh(alloc, &Shape::new(loggers, numbers, entries, pages)?),
        Image::Zeros { len } => zeros(alloc, len),
    }
}

fn zeros(alloc: Global, len: usize) -> Result<MemoryMedia, CaseFault> {
    media_of(alloc, &vec![in alloc; 0; len]?)
}

fn fresh(alloc: Global, shape: &Shape) -> Result<MemoryMedia, CaseFault> {
    let mut media = zeros(alloc, shape.media_len() as usize)?;
    match format(&mut media, shape) {
        Ok(()) => Ok(media),
        // A medium in memory with no call listed fails only where memory for its record does.
        Err(_) => Err(CaseFault::NoMemory),
    }
}

/// The image before a run: a loss of power behind the run before has left these bytes where nothing was sure, and then the
/// run's own changes are made.
pub fn image_before(
    alloc: Global,
    left: &MemoryMedia,
    choice: &[u8],
    run: &Run,
) -> Result<Vec<u8>, CaseFault> {
    let left = left.leave(choice)?;
    changed(alloc, left.bytes(), run)
}

// These bytes with the run's own changes.
fn changed(alloc: Global, bytes: &[u8], run: &Run) -> Result<Vec<u8>, CaseFault> {
    let mut image = Vec::from_slice(alloc, bytes)?;
    image.resize(run.len.unwrap_or(bytes.len()), 0)?;
    for set in &run.sets {
        overwrite(&mut image, set)?;
    }
    Ok(image)
}

// Puts bytes at their place, all of which has to lie in the image.
fn overwrite(image: &mut [u8], set: &Placed) -> Result<(), CaseFault> {
    let len = set.bytes.len();
    if set.at > image.len() || image.len() - set.at < len {
        return Err(CaseFault::Place);
    }
    image[set.at..set.at + len].copy_from_slice(&set.bytes);
    Ok(())
}

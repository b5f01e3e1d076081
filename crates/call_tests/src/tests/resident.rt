// Reads from memory, over a medium in memory: what is read, moments, and a write that fails.
use anyhow::{Result, bail, ensure};
use pcm_media::{FusedMedia, Media, MemoryMedia};
use resident_media::ResidentMedia;

// Writes one byte at a place.
fn put<M: Media>(media: &mut M, at: u64, byte: u8) -> Result<()> {
    ensure!(at < media.len(), "it lies within");
    if media.write(at, &[byte]).is_err() {
        bail!("the write failed");
    }
    Ok(())
}

// The byte at a place.
fn get<M: Media>(media: &mut M, at: u64) -> Result<u8> {
    ensure!(at < media.len(), "it lies within");
    let mut buf = [0; 1];
    if media.read(at, &mut buf).is_err() {
        bail!("the read failed");
    }
    Ok(buf[0])
}

// Of three blocks the last is read first, and two are read in all: with the first write, three calls below. The second changes nothing.
fn serves<M: Media>(media: &mut M) -> Result<()> {
    ensure!(get(media, 39_999)? == 7, "the last block");
    ensure!(get(media, 36_000)? == 7, "from memory");
    ensure!(get(media, 16_383)? == 7, "the first block");
    put(media, 16_383, 9)?;
    ensure!(get(media, 16_383)? == 9, "what was written");
    put(media, 16_383, 9)?;
    ensure!(get(media, 0)? == 7, "from memory");
    Ok(())
}

fn forgets<M: Media>(media: &mut M) -> Result<()> {
    ensure!(put(media, 36_000, 1).is_err(), "the fuse has blown");
    ensure!(get(media, 36_000).is_err(), "its block is unknown");
    ensure!(get(media, 0)? == 7, "the first is not");
    ensure!(media.moment() == 10, "ten calls");
    Ok(())
}

#[test]
fn reads_from_memory(rt: HostRuntime) -> Result<()> {
    let sevens = vec![in rt.alloc(); 7; 40_000]?;
    let below = MemoryMedia::new(rt.alloc(), &sevens, 100, 1_000)?;
    let Ok(mut media) = ResidentMedia::over(rt.alloc(), FusedMedia::wrap(below, 3), 40_000) else {
        bail!("no memory");
    };
    serves(&mut media)?;
    forgets(&mut media)?;
    ensure!(media.into_inner().into_inner().moment() == 3, "three below");
    Ok(())
}

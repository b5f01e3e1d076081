// A primary over one medium, and its follower over another.
use super::arrays::{fresh, whole};
use eaw_device::Eaw;
use eaw_face::EawStore;
use mirror::{Follower, MemoryLink, Primary};
use pcm_media::Media;
use sample_array::write_both;
use std::alloc::Global;
use std::test::Fail;

// Three commits over a medium: the frames that were sent for them, one behind the other, and the data at the end.
fn sent<M: Media + Drop>(alloc: Global, media: M) -> Option<(Vec<u8>, Vec<u8>)> {
    let Ok(store) = Eaw::attach(alloc, media) else {
        return None;
    };
    let mut primary = Primary::attach(alloc, store, MemoryLink::new(alloc)).ok()?;
    let stream = three_frames(alloc, &mut primary)?;
    Some((stream, data_of(alloc, &mut primary)?))
}

fn three_frames<S: EawStore>(alloc: Global, primary: &mut S) -> Option<Vec<u8>> {
    let mut stream = Vec::new(alloc);
    for n in 1..4 {
        write_both(primary, &[n; 8], &[n + 8; 8]).ok()?;
        stream.extend_from_slice(primary.first_frame()).ok()?;
        primary.drop_frame();
    }
    Some(stream)
}

// How many frames of this stream are applied over a medium, and the data at the end. The stream comes in two pieces, cut at this byte.
fn followed<M: Media + Drop>(
    alloc: Global,
    media: M,
    stream: &[u8],
    cut: usize,
) -> Option<(u64, Vec<u8>)> {
    let Ok(store) = Eaw::attach(alloc, media) else {
        return None;
    };
    let mut follower = Follower::attach(alloc, store).ok()?;
    let applied = feed_cut(&mut follower, stream, cut)?;
    let mut store = follower.into_store();
    Some((applied, data_of(alloc, &mut store)?))
}

fn feed_cut<S: EawStore>(follower: &mut Follower<S>, stream: &[u8], cut: usize) -> Option<u64> {
    let (front, rest) = stream.split_at(cut.min(stream.len()));
    follower.feed(front).ok()?;
    follower.feed(rest).ok()
}

// All that a store's data is.
fn data_of<S: EawStore>(alloc: Global, store: &mut S) -> Option<Vec<u8>> {
    let mut data = vec![in alloc; 0; store.shape().data_len() as usize].ok()?;
    store.read(0, &mut data).ok()?;
    Some(data)
}

// Both media have the same data at first.
#[test]
fn a_second_medium_has_the_same_data(rt: HostRuntime) -> Result<(), Fail> {
    let near = fresh(rt.alloc()).ok_or("near")?;
    let (stream, near) = sent(rt.alloc(), whole(near)).ok_or("sent")?;
    // Each frame has 53 bytes.
    for cut in 0..160 {
        let far = fresh(rt.alloc()).ok_or("far")?;
        let (applied, far) = followed(rt.alloc(), whole(far), &stream, cut).ok_or("followed")?;
        assert_eq!(rt; applied, 3);
        assert!(rt; near == far);
    }
    assert_eq!(rt; near.get(1024), Some(&3));
    assert_eq!(rt; near.get(1536), Some(&11));
    Ok(())
}

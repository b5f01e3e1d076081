// An array over a chip: the samples of a driver, and of two ranges that change at once.
use array_shape::Shape;
use eaw_device::{Eaw, format};
use eaw_face::EawStore;
use sample_array::{Chip, Flash, write_both};
use std::alloc::Global;

// A chip that is a piece of memory, and fails from its n-th transfer on.
#[derive(Drop)]
struct MemoryChip {
    bytes: Vec<u8>,
    left: u64,
}

impl MemoryChip {
    fn is_spent(&mut self) -> bool {
        let is_spent = self.left == 0;
        self.left = self.left.saturating_sub(1);
        is_spent
    }
}

impl Chip for MemoryChip {
    fn fetch(&mut self, at: u64, buf: &mut [u8]) -> bool {
        let is_spent = self.is_spent();
        let at = at as usize;
        let end = at.saturating_add(buf.len());
        if is_spent || end > self.bytes.len() {
            return false;
        }
        buf.copy_from_slice(&self.bytes[at..end]);
        true
    }

    fn program(&mut self, at: u64, bytes: &[u8]) -> bool {
        let is_spent = self.is_spent();
        let at = at as usize;
        let end = at.saturating_add(bytes.len());
        if is_spent || end > self.bytes.len() {
            return false;
        }
        self.bytes[at..end].copy_from_slice(bytes);
        true
    }

    fn settle(&mut self) -> bool {
        !self.is_spent()
    }
}

// Whether both ranges that the first sample writes are new in an array.
fn are_new<S: EawStore>(store: &mut S) -> Option<bool> {
    let mut one = [0; 8];
    let mut other = [0; 8];
    store.read(1024, &mut one).ok()?;
    store.read(1536, &mut other).ok()?;
    Some(one == [1; 8] && other == [2; 8])
}

// Of an array over a chip that makes so many transfers: whether a write of both ranges was answered Ok, and whether both are new then.
fn written_over_chip(alloc: Global, left: u64) -> Option<(bool, bool)> {
    let shape = Shape::new(1, 1, 8, 4).ok()?;
    let bytes = vec![in alloc; 0; shape.media_len() as usize].ok()?;
    let mut flash = Flash::over(MemoryChip { bytes, left }, shape.media_len());
    format(&mut flash, &shape).ok()?;
    let Ok(mut store) = Eaw::attach(alloc, flash) else {
        return None;
    };
    let is_done = write_both(&mut store, &[1; 8], &[2; 8]).is_ok();
    let are_new = are_new(&mut store)?;
    Some((is_done, are_new))
}

#[test]
fn a_driver_carries_an_array(rt: HostRuntime) {
    assert!(rt; written_over_chip(rt.alloc(), u64::MAX) == Some((true, true)));
    for left in 0..64 {
        assert!(rt;
            matches!(
                written_over_chip(rt.alloc(), left),
                None | Some((true, true))
            )
        );
    }
}

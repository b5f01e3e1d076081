// A medium whose reads can be held.
ghost use Rattle.std.specs.Prelude.{◌≡◌};

use super::flags::wait_for;
use mars_base::{Failed, NoMemory};
use pcm_media::Media;
use std::alloc::Global;
use std::marker::Model;
use std::sync::Arc;
use std::sync::atomic::{AtomicBool, Ordering};

/// Two flags that a medium and its holder share. One says that a read has begun, and one that reads may go on.
#[derive(Drop)]
pub struct Hold {
    is_reading: AtomicBool,
    may_read: AtomicBool,
}

impl Hold {
    /// Flags under which reads are not held.
    pub fn released(alloc: Global) -> Result<Arc<Hold, Global>, NoMemory> {
        let hold = Hold {
            is_reading: AtomicBool::new(false),
            may_read: AtomicBool::new(true),
        };
        Ok(Arc::new(alloc, hold)?)
    }

    /// From now on a read is held.
    pub fn hold(&self) {
        self.may_read.store(false, Ordering::SeqCst);
        self.is_reading.store(false, Ordering::SeqCst);
    }

    /// A read that is held goes on, and no other is held.
    pub fn release(&self) {
        self.may_read.store(true, Ordering::SeqCst);
    }

    /// Waits until a read has begun since the last call of `hold`. In the end it gives up.
    pub fn wait_for_read(&self) {
        wait_for(&self.is_reading);
    }

    // Tells that a read has begun, and holds it.
    fn pass(&self) {
        self.is_reading.store(true, Ordering::SeqCst);
        wait_for(&self.may_read);
    }
}

/// A medium that passes each call on to the one in it. A read is held first, while its holder does not release it, if it has one.
#[derive(Drop)]
pub struct HeldMedia<M> {
    inner: M,
    hold: Option<Arc<Hold, Global>>,
}

impl<M> Model for HeldMedia<M> {
    ghost Value = { M };

    ghost view = { λ m. m.inner };
}

impl<M> HeldMedia<M> {
    /// Nobody holds its reads.
    pub fn free(inner: M) -> Self
        ensures { result ≡ inner }
    {
        HeldMedia { inner, hold: None }
    }

    pub fn held_by(inner: M, hold: Arc<Hold, Global>) -> Self
        ensures { result ≡ inner }
    {
        HeldMedia {
            inner,
            hold: Some(hold),
        }
    }

    pub fn into_inner(self) -> M
        ensures { result ≡ self }
    {
        let HeldMedia { inner, hold: _ } = self;
        inner
    }
}

impl<M: Media> Media for HeldMedia<M> {
    ghost tells = { M.tells };

    ghost view = { λ m. M.view m };

    ghost steady = { λ m calls more. M.steady m calls more };

    ghost spent = { λ m. M.spent m };

    ghost long = { λ m told. M.long m told };

    ghost counts_now = { λ m t image told le left. M.counts_now m t image told le left };

    ghost only_now = { λ m image told left. M.only_now m image told left };

    fn len(&self) -> u64 {
        self.inner.len()
    }

    fn moment(&self) -> u64 {
        self.inner.moment()
    }

    fn read(&mut self, at: u64, buf: &mut [u8]) -> Result<(), Failed> {
        if let Some(hold) = &self.hold {
            hold.pass();
        }
        self.inner.read(at, buf)
    }

    fn write(&mut self, at: u64, bytes: &[u8]) -> Result<(), Failed> {
        self.inner.write(at, bytes)
    }

    fn barrier(&mut self) -> Result<(), Failed> {
        self.inner.barrier()
    }

    fn fails_when_spent(&self) {
        self.inner.fails_when_spent();
    }
}

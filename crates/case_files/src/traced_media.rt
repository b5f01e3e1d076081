// A medium whose calls are kept, with the places that they read and wrote.
use crate::report::CaseFault;
use crate::traced::{Call, Record};
use mars_base::Failed;
use pcm_media::Media;
use std::alloc::Global;

/// Passes each call on to the medium behind it, and keeps it.
#[derive(Drop)]
pub struct TracedMedia<M> {
    inner: M,
    trace: Trace,
}

#[derive(Drop)]
struct Trace {
    records: Vec<Record>,
    // Whether there was no memory for a call.
    is_cut: bool,
}

impl Trace {
    fn keep(&mut self, call: Call, is_done: bool) {
        let record = Record { call, is_done };
        self.is_cut = self.is_cut || self.records.push(record).is_err();
    }
}

impl<M> TracedMedia<M> {
    /// A trace of no call, in front of this medium.
    pub fn wrap(alloc: Global, inner: M) -> Self {
        TracedMedia {
            inner,
            trace: Trace {
                records: Vec::new(alloc),
                is_cut: false,
            },
        }
    }

    /// The medium behind it.
    pub fn inner(&self) -> &M {
        &self.inner
    }

    /// The calls, the first first, and the medium.
    pub fn into_parts(self) -> Result<(Vec<Record>, M), CaseFault>
    where
        M: Drop,
    {
        let TracedMedia { inner, trace } = self;
        if trace.is_cut {
            return Err(CaseFault::NoMemory);
        }
        Ok((trace.records, inner))
    }
}

impl<M: Media> Media for TracedMedia<M> {
    ghost tells = { M.tells };

    ghost view = { λ m. M.view m.inner };

    ghost steady = { λ m calls more. M.steady m.inner calls more };

    ghost spent = { λ m. M.spent m.inner };

    ghost long = { λ m told. M.long m.inner told };

    ghost counts_now = { λ m t image told le left. M.counts_now m.inner t image told le left };

    ghost only_now = { λ m image told left. M.only_now m.inner image told left };

    fn len(&self) -> u64 {
        self.inner.len()
    }

    fn moment(&self) -> u64 {
        self.inner.moment()
    }

    fn read(&mut self, at: u64, buf: &mut [u8]) -> Result<(), Failed> {
        let len = buf.len() as u64;
        let result = self.inner.read(at, buf);
        self.trace.keep(Call::Read { at, len }, result.is_ok());
        result
    }

    fn write(&mut self, at: u64, bytes: &[u8]) -> Result<(), Failed> {
        let len = bytes.len() as u64;
        let result = self.inner.write(at, bytes);
        self.trace.keep(Call::Write { at, len }, result.is_ok());
        result
    }

    fn barrier(&mut self) -> Result<(), Failed> {
        let result = self.inner.barrier();
        self.trace.keep(Call::Barrier, result.is_ok());
        result
    }

    fn fails_when_spent(&self) {
        self.inner.fails_when_spent();
    }
}

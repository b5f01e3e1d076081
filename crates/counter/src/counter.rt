// A counter over the data of an array.
ghost use Rattle.std.specs.Prelude.{◌≡◌, ◌+◌, false, IfOk, IfErr, OnOk, IsTrue};
ghost use Rattle.eaw_face.specs.Causes.{IsAlive};
ghost use Rattle.eaw_face.specs.Does.{IsEither};
ghost use Rattle.eaw_face.specs.StoreView.{LeavesOnly};
ghost use Rattle.eaw_device.specs.Opens.{FindsData, AttachCause, KeepsData, IsBehind};
ghost use Rattle.counter.specs.Counts.{number_in, with_number, Counts, CountsEither, LeavesCount, IsBroken, IsRefused};

use byteorder::{ByteOrder, LittleEndian};
use eaw_device::{AttachFault, Eaw};
use eaw_face::{EawFault, EawStore};
use pcm_media::Media;
use std::alloc::Global;
use std::marker::Model;
use thiserror::Error;

// The counter is at the front of page 2, the first page that is all zero in a fresh array.
const COUNTER_AT: u64 = 1024;

// The transaction number under which the counter is written.
const NUMBER: u8 = 0;

/// Why a counter was not raised.
#[derive(Clone, Copy, Debug, PartialEq, Eq, Error)]
pub enum CountFault {
    /// The counter is at the largest number of eight bytes. Nothing was written.
    #[error("no number is left to count")]
    Last,
    /// The medium failed, in this call (`Media`) or in an earlier one (`Dead`). Open the array again, and the counter is at n or n + 1.
    #[error("{0}")]
    Array(EawFault),
}

impl From<EawFault> for CountFault {
    ghost use Rattle.std.specs.Prelude.{◌≡◌};
    ghost use Rattle.counter.specs.declared.counter.CountFault.TheVariants.{Array};

    ghost from_gives = { λ fault told. told ≡ Array fault };

    fn from(fault: EawFault) -> Self {
        CountFault::Array(fault)
    }
}

/// A counter in an array of editable atomic writes, over any store of them. It is eight bytes of the data.
#[derive(Drop)]
pub struct Counter<S: EawStore> {
    store: S,
}

impl<S: EawStore> Model for Counter<S> {
    ghost use Rattle.counter.specs.Counts.{IsIdle};

    ghost Value = { S };

    ghost view = { λ c. c.store };

    ghost invariant = { λ c. IsIdle (S.view c.store) };
}

impl<M: Media> Counter<Eaw<M>> {
    /// Opens the array that the medium holds, as a loss of power left it. An error returns the medium.
    pub fn open(alloc: Global, media: M) -> Result<Counter<Eaw<M>>, (AttachFault, M)>
        // An image that opens with some data is opened with that data.
        ensures opens { IfOk result (λ counter. FindsData M.tells (M.view media) (⟦<Eaw<M> as EawStore>⟧.view counter)) }
        ensures alive { IfOk result (λ counter. IsAlive (⟦<Eaw<M> as EawStore>⟧.view counter)) }
        // If power is lost meanwhile, it opens with the same data again.
        ensures keeps { IfOk result (λ counter. KeepsData M.tells (M.view media) (⟦<Eaw<M> as EawStore>⟧.view counter).moment (⟦<Eaw<M> as EawStore>⟧.view counter).left_since) }
        ensures keeps_on_err { IfErr result (λ failed. KeepsData M.tells (M.view media) (M.view failed.1).moment (M.view failed.1).left_since) }
        ensures cause { IfErr result (λ failed. AttachCause M.tells (M.view media) (M.view failed.1).faults failed.0) }
    {
        let store = Eaw::attach(alloc, media)?;
        Ok(Counter { store })
    }

    /// The medium below.
    pub fn into_media(self) -> M
        ensures { IsBehind M.tells false (⟦<Eaw<M> as EawStore>⟧.view self) (M.view result) }
    {
        let Counter { store } = self;
        store.into_media()
    }
}

impl<S: EawStore> Counter<S> {
    /// The number that the counter is at.
    pub fn value(&mut self) -> Result<u64, EawFault>
        ensures says { IsTrue S.tells → IfOk result (λ n. n ≡ number_in (S.view self.old).state.bytes) }
        ensures same { IsTrue S.tells → OnOk result ((S.view self.new).state.bytes ≡ (S.view self.old).state.bytes) }
        ensures alive { OnOk result (IsAlive (S.view self.old) × IsAlive (S.view self.new)) }
        ensures broken { IfErr result (IsBroken (S.view self.old) (S.view self.new)) }
        ensures kept { OnOk result ((S.view self.new).faults ≡ (S.view self.old).faults) }
        ensures shape { (S.view self.new).shape ≡ (S.view self.old).shape }
        ensures moments { IsTrue S.tells → IsAlive (S.view self.old)
            → LeavesOnly (λ image. S.opens (S.view self.old).shape image (S.view self.old).state.bytes) (S.view self.old) (S.view self.new) }
    {
        let mut bytes = [0; 8];
        self.store.read(COUNTER_AT, &mut bytes)?;
        Ok(LittleEndian::read_u64(&bytes))
    }

    /// Raises the counter from n to n + 1 and returns n + 1.
    pub fn add_one(&mut self) -> Result<u64, CountFault>
        ensures counted { IsTrue S.tells → IfOk result (λ n. n ≡ number_in (S.view self.old).state.bytes + 1) }
        ensures written { IsTrue S.tells → IfOk result (λ n. (S.view self.new).state.bytes ≡ with_number (S.view self.old).state.bytes n) }
        // Whatever a loss of power leaves afterwards is at n + 1.
        ensures now { IsTrue S.tells → IfOk result (λ n. LeavesCount (S.opens (S.view self.old).shape) (S.view self.old).state.bytes n (S.view self.new)) }
        // At each moment of the call, whatever it answers, a loss of power leaves n or n + 1.
        ensures moments { IsTrue S.tells → IsAlive (S.view self.old)
            → LeavesOnly (CountsEither (S.opens (S.view self.old).shape) (S.view self.old).state.bytes (number_in (S.view self.old).state.bytes)) (S.view self.old) (S.view self.new) }
        ensures refused { IfErr result (IsRefused S.tells (S.view self.old) (S.view self.new)) }
    {
        let number = self.value()?;
        let Some(next) = number.checked_add(1) else {
            return Err(CountFault::Last);
        };
        self.set(next)?;
        Ok(next)
    }

    // Writes the number into the log of a transaction and commits it.
    fn set(&mut self, number: u64) -> Result<(), EawFault>
        requires { IsAlive (S.view self.old) }
        ensures written { IsTrue S.tells → OnOk result ((S.view self.new).state.bytes ≡ with_number (S.view self.old).state.bytes number) }
        ensures alive { OnOk result (IsAlive (S.view self.new)) }
        ensures shape { (S.view self.new).shape ≡ (S.view self.old).shape }
        ensures moments { IsTrue S.tells
            → LeavesOnly (IsEither (S.opens (S.view self.old).shape) (S.view self.old).state.bytes (with_number (S.view self.old).state.bytes number)) (S.view self.old) (S.view self.new) }
        ensures broken { IfErr result (IsBroken (S.view self.old) (S.view self.new)) }
    {
        let mut bytes = [0; 8];
        LittleEndian::write_u64(&mut bytes, number);
        self.store.log_write(NUMBER, COUNTER_AT, &bytes)?;
        self.store.commit(NUMBER)
    }
}

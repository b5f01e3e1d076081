// A core whose state is sound.
ghost use Rattle.std.specs.Prelude.{◌≡◌, ◌<◌, ◌≤◌, ℕ, true, IsTrue, IsSome};
ghost use Rattle.caller_steps.specs.Core.{Steps as Made, Continues, IsSafe};
ghost use Rattle.tape_media.specs.Steps.{with_first_done};
ghost use Rattle.tape_media.specs.Tape.{next_of, done_moment};
ghost use Rattle.mars_core.specs.Taped.{IsSafeOnDevice};
ghost use Rattle.caller_steps.specs.Sound.{IsSound};

use crate::records::TapedCore;
use caller_steps::{Core as Steps, steps_keep_all_sound};
use history::{Call, Reply};
use std::marker::Model;

/// A core whose history is legal, and whose live transactions are right and clash nowhere.
#[derive(Drop)]
pub struct Sound<C: Steps> {
    pub(crate) core: C,
}

impl<C: Steps> Model for Sound<C> {
    ghost use Rattle.std.specs.Prelude.{IsTrue};
    ghost use Rattle.caller_steps.specs.Sound.{IsSound};

    ghost Value = { C };

    ghost view = { λ s. s.core };

    ghost invariant = { λ s. IsTrue C.tells → IsSound (C.view s.core).state };
}

impl<C: Steps> Sound<C> {
    pub fn of(core: C) -> Sound<C>
        requires { IsTrue C.tells → IsSound (C.view core).state }
        ensures { result ≡ core }
    {
        Sound { core }
    }

    pub fn into_core(self) -> C
        ensures { result ≡ self }
    {
        self.core
    }

    pub fn core(&self) -> &C
        ensures core { result.now ≡ self.now }
        ensures sound { IsTrue C.tells → IsSound (C.view self.now).state }
    {
        &self.core
    }

    /// Makes a caller's call.
    pub fn step(&mut self, caller: u8, call: &Call) -> Reply
        requires { caller < (C.view self.old).limits.callers }
        ensures { Made C.tells caller call.now (C.view self.old) (C.view self.new) result }
    {
        steps_keep_all_sound();
        self.core.step(caller, call)
    }
}

impl Sound<TapedCore> {
    /// The next piece was done on the device. It is forgotten.
    pub fn piece_done(&mut self)
        requires { IsSome (next_of self.old.records.store.media) }
        ensures tape { self.new.records.store.media ≡ record self.old.records.store.media { past = with_first_done self.old.records.store.media.past } }
        ensures goes_on { Continues (⟦<TapedCore as Steps>⟧.view self.old) (⟦<TapedCore as Steps>⟧.view self.new) }
    {
        self.core.piece_done();
    }

    /// The next piece failed on the device.
    pub fn piece_failed(&mut self)
        ensures tape { self.new.records.store.media ≡ record self.old.records.store.media { has_failed = true } }
        ensures goes_on { Continues (⟦<TapedCore as Steps>⟧.view self.old) (⟦<TapedCore as Steps>⟧.view self.new) }
    {
        self.core.piece_failed();
    }

    /// The moment up to which the pieces of all calls were done on the device. What was safe since a moment up to that one is safe there.
    pub fn done_up_to(&self) -> u64
        ensures moment { result ≡ done_moment self.now.records.store.media }
        ensures safe { (since least : ℕ) → since ≤ result → IsSafe (⟦<TapedCore as Steps>⟧.view self.now) since least
            → IsSafeOnDevice self.now.records.store.media.past (⟦<TapedCore as Steps>⟧.view self.now) least }
    {
        self.core.done_up_to()
    }
}

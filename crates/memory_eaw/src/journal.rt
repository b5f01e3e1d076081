// The calls of a store in memory, those that are to fail, and the data before each change.
ghost use Rattle.std.specs.Prelude.{◌≡◌, ◌-◌, ◌^◌, ◌<◌, ◌↔◌, ◌++◌, ◌∷◌, [], length, IsTrue, IfOk, OnOk, OnErr};
ghost use Rattle.std.specs.Bool.{OnTrue, OnFalse};
ghost use Rattle.memory_eaw.specs.Kept.{fresh_kept, MustFail, MustFailChange, failed, called, changed};

use mars_base::NoMemory;
use std::alloc::Global;
use std::marker::Model;

#[derive(Drop)]
pub struct Journal {
    listed: Vec<u64>,
    moment: u64,
    faults: u64,
    // The moments of the changes, and the data before each change, one version after another.
    untils: Vec<u64>,
    past: Vec<u8>,
    room: u64,
    size: u64,
}

impl Model for Journal {
    ghost use Rattle.std.specs.Vec.{vec_capacity};
    ghost use Rattle.memory_eaw.specs.Kept.{Kept, versions, HoldsPast};

    ghost Value = { Kept };

    ghost view = { λ j. record { listed = j.listed.items; moment = j.moment; faults = j.faults; past = versions j.size j.untils.items j.past.items; room = j.room; size = j.size } };

    ghost invariant = { λ j. HoldsPast j.size j.room j.untils.items j.past.items (vec_capacity j.untils) (vec_capacity j.past) };
}

impl Journal {
    // A journal with room for `room` changes of `size` bytes of data.
    pub fn new(alloc: Global, size: u64, room: u64) -> Result<Journal, NoMemory>
        ensures { IfOk result (λ j. j ≡ fresh_kept size room) }
    {
        let bytes = room.checked_mul(size).ok_or(NoMemory)?;
        Ok(Journal {
            listed: Vec::new(alloc),
            moment: 0,
            faults: 0,
            untils: Vec::with_capacity(alloc, room as usize)?,
            past: Vec::with_capacity(alloc, bytes as usize)?,
            room,
            size,
        })
    }

    // Lists the `nth` call as one that fails.
    pub fn fail(&mut self, nth: u64) -> Result<(), NoMemory>
        ensures ok { OnOk result (self.new ≡ record self.old { listed = self.old.listed ++ nth ∷ [] }) }
        ensures err { OnErr result (self.new ≡ self.old) }
    {
        self.listed.push(nth)?;
        Ok(())
    }

    // Whether the next call is to fail.
    fn must_fail(&self) -> bool
        ensures { IsTrue result ↔ MustFail self.now }
    {
        if self.moment == u64::MAX {
            return true;
        }
        let next = self.moment + 1;
        self.listed.contains(&next)
    }

    // Counts a call that fails.
    fn fail_call(&mut self)
        ensures { self.new ≡ failed self.old }
    {
        self.moment = self.moment.saturating_add(1);
        self.faults = self.faults.saturating_add(1);
    }

    // Counts a call that changes no data. Returns whether it is done.
    pub fn call(&mut self) -> bool
        ensures done { OnTrue result ((MustFail self.old → ⊥) × (self.new ≡ called self.old)) }
        ensures failed { OnFalse result (MustFail self.old × (self.new ≡ failed self.old)) }
    {
        if self.must_fail() {
            self.fail_call();
            return false;
        }
        self.moment += 1;
        true
    }

    // Counts a call that changes the data, and keeps the data as it was until then. Returns whether it is done.
    pub fn change(&mut self, bytes: &[u8]) -> bool
        requires { length bytes.now ≡ self.old.size }
        ensures done { OnTrue result ((MustFailChange self.old → ⊥) × (self.new ≡ changed bytes.now self.old)) }
        ensures failed { OnFalse result (MustFailChange self.old × (self.new ≡ failed self.old)) }
    {
        if self.room == 0 || self.must_fail() {
            self.fail_call();
            return false;
        }
        self.keep(bytes)
    }

    // Raises the moment for a change, and keeps the data as it was until then. This cannot fail, since the room was taken when
    // the journal was made.
    fn keep(&mut self, bytes: &[u8]) -> bool
        requires size { length bytes.now ≡ self.old.size }
        requires room { 0 < self.old.room }
        requires moment { self.old.moment < 2 ^ 64 - 1 }
        ensures done { IsTrue result }
        ensures kept { self.new ≡ changed bytes.now self.old }
    {
        self.moment += 1;
        self.room -= 1;
        self.untils.push_reserved(self.moment);
        self.past.extend_from_slice(bytes).is_ok()
    }
}

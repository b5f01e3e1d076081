// Writes into the logs of an open array, their commits, and reads of its data.
ghost use Rattle.std.specs.Prelude.{◌≡◌, length};
ghost use Rattle.array_shape.specs.NumberSet.{numbers_in};
ghost use Rattle.eaw_face.specs.Command.{log_write, commit, commit_group, abort, atomic_write, read};
ghost use Rattle.taped_array.specs.Asks.{Asks, AsksOnly};
ghost use Rattle.taped_array.specs.Refusals.{always, is_inside, is_write, is_own_write};
ghost use Rattle.taped_array.specs.Told.{IsRead, count_in};

use crate::open_array::OpenArray;
use crate::status::{OK, status_in, status_of};
use array_shape::NumberSet;
use eaw_face::EawStore;

impl OpenArray {
    /// Logs a write, and tells how many parts the number has logged.
    pub fn log_write(&mut self, number: u8, at: u64, bytes: &[u8], parts: &mut u64) -> i32
        ensures { Asks (is_write at (length bytes.now)) (log_write number at bytes.now)
            (λ _ told. parts.new ≡ count_in parts.old told) (parts.new ≡ parts.old) self.old self.new result }
    {
        if let Err(status) = self.test_write(at, bytes.len() as u64) {
            return status;
        }
        match self.store.log_write(number, at, bytes) {
            Ok(count) => {
                *parts = u64::from(count);
                OK
            }
            Err(fault) => status_of(&fault),
        }
    }

    /// Commits what the number has logged.
    pub fn commit(&mut self, number: u8) -> i32
        ensures { AsksOnly always (commit number) self.old self.new result }
    {
        status_in(&self.store.commit(number))
    }

    /// Commits several numbers at once.
    pub fn commit_group(&mut self, set: u64) -> i32
        ensures { AsksOnly always (commit_group (numbers_in set)) self.old self.new result }
    {
        status_in(&self.store.commit_group(NumberSet { bits: set }))
    }

    /// Drops what the number has logged.
    pub fn abort(&mut self, number: u8) -> i32
        ensures { AsksOnly always (abort number) self.old self.new result }
    {
        status_in(&self.store.abort(number))
    }

    /// A transaction of one write, under a number that is free.
    pub fn atomic_write(&mut self, number: u8, at: u64, bytes: &[u8]) -> i32
        ensures { AsksOnly (is_own_write number at (length bytes.now)) (atomic_write number at bytes.now) self.old self.new result }
    {
        if let Err(status) = self.test_own_write(number, at, bytes.len() as u64) {
            return status;
        }
        status_in(&self.store.atomic_write(number, at, bytes))
    }

    /// Fills the room with the data from an address on.
    pub fn read(&mut self, at: u64, room: &mut [u8]) -> i32
        ensures { Asks (is_inside at (length room.old)) (read at (length room.old))
            (IsRead at room.old room.new) (room.new ≡ room.old) self.old self.new result }
    {
        if let Err(status) = self.test_inside(at, room.len() as u64) {
            return status;
        }
        status_in(&self.store.read(at, room))
    }
}

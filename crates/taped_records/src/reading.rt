// What is read of an open array and its tape.
ghost use Rattle.std.specs.Prelude.{◌≡◌, true, slice_get, Some, None, MatchOption};
ghost use Rattle.tape_media.specs.Tape.{next_of};
ghost use Rattle.taped_calls.specs.Told.{IsPiece, IsWrite};
ghost use Rattle.taped_records.specs.Shown.{tape_of, core_in};
ghost use Rattle.taped_records.specs.Status.{no_piece};
ghost use Rattle.taped_records.specs.Tells.{IsRow, IsTold, IsDone, IsDoneUpTo, GoesOn};

use crate::records::TapedRecords;
use crate::status::{ABSENT, NO_PIECE, NO_TABLE, OK};
use caller_steps::Core as Steps;
use record_slots::Value;
use taped_calls::{put_out, tell_piece, tell_write};

impl TapedRecords {
    /// A row of the last scan, by its place: its key, and as much of its value as there is room for.
    pub fn row(&self, at: u64, key: &mut u64, room: &mut [u8], len: &mut u64) -> i32
        ensures { IsRow (slice_get self.now.rows at) result key.old key.new room.old room.new len.old len.new }
    {
        match nth(self.rows.as_slice(), at) {
            Some(row) => {
                *key = row.0;
                put_out(row.1.as_bytes(), room, len);
                OK
            }
            None => ABSENT,
        }
    }

    /// The name of the table of this number, as much of it as there is room for.
    pub fn table(&self, number: u8, room: &mut [u8], len: &mut u64) -> i32
        ensures { IsTold (slice_get (core_in self.now).state.names number) result room.old room.new len.old len.new }
    {
        match self.core.core().names().name(number) {
            Some(name) => {
                put_out(name.as_bytes(), room, len);
                OK
            }
            None => NO_TABLE,
        }
    }

    /// The next thing to do on the device: nothing (0), a write of `len` bytes at the place `at` (1), or a barrier (2).
    pub fn piece(&self, at: &mut u64, len: &mut u64) -> i32
        ensures { IsPiece (next_of (tape_of self.now)) result at.old at.new len.old len.new }
    {
        tell_piece(self.core.core().next_piece(), at, len)
    }

    /// The bytes of the next write from `skip` on, as many as there is room for, and how many there are.
    pub fn piece_bytes(&self, skip: u64, room: &mut [u8], len: &mut u64) -> i32
        ensures { IsWrite no_piece (next_of (tape_of self.now)) skip result room.old room.new len.old len.new }
    {
        tell_write(self.core.core().next_piece(), NO_PIECE, skip, room, len)
    }

    /// The next piece was done on the device, and is forgotten.
    pub fn piece_done(&mut self) -> i32
        ensures { IsDone (next_of (tape_of self.old)) self.old self.new result }
    {
        if self.core.core().next_piece().is_none() {
            return NO_PIECE;
        }
        self.core.piece_done();
        OK
    }

    /// The next piece failed on the device.
    pub fn piece_failed(&mut self)
        ensures { GoesOn (record (tape_of self.old) { has_failed = true }) self.old self.new }
    {
        self.core.piece_failed();
    }

    /// The moment of the last call.
    pub fn moment(&self) -> u64
        ensures { result ≡ (core_in self.now).moment }
    {
        self.core.core().moment()
    }

    /// The moment up to which the pieces of all calls were done.
    pub fn done_up_to(&self) -> u64
        ensures { IsDoneUpTo result self.now }
    {
        self.core.done_up_to()
    }
}

// The row at this place, if there is one.
fn nth(rows: &[(u64, Value)], at: u64) -> Option<&(u64, Value)>
    ensures { MatchOption result (slice_get rows.now at ≡ None) (λ row. slice_get rows.now at ≡ Some row.now) }
{
    rows.get(at as usize)
}

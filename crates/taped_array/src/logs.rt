// Work on a log of an open array: on a part of it, or on its end.
ghost use Rattle.std.specs.Prelude.{◌≡◌, length, take};
ghost use Rattle.eaw_face.specs.Command.{log_edit, log_read, nested_top, partial_abort};
ghost use Rattle.taped_array.specs.Asks.{Asks, AsksOnly};
ghost use Rattle.taped_array.specs.Refusals.{has_parts, has_part, is_within};
ghost use Rattle.taped_array.specs.Told.{IsPart};

use crate::open_array::OpenArray;
use crate::status::{OK, status_in, status_of};
use eaw_face::EawStore;
use taped_calls::put_out;

impl OpenArray {
    /// Commits the parts of a log from an offset on.
    pub fn nested_top(&mut self, number: u8, offset: u32) -> i32
        ensures { AsksOnly (has_parts number offset) (nested_top number offset) self.old self.new result }
    {
        if let Err(status) = self.test_parts(number, offset) {
            return status;
        }
        status_in(&self.store.nested_top(number, offset))
    }

    /// Drops the parts of a log from an offset on.
    pub fn partial_abort(&mut self, number: u8, offset: u32) -> i32
        ensures { AsksOnly (has_parts number offset) (partial_abort number offset) self.old self.new result }
    {
        if let Err(status) = self.test_parts(number, offset) {
            return status;
        }
        status_in(&self.store.partial_abort(number, offset))
    }

    /// Replaces bytes within a part of a log.
    pub fn log_edit(&mut self, number: u8, pos: u32, at: u32, bytes: &[u8]) -> i32
        ensures { AsksOnly (is_within number pos at (length bytes.now)) (log_edit number pos at bytes.now) self.old self.new result }
    {
        if let Err(status) = self.test_within(number, pos, at, bytes.len() as u64) {
            return status;
        }
        status_in(&self.store.log_edit(number, pos, at, bytes))
    }

    /// Tells a part of a log: its address, and as many of its bytes as there is room for.
    pub fn log_read(
        &mut self,
        number: u8,
        pos: u32,
        at: &mut u64,
        room: &mut [u8],
        len: &mut u64,
    ) -> i32
        ensures { Asks (has_part number pos) (log_read number) (IsPart number pos at.old at.new room.old room.new len.old len.new)
            ((at.new ≡ at.old) × (room.new ≡ room.old) × (len.new ≡ len.old)) self.old self.new result }
    {
        if let Err(status) = self.test_part(number, pos) {
            return status;
        }
        let mut page = [0; 512];
        match self.store.log_read(number, pos, &mut page) {
            Ok((address, count)) => {
                *at = address;
                put_out(front(&page, count), room, len);
                OK
            }
            Err(fault) => status_of(&fault),
        }
    }
}

// The first so many bytes of a page.
fn front(page: &[u8; 512], count: u16) -> &[u8]
    ensures { result.now ≡ take count page.now }
{
    &page[..usize::from(count).min(512)]
}

// What is tested of a command before the array is asked.
ghost use Rattle.std.specs.Prelude.{◌+◌, ◌≤◌, ◌↔◌, None, Some, IsTrue, OnOk, IfErr};
ghost use Rattle.array_shape.specs.Places.{data_len};
ghost use Rattle.taped_array.specs.Shown.{store_in};
ghost use Rattle.taped_array.specs.Refusals.{is_inside, is_write, is_number, is_free, is_own_write, has_parts, has_part, is_within};

use crate::open_array::OpenArray;
use crate::status::{BAD_PART, BAD_RANGE, IN_USE, UNKNOWN};
use array_shape::Shape;
use eaw_face::EawStore;

impl OpenArray {
    /// The range lies within the data.
    pub fn test_inside(&self, at: u64, len: u64) -> Result<(), i32>
        ensures good { OnOk result (is_inside at len self.now None) }
        ensures bad { IfErr result (λ status. is_inside at len self.now (Some status)) }
    {
        if !has_range(&self.store.shape(), at, len) {
            return Err(BAD_RANGE);
        }
        Ok(())
    }

    /// So it does, and it is not empty.
    pub fn test_write(&self, at: u64, len: u64) -> Result<(), i32>
        ensures good { OnOk result (is_write at len self.now None) }
        ensures bad { IfErr result (λ status. is_write at len self.now (Some status)) }
    {
        if len == 0 {
            return Err(BAD_RANGE);
        }
        self.test_inside(at, len)
    }

    /// It is a number of the array.
    pub fn test_number(&self, number: u8) -> Result<(), i32>
        ensures good { OnOk result (is_number number self.now None) }
        ensures bad { IfErr result (λ status. is_number number self.now (Some status)) }
    {
        if number >= self.store.shape().numbers {
            return Err(UNKNOWN);
        }
        Ok(())
    }

    /// So it is, and has no log.
    pub fn test_free(&self, number: u8) -> Result<(), i32>
        ensures good { OnOk result (is_free number self.now None) }
        ensures bad { IfErr result (λ status. is_free number self.now (Some status)) }
    {
        self.test_number(number)?;
        if self.store.is_live(number) {
            return Err(IN_USE);
        }
        Ok(())
    }

    /// The number is free, and the range is that of a write.
    pub fn test_own_write(&self, number: u8, at: u64, len: u64) -> Result<(), i32>
        ensures good { OnOk result (is_own_write number at len self.now None) }
        ensures bad { IfErr result (λ status. is_own_write number at len self.now (Some status)) }
    {
        self.test_free(number)?;
        self.test_write(at, len)
    }

    /// The log of the number has at least so many parts.
    pub fn test_parts(&self, number: u8, count: u32) -> Result<(), i32>
        ensures good { OnOk result (has_parts number count self.now None) }
        ensures bad { IfErr result (λ status. has_parts number count self.now (Some status)) }
    {
        self.test_number(number)?;
        if count > self.store.log_len(number) {
            return Err(BAD_PART);
        }
        Ok(())
    }

    /// The number has a log with a part at this position.
    pub fn test_part(&self, number: u8, pos: u32) -> Result<(), i32>
        ensures good { OnOk result (has_part number pos self.now None) }
        ensures bad { IfErr result (λ status. has_part number pos self.now (Some status)) }
    {
        self.test_number(number)?;
        if !self.store.is_live(number) {
            return Err(UNKNOWN);
        }
        if pos >= self.store.log_len(number) {
            return Err(BAD_PART);
        }
        Ok(())
    }

    /// So it has, and the range lies within that part.
    pub fn test_within(&self, number: u8, pos: u32, at: u32, len: u64) -> Result<(), i32>
        ensures good { OnOk result (is_within number pos at len self.now None) }
        ensures bad { IfErr result (λ status. is_within number pos at len self.now (Some status)) }
    {
        self.test_part(number, pos)?;
        let part = self.store.part_range(number, pos);
        if !fits(u64::from(part.1), u64::from(at), len) {
            return Err(BAD_RANGE);
        }
        Ok(())
    }
}

// Whether a range lies within the data of an array.
fn has_range(shape: &Shape, at: u64, len: u64) -> bool
    ensures { IsTrue result ↔ at + len ≤ data_len shape.now }
{
    fits(shape.data_len(), at, len)
}

// Whether a range lies within the first `size` bytes.
fn fits(size: u64, at: u64, len: u64) -> bool
    ensures { IsTrue result ↔ at + len ≤ size }
{
    at <= size && len <= size - at
}

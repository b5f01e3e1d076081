// What C calls to make, open and close an array. `mars.h` says what it owes.
ghost use Rattle.std.specs.Prelude.{◌≡◌, ◌≤◌, None};
ghost use Rattle.btree_pages.specs.Index.{tree};
ghost use Rattle.taped_calls.specs.Formats.{IsSize};
ghost use Rattle.taped_records.specs.Formats.{Formats};
ghost use Rattle.mars_c.specs.Opens.{Opens, OpensLate};

use crate::kept::Kept;
use std::alloc::Global;
use taped_calls::{array_size, put_out};
use taped_records::{BAD_DEPTH, IS_OPEN, OK, TapedRecords, format_bytes, opening_status, text_of};

/// How many bytes an array of this shape takes: 0 if there is none.
#[unsafe(no_mangle)]
pub extern "C" fn mars_size(loggers: u8, callers: u8, entries: u16, pages: u32) -> u64
    ensures { IsSize loggers callers entries pages result }
{
    array_size(loggers, callers, entries, pages)
}

/// Makes a fresh array of this shape in these bytes, which are as many as `mars_size` says.
#[unsafe(no_mangle)]
pub extern "C" fn mars_format(
    alloc: Global,
    bytes: &mut [u8],
    loggers: u8,
    callers: u8,
    entries: u16,
    pages: u32,
) -> i32
    ensures { Formats loggers callers entries pages bytes.old bytes.new result }
{
    format_bytes(alloc, bytes, loggers, callers, entries, pages)
}

/// Opens the array in a copy of these bytes for so many callers, and recovers what a loss of power left.
#[unsafe(no_mangle)]
pub extern "C" fn mars_open(alloc: Global, m: &mut Kept, bytes: &[u8], callers: u8) -> i32
    ensures { Opens tree callers 0 bytes.now m.old.held.array m.new.held.array result }
{
    open_array(alloc, m, bytes, callers, 0)
}

/// Opens it so that at most `depth` commits, 0 to 64, may wait for their write-back.
#[unsafe(no_mangle)]
pub extern "C" fn mars_open_late(
    alloc: Global,
    m: &mut Kept,
    bytes: &[u8],
    callers: u8,
    depth: u8,
) -> i32
    ensures { OpensLate tree callers depth bytes.now m.old.held.array m.new.held.array result }
{
    if depth > 64 {
        return BAD_DEPTH;
    }
    open_array(alloc, m, bytes, callers, depth)
}

fn open_array(alloc: Global, m: &mut Kept, bytes: &[u8], callers: u8, depth: u8) -> i32
    requires { depth ≤ 64 }
    ensures { Opens tree callers depth bytes.now m.old.held.array m.new.held.array result }
{
    match m.take(alloc) {
        Some(array) => {
            m.put(array);
            return IS_OPEN;
        }
        None => {}
    }
    match TapedRecords::open(alloc, bytes, callers, depth) {
        Ok(array) => {
            m.put(array);
            OK
        }
        Err(fault) => opening_status(&fault),
    }
}

/// Closes it. What was not committed is dropped.
#[unsafe(no_mangle)]
pub extern "C" fn mars_close(alloc: Global, m: &mut Kept)
    ensures { m.new.held.array ≡ None }
{
    if let Some(array) = m.take(alloc) {
        TapedRecords::close(array);
    }
}

/// What a status means: as much of the text as there is room for, and its length.
#[unsafe(no_mangle)]
pub extern "C" fn mars_text(status: i32, room: &mut [u8], len: &mut u64) {
    put_out(text_of(status), room, len);
}

// What C calls to make, open and close an array. `mars_array.h` says what it owes.
ghost use Rattle.std.specs.Prelude.{◌≡◌, None};
ghost use Rattle.array_shape.specs.Places.{data_len};
ghost use Rattle.taped_calls.specs.Asked.{Looks};
ghost use Rattle.taped_calls.specs.Formats.{IsSize};
ghost use Rattle.taped_array.specs.Formats.{Formats};
ghost use Rattle.taped_array.specs.Shown.{store_in};
ghost use Rattle.array_c.specs.Opens.{Opens};

use crate::kept::Kept;
use box_parts::ask;
use std::alloc::Global;
use taped_array::{IS_OPEN, OK, close, format_bytes, open_bytes, text_of};
use taped_calls::{array_size, put_out};

/// How many bytes an array of this shape takes: 0 if there is none.
#[unsafe(no_mangle)]
pub extern "C" fn mars_array_size(loggers: u8, numbers: u8, entries: u16, pages: u32) -> u64
    ensures { IsSize loggers numbers entries pages result }
{
    array_size(loggers, numbers, entries, pages)
}

/// Makes a new array of this shape in these bytes, which are as many as `mars_array_size` says. Its data is zero.
#[unsafe(no_mangle)]
pub extern "C" fn mars_array_format(
    alloc: Global,
    bytes: &mut [u8],
    loggers: u8,
    numbers: u8,
    entries: u16,
    pages: u32,
) -> i32
    ensures { Formats loggers numbers entries pages bytes.old bytes.new result }
{
    format_bytes(alloc, bytes, loggers, numbers, entries, pages)
}

/// Opens the array in a copy of these bytes, on which so many commits may wait for their write-back, and recovers what a loss of power left.
#[unsafe(no_mangle)]
pub extern "C" fn mars_array_open(alloc: Global, a: &mut Kept, bytes: &[u8], depth: u8) -> i32
    ensures { Opens depth bytes.now a.old.held.array a.new.held.array result }
{
    match a.take(alloc) {
        Some(array) => {
            a.put(array);
            return IS_OPEN;
        }
        None => {}
    }
    match open_bytes(alloc, bytes, depth) {
        Ok(array) => {
            a.put(array);
            OK
        }
        Err(status) => status,
    }
}

/// Closes it. What was not committed is dropped.
#[unsafe(no_mangle)]
pub extern "C" fn mars_array_close(alloc: Global, a: &mut Kept)
    ensures { a.new.held.array ≡ None }
{
    if let Some(array) = a.take(alloc) {
        close(array);
    }
}

/// How many bytes the data of the array has: 0 of a closed one.
#[unsafe(no_mangle)]
pub extern "C" fn mars_array_len(alloc: Global, a: &mut Kept) -> u64
    ensures { Looks (λ array. result ≡ data_len (store_in array).shape) (result ≡ 0) a.old.held.array a.new.held.array }
{
    ask!(a, alloc, array => array.len(), else 0)
}

/// What a status means: as much of the text as there is room for, and its length.
#[unsafe(no_mangle)]
pub extern "C" fn mars_array_text(status: i32, room: &mut [u8], len: &mut u64) {
    put_out(text_of(status), room, len);
}

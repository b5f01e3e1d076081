// Arrays in memory: how they are made, opened and closed.
ghost use Rattle.std.specs.Prelude.{◌≡◌, length, IfOk, IfErr, OnOk, OnErr};
ghost use Rattle.pcm_media.specs.Replay.{at_rest};
ghost use Rattle.eaw_device.specs.Made.{IsMade};
ghost use Rattle.taped_calls.specs.Formats.{IsUnmade};
ghost use Rattle.taped_array.specs.Formats.{zeros, Formats};
ghost use Rattle.taped_array.specs.Opens.{IsOpened, IsUnopened};
ghost use Rattle.taped_array.specs.Status.{bad_shape, no_memory};

use crate::open_array::{OpenArray, TapedArray};
use crate::status::{BAD_DEPTH, BAD_SHAPE, NO_MEMORY, OK, opening_status};
use array_shape::Shape;
use eaw_device::{PageSource, make};
use std::alloc::Global;
use tape_media::TapeMedia;

// The most commits that may wait for their write-back.
const DEPTH_MAX: u8 = 64;

// Pages of zeros.
struct ZeroPages;

impl PageSource for ZeroPages {
    ghost use Rattle.taped_array.specs.Formats.{zeros};

    ghost pages = { λ _. zeros };

    fn page(&self, _page: u64, out: &mut [u8; 512]) {
        *out = [0; 512];
    }
}

/// Makes a new array of this shape in these bytes, which are as many as `array_size` says. Its data is zero.
pub fn format_bytes(
    alloc: Global,
    bytes: &mut [u8],
    loggers: u8,
    numbers: u8,
    entries: u16,
    pages: u32,
) -> i32
    ensures { Formats loggers numbers entries pages bytes.old bytes.new result }
{
    let Ok(shape) = Shape::new(loggers, numbers, entries, pages) else {
        return BAD_SHAPE;
    };
    match make_zero(alloc, bytes, &shape) {
        Ok(()) => OK,
        Err(status) => status,
    }
}

// Makes an array of this shape in these bytes, whatever was there. Its data is zero.
fn make_zero(alloc: Global, bytes: &mut [u8], shape: &Shape) -> Result<(), i32>
    ensures made { OnOk result (IsMade shape.now zeros (at_rest bytes.new)) }
    ensures same { OnErr result (bytes.new ≡ bytes.old) }
    ensures cause { IfErr result (IsUnmade bad_shape no_memory shape.now (length bytes.old)) }
{
    if bytes.len() as u64 != shape.media_len() {
        return Err(BAD_SHAPE);
    }
    let Ok(mut media) = TapeMedia::new(alloc, bytes) else {
        return Err(NO_MEMORY);
    };
    // Its length is right, and it is in memory: so that is what can run out.
    let Ok(()) = make(&mut media, shape, &ZeroPages) else {
        return Err(NO_MEMORY);
    };
    bytes.copy_from_slice(media.bytes());
    Ok(())
}

/// Opens the array in a copy of these bytes, on which so many commits may wait for their write-back, and recovers what a loss of power left.
pub fn open_bytes(alloc: Global, bytes: &[u8], depth: u8) -> Result<Box<OpenArray>, i32>
    ensures opened { IfOk result (λ array. IsOpened depth bytes.now array.value) }
    ensures cause { IfErr result (IsUnopened depth bytes.now) }
{
    if depth > DEPTH_MAX {
        return Err(BAD_DEPTH);
    }
    let Ok(media) = TapeMedia::new(alloc, bytes) else {
        return Err(NO_MEMORY);
    };
    let store = match TapedArray::attach_late(alloc, media, depth) {
        Ok(store) => store,
        Err((fault, _)) => return Err(opening_status(&fault)),
    };
    match Box::new(alloc, OpenArray { store }) {
        Ok(array) => Ok(array),
        Err(_) => Err(NO_MEMORY),
    }
}

/// Closes it. What was not committed is dropped.
pub fn close(array: Box<OpenArray>) {
    drop(array);
}

// Arrays in memory: how they are made, opened and closed.
ghost use Rattle.std.specs.Prelude.{◌≡◌, ◌≤◌, length, IfOk, IfErr, OnOk, OnErr};
ghost use Rattle.pcm_media.specs.Replay.{at_rest};
ghost use Rattle.eaw_device.specs.Fresh.{IsFresh};
ghost use Rattle.btree_pages.specs.Index.{tree};
ghost use Rattle.taped_calls.specs.Formats.{IsUnmade};
ghost use Rattle.taped_records.specs.Formats.{Formats};
ghost use Rattle.taped_records.specs.Opens.{IsOpened, HasFault, in_memory};
ghost use Rattle.taped_records.specs.Status.{bad_shape, no_memory};

use crate::records::{TapedCore, TapedRecords};
use crate::status::{BAD_SHAPE, NO_MEMORY, OK};
use array_shape::Shape;
use btree_pages::BTreePages;
use eaw_device::{AttachFault, format};
use history::Rows;
use mars_core::CoreFault;
use open_records::{OpenFault, open};
use page_store::KeyIndex;
use std::alloc::Global;
use tape_media::TapeMedia;

/// Makes a fresh array of this shape in these bytes, which are as many as `array_size` says.
pub fn format_bytes(
    alloc: Global,
    bytes: &mut [u8],
    loggers: u8,
    callers: u8,
    entries: u16,
    pages: u32,
) -> i32
    ensures { Formats loggers callers entries pages bytes.old bytes.new result }
{
    let Ok(shape) = Shape::new(loggers, callers, entries, pages) else {
        return BAD_SHAPE;
    };
    match make_fresh(alloc, bytes, &shape) {
        Ok(()) => OK,
        Err(status) => status,
    }
}

// Makes a fresh array of this shape in these bytes, whatever was there.
fn make_fresh(alloc: Global, bytes: &mut [u8], shape: &Shape) -> Result<(), i32>
    ensures fresh { OnOk result (IsFresh shape.now (at_rest bytes.new)) }
    ensures same { OnErr result (bytes.new ≡ bytes.old) }
    ensures cause { IfErr result (IsUnmade bad_shape no_memory shape.now (length bytes.old)) }
{
    if bytes.len() as u64 != shape.media_len() {
        return Err(BAD_SHAPE);
    }
    let Ok(mut media) = TapeMedia::new(alloc, bytes) else {
        return Err(NO_MEMORY);
    };
    // Its length is right, and it is in memory: so that is what can run out.
    let Ok(()) = format(&mut media, shape) else {
        return Err(NO_MEMORY);
    };
    bytes.copy_from_slice(media.bytes());
    Ok(())
}

impl TapedRecords {
    /// Opens the array in a copy of these bytes for so many callers, and recovers what a loss of power left. At most `depth` commits may wait for
    /// their write-back.
    pub fn open(
        alloc: Global,
        bytes: &[u8],
        callers: u8,
        depth: u8,
    ) -> Result<Box<TapedRecords>, OpenFault>
        requires { depth ≤ 64 }
        ensures opened { IfOk result (λ array. IsOpened tree callers depth bytes.now array.value) }
        ensures cause { IfErr result (HasFault tree callers bytes.now) }
    {
        let Ok(media) = TapeMedia::new(alloc, bytes) else {
            return Err(OpenFault::NoMemory);
        };
        let core: TapedCore = match open(alloc, media, callers, depth) {
            Ok(core) => core,
            Err((fault, _)) => return Err(in_memory(fault)),
        };
        match Box::new(alloc, TapedRecords::new(core, callers, Rows::new(alloc))) {
            Ok(array) => Ok(array),
            Err(_) => Err(OpenFault::NoMemory),
        }
    }

    /// Closes it. What was not committed is dropped.
    pub fn close(array: Box<TapedRecords>) {
        drop(array);
    }
}

// A fault of a medium in memory, with nothing to be done before: memory ran out in a write.
fn in_memory(fault: OpenFault) -> OpenFault
    ensures { result ≡ in_memory fault }
{
    match fault {
        OpenFault::Array(AttachFault::Media) | OpenFault::Records(CoreFault::Media) => {
            OpenFault::NoMemory
        }
        other => other,
    }
}

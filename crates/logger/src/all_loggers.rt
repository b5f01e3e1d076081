// The parts of a write, dealt to the cells of all loggers: each part is looked at once.
ghost use Rattle.std.specs.Prelude.{◌≡◌, ◌+◌, ◌≤◌, ◌<◌, ℕ, true, length, slice_index, IsTrue, OnOk};
ghost use Rattle.mars_base.specs.Costs.{Costs};
ghost use Rattle.pcm_media.specs.View.{Writes};
ghost use Rattle.array_shape.specs.Places.{media_len, data_len};
ghost use Rattle.array_shape.specs.Parts.{parts_of_write, parts_on, write_parts_on};
ghost use Rattle.logger.specs.Cells.{HoldsParts};
ghost use Rattle.logger.specs.Staging.{staged_places};

use crate::logger::{Logger, bytes_of};
use array_shape::{LOGGERS_MAX, Shape};
use mars_base::Failed;
use pcm_media::Media;

const LOGGERS: usize = LOGGERS_MAX as usize;

/// How many cells a write needs at each logger.
pub fn cells_of_write(shape: &Shape, addr: u64, len: u64) -> [u16; 8]
    requires { addr + len ≤ data_len shape.now }
    ensures { (g : ℕ) → g < shape.now.loggers → slice_index result g ≡ length (parts_on shape.now g addr len) }
{
    let mut needed = [0; LOGGERS];
    for part in shape.parts(addr, len) {
        needed[usize::from(part.logger)] += 1;
    }
    needed
}

/// Writes the parts of a write into cells of a transaction number, in the order of their addresses, each at its logger behind the cells
/// that are held there. There have to be enough.
pub fn stage_write<M: Media>(
    media: &mut M,
    shape: &Shape,
    tid: u8,
    held: &[u16; 8],
    addr: u64,
    bytes: &[u8],
) -> Result<(), Failed>
    requires tid { tid < shape.now.numbers }
    requires range { addr + length bytes.now ≤ data_len shape.now }
    requires room { (g : ℕ) → g < shape.now.loggers → slice_index held.now g + length (write_parts_on shape.now g addr bytes.now) ≤ shape.now.entries }
    requires size { (M.view media.old).size ≡ media_len shape.now }
    ensures holds { IsTrue M.tells → OnOk result ((g : ℕ) → g < shape.now.loggers →
        HoldsParts shape.now (M.view media.new).content.bytes g tid (slice_index held.now g) (write_parts_on shape.now g addr bytes.now)) }
    ensures costs { Costs true (length (parts_of_write addr bytes.now)) (M.view media.old).moment (M.view media.new).moment result }
    ensures does { Writes M.tells (staged_places shape.now tid held.now addr bytes.now) (M.view media.old) (M.view media.new) result }
{
    let mut next = *held;
    for part in shape.parts(addr, bytes.len() as u64) {
        let place = usize::from(part.logger);
        let piece = bytes_of(part, addr, bytes);
        let logger = Logger::new(*shape, part.logger);
        logger.put_cell(media, tid, next[place], part.addr, piece)?;
        next[place] += 1;
    }
    Ok(())
}

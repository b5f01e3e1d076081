// Whether the cells of a number suffice for a write.
ghost use Rattle.std.specs.Prelude.{◌+◌, ◌≤◌, None, IsTrue, IfErr, OnOk};
ghost use Rattle.array_shape.specs.Places.{data_len};
ghost use Rattle.eaw_device.specs.Logs.{IsKept};
ghost use Rattle.eaw_device.specs.Steps.{CellsFit, SaysFull};

use crate::log::Log;
use array_shape::{PAGE_LEN, Shape};
use eaw_face::EawFault;
use logger::cells_of_write;

/// Refuses a write if a logger has too few cells left for it, and names the first such logger.
pub(crate) fn check_room(shape: &Shape, log: &Log, addr: u64, len: u64) -> Result<(), EawFault>
    requires kept { IsKept shape.now log.now }
    requires range { addr + len ≤ data_len shape.now }
    ensures room { OnOk result (CellsFit shape.now log.now.held addr len) }
    ensures full { IfErr result (SaysFull shape.now log.now.held addr len) }
{
    if has_room(shape, log, addr, len) {
        return Ok(());
    }
    let cells = cells_of_write(shape, addr, len);
    for number in 0..shape.loggers {
        let needed = cells[usize::from(number)];
        let held = log.held[usize::from(number)];
        if u32::from(held) + u32::from(needed) > u32::from(shape.entries) {
            return Err(EawFault::LogFull {
                logger: number,
                held,
                needed,
            });
        }
    }
    Ok(())
}

// The usual case: one logger would have room for all that the number has logged and for all parts of the write, so each has for its share.
fn has_room(shape: &Shape, log: &Log, addr: u64, len: u64) -> bool
    requires kept { IsKept shape.now log.now }
    requires range { addr + len ≤ data_len shape.now }
    ensures { IsTrue result → CellsFit shape.now log.now.held addr len }
{
    let parts = (addr % PAGE_LEN + len).div_ceil(PAGE_LEN);
    log.entries.len() as u64 + parts <= u64::from(shape.entries)
}

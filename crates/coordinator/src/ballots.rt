// The ballot of a commit.
ghost use Rattle.std.specs.Prelude.{◌≡◌, ◌<◌, nat_lt};
ghost use Rattle.coordinator.specs.Commits.{IsMaskOf, cells_in, takes_part};

use crate::cells::{Cells, cells_in};
use array_shape::{NumberSet, Shape};
use row_bytes::Ballot;

/// The ballot of a group of numbers: its mask has just the loggers at which one of them names a cell.
pub fn ballot_for(shape: &Shape, cells: &[Cells; 512], group: u64, order: u16) -> Ballot
    ensures group { result.group ≡ group }
    ensures order { result.order ≡ order }
    ensures mask { IsMaskOf shape.now.loggers (takes_part shape.now cells.now group) result.mask }
{
    let numbers = NumberSet { bits: group };
    let mut mask = 0u8;
    for tid in 0..shape.numbers {
        if !numbers.contains(tid) {
            continue;
        }
        mask |= loggers_of(shape, cells, tid);
    }
    Ballot { mask, group, order }
}

// The loggers at which a number names a cell, one bit each.
fn loggers_of(shape: &Shape, cells: &[Cells; 512], tid: u8) -> u8
    requires { tid < shape.now.numbers }
    ensures { IsMaskOf shape.now.loggers (λ g. nat_lt 0 (cells_in cells.now g tid).count) result }
{
    let mut mask = 0u8;
    for logger in 0..shape.loggers {
        if cells_in(cells, logger, tid).count == 0 {
            continue;
        }
        mask |= 1u8 << logger;
    }
    mask
}

// The cells that a commit names.
ghost use Rattle.std.specs.Prelude.{◌≡◌, ◌<◌};
ghost use Rattle.coordinator.specs.Commits.{cells_in};

use array_shape::Shape;

/// The cells that one number has of a commit at one logger: `count` cells from `first` on.
#[derive(Clone, Copy, Debug, PartialEq, Eq)]
pub struct Cells {
    pub first: u16,
    pub count: u16,
}

impl Cells {
    /// No cell.
    pub const NONE: Cells = Cells { first: 0, count: 0 };
}

/// The cells that the next commits of an array name: eight places for each number, one for each logger.
#[derive(Clone, Copy)]
pub struct CellTable<'a> {
    pub shape: &'a Shape,
    pub cells: &'a [Cells; 512],
}

// Those of number `tid` at a logger: the table has eight places for each number.
pub(crate) fn cells_in(cells: &[Cells; 512], logger: u8, tid: u8) -> Cells
    requires logger { logger < 8 }
    requires tid { tid < 64 }
    ensures { result ≡ cells_in cells.now logger tid }
{
    cells[8 * usize::from(tid) + usize::from(logger)]
}

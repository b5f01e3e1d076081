// The parts of a range, one after another.
ghost use Rattle.std.specs.Prelude.{List};
ghost use Rattle.array_shape.specs.declared.part.Part.{Part};

use crate::part::Part;
use crate::shape::{PAGE_LEN, Shape};
use std::marker::Model;

/// The remaining parts of a range, in rising order. Contracts see it as their list.
#[derive(Drop)]
pub struct Parts {
    shape: Shape,
    addr: u64,
    left: u64,
}

impl Model for Parts {
    ghost use Rattle.std.specs.Prelude.{◌+◌, ◌≤◌, List};
    ghost use Rattle.array_shape.specs.declared.part.Part.{Part};
    ghost use Rattle.array_shape.specs.Places.{data_len};
    ghost use Rattle.array_shape.specs.Parts.{parts_of};

    ghost Value = { List Part };

    ghost view = { λ range. parts_of range.shape range.addr range.left };

    ghost invariant = { λ range. range.addr + range.left ≤ data_len range.shape };
}

impl Parts {
    ghost use Rattle.std.specs.Prelude.{◌≡◌, ◌+◌, ◌≤◌};
    ghost use Rattle.array_shape.specs.Places.{data_len};
    ghost use Rattle.array_shape.specs.Parts.{parts_of};

    pub(crate) fn new(shape: Shape, addr: u64, len: u64) -> Parts
        requires { addr + len ≤ data_len shape }
        ensures { result ≡ parts_of shape addr len }
    {
        Parts {
            shape,
            addr,
            left: len,
        }
    }
}

impl Iterator for Parts {
    ghost use Rattle.std.specs.Iterator.{YieldsFirst, item_count};

    type Item = Part;

    ghost next_gives = { YieldsFirst (λ parts. parts) };

    ghost remaining = { item_count (λ parts. parts) };

    fn next(&mut self) -> Option<Part> {
        if self.left == 0 {
            return None;
        }
        let addr = self.addr;
        let len = (PAGE_LEN - addr % PAGE_LEN).min(self.left);
        self.addr += len;
        self.left -= len;
        Some(Part {
            logger: self.shape.place(addr).logger,
            addr,
            len: len as u16,
        })
    }
}

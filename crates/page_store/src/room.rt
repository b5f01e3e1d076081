// The memory that pages take.
ghost use Rattle.std.specs.Prelude.{◌≡◌, ◌≤◌, IfOk, length};
ghost use Rattle.std.specs.Vec.{vec_capacity};
ghost use Rattle.page_store.specs.Shown.{IsUnmarked};

use crate::marks::Marks;
use array_shape::NUMBERS_MAX;
use mars_base::NoMemory;
use std::alloc::Global;
use std::marker::Model;

/// Room for what the numbers of any array save. Whoever has it can attach pages without taking memory.
#[derive(Drop)]
pub struct SaveRoom {
    marks: Vec<Marks>,
}

impl Model for SaveRoom {
    ghost use Rattle.std.specs.Prelude.{◌≡◌, List, length};
    ghost use Rattle.std.specs.Vec.{vec_capacity};
    ghost use Rattle.page_store.specs.Marked.{Marked};
    ghost use Rattle.page_store.specs.Shown.{IsUnmarked};

    ghost Value = { List Marked };

    ghost view = { λ r. r.marks.items };

    ghost invariant = { λ r. (length r.marks.items ≡ 64) × (vec_capacity r.marks ≡ 64) × IsUnmarked r.marks.items };
}

impl SaveRoom {
    pub fn new(alloc: Global) -> Result<SaveRoom, NoMemory> {
        Ok(SaveRoom {
            marks: fresh_marks(alloc, NUMBERS_MAX)?,
        })
    }

    // Marks for `numbers` numbers: none has saved, and no top action is open.
    pub(crate) fn take(self, numbers: u8) -> Vec<Marks>
        requires { numbers ≤ 64 }
        ensures many { length result.items ≡ numbers }
        ensures fresh { IsUnmarked result.items }
    {
        let SaveRoom { mut marks } = self;
        marks.truncate(usize::from(numbers));
        marks
    }
}

fn fresh_marks(alloc: Global, numbers: u8) -> Result<Vec<Marks>, NoMemory>
    ensures many { IfOk result (λ marks. length marks.items ≡ numbers) }
    ensures room { IfOk result (λ marks. vec_capacity marks ≡ numbers) }
    ensures fresh { IfOk result (λ marks. IsUnmarked marks.items) }
{
    let mut marks = Vec::with_capacity(alloc, usize::from(numbers))?;
    for _tid in 0..numbers {
        marks.push_reserved(Marks::new());
    }
    Ok(marks)
}

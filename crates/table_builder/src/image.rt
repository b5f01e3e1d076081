// The image of an array whose data is made of the rows of its tables.
ghost use Rattle.std.specs.Prelude.{◌≡◌, ◌≤◌, ◌<◌, ◌^◌, IfOk, IfErr, OnOk, length, replicate, slice_get};
ghost use Rattle.std.specs.Option.{unwrap_or};
ghost use Rattle.table_builder.specs.Causes.{BuildCause};
ghost use Rattle.table_builder.specs.Plan.{CanMake, Plan, index_for, rows_count};

use crate::checking::{are_apart, has_main};
use crate::counting::{count_rows, pages_needed};
use crate::front::front_page;
use crate::index::{Index, index_of};
use crate::slots::write_slots;
use crate::sorting::are_sorted;
use eaw_device::PageSource;
use history::{Rows, Tables};
use mars_base::NoMemory;
use record_slots::{Name, TABLES_MAX};
use std::alloc::Global;
use std::marker::Model;
use thiserror::Error;

/// How many pairs a page of an index gets, of 30, if no other number is asked: there is room for more without a split.
pub const FILL: usize = 24;

/// Why no image is made of tables.
#[derive(Clone, Copy, Debug, PartialEq, Eq, Error)]
pub enum BuildFault {
    #[error("the first table is not main")]
    NotMain,
    #[error("there are more than eight tables")]
    TooManyTables,
    #[error("two tables have one name")]
    SameName,
    #[error("the keys of a table do not rise")]
    NotSorted,
    #[error("the rows need {needed} slots")]
    TooManyRows { needed: u64 },
    #[error("the index needs {needed} pages")]
    TooFewPages { needed: u64 },
    #[error("no memory")]
    NoMemory,
}

impl From<NoMemory> for BuildFault {
    ghost use Rattle.std.specs.Prelude.{◌≡◌};
    ghost use Rattle.table_builder.specs.declared.image.BuildFault.TheVariants as fault;

    ghost from_gives = { λ _ told. told ≡ fault.NoMemory };

    fn from(_: NoMemory) -> Self {
        BuildFault::NoMemory
    }
}

/// The data of an array with these tables and their rows, page by page.
#[derive(Drop)]
pub struct DataImage {
    fill: usize,
    half: u32,
    tables: Tables,
    // The super page.
    front: [u8; 512],
    // The other pages of the index.
    index: Index,
}

impl Model for DataImage {
    ghost use Rattle.std.specs.Prelude.{◌≡◌, ◌∷◌, ◌++◌};
    ghost use Rattle.table_builder.specs.Plan.{CanMake, Plan, index_for};

    ghost Value = { Plan };

    ghost view = { λ m. record { fill = m.fill; half = m.half; tables = m.tables } };

    ghost invariant = { λ m. CanMake (record { fill = m.fill; half = m.half; tables = m.tables })
        × (m.front ∷ (m.index.roots.items ++ m.index.below.items) ≡ index_for m.fill m.tables) };
}

impl DataImage {
    /// The image of these tables for an array with `half` pages for its index, and as many for slots. The first table is `main`. Each page of
    /// an index gets `fill` pairs, but for the last two of a level, which share what is left.
    pub fn build(
        alloc: Global,
        fill: usize,
        half: u32,
        tables: Tables,
    ) -> Result<DataImage, BuildFault>
        requires some { 15 ≤ fill }
        requires most { fill ≤ 30 }
        requires small { half < 2 ^ 22 }
        ensures image { IfOk result (λ image. image ≡ record { fill = fill; half = half; tables = tables }) }
        ensures can { IfOk result CanMake }
        ensures cause { IfErr result (BuildCause fill half tables) }
    {
        let (rows, pages) = room_for(fill, half, tables.as_slice())?;
        let front = front_page(tables.as_slice(), rows as u32, pages as u32);
        let index = index_of(alloc, fill, tables.as_slice())?;
        Ok(DataImage {
            fill,
            half,
            tables,
            front,
            index,
        })
    }

    // A page of the index.
    fn index_page(&self, page: usize) -> [u8; 512]
        ensures { result ≡ unwrap_or (slice_get (index_for self.now.fill self.now.tables) page) (replicate 512 0) }
    {
        if page == 0 {
            return self.front;
        }
        if page <= self.index.roots.len() {
            return self.index.roots[page - 1];
        }
        let behind = page - 1 - self.index.roots.len();
        if behind < self.index.below.len() {
            return self.index.below[behind];
        }
        [0; 512]
    }
}

impl PageSource for DataImage {
    ghost use Rattle.table_builder.specs.Plan.{planned_page};

    ghost pages = { planned_page };

    fn page(&self, page: u64, out: &mut [u8; 512]) {
        let half = u64::from(self.half);
        if page < half {
            *out = self.index_page(page as usize);
        } else {
            write_slots(self.tables.as_slice(), page - half, out);
        }
    }
}

// Whether the tables are such as an array has, and there is room for them. Returns how many rows and how many pages of the index there are.
fn room_for(fill: usize, half: u32, tables: &[(Name, Rows)]) -> Result<(u64, u64), BuildFault>
    requires some { 15 ≤ fill }
    requires most { fill ≤ 30 }
    requires small { half < 2 ^ 22 }
    ensures can { OnOk result (CanMake (record { fill = fill; half = half; tables = tables.now })) }
    ensures rows { IfOk result (λ count. count.0 ≡ rows_count tables.now) }
    ensures pages { IfOk result (λ count. count.1 ≡ length (index_for fill tables.now)) }
    ensures cause { IfErr result (BuildCause fill half tables.now) }
{
    if !has_main(tables) {
        return Err(BuildFault::NotMain);
    }
    if tables.len() > TABLES_MAX {
        return Err(BuildFault::TooManyTables);
    }
    if !are_apart(tables) {
        return Err(BuildFault::SameName);
    }
    if !are_sorted(tables) {
        return Err(BuildFault::NotSorted);
    }
    let Some(rows) = count_rows(tables) else {
        return Err(BuildFault::NoMemory);
    };
    if rows > 8 * u64::from(half) {
        return Err(BuildFault::TooManyRows { needed: rows });
    }
    let pages = pages_needed(fill, tables);
    if pages > u64::from(half) {
        return Err(BuildFault::TooFewPages { needed: pages });
    }
    Ok((rows, pages))
}

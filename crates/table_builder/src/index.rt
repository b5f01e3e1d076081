// The pages of the index behind the super page.
ghost use Rattle.std.specs.Prelude.{◌≡◌, ◌≤◌, ◌<◌, ◌+◌, ◌^◌, ◌++◌, IfOk, OnOk, length};
ghost use Rattle.index_pages.specs.Written.{written_page};
ghost use Rattle.table_builder.specs.Image.{pairs_for};
ghost use Rattle.table_builder.specs.Plan.{below_bytes, built_for, level_bytes, levels_for, roots_bytes, rows_count, top_of};

use crate::levels::{page_of, pairs_of, push_levels};
use history::Rows;
use index_pages::LEVEL_MAX;
use mars_base::NoMemory;
use record_slots::{Name, Value};
use std::alloc::Global;

/// The pages of the index behind the super page: the roots of the tables, and the pages below these.
#[derive(Drop)]
pub struct Index {
    pub roots: Vec<[u8; 512]>,
    pub below: Vec<[u8; 512]>,
}

/// The index of these tables.
pub fn index_of(alloc: Global, fill: usize, tables: &[(Name, Rows)]) -> Result<Index, NoMemory>
    requires some { 15 ≤ fill }
    requires most { fill ≤ 30 }
    requires tables { length tables.now ≤ 8 }
    requires rows { rows_count tables.now < 2 ^ 32 }
    ensures roots { IfOk result (λ index. index.roots.items ≡ roots_bytes 0 (built_for fill tables.now)) }
    ensures below { IfOk result (λ index. index.below.items ≡ below_bytes (built_for fill tables.now)) }
{
    let mut roots = Vec::new(alloc);
    let mut below = Vec::new(alloc);
    let first = 1 + tables.len();
    let mut slot = 0;
    for table in tables {
        let rows = table.1.as_slice();
        let root = push_table(alloc, &mut below, first, fill, slot, rows)?;
        roots.push(root)?;
        slot += rows.len() as u64;
    }
    Ok(Index { roots, below })
}

// Writes the pages of a table below its root, and returns the root. Its rows lie in the slots from one on.
fn push_table(
    alloc: Global,
    below: &mut Vec<[u8; 512]>,
    first: usize,
    fill: usize,
    slot: u64,
    rows: &[(u64, Value)],
) -> Result<[u8; 512], NoMemory>
    requires some { 15 ≤ fill }
    requires most { fill ≤ 30 }
    requires first { first < 2 ^ 32 }
    requires slots { slot + length rows.now < 2 ^ 32 }
    ensures pages { OnOk result (below.new.items ≡ below.old.items ++ level_bytes 0 (levels_for fill slot (first + length below.old.items) rows.now)) }
    ensures root { IfOk result (λ root. root ≡ written_page (length (levels_for fill slot (first + length below.old.items) rows.now)) 0
        (top_of (first + length below.old.items) (pairs_for slot rows.now) (levels_for fill slot (first + length below.old.items) rows.now))) }
{
    let pairs = pairs_of(alloc, slot, rows)?;
    let (level, top) = push_levels(alloc, below, first, fill, 0, LEVEL_MAX, pairs)?;
    Ok(page_of(level, &top))
}

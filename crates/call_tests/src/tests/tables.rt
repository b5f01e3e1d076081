// Tables to be restored.
use super::arrays::media_of;
use array_shape::Shape;
use history::{Rows, Tables, main_table};
use pcm_media::{Media, MemoryMedia};
use record_slots::{Name, Value};
use restoring::{RestoreFault, restore};
use std::alloc::Global;

// Pages of the index are filled, so that one pair more splits a leaf.
const FULL: usize = 30;

/// Restores tables; each page of their index is full.
pub fn restore_full<M: Media>(
    alloc: Global,
    media: &mut M,
    shape: &Shape,
    tables: Tables,
) -> Result<(), RestoreFault> {
    restore(alloc, media, shape, FULL, tables)
}

/// An array of this shape with these tables.
pub fn array_with(alloc: Global, shape: &Shape, tables: Tables) -> Option<MemoryMedia> {
    let zeros = vec![in alloc; 0; shape.media_len() as usize].ok()?;
    let mut media = media_of(alloc, &zeros)?;
    restore_full(alloc, &mut media, shape, tables).ok()?;
    Some(media)
}

// So many rows.
fn rows_of(alloc: Global, count: usize) -> Option<Rows> {
    let value = Value::of(b"same")?;
    let mut rows = Rows::new(alloc);
    for key in 0..count {
        rows.push(key as u64, value).ok()?;
    }
    Some(rows)
}

/// How many rows `main` has, and another table.
pub type Counts = (usize, usize);

/// Both tables.
pub fn two_tables(alloc: Global, counts: Counts) -> Option<Tables> {
    let (first, second) = counts;
    let mut tables = Tables::new(alloc);
    tables.push(main_table(), rows_of(alloc, first)?).ok()?;
    tables
        .push(Name::of(b"others")?, rows_of(alloc, second)?)
        .ok()?;
    Some(tables)
}

/// How many rows two tables have.
pub fn counts_of(tables: &Tables) -> Option<Counts> {
    match tables.as_slice() {
        [(_, first), (_, second)] => Some((first.as_slice().len(), second.as_slice().len())),
        _ => None,
    }
}

// The entries of deferred commits, as the device keeps them in memory.
ghost use Rattle.std.specs.Prelude.{◌≡◌, ℕ, IfOk, length, replicate, slice_get, vec_capacity};
ghost use Rattle.std.specs.Option.{ForSome};
ghost use Rattle.write_back.specs.Kept.{IsFree, IsKept};

use crate::entry::Entry;
use crate::marks::{clear_marks, page_of, set_mark};
use array_shape::Shape;
use std::alloc::{AllocError, Global};

/// The entries of one number's deferred commit, in the order in which they are applied.
#[derive(Drop)]
pub(crate) struct NumberParts {
    pub(crate) entries: Vec<Entry>,
}

/// The parts of all deferred commits. A number has at most one such commit.
#[derive(Drop)]
pub struct DeferredParts {
    pub(crate) shape: Shape,
    pub(crate) table: Vec<NumberParts>,
    // For each page of the data the numbers that have a part on it, one bit each.
    pub(crate) masks: Vec<u64>,
    ghost kept: { IsKept shape table.items masks.items },
}

impl DeferredParts {
    ghost use Rattle.std.specs.Prelude.{◌≡◌, ◌*◌, ◌^◌, ◌≤◌, ◌<◌, ℕ, [], ◌∷◌, ◌++◌, All, IfOk, length};
    ghost use Rattle.write_back.specs.Entries.{IsEntry};
    ghost use Rattle.write_back.specs.Shown.{shape_of, entries_of, HasPlaces, memory_of, memory_for, Sets};

    /// With no part, and with memory for all parts that there may be.
    pub fn new(alloc: Global, shape: &Shape) -> Result<DeferredParts, AllocError>
        ensures shape { IfOk result (λ parts. shape_of parts ≡ shape.now) }
        ensures none { IfOk result (λ parts. (t : ℕ) → entries_of parts t ≡ []) }
        ensures places { IfOk result HasPlaces }
        ensures memory { IfOk result (λ parts. memory_of parts ≡ memory_for shape.now) }
        ensures small { memory_for shape.now ≤ 2 ^ 20 }
    {
        let pages = usize::from(shape.loggers) * shape.pages as usize;
        Ok(DeferredParts {
            shape: *shape,
            table: places(alloc, shape)?,
            masks: no_marks(alloc, pages)?,
        })
    }

    /// For an array that defers no commit: it takes no memory.
    pub fn empty(alloc: Global, shape: &Shape) -> DeferredParts
        ensures shape { shape_of result ≡ shape.now }
        ensures none { (t : ℕ) → entries_of result t ≡ [] }
        ensures memory { memory_of result ≡ 0 }
    {
        DeferredParts {
            shape: *shape,
            table: Vec::new(alloc),
            masks: Vec::new(alloc),
        }
    }

    /// The entries of a number's commit come in, which is deferred from now on.
    pub fn add(&mut self, tid: u8, entries: &[Entry])
        requires places { HasPlaces self.old }
        requires tid { tid < (shape_of self.old).numbers }
        requires none { entries_of self.old tid ≡ [] }
        requires entries { All (IsEntry (shape_of self.old)) entries.now }
        requires few { length entries.now ≤ (shape_of self.old).loggers * (shape_of self.old).entries }
        ensures { Sets self.old self.new tid entries.now }
    {
        for entry in entries {
            self.add_entry(tid, *entry);
        }
    }

    // One more comes in at the end.
    fn add_entry(&mut self, tid: u8, entry: Entry)
        requires places { HasPlaces self.old }
        requires tid { tid < (shape_of self.old).numbers }
        requires entry { IsEntry (shape_of self.old) entry }
        requires few { length (entries_of self.old tid) < (shape_of self.old).loggers * (shape_of self.old).entries }
        ensures { Sets self.old self.new tid (entries_of self.old tid ++ entry ∷ []) }
    {
        set_mark(&mut self.masks, tid, page_of(entry.addr));
        self.table[usize::from(tid)].entries.push_reserved(entry);
    }

    /// The entries of a number go, once its commit is written back.
    pub fn forget(&mut self, tid: u8)
        requires places { HasPlaces self.old }
        requires tid { tid < (shape_of self.old).numbers }
        ensures { Sets self.old self.new tid [] }
    {
        let at = usize::from(tid);
        clear_marks(&mut self.masks, tid, &self.table[at].entries);
        self.table[at].entries.clear();
    }
}

// A place for each number, with memory for all entries that it may have.
fn places(alloc: Global, shape: &Shape) -> Result<Vec<NumberParts>, AllocError>
    ensures many { IfOk result (λ table. length table.items ≡ shape.now.numbers) }
    ensures capacity { IfOk result (λ table. vec_capacity table ≡ shape.now.numbers) }
    ensures free { IfOk result (λ table. (t : ℕ) → ForSome (slice_get table.items t) (IsFree shape.now)) }
{
    let most = usize::from(shape.loggers) * usize::from(shape.entries);
    let mut table = Vec::with_capacity(alloc, usize::from(shape.numbers))?;
    for _tid in 0..shape.numbers {
        let entries = Vec::with_capacity(alloc, most)?;
        table.push_reserved(NumberParts { entries });
    }
    Ok(table)
}

// A mask for each page, on which no number has a part.
fn no_marks(alloc: Global, pages: usize) -> Result<Vec<u64>, AllocError>
    ensures none { IfOk result (λ masks. masks.items ≡ replicate pages 0) }
    ensures capacity { IfOk result (λ masks. vec_capacity masks ≡ pages) }
{
    let mut masks = Vec::with_capacity(alloc, pages)?;
    for _page in 0..pages {
        masks.push_reserved(0);
    }
    Ok(masks)
}

// What each transaction number has logged, as the device keeps it in memory.
ghost use Rattle.std.specs.Prelude.{◌≡◌, ◌+◌, ◌*◌, ◌≤◌, ◌<◌, [], ◌∷◌, ◌++◌, ℕ, true, false, take, map, length, slice_index, slice_set, slice_get, vec_capacity, IfOk};
ghost use Rattle.std.specs.Option.{ForSome};
ghost use Rattle.array_shape.specs.NumberSet.{members};
ghost use Rattle.array_shape.specs.Places.{data_len};
ghost use Rattle.eaw_face.specs.State.{is_one_of};
ghost use Rattle.array_shape.specs.Parts.{parts_of, parts_on, IsPartOf};
ghost use Rattle.eaw_device.specs.Logs.{IsKept, IsCleared, Adds};
ghost use Rattle.write_back.specs.Entries.{ranges_in, cells_on};

use array_shape::{LOGGERS_MAX, NumberSet, Part, Shape};
use std::alloc::{AllocError, Global};
use write_back::Entry;

// How many loggers a log counts for.
pub(crate) const LOGGERS: usize = LOGGERS_MAX as usize;

/// The log of one number.
#[derive(Drop)]
pub(crate) struct Log {
    pub(crate) is_live: bool,
    pub(crate) entries: Vec<Entry>,
    // How many cells it holds at each logger.
    pub(crate) held: [u16; LOGGERS],
}

impl Log {
    /// The log of a free number, with memory for all that it may have.
    pub(crate) fn new(alloc: Global, shape: &Shape) -> Result<Log, AllocError>
        ensures kept { IfOk result (IsKept shape.now) }
        ensures room { IfOk result (λ log. vec_capacity log.entries ≡ shape.now.loggers * shape.now.entries) }
        ensures free { IfOk result (λ log. log.is_live ≡ false) }
    {
        let most = usize::from(shape.loggers) * usize::from(shape.entries);
        Ok(Log {
            is_live: false,
            entries: Vec::with_capacity(alloc, most)?,
            held: [0; LOGGERS],
        })
    }

    /// Makes the number live, and logs the parts of a range, each in the next cell of its logger.
    pub(crate) fn add_range(&mut self, shape: &Shape, addr: u64, len: u64)
        requires kept { IsKept shape.now self.old }
        requires range { addr + len ≤ data_len shape.now }
        requires room { (g : ℕ) → g < shape.now.loggers → slice_index self.old.held g + length (parts_on shape.now g addr len) ≤ shape.now.entries }
        ensures kept { IsKept shape.now self.new }
        ensures live { self.new.is_live ≡ true }
        ensures adds { Adds self.old.entries.items self.new.entries.items (map (λ p. (p.addr, p.len)) (parts_of shape.now addr len)) }
    {
        self.is_live = true;
        for part in shape.parts(addr, len) {
            self.add(shape, part);
        }
    }

    // Logs a part in the next cell of its logger.
    fn add(&mut self, shape: &Shape, part: Part)
        requires kept { IsKept shape.now self.old }
        requires live { self.old.is_live ≡ true }
        requires part { IsPartOf shape.now part }
        requires room { slice_index self.old.held part.logger < shape.now.entries }
        ensures kept { IsKept shape.now self.new }
        ensures live { self.new.is_live ≡ true }
        ensures held { self.new.held ≡ slice_set self.old.held part.logger (slice_index self.old.held part.logger + 1) }
        ensures entries { self.new.entries.items ≡ self.old.entries.items ++ record { addr = part.addr; len = part.len; cell = slice_index self.old.held part.logger } ∷ [] }
    {
        let at = usize::from(part.logger);
        let cell = self.held[at];
        self.entries.push_reserved(Entry {
            addr: part.addr,
            len: part.len,
            cell,
        });
        self.held[at] = cell + 1;
    }

    /// How many of the first entries each logger has.
    pub(crate) fn counts_of_first(&self, shape: &Shape, len: usize) -> [u16; LOGGERS]
        requires kept { IsKept shape.now self.now }
        requires len { len ≤ length self.now.entries.items }
        ensures long { length result ≡ 8 }
        ensures counts { (g : ℕ) → g < shape.now.loggers → slice_index result g ≡ length (cells_on shape.now g (take len self.now.entries.items)) }
    {
        let mut counts = [0; LOGGERS];
        for entry in &self.entries[..len] {
            let at = usize::from(shape.place(entry.addr).logger);
            counts[at] += 1;
        }
        counts
    }

    /// Drops the entries from position `len` on.
    pub(crate) fn truncate(&mut self, shape: &Shape, len: usize)
        requires kept { IsKept shape.now self.old }
        requires len { len ≤ length self.old.entries.items }
        ensures kept { IsKept shape.now self.new }
        ensures live { self.new.is_live ≡ self.old.is_live }
        ensures entries { self.new.entries.items ≡ take len self.old.entries.items }
    {
        self.held = self.counts_of_first(shape, len);
        self.entries.truncate(len);
    }

    /// Frees the number.
    pub(crate) fn clear(&mut self, shape: &Shape)
        requires { IsKept shape.now self.old }
        ensures kept { IsKept shape.now self.new }
        ensures free { self.new.is_live ≡ false }
        ensures entries { self.new.entries.items ≡ [] }
    {
        self.truncate(shape, 0);
        self.is_live = false;
    }
}

/// Frees the numbers of a set.
pub(crate) fn clear_logs(logs: &mut [Log], shape: &Shape, tids: NumberSet)
    requires there { (t : ℕ) → is_one_of (members tids) t ≡ true → t < length logs.old }
    requires kept { (t : ℕ) → ForSome (slice_get logs.old t) (IsKept shape.now) }
    ensures many { length logs.new ≡ length logs.old }
    ensures kept { (t : ℕ) → ForSome (slice_get logs.new t) (IsKept shape.now) }
    ensures freed { (t : ℕ) → is_one_of (members tids) t ≡ true → ForSome (slice_get logs.new t) IsCleared }
    ensures others { (t : ℕ) → is_one_of (members tids) t ≡ false → slice_get logs.new t ≡ slice_get logs.old t }
{
    for tid in tids.members() {
        let at = usize::from(tid);
        logs[at].clear(shape);
    }
}

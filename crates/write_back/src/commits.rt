// The queue and the places of its parts, and what changes both.
ghost use Rattle.std.specs.Prelude.{◌≡◌, ◌<◌, ℕ, [], IfOk, if◌then◌else◌, nat_eq};
ghost use Rattle.write_back.specs.Shown.{HasPlaces, entries_of, memory_for, memory_of, shape_of};

use crate::deferred::DeferredParts;
use crate::entry::Entry;
use crate::forgetting::forget_first;
use crate::queue::LateCommits;
use array_shape::Shape;
use coordinator::Cells;
use mars_base::Failed;
use pcm_media::Media;
use row_bytes::Ballot;
use std::alloc::{AllocError, Global};

/// The commits that wait for their write-back, and where their parts lie.
#[derive(Drop)]
pub struct LateData {
    queue: LateCommits,
    parts: DeferredParts,
}

impl LateData {
    ghost use Rattle.std.specs.Prelude.{◌≡◌, ◌+◌, ◌*◌, ◌≤◌, ◌<◌, ◌&&◌, ◌||◌, Bool, ℕ, List, [], true, false, nat_eq, nat_lt, if◌then◌else◌, All, IfOk, IsTrue, OnOk, length, take, vec_capacity};
    ghost use Rattle.mars_base.specs.Bytes.{range};
    ghost use Rattle.mars_base.specs.Costs.{Costs};
    ghost use Rattle.pcm_media.specs.Images.{Content};
    ghost use Rattle.pcm_media.specs.View.{Writes};
    ghost use Rattle.array_shape.specs.NumberSet.{has};
    ghost use Rattle.array_shape.specs.Places.{data_len, media_len};
    ghost use Rattle.coordinator.specs.Commits.{AreGood, AreThere, cells_in};
    ghost use Rattle.array_shape.specs.Logged.{ranges_of};
    ghost use Rattle.write_back.specs.Entries.{AreHeld, IsEntry, parts_in, ranges_in};
    ghost use Rattle.write_back.specs.Reading.{read_calls};
    ghost use Rattle.write_back.specs.Shown.{entries_of, memory_for, memory_of};
    ghost use Rattle.write_back.specs.Orders.{IsFree, due_for};
    ghost use Rattle.write_back.specs.Steps.{CommitsOne, WritesBack};
    ghost use Rattle.write_back.specs.Waiting.{AreWaiting, data_with};
    ghost use Rattle.write_back.specs.Tied.{Forgets, HasNamed, IsReady, IsTied, Stays};

    /// With a queue of which `depth` commits may wait, and with memory for all their parts: none if none may wait.
    pub fn new(alloc: Global, shape: &Shape, depth: u8) -> Result<LateData, AllocError>
        ensures ready { IfOk result (IsReady shape.now) }
        ensures tied { IfOk result (λ kept. IsTied shape.now kept (λ t. false)) }
        ensures none { IfOk result (λ kept. kept.queue.ballots.items ≡ []) }
        ensures depth { IfOk result (λ kept. kept.queue.depth ≡ depth) }
        ensures room { IfOk result (λ kept. vec_capacity kept.queue.ballots ≡ depth) }
        ensures memory { IfOk result (λ kept. memory_of kept.parts ≡ (if nat_eq depth 0 then 0 else memory_for shape.now)) }
        ensures unheld { IfOk result (λ kept. (t : ℕ) → entries_of kept.parts t ≡ []) }
    {
        let queue = LateCommits::new(alloc, depth)?;
        let parts = places_for(alloc, shape, depth)?;
        Ok(LateData { queue, parts })
    }

    /// How many commits may wait.
    pub fn depth(&self) -> u8
        ensures { result ≡ self.now.queue.depth }
    {
        self.queue.depth
    }

    /// How many commits wait.
    pub fn len(&self) -> usize
        ensures { result ≡ length self.now.queue.ballots.items }
    {
        self.queue.ballots.len()
    }

    /// The cells that numbers have, at each logger.
    pub fn cells(&self) -> &[Cells; 512]
        ensures { result.now ≡ self.now.queue.cells }
    {
        &self.queue.cells
    }

    /// Writes back all up to the last one that has a number of the group, with it: none that waits has one of them then.
    pub fn write_back_for<M: Media>(
        &mut self,
        media: &mut M,
        shape: &Shape,
        group: u64,
    ) -> Result<(), Failed>
        requires ready { IsReady shape.now self.old }
        requires tied { IsTied shape.now self.old (λ t. false) }
        requires size { (M.view media.old).size ≡ media_len shape.now }
        requires waiting { IsTrue M.tells → AreWaiting shape.now self.old.queue (M.view media.old).content }
        ensures back { WritesBack M.tells shape.now (due_for group self.old.queue.ballots.items) self.old.queue (M.view media.old) self.new.queue (M.view media.new) result }
        ensures apart { OnOk result ((t : ℕ) → has group t ≡ true → IsFree t self.new.queue.ballots.items) }
        ensures stays { Stays M.tells shape.now self.old (M.view media.old) self.new (M.view media.new) }
        ensures tied { OnOk result (IsTied shape.now self.new (λ t. false)) }
    {
        let due = self.queue.due_for(group);
        self.write_back_first(media, shape, due)
    }

    // Writes the `count` oldest back, one after another, and their entries go.
    fn write_back_first<M: Media>(
        &mut self,
        media: &mut M,
        shape: &Shape,
        count: usize,
    ) -> Result<(), Failed>
        requires ready { IsReady shape.now self.old }
        requires size { (M.view media.old).size ≡ media_len shape.now }
        requires waiting { IsTrue M.tells → AreWaiting shape.now self.old.queue (M.view media.old).content }
        requires count { count ≤ length self.old.queue.ballots.items }
        ensures back { WritesBack M.tells shape.now count self.old.queue (M.view media.old) self.new.queue (M.view media.new) result }
        ensures stays { Stays M.tells shape.now self.old (M.view media.old) self.new (M.view media.new) }
        ensures forgets { Forgets shape.now (take count self.old.queue.ballots.items) (entries_of self.old.parts) (entries_of self.new.parts) }
    {
        forget_first(&mut self.parts, shape, &self.queue.ballots, count);
        self.queue.write_back_first(media, shape, count)
    }

    /// Names the cells of a number's next commit at a logger. What the number has there is not waiting.
    pub fn name(&mut self, shape: &Shape, logger: u8, tid: u8, cells: Cells)
        requires logger { logger < 8 }
        requires tid { tid < shape.now.numbers }
        requires ready { IsReady shape.now self.old }
        requires apart { IsFree tid self.old.queue.ballots.items }
        ensures ready { IsReady shape.now self.new }
        ensures here { cells_in self.new.queue.cells logger tid ≡ cells }
        ensures others { (g t : ℕ) → g < 8 → (8 * t + g ≡ 8 * tid + logger → ⊥) → cells_in self.new.queue.cells g t ≡ cells_in self.old.queue.cells g t }
        ensures ballots { self.new.queue.ballots ≡ self.old.queue.ballots }
        ensures depth { self.new.queue.depth ≡ self.old.queue.depth }
        ensures parts { self.new.parts ≡ self.old.parts }
        ensures tied { (aside : ℕ → Bool) → IsTied shape.now self.old aside → IsTied shape.now self.new aside }
        ensures waiting { (now : Content) → AreWaiting shape.now self.old.queue now → AreWaiting shape.now self.new.queue now }
        ensures same { (image : List ℕ) → data_with shape.now self.new.queue image ≡ data_with shape.now self.old.queue image }
    {
        self.queue.cells[8 * usize::from(tid) + usize::from(logger)] = cells;
    }

    /// The entries of a number's next commit come in, which waits from its decision on. If none may wait, none are kept.
    pub fn keep(&mut self, shape: &Shape, tid: u8, entries: &[Entry])
        requires ready { IsReady shape.now self.old }
        requires tid { tid < shape.now.numbers }
        requires apart { IsFree tid self.old.queue.ballots.items }
        requires none { entries_of self.old.parts tid ≡ [] }
        requires entries { All (IsEntry shape.now) entries.now }
        requires few { length entries.now ≤ shape.now.loggers * shape.now.entries }
        ensures ready { IsReady shape.now self.new }
        ensures queue { self.new.queue ≡ self.old.queue }
        ensures here { 0 < self.old.queue.depth → entries_of self.new.parts tid ≡ entries.now }
        ensures others { (t : ℕ) → (t ≡ tid → ⊥) → entries_of self.new.parts t ≡ entries_of self.old.parts t }
        ensures at_once { self.old.queue.depth ≡ 0 → self.new.parts ≡ self.old.parts }
        ensures tied { (aside : ℕ → Bool) → IsTied shape.now self.old (λ t. nat_lt 0 self.old.queue.depth && aside t) → IsTied shape.now self.new (λ t. nat_lt 0 self.old.queue.depth && (nat_eq t tid || aside t)) }
        ensures held { (image : List ℕ) → ranges_of (parts_in shape.now image tid entries.now) ≡ ranges_in entries.now → AreHeld shape.now image (entries_of self.old.parts) → AreHeld shape.now image (entries_of self.new.parts) }
    {
        if self.queue.depth == 0 {
            return;
        }
        self.parts.add(tid, entries);
    }

    /// Commits the parts in the cells that the ballot's rows name, behind those that wait: if none may wait, it is written back at once. The
    /// ballot's order number is not asked.
    pub fn commit<M: Media>(
        &mut self,
        media: &mut M,
        shape: &Shape,
        ballot: Ballot,
    ) -> Result<(), Failed>
        requires ready { IsReady shape.now self.old }
        requires tied { IsTied shape.now self.old (λ t. nat_lt 0 self.old.queue.depth && has ballot.group t) }
        requires named { 0 < self.old.queue.depth → HasNamed shape.now self.old.queue.cells (entries_of self.old.parts) ballot }
        requires size { (M.view media.old).size ≡ media_len shape.now }
        requires waiting { IsTrue M.tells → AreWaiting shape.now self.old.queue (M.view media.old).content }
        requires there { AreThere shape.now ballot self.old.queue.cells }
        requires good { IsTrue M.tells → AreGood shape.now (M.view media.old).content.bytes ballot self.old.queue.cells }
        requires some { 0 < ballot.mask }
        requires numbers { 0 < ballot.group }
        requires apart { (t : ℕ) → has ballot.group t ≡ true → IsFree t self.old.queue.ballots.items }
        ensures does { CommitsOne M.tells shape.now ballot self.old.queue (M.view media.old) self.new.queue (M.view media.new) result }
        ensures waits { 0 < self.old.queue.depth → OnOk result (0 < length self.new.queue.ballots.items) }
        ensures stays { Stays M.tells shape.now self.old (M.view media.old) self.new (M.view media.new) }
        ensures tied { OnOk result (IsTied shape.now self.new (λ t. false)) }
    {
        if self.queue.depth == 0 {
            return self.queue.commit_at_once(media, shape, ballot);
        }
        let due = self.queue.due_for_place();
        self.write_back_first(media, shape, due)?;
        self.queue.decide_next(media, shape, ballot)
    }

    /// Fills the buffer with the bytes of the data from `addr` on, with all commits that wait. If the medium fails, nothing is said of the
    /// buffer.
    #[inline(always)]
    pub fn read<M: Media>(
        &self,
        media: &mut M,
        shape: &Shape,
        addr: u64,
        buf: &mut [u8],
    ) -> Result<(), Failed>
        requires ready { IsReady shape.now self.now }
        requires tied { IsTied shape.now self.now (λ t. false) }
        requires size { (M.view media.old).size ≡ media_len shape.now }
        requires range { addr + length buf.old ≤ data_len shape.now }
        requires waiting { IsTrue M.tells → AreWaiting shape.now self.now.queue (M.view media.old).content }
        requires held { IsTrue M.tells → AreHeld shape.now (M.view media.old).content.bytes (entries_of self.now.parts) }
        ensures bytes { IsTrue M.tells → OnOk result (buf.new ≡ range (data_with shape.now self.now.queue (M.view media.old).content.bytes) addr (length buf.old)) }
        ensures costs { Costs true (read_calls shape.now (entries_of self.now.parts) self.now.queue.ballots.items addr (length buf.old)) (M.view media.old).moment (M.view media.new).moment result }
        ensures does { Writes M.tells [] (M.view media.old) (M.view media.new) result }
    {
        self.parts.read(media, &self.queue.ballots, addr, buf)
    }
}

// Memory for all parts of the commits that may wait.
fn places_for(alloc: Global, shape: &Shape, depth: u8) -> Result<DeferredParts, AllocError>
    ensures shape { IfOk result (λ parts. shape_of parts ≡ shape.now) }
    ensures none { IfOk result (λ parts. (t : ℕ) → entries_of parts t ≡ []) }
    ensures places { IfOk result (λ parts. 0 < depth → HasPlaces parts) }
    ensures memory { IfOk result (λ parts. memory_of parts ≡ (if nat_eq depth 0 then 0 else memory_for shape.now)) }
{
    if depth == 0 {
        return Ok(DeferredParts::empty(alloc, shape));
    }
    DeferredParts::new(alloc, shape)
}

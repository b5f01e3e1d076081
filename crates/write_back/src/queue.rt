// The queue in memory, and its steps on the medium.
ghost use Rattle.std.specs.Prelude.{◌≡◌, ◌-◌, ◌^◌, ◌<◌, ℕ, [], true, IfOk, IsTrue, length, vec_capacity};
ghost use Rattle.array_shape.specs.declared.shape.Shape.{Shape};
ghost use Rattle.array_shape.specs.NumberSet.{has};
ghost use Rattle.coordinator.specs.Commits.{AreGood, AreThere};
ghost use Rattle.write_back.specs.Orders.{shares};

use array_shape::Shape;
use coordinator::{CellTable, Cells, commit, decide, write_back};
use mars_base::Failed;
use pcm_media::Media;
use row_bytes::Ballot;
use std::alloc::{AllocError, Global};

/// The commits that wait for their write-back, the oldest first. No number has two of them, so one table has the cells of all: eight
/// places for each number, one for each logger.
#[derive(Drop)]
pub struct LateCommits {
    // How many may wait.
    pub(crate) depth: u8,
    pub(crate) ballots: Vec<Ballot>,
    pub(crate) cells: [Cells; 512],
}

impl LateCommits {
    ghost use Rattle.write_back.specs.Waiting.{IsFit, IsQueued};
    ghost use Rattle.write_back.specs.Orders.{IsFree, due_for, due_for_place, last_order};
    ghost use Rattle.write_back.specs.Steps.{CommitsOne, DecidesOne, WritesBack};

    /// A queue of which `depth` commits may wait. If none may, a commit is written back at once.
    pub(crate) fn new(alloc: Global, depth: u8) -> Result<LateCommits, AllocError>
        ensures fit { (shape : Shape) → IfOk result (IsFit shape) }
        ensures none { IfOk result (λ late. late.ballots.items ≡ []) }
        ensures depth { IfOk result (λ late. late.depth ≡ depth) }
        ensures room { IfOk result (λ late. vec_capacity late.ballots ≡ depth) }
    {
        Ok(LateCommits {
            depth,
            ballots: Vec::with_capacity(alloc, usize::from(depth))?,
            cells: [Cells::NONE; 512],
        })
    }

    // Writes the oldest back, if one waits.
    fn write_back_oldest<M: Media>(&mut self, media: &mut M, shape: &Shape) -> Result<(), Failed>
        requires { IsQueued M.tells shape.now self.old (M.view media.old) }
        ensures { WritesBack M.tells shape.now 1 self.old (M.view media.old) self.new (M.view media.new) result }
    {
        let Some(&ballot) = self.ballots.first() else {
            return Ok(());
        };
        let table = CellTable {
            shape,
            cells: &self.cells,
        };
        write_back(media, &table, ballot)?;
        self.ballots.remove(0);
        Ok(())
    }

    /// Writes the `count` oldest back, one after another.
    pub(crate) fn write_back_first<M: Media>(
        &mut self,
        media: &mut M,
        shape: &Shape,
        count: usize,
    ) -> Result<(), Failed>
        requires { IsQueued M.tells shape.now self.old (M.view media.old) }
        ensures { WritesBack M.tells shape.now count self.old (M.view media.old) self.new (M.view media.new) result }
    {
        for _done in 0..count {
            self.write_back_oldest(media, shape)?;
        }
        Ok(())
    }

    /// How many wait up to the last one that has a number of the group, with it.
    pub(crate) fn due_for(&self, group: u64) -> usize
        ensures { result ≡ due_for group self.now.ballots.items }
    {
        let mut due = 0;
        for at in 0..self.ballots.len() {
            if !shares(&self.ballots[at], group) {
                continue;
            }
            due = at + 1;
        }
        due
    }

    /// Commits where none may wait: it is written back at once, and its order number is 0.
    pub(crate) fn commit_at_once<M: Media>(
        &self,
        media: &mut M,
        shape: &Shape,
        ballot: Ballot,
    ) -> Result<(), Failed>
        requires queued { IsQueued M.tells shape.now self.now (M.view media.old) }
        requires there { AreThere shape.now ballot self.now.cells }
        requires good { IsTrue M.tells → AreGood shape.now (M.view media.old).content.bytes ballot self.now.cells }
        requires some { 0 < ballot.mask }
        requires depth { self.now.depth ≡ 0 }
        ensures { CommitsOne M.tells shape.now ballot self.now (M.view media.old) self.now (M.view media.new) result }
    {
        let ballot = Ballot { order: 0, ..ballot };
        let table = CellTable {
            shape,
            cells: &self.cells,
        };
        commit(media, &table, ballot)
    }

    /// How many are written back to make place for one more.
    pub(crate) fn due_for_place(&self) -> usize
        ensures { result ≡ due_for_place self.now.depth self.now.ballots.items }
    {
        if self.last_order() == u16::MAX {
            return self.ballots.len();
        }
        usize::from(self.ballots.len() == usize::from(self.depth))
    }

    // The order number of the last one; 0 where none waits.
    fn last_order(&self) -> u16
        ensures { result ≡ last_order self.now.ballots.items }
    {
        match self.ballots.last() {
            Some(ballot) => ballot.order,
            None => 0,
        }
    }

    /// Decides one more: there is place for it. Its order number is the next one.
    pub(crate) fn decide_next<M: Media>(
        &mut self,
        media: &mut M,
        shape: &Shape,
        ballot: Ballot,
    ) -> Result<(), Failed>
        requires queued { IsQueued M.tells shape.now self.old (M.view media.old) }
        requires there { AreThere shape.now ballot self.old.cells }
        requires good { IsTrue M.tells → AreGood shape.now (M.view media.old).content.bytes ballot self.old.cells }
        requires some { (0 < ballot.mask) × (0 < ballot.group) }
        requires apart { (t : ℕ) → has ballot.group t ≡ true → IsFree t self.old.ballots.items }
        requires place { length self.old.ballots.items < self.old.depth }
        requires order { last_order self.old.ballots.items < 2 ^ 16 - 1 }
        ensures { DecidesOne M.tells shape.now ballot self.old (M.view media.old) self.new (M.view media.new) result }
    {
        let order = self.last_order() + 1;
        let ballot = Ballot { order, ..ballot };
        let table = CellTable {
            shape,
            cells: &self.cells,
        };
        decide(media, &table, ballot)?;
        self.ballots.push_reserved(ballot);
        Ok(())
    }
}

// Whether a commit has one of the numbers of a group.
fn shares(ballot: &Ballot, group: u64) -> bool
    ensures { result ≡ shares group ballot.now }
{
    ballot.group & group != 0
}

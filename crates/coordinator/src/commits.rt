// A commit: the rows, the votes, the parts into the data, the votes cleared, each followed by a barrier.
ghost use Rattle.std.specs.Prelude.{◌≡◌, ◌+◌, ◌<◌, [], ◌∷◌, ◌++◌, ℕ, List, Ok, IsTrue, OnOk, true, false};
ghost use Rattle.mars_base.specs.Costs.{Costs};
ghost use Rattle.pcm_media.specs.View.{View, LeavesOnly, Writes};
ghost use Rattle.array_shape.specs.Places.{media_len};
ghost use Rattle.array_shape.specs.Logged.{applied};
ghost use Rattle.row_bytes.specs.Ballots.{has_row};
ghost use Rattle.array_image.specs.Standing.{IsEither, SameCells, StandsFor};
ghost use Rattle.commit_queue.specs.Queue.{Commit, queue_parts};
ghost use Rattle.commit_queue.specs.Between.{IsAtRest};
ghost use Rattle.commit_queue.specs.Rows.{HasRowBytes, bytes_of, with_votes};
ghost use Rattle.coordinator.specs.Commits.{AreGood, AreThere, MayJoin, Names, commit_of, parts_named};
ghost use Rattle.coordinator.specs.Costs.{commit_calls, decide_calls, write_back_calls};
ghost use Rattle.coordinator.specs.Places.{commit_places, row_places};
ghost use Rattle.coordinator.specs.Rows.{with_rows};

use crate::cells::CellTable;
use crate::phases::{install, put_rows, set_votes};
use mars_base::Failed;
use pcm_media::Media;
use row_bytes::Ballot;

/// Commits the parts in the cells that the ballot's rows name, and writes them into the data. If power is lost during it, what is left
/// stands for the data before it or for that data with all of the parts.
///
/// If no logger takes part, it makes no call of the medium.
pub fn commit<M: Media>(media: &mut M, table: &CellTable, ballot: Ballot) -> Result<(), Failed>
    requires there { AreThere table.now.shape.now ballot table.now.cells.now }
    requires size { (M.view media.old).size ≡ media_len table.now.shape.now }
    requires good { IsTrue M.tells → AreGood table.now.shape.now (M.view media.old).content.bytes ballot table.now.cells.now }
    ensures any_moment { IsTrue M.tells → (bytes : List ℕ) → IsAtRest table.now.shape.now [] bytes (M.view media.old).content →
        LeavesOnly (IsEither table.now.shape.now bytes (applied (parts_named table.now.shape.now (M.view media.old).content.bytes ballot table.now.cells.now) bytes)) (M.view media.old) (M.view media.new) }
    ensures committed { IsTrue M.tells → (bytes : List ℕ) → IsAtRest table.now.shape.now [] bytes (M.view media.old).content →
        OnOk result (IsAtRest table.now.shape.now [] (applied (parts_named table.now.shape.now (M.view media.old).content.bytes ballot table.now.cells.now) bytes) (M.view media.new).content) }
    // The bytes of its rows then: the group of a number alone is 0, and the vote is 0 again. No other row changes.
    ensures rows { IsTrue M.tells → OnOk result (HasRowBytes table.now.shape.now (M.view media.new).content.bytes (with_rows ballot table.now.cells.now false (bytes_of table.now.shape.now (M.view media.old).content.bytes))) }
    ensures cells { IsTrue M.tells → SameCells table.now.shape.now (M.view media.old).content.bytes (M.view media.new).content.bytes }
    ensures costs { Costs M.tells (commit_calls table.now.shape.now ballot table.now.cells.now) (M.view media.old).moment (M.view media.new).moment result }
    ensures does { Writes M.tells (commit_places table.now.shape.now (M.view media.old).content.bytes ballot table.now.cells.now) (M.view media.old) (M.view media.new) result }
    ensures idle { ballot.mask ≡ 0 → (result ≡ Ok tt) × (media.new ≡ media.old) }
{
    if ballot.mask == 0 {
        return Ok(());
    }
    decide(media, table, ballot)?;
    write_back(media, table, ballot)
}

/// Decides a commit: from the last barrier on a loss of power leaves its parts for recovery. Other commits may wait for their
/// write-back; it joins them as the newest.
pub fn decide<M: Media>(media: &mut M, table: &CellTable, ballot: Ballot) -> Result<(), Failed>
    requires there { AreThere table.now.shape.now ballot table.now.cells.now }
    requires size { (M.view media.old).size ≡ media_len table.now.shape.now }
    requires good { IsTrue M.tells → AreGood table.now.shape.now (M.view media.old).content.bytes ballot table.now.cells.now }
    ensures any_moment { IsTrue M.tells → (queue : List Commit) (bytes : List ℕ) → IsAtRest table.now.shape.now queue bytes (M.view media.old).content → MayJoin table.now.shape.now queue ballot →
        (let before = applied (queue_parts queue) bytes in
        LeavesOnly (IsEither table.now.shape.now before (applied (parts_named table.now.shape.now (M.view media.old).content.bytes ballot table.now.cells.now) before)) (M.view media.old) (M.view media.new)) }
    ensures joined { IsTrue M.tells → (queue : List Commit) (bytes : List ℕ) → IsAtRest table.now.shape.now queue bytes (M.view media.old).content → MayJoin table.now.shape.now queue ballot →
        OnOk result (IsAtRest table.now.shape.now (queue ++ commit_of table.now.shape.now (M.view media.old).content.bytes ballot table.now.cells.now ∷ []) bytes (M.view media.new).content) }
    // The bytes of its rows then, which are voted. No other row changes.
    ensures rows { IsTrue M.tells → OnOk result (HasRowBytes table.now.shape.now (M.view media.new).content.bytes (with_rows ballot table.now.cells.now true (bytes_of table.now.shape.now (M.view media.old).content.bytes))) }
    ensures cells { IsTrue M.tells → SameCells table.now.shape.now (M.view media.old).content.bytes (M.view media.new).content.bytes }
    ensures costs { Costs true (decide_calls table.now.shape.now ballot) (M.view media.old).moment (M.view media.new).moment result }
    ensures does { Writes M.tells (row_places table.now.shape.now ballot) (M.view media.old) (M.view media.new) result }
{
    put_rows(media, table, ballot)?;
    set_votes(media, table, ballot, true)
}

/// Writes the oldest of the decided commits back: its parts into the data, then its votes cleared. What the array stands for stays the
/// same at every moment.
pub fn write_back<M: Media>(media: &mut M, table: &CellTable, ballot: Ballot) -> Result<(), Failed>
    requires there { AreThere table.now.shape.now ballot table.now.cells.now }
    requires size { (M.view media.old).size ≡ media_len table.now.shape.now }
    requires good { IsTrue M.tells → AreGood table.now.shape.now (M.view media.old).content.bytes ballot table.now.cells.now }
    ensures any_moment { IsTrue M.tells → (queue : List Commit) (oldest : Commit) (bytes : List ℕ) → Names table.now.shape.now ballot table.now.cells.now oldest → IsAtRest table.now.shape.now (oldest ∷ queue) bytes (M.view media.old).content →
        LeavesOnly (λ image. StandsFor table.now.shape.now image (applied (queue_parts (oldest ∷ queue)) bytes)) (M.view media.old) (M.view media.new) }
    ensures left { IsTrue M.tells → (queue : List Commit) (oldest : Commit) (bytes : List ℕ) → Names table.now.shape.now ballot table.now.cells.now oldest → IsAtRest table.now.shape.now (oldest ∷ queue) bytes (M.view media.old).content →
        OnOk result (IsAtRest table.now.shape.now queue (applied oldest.parts bytes) (M.view media.new).content) }
    // The vote bytes of its rows are 0 then, and no other byte of a row changes.
    ensures rows { IsTrue M.tells → OnOk result (HasRowBytes table.now.shape.now (M.view media.new).content.bytes (with_votes (has_row ballot) false (bytes_of table.now.shape.now (M.view media.old).content.bytes))) }
    ensures cells { IsTrue M.tells → SameCells table.now.shape.now (M.view media.old).content.bytes (M.view media.new).content.bytes }
    ensures costs { Costs M.tells (write_back_calls table.now.shape.now ballot table.now.cells.now) (M.view media.old).moment (M.view media.new).moment result }
    ensures does { Writes M.tells (commit_places table.now.shape.now (M.view media.old).content.bytes ballot table.now.cells.now) (M.view media.old) (M.view media.new) result }
{
    install(media, table, ballot)?;
    set_votes(media, table, ballot, false)
}

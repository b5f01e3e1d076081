// The phases of a commit: calls at each of its rows, by number and logger, then a barrier. The loops go over the ballot's numbers and
// loggers alone, not over those of the array.
ghost use Rattle.std.specs.Prelude.{◌≡◌, ◌+◌, ◌*◌, ◌^◌, ◌≤◌, ◌<◌, [], ℕ, true, IsTrue, OnOk};
ghost use Rattle.mars_base.specs.Costs.{Costs};
ghost use Rattle.pcm_media.specs.View.{View, Writes};
ghost use Rattle.array_shape.specs.Places.{media_len};
ghost use Rattle.array_shape.specs.Logged.{applied, places_of};
ghost use Rattle.array_shape.specs.NumberSet.{has};
ghost use Rattle.row_bytes.specs.Ballots.{has_row};
ghost use Rattle.array_image.specs.Image.{data_of};
ghost use Rattle.array_image.specs.Votes.{votes_of};
ghost use Rattle.commit_queue.specs.Between.{bodies_of};
ghost use Rattle.commit_queue.specs.Rows.{bytes_of};
ghost use Rattle.coordinator.specs.Commits.{AreGood, AreThere, number_parts, parts_named};
ghost use Rattle.coordinator.specs.Costs.{parts_at, parts_in_all, rows_at, rows_in_all};
ghost use Rattle.coordinator.specs.Places.{bodies_at, votes_at};
ghost use Rattle.coordinator.specs.Rows.{HasVote, Says};

use crate::cells::{CellTable, Cells, cells_in};
use array_shape::NumberSet;
use logger::Logger;
use mars_base::Failed;
use pcm_media::Media;
use row_bytes::Ballot;

// Writes the rows without their votes.
pub(crate) fn put_rows<M: Media>(
    media: &mut M,
    table: &CellTable,
    ballot: Ballot,
) -> Result<(), Failed>
    requires mask { ballot.mask < 2 ^ table.now.shape.now.loggers }
    requires group { ballot.group < 2 ^ table.now.shape.now.numbers }
    requires size { (M.view media.old).size ≡ media_len table.now.shape.now }
    ensures costs { Costs true (rows_in_all table.now.shape.now ballot + 1) (M.view media.old).moment (M.view media.new).moment result }
    ensures does { Writes M.tells (bodies_of table.now.shape.now (has_row ballot)) (M.view media.old) (M.view media.new) result }
    ensures names { IsTrue M.tells → OnOk result (((M.view media.new).content.unsettled ≡ []) × ((g t : ℕ) → g < table.now.shape.now.loggers → t < table.now.shape.now.numbers → has_row ballot g t ≡ true
        → Says ballot table.now.cells.now g t (bytes_of table.now.shape.now (M.view media.new).content.bytes g t))) }
{
    for tid in group_of(ballot).members() {
        put_rows_of(media, table, ballot, tid)?;
    }
    media.barrier()
}

// Those of one number.
fn put_rows_of<M: Media>(
    media: &mut M,
    table: &CellTable,
    ballot: Ballot,
    tid: u8,
) -> Result<(), Failed>
    requires tid { tid < table.now.shape.now.numbers }
    requires has { has ballot.group tid ≡ true }
    requires mask { ballot.mask < 2 ^ table.now.shape.now.loggers }
    requires size { (M.view media.old).size ≡ media_len table.now.shape.now }
    ensures costs { Costs true (rows_at table.now.shape.now ballot tid) (M.view media.old).moment (M.view media.new).moment result }
    ensures does { Writes M.tells (bodies_at table.now.shape.now ballot tid) (M.view media.old) (M.view media.new) result }
    ensures names { IsTrue M.tells → OnOk result ((g : ℕ) → g < table.now.shape.now.loggers → has_row ballot g tid ≡ true
        → Says ballot table.now.cells.now g tid (bytes_of table.now.shape.now (M.view media.new).content.bytes g tid)) }
{
    for number in mask_of(ballot).members() {
        let Cells { first, count } = cells_in(table.cells, number, tid);
        let row = ballot.row(tid, first, count);
        Logger::new(*table.shape, number).put_row(media, tid, row)?;
    }
    Ok(())
}

// Writes or clears the votes. Once all of them stand, the parts are decided.
pub(crate) fn set_votes<M: Media>(
    media: &mut M,
    table: &CellTable,
    ballot: Ballot,
    voted: bool,
) -> Result<(), Failed>
    requires mask { ballot.mask < 2 ^ table.now.shape.now.loggers }
    requires group { ballot.group < 2 ^ table.now.shape.now.numbers }
    requires size { (M.view media.old).size ≡ media_len table.now.shape.now }
    ensures costs { Costs true (rows_in_all table.now.shape.now ballot + 1) (M.view media.old).moment (M.view media.new).moment result }
    ensures does { Writes M.tells (votes_of table.now.shape.now (has_row ballot)) (M.view media.old) (M.view media.new) result }
    ensures votes { IsTrue M.tells → OnOk result (((M.view media.new).content.unsettled ≡ []) × ((g t : ℕ) → g < table.now.shape.now.loggers → t < table.now.shape.now.numbers → has_row ballot g t ≡ true
        → HasVote voted (bytes_of table.now.shape.now (M.view media.new).content.bytes g t))) }
{
    for tid in group_of(ballot).members() {
        set_votes_of(media, table, ballot, tid, voted)?;
    }
    media.barrier()
}

// Those of one number.
fn set_votes_of<M: Media>(
    media: &mut M,
    table: &CellTable,
    ballot: Ballot,
    tid: u8,
    voted: bool,
) -> Result<(), Failed>
    requires tid { tid < table.now.shape.now.numbers }
    requires has { has ballot.group tid ≡ true }
    requires mask { ballot.mask < 2 ^ table.now.shape.now.loggers }
    requires size { (M.view media.old).size ≡ media_len table.now.shape.now }
    ensures costs { Costs true (rows_at table.now.shape.now ballot tid) (M.view media.old).moment (M.view media.new).moment result }
    ensures does { Writes M.tells (votes_at table.now.shape.now ballot tid) (M.view media.old) (M.view media.new) result }
    ensures votes { IsTrue M.tells → OnOk result ((g : ℕ) → g < table.now.shape.now.loggers → has_row ballot g tid ≡ true
        → HasVote voted (bytes_of table.now.shape.now (M.view media.new).content.bytes g tid)) }
{
    for number in mask_of(ballot).members() {
        Logger::new(*table.shape, number).set_vote(media, tid, voted)?;
    }
    Ok(())
}

// Writes the parts into the data.
pub(crate) fn install<M: Media>(
    media: &mut M,
    table: &CellTable,
    ballot: Ballot,
) -> Result<(), Failed>
    requires there { AreThere table.now.shape.now ballot table.now.cells.now }
    requires size { (M.view media.old).size ≡ media_len table.now.shape.now }
    requires good { IsTrue M.tells → AreGood table.now.shape.now (M.view media.old).content.bytes ballot table.now.cells.now }
    ensures costs { Costs M.tells (2 * parts_in_all table.now.shape.now ballot table.now.cells.now + 1) (M.view media.old).moment (M.view media.new).moment result }
    ensures does { Writes M.tells (places_of table.now.shape.now (parts_named table.now.shape.now (M.view media.old).content.bytes ballot table.now.cells.now)) (M.view media.old) (M.view media.new) result }
    ensures applied { IsTrue M.tells → OnOk result (((M.view media.new).content.unsettled ≡ [])
        × (data_of table.now.shape.now (M.view media.new).content.bytes ≡ applied (parts_named table.now.shape.now (M.view media.old).content.bytes ballot table.now.cells.now) (data_of table.now.shape.now (M.view media.old).content.bytes))) }
{
    for tid in group_of(ballot).members() {
        install_of(media, table, ballot, tid)?;
    }
    media.barrier()
}

// Those of one number.
fn install_of<M: Media>(
    media: &mut M,
    table: &CellTable,
    ballot: Ballot,
    tid: u8,
) -> Result<(), Failed>
    requires tid { tid < table.now.shape.now.numbers }
    requires has { has ballot.group tid ≡ true }
    requires there { AreThere table.now.shape.now ballot table.now.cells.now }
    requires size { (M.view media.old).size ≡ media_len table.now.shape.now }
    requires good { IsTrue M.tells → AreGood table.now.shape.now (M.view media.old).content.bytes ballot table.now.cells.now }
    ensures costs { Costs M.tells (2 * parts_at table.now.shape.now ballot table.now.cells.now tid) (M.view media.old).moment (M.view media.new).moment result }
    ensures does { Writes M.tells (places_of table.now.shape.now (number_parts table.now.shape.now (M.view media.old).content.bytes ballot table.now.cells.now tid)) (M.view media.old) (M.view media.new) result }
    ensures applied { IsTrue M.tells → OnOk result (data_of table.now.shape.now (M.view media.new).content.bytes ≡
        applied (number_parts table.now.shape.now (M.view media.old).content.bytes ballot table.now.cells.now tid) (data_of table.now.shape.now (M.view media.old).content.bytes)) }
{
    for number in mask_of(ballot).members() {
        let Cells { first, count } = cells_in(table.cells, number, tid);
        Logger::new(*table.shape, number).apply(media, tid, first, count)?;
    }
    Ok(())
}

// The numbers that have rows of a commit.
fn group_of(ballot: Ballot) -> NumberSet
    ensures { result.bits ≡ ballot.group }
{
    NumberSet { bits: ballot.group }
}

// The loggers that have them.
fn mask_of(ballot: Ballot) -> NumberSet
    ensures { result.bits ≡ ballot.mask }
{
    NumberSet {
        bits: u64::from(ballot.mask),
    }
}

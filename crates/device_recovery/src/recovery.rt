// Recovery of an array.
ghost use Rattle.std.specs.Prelude.{◌≡◌, ◌+◌, ◌<◌, ◌≤◌, ◌⊎◌, [], ℕ, List, true, false, Some, None, IsTrue, IfOk, IfErr, OnOk, OnErr};
ghost use Rattle.mars_base.specs.Costs.{Costs};
ghost use Rattle.pcm_media.specs.Images.{MayLeave, Touched};
ghost use Rattle.pcm_media.specs.View.{View, LeavesOnly, Writes};
ghost use Rattle.array_shape.specs.Places.{media_len};
ghost use Rattle.array_image.specs.Image.{data_of, row_of};
ghost use Rattle.array_image.specs.Decided.{settled_data};
ghost use Rattle.array_image.specs.Standing.{AllSettled, IsLawful};
ghost use Rattle.commit_queue.specs.Between.{IsAtRest};
ghost use Rattle.commit_queue.specs.Rows.{HasRowBytes, bytes_of, with_votes};
ghost use Rattle.device_recovery.specs.Table.{row_in, settle_calls, RowsAre, decided_in};
ghost use Rattle.pcm_media.specs.Answer.{media_answer};
ghost use Rattle.device_recovery.specs.Recovered.{rows_good, HasNoVote, OnlyCleared, Counts, cells_named, recovery_calls, quiet_calls, KeepsSense, SettlesLike, recovered_places, is_of_media};
ghost use Rattle.device_recovery.specs.declared.report.RecoverFault.TheVariants.{BadRow};

use crate::checking::check_rows;
use crate::counting::count_rows;
use crate::reading::read_rows;
use crate::report::{RecoverFault, Report};
use crate::settling::{clear_decided, drop_votes, settle_data};
use crate::table::ROWS_MAX;
use array_shape::Shape;
use mars_base::Failed;
use pcm_media::Media;
use row_bytes::Row;

/// Makes an array at rest of what a loss of power left: the parts of decided rows go into the data, by rising order number, and every
/// vote is cleared, those of rows that are not decided first, then those of each order number, the lowest first. If power is lost
/// during it, what is left settles to the same, provided that all images that it may find are lawful.
///
/// If no row is voted it writes nothing, and makes one call for a barrier and one for each row. If a decided row is not good it
/// writes nothing either, whatever it answers.
pub fn recover<M: Media>(media: &mut M, shape: &Shape) -> Result<Report, RecoverFault>
    requires size { (M.view media.old).size ≡ media_len shape.now }
    // Whatever the bytes were, the data is then what they settle to, and no vote is left.
    ensures clean { IsTrue M.tells → OnOk result (IsAtRest shape.now [] (settled_data shape.now (M.view media.old).content.bytes) (M.view media.new).content) }
    ensures settled { IsTrue M.tells → OnOk result (data_of shape.now (M.view media.new).content.bytes ≡ settled_data shape.now (M.view media.old).content.bytes) }
    // The vote bytes of the rows that were voted are 0 then, and nothing else in a row changes.
    ensures rows { IsTrue M.tells → OnOk result (HasRowBytes shape.now (M.view media.new).content.bytes (with_votes (λ g t. (row_of shape.now (M.view media.old).content.bytes g t).voted) false (bytes_of shape.now (M.view media.old).content.bytes))) }
    ensures counts { IsTrue M.tells → IfOk result (Counts shape.now (M.view media.old).content.bytes) }
    ensures sure { IsTrue M.tells → OnOk result (AllSettled (M.view media.new).content) }
    // It succeeds only if each decided row is good. The row that it refuses is the first one that is not good.
    ensures good { IsTrue M.tells → OnOk result (rows_good shape.now (M.view media.old).content.bytes None) }
    ensures bad { IsTrue M.tells → IfErr result (λ fault. (g t : ℕ) → fault ≡ BadRow g t → rows_good shape.now (M.view media.old).content.bytes (Some (g, t))) }
    ensures unwritten { IsTrue M.tells → IfErr result (λ fault. (g t : ℕ) → fault ≡ BadRow g t → Touched [] (M.view media.old).content (M.view media.new).content) }
    ensures spared { IsTrue M.tells → OnErr result (Touched [] (M.view media.old).content (M.view media.new).content ⊎ rows_good shape.now (M.view media.old).content.bytes None) }
    ensures idle { IsTrue M.tells → HasNoVote shape.now (M.view media.old).content.bytes → Touched [] (M.view media.old).content (M.view media.new).content }
    ensures costs { IsTrue M.tells → HasNoVote shape.now (M.view media.old).content.bytes → Costs true (quiet_calls shape.now) (M.view media.old).moment (M.view media.new).moment result }
    // It makes no barrier but those behind what it has written.
    ensures calls { IsTrue M.tells → Costs true (recovery_calls shape.now (M.view media.old).content.bytes) (M.view media.old).moment (M.view media.new).moment result }
    ensures any_moment { IsTrue M.tells → ((image : List ℕ) → MayLeave (M.view media.old).content image → IsLawful shape.now image)
        → LeavesOnly (KeepsSense shape.now (M.view media.old).content) (M.view media.old) (M.view media.new) }
    ensures does { Writes M.tells (recovered_places shape.now (M.view media.old).content.bytes) (M.view media.old) (M.view media.new) (media_answer is_of_media result) }
{
    let rows = read_sound(media, shape)?;
    let report = count_rows(&rows, shape);
    if report.decided + report.dropped == 0 {
        return Ok(report);
    }
    settle(media, shape, &rows)?;
    Ok(report)
}

// Makes what was left durable, reads the rows, and refuses bad ones.
fn read_sound<M: Media>(media: &mut M, shape: &Shape) -> Result<[Row; ROWS_MAX], RecoverFault>
    requires size { (M.view media.old).size ≡ media_len shape.now }
    ensures rows { IsTrue M.tells → IfOk result (RowsAre shape.now (M.view media.old).content.bytes shape.now.numbers) }
    ensures good { IsTrue M.tells → OnOk result (rows_good shape.now (M.view media.old).content.bytes None) }
    ensures bad { IsTrue M.tells → IfErr result (λ fault. (g t : ℕ) → fault ≡ BadRow g t → rows_good shape.now (M.view media.old).content.bytes (Some (g, t))) }
    ensures fits { IfOk result (λ rows. (g t : ℕ) → g < shape.now.loggers → t < shape.now.numbers → decided_in shape.now rows g t ≡ true → (row_in rows g t).first + (row_in rows g t).count ≤ shape.now.entries) }
    ensures sure { IsTrue M.tells → OnOk result (AllSettled (M.view media.new).content) }
    ensures costs { IsTrue M.tells → Costs true (quiet_calls shape.now + cells_named shape.now (M.view media.old).content.bytes) (M.view media.old).moment (M.view media.new).moment result }
    ensures does { Writes M.tells [] (M.view media.old) (M.view media.new) (media_answer is_of_media result) }
{
    media.barrier()?;
    let rows = read_rows(media, shape)?;
    check_rows(media, shape, &rows)?;
    Ok(rows)
}

// Writes the parts of the decided rows into the data, then clears the votes. A barrier follows wherever something was written.
fn settle<M: Media>(media: &mut M, shape: &Shape, rows: &[Row; ROWS_MAX]) -> Result<(), Failed>
    requires size { (M.view media.old).size ≡ media_len shape.now }
    requires fits { (g t : ℕ) → g < shape.now.loggers → t < shape.now.numbers → decided_in shape.now rows.now g t ≡ true → (row_in rows.now g t).first + (row_in rows.now g t).count ≤ shape.now.entries }
    requires sure { IsTrue M.tells → AllSettled (M.view media.old).content }
    requires rows { IsTrue M.tells → RowsAre shape.now (M.view media.old).content.bytes shape.now.numbers rows.now }
    requires good { IsTrue M.tells → rows_good shape.now (M.view media.old).content.bytes None }
    ensures clean { IsTrue M.tells → OnOk result (IsAtRest shape.now [] (settled_data shape.now (M.view media.old).content.bytes) (M.view media.new).content) }
    ensures settled { IsTrue M.tells → OnOk result (data_of shape.now (M.view media.new).content.bytes ≡ settled_data shape.now (M.view media.old).content.bytes) }
    ensures sure { IsTrue M.tells → OnOk result (AllSettled (M.view media.new).content) }
    ensures zeros { IsTrue M.tells → OnOk result (OnlyCleared shape.now (M.view media.old).content.bytes (M.view media.new).content.bytes) }
    ensures unvoted { IsTrue M.tells → OnOk result (HasNoVote shape.now (M.view media.new).content.bytes) }
    ensures costs { Costs M.tells (settle_calls shape.now rows.now) (M.view media.old).moment (M.view media.new).moment result }
    ensures any_moment { IsTrue M.tells → IsLawful shape.now (M.view media.old).content.bytes → LeavesOnly (SettlesLike shape.now (M.view media.old).content.bytes) (M.view media.old) (M.view media.new) }
    ensures does { Writes M.tells (recovered_places shape.now (M.view media.old).content.bytes) (M.view media.old) (M.view media.new) result }
{
    settle_data(media, shape, rows)?;
    drop_votes(media, shape, rows)?;
    clear_decided(media, shape, rows)
}

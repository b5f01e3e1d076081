// Writes the parts of decided rows into the data, and clears the votes.
ghost use Rattle.std.specs.Prelude.{◌≡◌, ◌+◌, ◌*◌, ◌<◌, ◌≤◌, [], List, ℕ, true, false, None, IsTrue, OnOk, length};
ghost use Rattle.mars_base.specs.Bytes.{range};
ghost use Rattle.mars_base.specs.Costs.{Costs};
ghost use Rattle.pcm_media.specs.View.{Writes, LeavesOnly};
ghost use Rattle.array_shape.specs.Places.{media_len};
ghost use Rattle.array_shape.specs.Logged.{applied, places_of};
ghost use Rattle.array_image.specs.Image.{row_of, data_of};
ghost use Rattle.array_image.specs.Decided.{order_parts, orders, all_decided, settled_data};
ghost use Rattle.array_image.specs.Standing.{AllSettled, IsSettled, IsRecovering};
ghost use Rattle.array_image.specs.Votes.{votes_of};
ghost use Rattle.device_recovery.specs.Table.{row_in, cells_in_order, rows_in_order, RowsAre, RowsLeft, decided_in, is_one_of};
ghost use Rattle.device_recovery.specs.declared.which.Which.TheVariants.{Dropped};
ghost use Rattle.device_recovery.specs.Recovered.{rows_good, HasNoVote, OnlyCleared, SettlesTo, apply_calls, at_rows, clear_calls, row_name, total};

use crate::rows::{nth_row, row_count};
use crate::table::{ROWS_MAX, is_one_of, next_order, row_in};
use crate::which::Which;
use array_shape::Shape;
use logger::Logger;
use mars_base::Failed;
use pcm_media::Media;
use row_bytes::Row;

/// Writes the parts of all decided rows into the data, by rising order number, and makes that durable.
pub(crate) fn settle_data<M: Media>(
    media: &mut M,
    shape: &Shape,
    rows: &[Row; ROWS_MAX],
) -> Result<(), Failed>
    requires size { (M.view media.old).size ≡ media_len shape.now }
    requires fits { (g t : ℕ) → g < shape.now.loggers → t < shape.now.numbers → decided_in shape.now rows.now g t ≡ true → (row_in rows.now g t).first + (row_in rows.now g t).count ≤ shape.now.entries }
    requires sure { IsTrue M.tells → AllSettled (M.view media.old).content }
    requires rows { IsTrue M.tells → RowsAre shape.now (M.view media.old).content.bytes shape.now.numbers rows.now }
    requires good { IsTrue M.tells → rows_good shape.now (M.view media.old).content.bytes None }
    ensures applied { IsTrue M.tells → OnOk result (AllSettled (M.view media.new).content × (data_of shape.now (M.view media.new).content.bytes ≡ settled_data shape.now (M.view media.old).content.bytes)) }
    ensures costs { Costs M.tells (apply_calls (length (at_rows shape.now (decided_in shape.now rows.now) row_name)) (total (cells_in_order shape.now rows.now) orders)) (M.view media.old).moment (M.view media.new).moment result }
    ensures does { Writes M.tells (places_of shape.now (all_decided shape.now (M.view media.old).content.bytes)) (M.view media.old) (M.view media.new) result }
{
    if next_order(rows, shape, 0).is_none() {
        return Ok(());
    }
    apply_all(media, shape, rows)?;
    media.barrier()
}

// The same, before the barrier.
fn apply_all<M: Media>(media: &mut M, shape: &Shape, rows: &[Row; ROWS_MAX]) -> Result<(), Failed>
    requires size { (M.view media.old).size ≡ media_len shape.now }
    requires fits { (g t : ℕ) → g < shape.now.loggers → t < shape.now.numbers → decided_in shape.now rows.now g t ≡ true → (row_in rows.now g t).first + (row_in rows.now g t).count ≤ shape.now.entries }
    requires rows { IsTrue M.tells → RowsAre shape.now (M.view media.old).content.bytes shape.now.numbers rows.now }
    requires good { IsTrue M.tells → rows_good shape.now (M.view media.old).content.bytes None }
    ensures applied { IsTrue M.tells → OnOk result (data_of shape.now (M.view media.new).content.bytes ≡ settled_data shape.now (M.view media.old).content.bytes) }
    ensures costs { Costs M.tells (2 * total (cells_in_order shape.now rows.now) orders) (M.view media.old).moment (M.view media.new).moment result }
    ensures does { Writes M.tells (places_of shape.now (all_decided shape.now (M.view media.old).content.bytes)) (M.view media.old) (M.view media.new) result }
{
    let mut from = 0;
    while let Some(order) = next_order(rows, shape, from) {
        apply_order(media, shape, rows, order)?;
        from = u32::from(order) + 1;
    }
    Ok(())
}

// Writes the parts of the rows that are decided with an order number into the data.
fn apply_order<M: Media>(
    media: &mut M,
    shape: &Shape,
    rows: &[Row; ROWS_MAX],
    order: u16,
) -> Result<(), Failed>
    requires size { (M.view media.old).size ≡ media_len shape.now }
    requires fits { (g t : ℕ) → g < shape.now.loggers → t < shape.now.numbers → decided_in shape.now rows.now g t ≡ true → (row_in rows.now g t).first + (row_in rows.now g t).count ≤ shape.now.entries }
    requires rows { IsTrue M.tells → RowsAre shape.now (M.view media.old).content.bytes shape.now.numbers rows.now }
    requires good { IsTrue M.tells → rows_good shape.now (M.view media.old).content.bytes None }
    ensures applied { IsTrue M.tells → OnOk result (data_of shape.now (M.view media.new).content.bytes ≡ applied (order_parts shape.now (M.view media.old).content.bytes order) (data_of shape.now (M.view media.old).content.bytes)) }
    ensures costs { Costs M.tells (2 * cells_in_order shape.now rows.now order) (M.view media.old).moment (M.view media.new).moment result }
    ensures does { Writes M.tells (places_of shape.now (order_parts shape.now (M.view media.old).content.bytes order)) (M.view media.old) (M.view media.new) result }
{
    for nth in 0..row_count(shape) {
        let at = nth_row(shape, nth);
        if !is_one_of(rows, shape, Which::DecidedAs(order), at.logger, at.tid) {
            continue;
        }
        let row = row_in(rows, at.logger, at.tid);
        let logger = Logger::new(*shape, at.logger);
        logger.apply(media, at.tid, row.first, row.count)?;
    }
    Ok(())
}

/// Clears the votes of the rows that are not decided, and makes that durable. Where there are none it makes no call.
pub(crate) fn drop_votes<M: Media>(
    media: &mut M,
    shape: &Shape,
    rows: &[Row; ROWS_MAX],
) -> Result<(), Failed>
    requires size { (M.view media.old).size ≡ media_len shape.now }
    requires sure { IsTrue M.tells → AllSettled (M.view media.old).content }
    requires rows { IsTrue M.tells → RowsAre shape.now (M.view media.old).content.bytes shape.now.numbers rows.now }
    ensures left { IsTrue M.tells → OnOk result (AllSettled (M.view media.new).content × RowsLeft shape.now (M.view media.new).content.bytes rows.now 0) }
    ensures zeros { IsTrue M.tells → OnOk result (OnlyCleared shape.now (M.view media.old).content.bytes (M.view media.new).content.bytes) }
    ensures costs { Costs true (clear_calls (length (at_rows shape.now (is_one_of shape.now rows.now Dropped) row_name))) (M.view media.old).moment (M.view media.new).moment result }
    ensures does { Writes M.tells (votes_of shape.now (is_one_of shape.now rows.now Dropped)) (M.view media.old) (M.view media.new) result }
{
    if !has_dropped(rows, shape) {
        return Ok(());
    }
    clear_votes(media, shape, rows, Which::Dropped)
}

// Whether a voted row is not decided.
fn has_dropped(rows: &[Row; ROWS_MAX], shape: &Shape) -> bool
    ensures none { result ≡ false → (g t : ℕ) → g < shape.now.loggers → t < shape.now.numbers → is_one_of shape.now rows.now Dropped g t ≡ false }
    ensures some { result ≡ true → 0 < length (at_rows shape.now (is_one_of shape.now rows.now Dropped) row_name) }
{
    for nth in 0..row_count(shape) {
        let at = nth_row(shape, nth);
        if is_one_of(rows, shape, Which::Dropped, at.logger, at.tid) {
            return true;
        }
    }
    false
}

/// Clears the votes of the decided rows, those with the lowest order number first, and makes each order number's durable before the
/// next. The data has to be what they settle to already: then what is left at each moment settles to it.
pub(crate) fn clear_decided<M: Media>(
    media: &mut M,
    shape: &Shape,
    rows: &[Row; ROWS_MAX],
) -> Result<(), Failed>
    requires size { (M.view media.old).size ≡ media_len shape.now }
    requires sure { IsTrue M.tells → AllSettled (M.view media.old).content }
    requires left { IsTrue M.tells → RowsLeft shape.now (M.view media.old).content.bytes rows.now 0 }
    ensures cleared { IsTrue M.tells → OnOk result (AllSettled (M.view media.new).content × HasNoVote shape.now (M.view media.new).content.bytes) }
    ensures zeros { IsTrue M.tells → OnOk result (OnlyCleared shape.now (M.view media.old).content.bytes (M.view media.new).content.bytes) }
    ensures any_moment { IsTrue M.tells → (bytes : List ℕ) → IsRecovering shape.now bytes (M.view media.old).content
        → LeavesOnly (SettlesTo shape.now bytes (range (M.view media.old).content.bytes 0 512)) (M.view media.old) (M.view media.new) }
    ensures costs { Costs true (total (λ o. clear_calls (rows_in_order shape.now rows.now o)) orders) (M.view media.old).moment (M.view media.new).moment result }
    ensures does { Writes M.tells (votes_of shape.now (decided_in shape.now rows.now)) (M.view media.old) (M.view media.new) result }
{
    let mut from = 0;
    while let Some(order) = next_order(rows, shape, from) {
        clear_votes(media, shape, rows, Which::DecidedAs(order))?;
        from = u32::from(order) + 1;
    }
    Ok(())
}

// Clears the votes of these rows, and makes that durable.
fn clear_votes<M: Media>(
    media: &mut M,
    shape: &Shape,
    rows: &[Row; ROWS_MAX],
    which: Which,
) -> Result<(), Failed>
    requires size { (M.view media.old).size ≡ media_len shape.now }
    ensures cleared { IsTrue M.tells → OnOk result (AllSettled (M.view media.new).content × ((g t : ℕ) → g < shape.now.loggers → t < shape.now.numbers → is_one_of shape.now rows.now which g t ≡ true
        → (row_of shape.now (M.view media.new).content.bytes g t).voted ≡ false)) }
    ensures zeros { IsTrue M.tells → OnOk result (OnlyCleared shape.now (M.view media.old).content.bytes (M.view media.new).content.bytes) }
    ensures costs { Costs true (length (at_rows shape.now (is_one_of shape.now rows.now which) row_name) + 1) (M.view media.old).moment (M.view media.new).moment result }
    ensures does { Writes M.tells (votes_of shape.now (is_one_of shape.now rows.now which)) (M.view media.old) (M.view media.new) result }
{
    for nth in 0..row_count(shape) {
        let at = nth_row(shape, nth);
        if !is_one_of(rows, shape, which, at.logger, at.tid) {
            continue;
        }
        Logger::new(*shape, at.logger).unvote(media, at.tid)?;
    }
    media.barrier()
}

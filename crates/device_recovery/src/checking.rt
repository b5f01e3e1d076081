// Looks for decided rows that name cells without a part.
ghost use Rattle.std.specs.Prelude.{◌≡◌, ◌↔◌, ◌+◌, ◌*◌, ◌<◌, ◌≤◌, [], ℕ, true, false, Some, None, IsTrue, IfOk, IfErr, OnOk};
ghost use Rattle.mars_base.specs.Costs.{Costs};
ghost use Rattle.pcm_media.specs.View.{Writes};
ghost use Rattle.array_shape.specs.Places.{media_len};
ghost use Rattle.array_image.specs.Image.{row_of, cell_of, cell_head, IsGoodCell};
ghost use Rattle.array_image.specs.Decided.{decided};
ghost use Rattle.array_image.specs.Standing.{IsGoodRow};
ghost use Rattle.device_recovery.specs.Table.{row_in, RowsAre, decided_in};
ghost use Rattle.pcm_media.specs.Answer.{media_answer};
ghost use Rattle.device_recovery.specs.Recovered.{rows_good, is_of_media, cells_if, row_sum};
ghost use Rattle.device_recovery.specs.declared.report.RecoverFault.TheVariants.{BadRow};

use crate::report::RecoverFault;
use crate::rows::{nth_row, row_count};
use crate::table::{ROWS_MAX, is_decided, row_in};
use array_shape::Shape;
use logger::Logger;
use mars_base::Failed;
use pcm_media::Media;
use row_bytes::{Head, Row, read_head};

// Reads the head of a cell.
fn read_cell_head<M: Media>(
    media: &mut M,
    shape: &Shape,
    logger: u8,
    tid: u8,
    entry: u16,
) -> Result<Head, Failed>
    requires logger { logger < shape.now.loggers }
    requires tid { tid < shape.now.numbers }
    requires entry { entry < shape.now.entries }
    requires size { (M.view media.old).size ≡ media_len shape.now }
    ensures head { IsTrue M.tells → IfOk result (λ head. head ≡ cell_head (cell_of shape.now (M.view media.old).content.bytes logger tid entry)) }
    ensures costs { Costs true 1 (M.view media.old).moment (M.view media.new).moment result }
    ensures does { Writes M.tells [] (M.view media.old) (M.view media.new) result }
{
    let mut bytes = [0; 16];
    media.read(shape.cell_at(logger, tid, entry), &mut bytes)?;
    Ok(read_head(&bytes))
}

// Whether one of the cells holds no part of its logger.
fn has_bad_cell<M: Media>(
    media: &mut M,
    shape: &Shape,
    logger: u8,
    tid: u8,
    first: u16,
    count: u16,
) -> Result<bool, Failed>
    requires logger { logger < shape.now.loggers }
    requires tid { tid < shape.now.numbers }
    requires entries { first + count ≤ shape.now.entries }
    requires size { (M.view media.old).size ≡ media_len shape.now }
    ensures none { IsTrue M.tells → IfOk result (λ bad. bad ≡ false → (e : ℕ) → first ≤ e → e < first + count → IsGoodCell shape.now logger (cell_of shape.now (M.view media.old).content.bytes logger tid e)) }
    ensures some { IsTrue M.tells → IfOk result (λ bad. bad ≡ true → (e : ℕ) × (first ≤ e) × (e < first + count) × (IsGoodCell shape.now logger (cell_of shape.now (M.view media.old).content.bytes logger tid e) → ⊥)) }
    ensures most { (M.view media.new).moment ≤ (M.view media.old).moment + count }
    ensures whole { IfOk result (λ bad. bad ≡ false → (M.view media.new).moment ≡ (M.view media.old).moment + count) }
    ensures does { Writes M.tells [] (M.view media.old) (M.view media.new) result }
{
    for entry in first..first + count {
        let head = read_cell_head(media, shape, logger, tid, entry)?;
        if !Logger::new(*shape, logger).has_part(head) {
            return Ok(true);
        }
    }
    Ok(false)
}

// Whether a row is decided and not good.
fn is_bad<M: Media>(
    media: &mut M,
    shape: &Shape,
    rows: &[Row; ROWS_MAX],
    logger: u8,
    tid: u8,
) -> Result<bool, Failed>
    requires logger { logger < shape.now.loggers }
    requires tid { tid < shape.now.numbers }
    requires size { (M.view media.old).size ≡ media_len shape.now }
    requires rows { IsTrue M.tells → RowsAre shape.now (M.view media.old).content.bytes shape.now.numbers rows.now }
    ensures none { IsTrue M.tells → IfOk result (λ bad. bad ≡ false → decided shape.now (M.view media.old).content.bytes logger tid ≡ true → IsGoodRow shape.now (M.view media.old).content.bytes logger tid) }
    ensures some { IsTrue M.tells → IfOk result (λ bad. bad ≡ true → (decided shape.now (M.view media.old).content.bytes logger tid ≡ true) × (IsGoodRow shape.now (M.view media.old).content.bytes logger tid → ⊥)) }
    ensures most { (M.view media.new).moment ≤ (M.view media.old).moment + cells_if (decided_in shape.now rows.now) (row_in rows.now) logger tid }
    ensures whole { IfOk result (λ bad. bad ≡ false → (M.view media.new).moment ≡ (M.view media.old).moment + cells_if (decided_in shape.now rows.now) (row_in rows.now) logger tid) }
    ensures fits { IfOk result (λ bad. bad ≡ false → decided_in shape.now rows.now logger tid ≡ true → (row_in rows.now logger tid).first + (row_in rows.now logger tid).count ≤ shape.now.entries) }
    ensures does { Writes M.tells [] (M.view media.old) (M.view media.new) result }
{
    if !is_decided(rows, shape, logger, tid) {
        return Ok(false);
    }
    let row = row_in(rows, logger, tid);
    if u32::from(row.first) + u32::from(row.count) > u32::from(shape.entries) {
        return Ok(true);
    }
    has_bad_cell(media, shape, logger, tid, row.first, row.count)
}

/// Refuses the first decided row that is not good.
pub(crate) fn check_rows<M: Media>(
    media: &mut M,
    shape: &Shape,
    rows: &[Row; ROWS_MAX],
) -> Result<(), RecoverFault>
    requires size { (M.view media.old).size ≡ media_len shape.now }
    requires rows { IsTrue M.tells → RowsAre shape.now (M.view media.old).content.bytes shape.now.numbers rows.now }
    ensures good { IsTrue M.tells → OnOk result (rows_good shape.now (M.view media.old).content.bytes None) }
    ensures bad { IsTrue M.tells → IfErr result (λ fault. (g t : ℕ) → fault ≡ BadRow g t → rows_good shape.now (M.view media.old).content.bytes (Some (g, t))) }
    ensures costs { Costs true (row_sum shape.now (cells_if (decided_in shape.now rows.now) (row_in rows.now))) (M.view media.old).moment (M.view media.new).moment result }
    ensures fits { OnOk result ((g t : ℕ) → g < shape.now.loggers → t < shape.now.numbers → decided_in shape.now rows.now g t ≡ true → (row_in rows.now g t).first + (row_in rows.now g t).count ≤ shape.now.entries) }
    ensures does { Writes M.tells [] (M.view media.old) (M.view media.new) (media_answer is_of_media result) }
{
    for nth in 0..row_count(shape) {
        let at = nth_row(shape, nth);
        if is_bad(media, shape, rows, at.logger, at.tid)? {
            return Err(RecoverFault::BadRow {
                logger: at.logger,
                tid: at.tid,
            });
        }
    }
    Ok(())
}

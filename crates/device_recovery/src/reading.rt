// Reads the rows of an array.
ghost use Rattle.std.specs.Prelude.{◌≡◌, ◌≢◌, ◌+◌, ◌*◌, ◌<◌, ◌≤◌, [], ℕ, true, IsTrue, IfOk, OnOk};
ghost use Rattle.mars_base.specs.Costs.{Costs};
ghost use Rattle.pcm_media.specs.View.{Writes};
ghost use Rattle.array_shape.specs.Places.{media_len};
ghost use Rattle.array_image.specs.Image.{row_of};
ghost use Rattle.device_recovery.specs.Table.{row_in, RowsAre};

use crate::rows::{nth_row, row_count};
use crate::table::{ROWS_MAX, place};
use array_shape::Shape;
use mars_base::Failed;
use pcm_media::Media;
use row_bytes::{Row, read_row};

const NO_ROW: Row = Row {
    voted: false,
    mask: 0,
    first: 0,
    count: 0,
    group: 0,
    order: 0,
};

fn read_one<M: Media>(media: &mut M, shape: &Shape, logger: u8, tid: u8) -> Result<Row, Failed>
    requires logger { logger < shape.now.loggers }
    requires tid { tid < shape.now.numbers }
    requires size { (M.view media.old).size ≡ media_len shape.now }
    ensures row { IsTrue M.tells → IfOk result (λ row. row ≡ row_of shape.now (M.view media.old).content.bytes logger tid) }
    ensures costs { Costs true 1 (M.view media.old).moment (M.view media.new).moment result }
    ensures does { Writes M.tells [] (M.view media.old) (M.view media.new) result }
{
    let mut bytes = [0; 16];
    media.read(shape.row_at(logger, tid), &mut bytes)?;
    Ok(read_row(&bytes))
}

/// Reads all rows, each once.
pub(crate) fn read_rows<M: Media>(media: &mut M, shape: &Shape) -> Result<[Row; ROWS_MAX], Failed>
    requires size { (M.view media.old).size ≡ media_len shape.now }
    ensures rows { IsTrue M.tells → IfOk result (RowsAre shape.now (M.view media.old).content.bytes shape.now.numbers) }
    ensures costs { Costs true (shape.now.loggers * shape.now.numbers) (M.view media.old).moment (M.view media.new).moment result }
    ensures does { Writes M.tells [] (M.view media.old) (M.view media.new) result }
{
    let mut rows = [NO_ROW; ROWS_MAX];
    for nth in 0..row_count(shape) {
        let at = nth_row(shape, nth);
        rows[place(at.logger, at.tid)] = read_one(media, shape, at.logger, at.tid)?;
    }
    Ok(rows)
}

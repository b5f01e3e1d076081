// Counts the voted rows.
ghost use Rattle.std.specs.Prelude.{◌≡◌, ◌+◌, ◌*◌, ◌<◌, ◌≤◌, Bool, not, ◌&&◌, length};
ghost use Rattle.device_recovery.specs.Table.{row_in, decided_in};
ghost use Rattle.device_recovery.specs.Recovered.{row_name, at_rows};

use crate::report::Report;
use crate::rows::{nth_row, row_count};
use crate::table::{ROWS_MAX, is_decided, row_in};
use array_shape::Shape;
use row_bytes::Row;

/// Counts the voted rows that are decided, and the others.
pub(crate) fn count_rows(rows: &[Row; ROWS_MAX], shape: &Shape) -> Report
    ensures decided { result.decided ≡ length (at_rows shape.now (λ g t. decided_in shape.now rows.now g t) row_name) }
    ensures dropped { result.dropped ≡ length (at_rows shape.now (λ g t. (row_in rows.now g t).voted && not (decided_in shape.now rows.now g t)) row_name) }
    ensures few_decided { result.decided ≤ 512 }
    ensures few_dropped { result.dropped ≤ 512 }
{
    let mut report = Report {
        decided: 0,
        dropped: 0,
    };
    for nth in 0..row_count(shape) {
        let at = nth_row(shape, nth);
        if !row_in(rows, at.logger, at.tid).voted {
            continue;
        }
        if is_decided(rows, shape, at.logger, at.tid) {
            report.decided += 1;
            continue;
        }
        report.dropped += 1;
    }
    report
}

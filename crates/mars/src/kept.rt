// How much of a file stays in memory.
ghost use Rattle.std.specs.Prelude.{◌≡◌, IfOk};

use array_shape::{
    CELL_LEN, ENTRIES_MAX, HEADER_LEN, LOGGERS_MAX, NUMBERS_MAX, PAGE_LEN, PAGES_MAX, ROW_LEN,
};
use pcm_media::Media;
use resident_media::ResidentMedia;
use std::alloc::{AllocFailed, Global};

// The region of a logger of the largest array: its pages, its rows and its cells.
const REGION_LEN: u64 = PAGES_MAX as u64 * PAGE_LEN
    + NUMBERS_MAX as u64 * (ROW_LEN + ENTRIES_MAX as u64 * CELL_LEN);

// Bytes of the largest array.
const KEPT: u64 = HEADER_LEN + LOGGERS_MAX as u64 * REGION_LEN;

/// This medium behind reads from memory. Where there is no memory for that, each call is handed on to it.
pub fn resident<M: Media>(alloc: Global, media: M) -> Result<ResidentMedia<M>, AllocFailed<M>>
    ensures over { IfOk result (λ resident. resident.inner ≡ media) }
{
    match ResidentMedia::over(alloc, media, KEPT) {
        Ok(resident) => Ok(resident),
        Err(failed) => ResidentMedia::over(alloc, failed.value, 0),
    }
}

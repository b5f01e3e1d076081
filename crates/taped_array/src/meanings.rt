// What a status means, in English.
use crate::status::*;

pub fn text_of(status: i32) -> &'static [u8] {
    match status {
        OK => b"done",
        UNKNOWN => b"the array has no such number, or the number has no log",
        LOG_FULL => b"a logger has no room for the write: commit or abort",
        MEDIA => b"the device failed or memory ran out: open the array again",
        DEAD => b"the device failed before: open the array again",
        NO_MEMORY => b"no memory",
        NOT_MARS => b"the bytes hold no array",
        BAD_SHAPE => b"there is no array of this shape, or it has another length",
        BAD_ROW => b"a row of the image is bad",
        BAD_DEPTH => b"at most 64 commits may wait",
        BAD_RANGE => b"the range is empty or reaches too far",
        BAD_PART => b"the log has no such part",
        IN_USE => b"the number has a log: commit or abort it",
        NO_PIECE => b"there is no such piece",
        IS_CLOSED => b"the array is closed",
        IS_OPEN => b"the array is open: close it first",
        _ => b"there is no such status",
    }
}

// What a status means, in English.
use crate::status::*;

pub fn text_of(status: i32) -> &'static [u8] {
    match status {
        OK => b"done",
        ABSENT => b"there is no record",
        NO_TRANSACTION => b"the caller has no transaction: begin one",
        NO_TABLE => b"there is no table of this name",
        ALREADY => b"the caller has a transaction already",
        NO_SAVE => b"the transaction has no such save",
        SAVES_FULL => b"all 32 saves are taken",
        BUSY => b"another caller holds the key: abort and try again",
        LOG_FULL => b"the transaction's log is full: commit or abort",
        SLOTS_FULL => b"the array is full for new keys",
        PAGES_FULL => b"the index has too few pages left",
        MEDIA => b"the device failed or memory ran out: open the array again",
        DEAD => b"the device failed before: open the array again",
        NO_MEMORY => b"no memory",
        DAMAGED => b"the image is damaged",
        BAD_CALLER => b"there is no such caller",
        _ => text_of_other(status),
    }
}

fn text_of_other(status: i32) -> &'static [u8] {
    match status {
        BAD_NAME => b"a table's name has 1 to 16 letters from a to z",
        BAD_VALUE => b"a value has 1 to 54 bytes from ! to ~",
        BAD_SHAPE => b"there is no array of this shape, or it has another length",
        NOT_MARS => b"the bytes hold no array",
        BAD_ROW => b"a row of the image is bad",
        NO_PIECE => b"there is no such piece",
        FILE => b"the file cannot be opened, read or written, or another program has it",
        IS_CLOSED => b"the array is closed",
        BAD_KEY => b"the key of long bytes is below 2 to the power of 55",
        TOO_LONG => b"long bytes are at most 16384",
        BROKEN => b"the records under the key are not those of long bytes",
        HALF => b"the long bytes are half written: abort the transaction",
        IN_USE => b"some caller has a transaction: end all of them first",
        NAME_TAKEN => b"there is a table of this name",
        TABLES_FULL => b"an array has at most 8 tables",
        IS_OPEN => b"the array is open: close it first",
        BAD_DEPTH => b"at most 64 commits may wait",
        _ => b"there is no such status",
    }
}

// Records are read one by one.
ghost use Rattle.std.specs.Prelude.{◌≡◌, ◌≤◌, Some, IfSome, IfNone};
ghost use Rattle.taped_calls.specs.Told.{IsPutOut};
ghost use Rattle.taped_records.specs.Cursor.{AsksNext, Seeks, status_first, key_first, value_first};

use crate::cursor::{First, wider};
use crate::records::TapedRecords;
use crate::refusals::refusal_status;
use crate::status::{ABSENT, BAD_CALLER, BAD_NAME, OK};
use record_slots::Name;
use taped_calls::put_out;

impl TapedRecords {
    /// The first record from one key to another, both included: its key, as much of its value as there is room for, and how long that is.
    pub fn next(
        &mut self,
        caller: u8,
        table: &[u8],
        from: u64,
        to: u64,
        key: &mut u64,
        room: &mut [u8],
        len: &mut u64,
    ) -> i32
        ensures { AsksNext table.now from to caller key.old key.new room.old room.new len.old len.new self.old self.new result }
    {
        let Some(name) = Name::of(table) else {
            return BAD_NAME;
        };
        match self.seek(caller, name, from, to) {
            Some(answer) => tell_first(&answer, key, room, len),
            None => BAD_CALLER,
        }
    }

    fn seek(&mut self, caller: u8, table: Name, from: u64, to: u64) -> Option<First>
        ensures some { IfSome result (Seeks table from to caller self.old self.new) }
        ensures none { IfNone result ((self.old.callers ≤ caller) × (self.new ≡ self.old)) }
    {
        if caller >= self.callers {
            return None;
        }
        let answer = self.core.first(caller, table, from, to, self.window);
        self.window = next_window(&answer, from, self.window);
        Some(answer)
    }
}

// The next window is as wide as this step was, but no more than once wider than the last: so it does not stay wide behind one gap.
fn next_window(answer: &First, from: u64, window: u64) -> u64 {
    match answer {
        Ok(Some((found, _))) => found.saturating_sub(from).min(wider(window)),
        _ => window,
    }
}

// Its status, and what was read.
fn tell_first(answer: &First, key: &mut u64, room: &mut [u8], len: &mut u64) -> i32
    ensures status { result ≡ status_first answer.now }
    ensures key { key.new ≡ key_first key.old (Some answer.now) }
    ensures value { IsPutOut (value_first (Some answer.now)) room.old room.new len.old len.new }
{
    match answer {
        Ok(Some((found, value))) => {
            *key = *found;
            put_out(value.as_bytes(), room, len);
            OK
        }
        Ok(None) => ABSENT,
        Err(refusal) => refusal_status(refusal),
    }
}

// A call of a caller's is made by the core of an open array.
ghost use Rattle.std.specs.Prelude.{◌≡◌, ◌≤◌, Some, IfSome, IfNone};
ghost use Rattle.taped_records.specs.Calls.{Makes, Calls, Fits};
ghost use Rattle.taped_records.specs.Told.{same_rows, rows_in, count_in};

use crate::records::TapedRecords;
use crate::status::{BAD_CALLER, status_of};
use history::{Call, Reply, Rows};

impl TapedRecords {
    /// Makes a caller's call. There is no reply where there is no such caller.
    pub fn ask(&mut self, caller: u8, call: &Call) -> Option<Reply>
        ensures some { IfSome result (Makes same_rows caller call.now self.old self.new) }
        ensures none { IfNone result ((self.old.callers ≤ caller) × (self.new ≡ self.old)) }
    {
        if caller >= self.callers {
            return None;
        }
        Some(self.core.step(caller, call))
    }

    /// Makes a scan, whose rows are kept, and puts into `count` how many there are.
    pub fn ask_rows(&mut self, caller: u8, call: &Call, count: &mut u64) -> i32
        ensures { Calls rows_in Fits (λ told. count.new ≡ count_in count.old told) caller call.now self.old self.new result }
    {
        let Some(reply) = self.ask(caller, call) else {
            return BAD_CALLER;
        };
        let status = status_of(&reply);
        *count = counted(&reply, *count);
        keep(&mut self.rows, reply);
        status
    }
}

fn counted(reply: &Reply, was: u64) -> u64
    ensures { result ≡ count_in was (Some reply.now) }
{
    match reply {
        Reply::Listed(rows) => rows.as_slice().len() as u64,
        _ => was,
    }
}

fn keep(rows: &mut Rows, reply: Reply)
    ensures { rows.new ≡ rows_in rows.old reply }
{
    match reply {
        Reply::Listed(listed) => *rows = listed,
        _ => {}
    }
}

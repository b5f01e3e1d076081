// The tally of the replies to a script.
ghost use Rattle.std.specs.Prelude.{◌≡◌, ◌≤◌, ◌<◌, ◌+◌, ◌-◌, ◌^◌, []};
ghost use Rattle.history.specs.declared.call.Reply.TheVariants.{Fine};
ghost use Rattle.mars_shell.specs.Tally.{tally_of, total, counted, Goes};

use history::{Call, Control, Reply};
use script_run::Stop;

/// How many commits and aborts were done, how many calls found their keys locked, and how many were refused for
/// good, as where the array is full.
#[derive(Clone, Copy)]
pub struct Tally {
    pub committed: u64,
    pub aborted: u64,
    pub busy: u64,
    pub refused: u64,
}

impl Tally {
    pub fn new() -> Tally
        ensures { result ≡ tally_of [] }
    {
        Tally {
            committed: 0,
            aborted: 0,
            busy: 0,
            refused: 0,
        }
    }

    /// Counts the reply to a call.
    pub fn count(&mut self, call: &Call, reply: &Reply)
        requires { total self.old < 2 ^ 64 - 1 }
        ensures counts { self.new ≡ counted self.old call.now reply.now }
        ensures one { total self.new ≤ total self.old + 1 }
    {
        match reply {
            Reply::Committed(_) => self.committed += 1,
            Reply::Fine => self.count_fine(call),
            Reply::Busy { .. } => self.busy += 1,
            Reply::NoTable
            | Reply::NoSave { .. }
            | Reply::SavesFull
            | Reply::LogFull { .. }
            | Reply::SlotsFull { .. }
            | Reply::PagesFull { .. } => self.refused += 1,
            Reply::Found(_)
            | Reply::Absent
            | Reply::Listed(_)
            | Reply::Saved(_)
            | Reply::Purged(_)
            | Reply::NoTransaction
            | Reply::Already
            | Reply::Media
            | Reply::NoMemory
            | Reply::Dead
            | Reply::Damaged { .. } => {}
        }
    }

    // Of the calls whose reply is just `Fine`, only an abort is counted.
    fn count_fine(&mut self, call: &Call)
        requires { self.old.aborted < 2 ^ 64 - 1 }
        ensures counts { self.new ≡ counted self.old call.now Fine }
        ensures one { total self.new ≤ total self.old + 1 }
    {
        match call {
            Call::Control(control) => match control {
                Control::Abort => self.aborted += 1,
                Control::Commit | Control::Offer | Control::Settle | Control::Purge => {}
            },
            Call::Begin | Call::Table(_) => {}
        }
    }
}

/// Whether the script goes on after the reply to a caller, or why it ends there.
pub fn going_on(caller: u8, reply: &Reply) -> Result<(), Stop>
    ensures { Goes caller reply.now result }
{
    match reply {
        Reply::Media => Err(Stop::Media { number: caller }),
        Reply::NoMemory => Err(Stop::NoMemory),
        _ => Ok(()),
    }
}

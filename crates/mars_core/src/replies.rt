// Replies to calls of records.
ghost use Rattle.std.specs.Prelude.{◌≡◌, if◌then◌else◌};
ghost use Rattle.history.specs.Table.{found};
ghost use Rattle.history.specs.declared.call.Reply.TheVariants.{Fine, Absent};

use history::Reply;
use record_slots::Value;

// The reply to a get that finds this.
pub fn found(value: &Option<Value>) -> Reply
    ensures { result ≡ found value.now }
{
    match value {
        Some(value) => Reply::Found(*value),
        None => Reply::Absent,
    }
}

// The reply to a removal of a record that was there or was not.
pub fn removed(was: bool) -> Reply
    ensures { result ≡ (if was then Fine else Absent) }
{
    if was { Reply::Fine } else { Reply::Absent }
}

// What is put where the caller has room for it.
ghost use Rattle.std.specs.Prelude.{◌≡◌};
ghost use Rattle.taped_calls.specs.Told.{IsPutOut};
ghost use Rattle.taped_records.specs.Told.{status_in, number_in, value_in};

use crate::status::{BAD_CALLER, status_of};
use history::Reply;
use taped_calls::put_out;

/// Tells the status of an answer.
pub fn tell(answer: &Option<Reply>) -> i32
    ensures { result ≡ status_in answer.now }
{
    match answer {
        Some(reply) => status_of(reply),
        None => BAD_CALLER,
    }
}

/// Tells its status, and the number of its reply.
pub fn tell_number(answer: &Option<Reply>, number: &mut u64) -> i32
    ensures status { result ≡ status_in answer.now }
    ensures number { number.new ≡ number_in number.old answer.now }
{
    match answer {
        Some(Reply::Saved(saves)) => *number = u64::from(*saves),
        Some(Reply::Committed(at)) => *number = *at,
        Some(Reply::Purged(keys)) => *number = u64::from(*keys),
        _ => {}
    }
    tell(answer)
}

/// Tells its status, and the value that was found.
pub fn tell_value(answer: &Option<Reply>, room: &mut [u8], len: &mut u64) -> i32
    ensures status { result ≡ status_in answer.now }
    ensures value { IsPutOut (value_in answer.now) room.old room.new len.old len.new }
{
    if let Some(Reply::Found(value)) = answer {
        put_out(value.as_bytes(), room, len);
    }
    tell(answer)
}

// What is told of a call on long bytes: its status, and what was read.
ghost use Rattle.std.specs.Prelude.{◌≡◌, Some};
ghost use Rattle.taped_calls.specs.Told.{IsPutOut};
ghost use Rattle.taped_records.specs.Long.{status_of_stop, status_put, status_del, status_read, bytes_read, length_read};

use crate::refusals::refusal_status;
use crate::status::{ABSENT, BROKEN, HALF, NO_MEMORY, OK, TOO_LONG};
use long_values::Unkept;
use taped_calls::put_out;
use transactions::Stop;

/// The status of a put.
pub fn tell_put(answer: &Result<(), Stop<Unkept>>) -> i32
    ensures { result ≡ status_put answer.now }
{
    match answer {
        Ok(()) => OK,
        Err(stop) => stop_status(stop),
    }
}

/// The status of a removal.
pub fn tell_del(answer: &Result<bool, Stop<Unkept>>) -> i32
    ensures { result ≡ status_del answer.now }
{
    match answer {
        Ok(true) => OK,
        Ok(false) => ABSENT,
        Err(stop) => stop_status(stop),
    }
}

/// The status of a get, and as many of the bytes as there is room for.
pub fn tell_bytes(
    answer: &Result<Option<Vec<u8>>, Stop<Unkept>>,
    room: &mut [u8],
    len: &mut u64,
) -> i32
    ensures status { result ≡ status_read answer.now }
    ensures bytes { IsPutOut (bytes_read (Some answer.now)) room.old room.new len.old len.new }
{
    match answer {
        Ok(Some(bytes)) => {
            put_out(bytes, room, len);
            OK
        }
        Ok(None) => ABSENT,
        Err(stop) => stop_status(stop),
    }
}

/// The status of a look-up of the length, and how many bytes there are.
pub fn tell_length(answer: &Result<Option<u64>, Stop<Unkept>>, len: &mut u64) -> i32
    ensures status { result ≡ status_read answer.now }
    ensures length { len.new ≡ length_read len.old (Some answer.now) }
{
    match answer {
        Ok(Some(count)) => {
            *len = *count;
            OK
        }
        Ok(None) => ABSENT,
        Err(stop) => stop_status(stop),
    }
}

// The status of a call that was not done.
fn stop_status(stop: &Stop<Unkept>) -> i32
    ensures { result ≡ status_of_stop stop.now }
{
    match stop {
        Stop::Refused(refusal) => refusal_status(refusal),
        Stop::GivenUp(Unkept::TooLong) => TOO_LONG,
        Stop::GivenUp(Unkept::Broken) => BROKEN,
        Stop::GivenUp(Unkept::NoMemory) => NO_MEMORY,
        Stop::GivenUp(Unkept::Half(_)) => HALF,
    }
}

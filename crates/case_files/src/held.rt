// Where those who work in a run are held.
use crate::fault::LineFault;
use crate::fields::{numbers, word_and_rest};
use std::alloc::Global;

/// The kinds of places to which they come.
#[derive(Clone, Copy)]
pub enum Stop {
    Began,
    Answered,
    Offered,
    Ended,
    /// The only one to which a reader comes.
    ReadBegan,
}

/// What happens as a worker comes to a place for the `time`-th time, from 1 on: one flag is set, and then another is waited for. The flag 0 is
/// none.
#[derive(Clone, Copy)]
pub struct Held {
    pub stop: Stop,
    pub who: u8,
    pub nth: u64,
    /// Which call was answered; 0 at a place of another kind.
    pub call: u64,
    pub time: u64,
    pub sets: u32,
    pub waits: u32,
}

impl Held {
    pub(crate) fn read(alloc: Global, text: &str) -> Result<Held, LineFault> {
        let (word, rest) = word_and_rest(text);
        let stop = stop_of(word)?;
        let numbers = numbers(alloc, rest)?;
        let [who, nth, call, time, sets, waits] = numbers.as_slice() else {
            return Err(LineFault::Hold);
        };
        let Ok(who) = u8::try_from(*who) else {
            return Err(LineFault::Number);
        };
        Ok(Held {
            stop,
            who,
            nth: u64::from(*nth),
            call: u64::from(*call),
            time: u64::from(*time),
            sets: *sets,
            waits: *waits,
        })
    }
}

fn stop_of(word: &str) -> Result<Stop, LineFault> {
    match word {
        "began" => Ok(Stop::Began),
        "answered" => Ok(Stop::Answered),
        "offered" => Ok(Stop::Offered),
        "ended" => Ok(Stop::Ended),
        "read" => Ok(Stop::ReadBegan),
        _ => Err(LineFault::Hold),
    }
}

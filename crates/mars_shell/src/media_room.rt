// How long the medium of an image has to be.
ghost use Rattle.std.specs.Prelude.{map, string_bytes, IfOk};
ghost use Rattle.mars_shell.specs.Room.{IsRoom};

use crate::formatting::room_of;
use command_words::{Words, WordsFault, read_words};
use mars_base::NoMemory;
use std::alloc::Global;

/// The length in bytes of the medium that a `format` of these words needs, or 0 for other words and if a number is out of range.
pub fn room(alloc: Global, words: &[String]) -> Result<u64, NoMemory>
    ensures { IfOk result (IsRoom (map string_bytes words.now)) }
{
    match read_words(alloc, words) {
        Ok(Words::Format(numbers)) => Ok(room_of(&numbers)),
        Ok(
            Words::Run(_)
            | Words::Callers(_)
            | Words::Eaw(_)
            | Words::Dump
            | Words::Drill(_)
            | Words::Make(_)
            | Words::Purge
            | Words::Follow,
        ) => Ok(0),
        Err(WordsFault::NoCommand) => Ok(0),
        Err(WordsFault::NoMemory) => Err(NoMemory),
    }
}

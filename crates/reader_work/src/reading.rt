// The work of one reader.
ghost use Rattle.std.specs.Prelude.{◌≡◌, length};
ghost use mathlib.Core.List.{IsPrefix};
ghost use Rattle.snapshot_readers.specs.Batches.{joined};
ghost use Rattle.snapshot_readers.specs.Feeds.{read, read_book, read_base};
ghost use Rattle.history.specs.Answers.{IsAnswer};
ghost use Rattle.reader_work.specs.Reading.{CanRead, HasRead};

use caller_plans::Keys;
use caller_work::{Gate, Place, tell};
use ghost_notes::Notes;
use history::{Answer, Key};
use record_slots::Names;
use snapshot_readers::Reader;
use std::sync::Wait;

/// Asks for its keys in order. There must be room for each answer beforehand.
#[derive(Drop)]
pub struct ReadWorker {
    pub number: u8,
    pub reader: Reader,
    /// The names of the tables that there are.
    pub names: Names,
    pub keys: Keys,
    pub answers: Vec<Answer>,
    /// The places that it has told its gate, in order. They exist only in proofs.
    pub told: Notes<Place>,
}

/// Asks for each key, and calls the gate before each.
pub fn read_keys<R: Wait, G: Gate>(rt: &R, worker: &mut ReadWorker, gate: &G)
    requires { CanRead worker.old }
    ensures { HasRead worker.old worker.new }
{
    for nth in 0..worker.keys.len() {
        let key = worker.keys.as_slice()[nth];
        let began = Place::ReadBegan {
            reader: worker.number,
            nth: nth as u64 + 1,
        };
        tell(gate, &mut worker.told, began);
        let answer = answer_for(rt, &mut worker.reader, &worker.names, &key);
        worker.answers.push_reserved(answer);
    }
}

// The answer for a key: its value in what the reader then has read, unless there is no table of its name.
fn answer_for<R: Wait>(rt: &R, reader: &mut Reader, names: &Names, key: &Key) -> Answer
    ensures on { IsPrefix (read reader.old) (read reader.new) }
    ensures answer { IsAnswer names.now (read_base reader.new) (joined (read reader.new)) (length (joined (read reader.new))) key.now result }
    ensures same { (read_book reader.new ≡ read_book reader.old) × (read_base reader.new ≡ read_base reader.old) }
{
    if names.number(&key.table).is_none() {
        return Answer::NoTable;
    }
    let (at, value) = reader.get(rt, key);
    Answer::Value {
        key: *key,
        at,
        value,
    }
}

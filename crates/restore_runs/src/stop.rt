// Why nothing is restored.
ghost use Rattle.std.specs.Prelude.{◌≡◌};
ghost use Rattle.restore_runs.specs.Stops.{input_stop};

use array_shape::BadShape;
use dump_text::DumpFault;
use mars_base::NoMemory;
use script_run::InputFault;
use table_builder::BuildFault;
use thiserror::Error;

/// Why no array is made of an input.
#[derive(Clone, Copy, Debug, PartialEq, Eq, Error)]
pub enum Stop {
    #[error("too long")]
    TooLong,
    #[error("read fault")]
    ReadFault,
    #[error("no memory")]
    NoMemory,
    /// The input is not a dump.
    #[error("{0}")]
    Dump(DumpFault),
    /// A number of the array is out of its range.
    #[error("{0}")]
    Shape(BadShape),
    /// The tables have no room in an array of this shape.
    #[error("{0}")]
    Tables(BuildFault),
}

impl Stop {
    /// The status that the process ends with.
    pub fn number(self) -> u8 {
        match self {
            Stop::TooLong => 3,
            Stop::ReadFault => 4,
            Stop::NoMemory => 7,
            Stop::Shape(_) => 9,
            Stop::Tables(_) => 10,
            Stop::Dump(DumpFault::NoMemory) => 7,
            Stop::Dump(_) => 13,
        }
    }
}

impl From<NoMemory> for Stop {
    ghost use Rattle.std.specs.Prelude.{◌≡◌};
    ghost use Rattle.restore_runs.specs.declared.stop.Stop.TheVariants.{NoMemory};

    ghost from_gives = { λ _ e. e ≡ NoMemory };

    fn from(_: NoMemory) -> Self {
        Stop::NoMemory
    }
}

/// The stop of an input that was not read.
pub fn input_stop(fault: InputFault) -> Stop
    ensures { result ≡ input_stop fault }
{
    match fault {
        InputFault::TooLong => Stop::TooLong,
        InputFault::Failed => Stop::ReadFault,
        InputFault::NoMemory => Stop::NoMemory,
    }
}

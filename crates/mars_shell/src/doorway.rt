// Where a run gets its gate.
ghost use Rattle.std.specs.Prelude.{◌≡◌};

use caller_work::{Gate, OpenGate};

/// The way to a gate, which a run takes only where callers are asked for. Who works for doorways of any type has no other gate.
pub trait Doorway {
    type Behind: Gate + Sync + Drop;

    /// The gate that it leads to.
    ghost gate: { Self → Self.Behind };

    /// That it was opened.
    ghost opened: { Self → Type 0 };

    fn open(&mut self) -> Self::Behind
        ensures gate { result ≡ gate self.old }
        ensures opened { opened self.new };
}

/// The way to a gate that stops nobody.
#[derive(Clone, Copy, Debug, PartialEq, Eq)]
pub struct OpenDoorway;

impl Doorway for OpenDoorway {
    type Behind = OpenGate;

    ghost gate = { λ doorway. record {} };

    ghost opened = { λ doorway. Unit {0} };

    fn open(&mut self) -> OpenGate {
        OpenGate
    }
}

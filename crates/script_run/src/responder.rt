// The trait of what answers the lines of a script.
ghost use Rattle.std.specs.Prelude.{◌≡◌, Bool, List, ℕ, IsTrue, OnOk};
ghost use Rattle.script_run.specs.Script.{Script};
ghost use Rattle.script_run.specs.Answers.{Answers, HasStopCause};

/// Why a line has no answer.
#[derive(Clone, Copy, Debug, PartialEq, Eq)]
pub enum Stop {
    /// The medium failed in what the line asks for under this number.
    Media { number: u8 },
    NoMemory,
}

/// Answers the lines of a script one after another, each from the state that the previous one has left.
pub trait Responder {
    /// Whether it tells its state. The clauses on states hold if it does.
    ghost tells: { Bool };

    /// What lines act on.
    ghost State: { Type 0 };

    /// How lines act on that.
    ghost script: { Script State };

    /// It can answer a further line.
    ghost is_ready: { Self → Type 0 };

    /// It is in this state.
    ghost stands: { Self → State → Type 0 };

    /// From a responder in a state to a later one in a state: what a loss of power may have left meanwhile, and what it may leave now.
    ghost comes: { Self → State → Self → State → Type 0 };

    /// How often the medium below has failed.
    ghost faults: { Self → ℕ };

    /// In this state, this is the committed data.
    ghost holds: { State → List ℕ → Type 0 };

    /// From a responder to the one that a line leaves: what was sent of the data.
    ghost sends: { Self → Self → Type 0 };

    /// Does what the `n`-th line says, and leaves its answer in `out`.
    fn answer(&mut self, line: &[u8], n: u64, out: &mut Vec<u8>) -> Result<(), Stop>
        requires { is_ready self.old }
        ensures ready { OnOk result (is_ready self.new) }
        ensures answers { IsTrue tells → (state : State) → stands self.old state
            → Answers script (stands self.new) (comes self.old state self.new) state n line.now out.new.items result }
        ensures cause { HasStopCause (faults self.old) (faults self.new) result }
        ensures sends { sends self.old self.new };

    /// `comes` holds from a responder to itself.
    ghost comes_none: { (self : Self) (state : State) → IsTrue tells → is_ready self → stands self state → comes self state self state };

    /// `comes` is transitive.
    ghost comes_on: { (first mid last : Self) (s t u : State) → IsTrue tells → is_ready mid → stands mid t
        → comes first s mid t → comes mid t last u → comes first s last u };
}

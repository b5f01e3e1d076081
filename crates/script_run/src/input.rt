// The whole input, read into memory before anything else is looked at.
ghost use Rattle.std.specs.Prelude.{◌≡◌, ◌<◌, ◌≤◌, List, ℕ, [], length, IfOk, OnOk, IsErrOf, IsTrue};
ghost use Rattle.script_run.specs.Input.{input_limit, InputCounts};

use outside::Source;
use std::alloc::Global;

/// The most bytes that an input may have.
pub const MOST: usize = 16_777_216;

/// Why an input was not read.
#[derive(Clone, Copy, Debug, PartialEq, Eq)]
pub enum InputFault {
    TooLong,
    Failed,
    NoMemory,
}

/// All bytes of a source up to its end.
pub fn read_input<S: Source>(alloc: Global, source: &mut S) -> Result<Vec<u8>, InputFault>
    ensures all { IfOk result (λ input. IsTrue S.tells → S.left source.old ≡ input.items) }
    ensures ended { OnOk result (IsTrue S.tells → S.left source.new ≡ []) }
    ensures most { IfOk result (λ input. length input.items ≤ input_limit) }
    ensures too_long { IsErrOf result InputFault.TooLong → (input : List ℕ) × (input_limit < length input) × (IsTrue S.tells → S.left source.old ≡ input) }
    ensures counts { InputCounts (S.faults source.old) (S.faults source.new) result }
    ensures steady { IsTrue (S.steady source.old) → IsErrOf result InputFault.Failed → ⊥ }
{
    let mut input = Vec::new(alloc);
    let mut buf = [0; 4096];
    loop {
        let count = match source.read(&mut buf) {
            Ok(count) => count,
            Err(_) => return Err(InputFault::Failed),
        };
        if count == 0 {
            return Ok(input);
        }
        if count > MOST - input.len() {
            return Err(InputFault::TooLong);
        }
        if input.extend_from_slice(&buf[..count]).is_err() {
            return Err(InputFault::NoMemory);
        }
    }
}

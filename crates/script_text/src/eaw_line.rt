ghost use Rattle.script_text.specs.Reads.{ReadsShown};
ghost use Rattle.script_text.specs.Line.{IsLineOf};
ghost use Rattle.script_text.specs.Eaw.{IsTextOf};
ghost use Rattle.script_text.specs.EawLines.{SaysEaw, ShowsTold};

use crate::eaw_call::{EawCall, read_eaw_call};
use crate::number::split_below;
use crate::word::is_passed_over;

/// What a line of raw commands says. It borrows the line.
#[derive(Clone, Copy, Debug, PartialEq, Eq)]
pub enum EawLine<'a> {
    /// The line is empty or begins with `#`.
    Nothing,
    Told { number: u8, call: EawCall<'a> },
    Bad,
}

/// Reads a line of raw commands without its newline, for an array of `numbers` transaction numbers.
pub fn read_eaw(bytes: &[u8], numbers: u8) -> EawLine<'_>
    ensures { SaysEaw numbers bytes.now result }
{
    if is_passed_over(bytes) {
        return EawLine::Nothing;
    }
    match read_eaw_told(bytes, numbers) {
        Some((number, call)) => EawLine::Told { number, call },
        None => EawLine::Bad,
    }
}

fn read_eaw_told(bytes: &[u8], numbers: u8) -> Option<(u8, EawCall<'_>)>
    ensures { ReadsShown ShowsTold (λ m. IsLineOf (IsTextOf m.0 m.1) numbers m.0) bytes.now result }
{
    let (number, rest) = split_below(bytes, numbers)?;
    let call = read_eaw_call(rest)?;
    Some((number, call))
}

ghost use Rattle.script_text.specs.Reads.{ReadsText};
ghost use Rattle.script_text.specs.Line.{LineSays, IsLineOf, IsCallText};

use crate::call::read_call;
use crate::number::split_below;
use crate::word::is_passed_over;
use history::Call;

/// What a line of a script says.
#[derive(Clone, Copy, Debug, PartialEq, Eq)]
pub enum Line {
    /// The line is empty or begins with `#`.
    Nothing,
    Told { caller: u8, call: Call },
    Bad,
}

/// Reads a line without its newline, for `callers` callers.
pub fn read_line(bytes: &[u8], callers: u8) -> Line
    ensures { LineSays callers bytes.now result }
{
    if is_passed_over(bytes) {
        return Line::Nothing;
    }
    match read_told(bytes, callers) {
        Some((caller, call)) => Line::Told { caller, call },
        None => Line::Bad,
    }
}

/// A caller and its call, if the line is that of one.
pub fn read_told(bytes: &[u8], callers: u8) -> Option<(u8, Call)>
    ensures { ReadsText (λ t. IsLineOf (IsCallText t.1) callers t.0) bytes.now result }
{
    let (caller, rest) = split_below(bytes, callers)?;
    let call = read_call(rest)?;
    Some((caller, call))
}

// Lines of a script with readers beside its callers.
ghost use Rattle.std.specs.Prelude.{◌≡◌};
ghost use Rattle.script_text.specs.Reads.{ReadsText};
ghost use Rattle.script_text.specs.JointLine.{IsReadLine, JointLineSays};

use crate::line::{Line, read_line, read_told};
use crate::word::after;
use history::{Call, Key, TableCall};

/// What a line of a script says where there are readers beside the callers.
#[derive(Clone, Copy, Debug, PartialEq, Eq)]
pub enum JointLine {
    /// The line is empty or begins with `#`.
    Nothing,
    Told { caller: u8, call: Call },
    /// A reader asks for the value of a key.
    Read { reader: u8, key: Key },
    Bad,
}

/// Reads a line without its newline, for so many callers and readers.
pub fn read_joint_line(bytes: &[u8], callers: u8, readers: u8) -> JointLine
    ensures { JointLineSays callers readers bytes.now result }
{
    match read_line(bytes, callers) {
        Line::Nothing => JointLine::Nothing,
        Line::Told { caller, call } => JointLine::Told { caller, call },
        Line::Bad => match read_reader_line(bytes, readers) {
            Some((reader, key)) => JointLine::Read { reader, key },
            None => JointLine::Bad,
        },
    }
}

// A reader and the key that it asks for, if the line is that of one.
fn read_reader_line(bytes: &[u8], readers: u8) -> Option<(u8, Key)>
    ensures { ReadsText (λ t. IsReadLine readers t.0 t.1) bytes.now result }
{
    let rest = after(bytes, b"r")?;
    let (reader, call) = read_told(rest, readers)?;
    let Call::Table(asked) = call else {
        return None;
    };
    match asked {
        TableCall::Get { table, key } => Some((reader, Key { table, key })),
        _ => None,
    }
}

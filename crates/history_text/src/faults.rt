// The lines of a script that were passed over.
ghost use Rattle.std.specs.Prelude.{◌≡◌, ◌++◌, OnOk};
ghost use Rattle.std.specs.List.{flat_map};
ghost use Rattle.caller_plans.specs.declared.fate.LineFault.TheVariants.{Stray};
ghost use Rattle.history_text.specs.Text.{fault_line};

use caller_plans::LineFault;
use mars_base::NoMemory;
use script_text::write_bad_line;
use texts::{Piece, append_pieces};

/// Appends a line for each line that was passed over. At `Err` some of them may have been appended.
pub fn write_faults(text: &mut Vec<u8>, faults: &[LineFault]) -> Result<(), NoMemory>
    ensures { OnOk result (text.new.items ≡ text.old.items ++ flat_map fault_line faults.now) }
{
    for fault in faults {
        write_fault(text, fault)?;
    }
    Ok(())
}

fn write_fault(text: &mut Vec<u8>, fault: &LineFault) -> Result<(), NoMemory>
    ensures { OnOk result (text.new.items ≡ text.old.items ++ fault_line fault.now) }
{
    match fault {
        LineFault::Bad { line } => write_bad_line(text, *line),
        LineFault::Stray { line } => write_stray(text, *line),
    }
}

fn write_stray(text: &mut Vec<u8>, line: u64) -> Result<(), NoMemory>
    ensures { OnOk result (text.new.items ≡ text.old.items ++ fault_line (Stray line)) }
{
    append_pieces(
        text,
        &[
            Piece::Words(b"stray line "),
            Piece::Number(line),
            Piece::Words(b"\n"),
        ],
    )
}

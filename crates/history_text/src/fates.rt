// What became of a caller's plans that are not in the history.
ghost use Rattle.std.specs.Prelude.{◌≡◌, ◌++◌, OnOk};
ghost use Rattle.caller_plans.specs.declared.fate.Fate.TheVariants.{Aborted, Refused};
ghost use Rattle.history_text.specs.Text.{fate_line, numbered};

use caller_plans::Fate;
use history::Reply;
use mars_base::NoMemory;
use script_text::put_reply_text;
use texts::{Piece, append_pieces};

/// Appends a line for each of the caller's plans that was aborted or refused. At `Err` some of them may have been appended.
pub fn write_fates(text: &mut Vec<u8>, caller: u8, fates: &[Fate]) -> Result<(), NoMemory>
    ensures { OnOk result (text.new.items ≡ text.old.items ++ numbered (fate_line caller) 1 fates.now) }
{
    for (i, fate) in fates.iter().enumerate() {
        write_fate(text, caller, i as u64 + 1, fate)?;
    }
    Ok(())
}

fn write_fate(text: &mut Vec<u8>, caller: u8, n: u64, fate: &Fate) -> Result<(), NoMemory>
    ensures { OnOk result (text.new.items ≡ text.old.items ++ fate_line caller n fate.now) }
{
    match fate {
        Fate::Committed { .. } => Ok(()),
        Fate::Aborted => write_aborted(text, caller, n),
        Fate::Refused { reply } => write_refused(text, caller, n, reply),
    }
}

fn write_aborted(text: &mut Vec<u8>, caller: u8, n: u64) -> Result<(), NoMemory>
    ensures { OnOk result (text.new.items ≡ text.old.items ++ fate_line caller n Aborted) }
{
    append_pieces(
        text,
        &[
            Piece::Number(u64::from(caller)),
            Piece::Words(b" aborted "),
            Piece::Number(n),
            Piece::Words(b"\n"),
        ],
    )
}

fn write_refused(text: &mut Vec<u8>, caller: u8, n: u64, reply: &Reply) -> Result<(), NoMemory>
    ensures { OnOk result (text.new.items ≡ text.old.items ++ fate_line caller n (Refused reply.now)) }
{
    append_pieces(
        text,
        &[
            Piece::Number(u64::from(caller)),
            Piece::Words(b" refused "),
            Piece::Number(n),
            Piece::Words(b" "),
        ],
    )?;
    put_reply_text(text, reply)?;
    text.extend_from_slice(b"\n")?;
    Ok(())
}

// The text of a drill.
ghost use Rattle.std.specs.Prelude.{◌≡◌, ◌++◌, codes, IfOk, OnOk};
ghost use Rattle.std.specs.Fmt.{decimal};
ghost use Rattle.history_text.specs.Text.{number_line};
ghost use Rattle.mars_shell.specs.Tally.{key_sum, look_text, tally_text};

use crate::tally::Tally;
use command_words::DrillNumbers;
use history::Reply;
use history_text::append_number;
use mars_base::NoMemory;
use record_slots::Value;
use script_text::write_reply;
use std::alloc::Global;
use texts::{Piece, append_pieces};

/// The text that says what a script was drawn from, the tally of its replies, and how many records there are at the end with the sum of
/// their keys, or what a look at the records is answered in their place.
pub fn summary_text(
    alloc: Global,
    numbers: &DrillNumbers,
    tally: &Tally,
    look: &Reply,
) -> Result<Vec<u8>, NoMemory>
    ensures { IfOk result (λ text. text.items ≡ tally_text numbers.now tally.now look.now) }
{
    let mut text = Vec::new(alloc);
    append_drill(&mut text, numbers)?;
    append_number(&mut text, b"committed", tally.committed)?;
    append_number(&mut text, b"aborted", tally.aborted)?;
    append_number(&mut text, b"busy", tally.busy)?;
    append_number(&mut text, b"refused", tally.refused)?;
    append_look(&mut text, look)?;
    Ok(text)
}

fn append_look(text: &mut Vec<u8>, look: &Reply) -> Result<(), NoMemory>
    ensures { OnOk result (text.new.items ≡ text.old.items ++ look_text look.now) }
{
    match look {
        Reply::Listed(rows) => {
            let rows = rows.as_slice();
            append_number(text, b"records", rows.len() as u64)?;
            append_number(text, b"sum", key_sum(rows))
        }
        _ => write_reply(text, 0, look),
    }
}

fn append_drill(text: &mut Vec<u8>, numbers: &DrillNumbers) -> Result<(), NoMemory>
    ensures { OnOk result (text.new.items ≡ text.old.items ++ number_line (codes "drill " ++ decimal numbers.now.seed) numbers.now.count) }
{
    append_pieces(
        text,
        &[
            Piece::Words(b"drill "),
            Piece::Number(u64::from(numbers.seed)),
            Piece::Words(b" "),
            Piece::Number(u64::from(numbers.count)),
            Piece::Words(b"\n"),
        ],
    )
}

// The sum of the keys of the rows, modulo `2^64`.
fn key_sum(rows: &[(u64, Value)]) -> u64
    ensures { result ≡ key_sum rows.now }
{
    let mut sum: u64 = 0;
    for row in rows {
        sum = sum.wrapping_add(row.0);
    }
    sum
}

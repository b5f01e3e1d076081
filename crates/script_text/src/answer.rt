ghost use Rattle.std.specs.Prelude.{◌≡◌, ℕ, List, [], ◌∷◌, ◌++◌, codes, decimal, OnOk, OnErr};
ghost use Rattle.texts.specs.Pieces.{text_of};
ghost use Rattle.script_text.specs.HexText.{hex_of};
ghost use Rattle.script_text.specs.AnswerLines.{answer_text};
ghost use Rattle.script_text.specs.Replies.{told_line};

use crate::hex_text::append_hex;
use crate::lent::Lent;
use mars_base::NoMemory;
use texts::{Piece, append_pieces};

/// The answer to a raw command.
#[derive(Drop)]
pub enum Answer<'a> {
    /// The write is logged, and the number now has this many parts.
    Logged(u32),
    Fine,
    /// A logged part.
    Part { addr: u64, bytes: Lent<'a> },
    /// Committed data.
    Data { bytes: Lent<'a> },
    /// How many parts a number has logged.
    Len(u32),
    /// How many of them a given logger holds.
    Held(u16),
    /// The number holds no log.
    Unknown,
    /// A range, an offset, a part or a logger does not exist.
    BadRange,
    /// The number holds a log but must not.
    Live,
    LogFull { logger: u8, held: u16, needed: u16 },
}

/// Appends the line of an answer, with bytes in hexadecimal.
pub fn write_answer(out: &mut Vec<u8>, number: u8, answer: &Answer<'_>) -> Result<(), NoMemory>
    ensures ok { OnOk result (out.new.items ≡ out.old.items ++ told_line number (answer_text number answer.now)) }
    ensures err { OnErr result (out.new.items ≡ out.old.items) }
{
    let told = Piece::Number(u64::from(number));
    let end = Piece::Words(b"\n");
    match answer {
        Answer::Logged(n) => append_count(out, number, b" logged ", *n),
        Answer::Fine => append_pieces(out, &[told, Piece::Words(b" ok"), end]),
        Answer::Part { addr, bytes } => {
            let front = [
                told,
                Piece::Words(b" part "),
                Piece::Number(*addr),
                Piece::Words(b" "),
            ];
            append_bytes(out, &front, bytes.as_bytes())
        }
        Answer::Data { bytes } => {
            append_bytes(out, &[told, Piece::Words(b" data ")], bytes.as_bytes())
        }
        Answer::Len(n) => append_count(out, number, b" len ", *n),
        Answer::Held(n) => append_count(out, number, b" held ", u32::from(*n)),
        Answer::Unknown => append_count(out, number, b" unknown ", u32::from(number)),
        Answer::BadRange => append_pieces(out, &[told, Piece::Words(b" bad range"), end]),
        Answer::Live => append_pieces(out, &[told, Piece::Words(b" live"), end]),
        Answer::LogFull {
            logger,
            held,
            needed,
        } => append_log_full(out, number, *logger, *held, *needed),
    }
}

// Appends a line that ends with a count.
fn append_count(out: &mut Vec<u8>, number: u8, words: &[u8], n: u32) -> Result<(), NoMemory>
    ensures ok { OnOk result (out.new.items ≡ out.old.items ++ (decimal number ++ (words.now ++ (decimal n ++ 10 ∷ [])))) }
    ensures err { OnErr result (out.new.items ≡ out.old.items) }
{
    append_pieces(
        out,
        &[
            Piece::Number(u64::from(number)),
            Piece::Words(words),
            Piece::Number(u64::from(n)),
            Piece::Words(b"\n"),
        ],
    )
}

fn append_log_full(
    out: &mut Vec<u8>,
    number: u8,
    logger: u8,
    held: u16,
    needed: u16,
) -> Result<(), NoMemory>
    ensures ok { OnOk result (out.new.items ≡ out.old.items ++ (decimal number ++ (codes " log full " ++ (decimal logger ++ 32 ∷ (decimal held ++ 32 ∷ (decimal needed ++ 10 ∷ [])))))) }
    ensures err { OnErr result (out.new.items ≡ out.old.items) }
{
    append_pieces(
        out,
        &[
            Piece::Number(u64::from(number)),
            Piece::Words(b" log full "),
            Piece::Number(u64::from(logger)),
            Piece::Words(b" "),
            Piece::Number(u64::from(held)),
            Piece::Words(b" "),
            Piece::Number(u64::from(needed)),
            Piece::Words(b"\n"),
        ],
    )
}

// Appends a line that ends with bytes in hexadecimal.
fn append_bytes(out: &mut Vec<u8>, front: &[Piece<'_>], bytes: &[u8]) -> Result<(), NoMemory>
    ensures ok { OnOk result (out.new.items ≡ out.old.items ++ (text_of front.now ++ (hex_of bytes.now ++ 10 ∷ []))) }
    ensures err { OnErr result (out.new.items ≡ out.old.items) }
{
    let start = out.len();
    let answer = append_some_bytes(out, front, bytes);
    if answer.is_err() {
        out.truncate(start);
    }
    answer
}

// The same, but at `Err` a front of the line may have been appended.
fn append_some_bytes(out: &mut Vec<u8>, front: &[Piece<'_>], bytes: &[u8]) -> Result<(), NoMemory>
    ensures ok { OnOk result (out.new.items ≡ out.old.items ++ (text_of front.now ++ (hex_of bytes.now ++ 10 ∷ []))) }
    ensures err { OnErr result ((rest : List ℕ) × (out.new.items ≡ out.old.items ++ rest)) }
{
    append_pieces(out, front)?;
    append_hex(out, bytes)?;
    append_pieces(out, &[Piece::Words(b"\n")])
}

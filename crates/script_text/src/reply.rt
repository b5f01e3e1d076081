ghost use Rattle.std.specs.Prelude.{◌≡◌, [], ◌∷◌, ◌++◌, codes, decimal, OnOk, OnErr};
ghost use Rattle.history.specs.Told.{told_reply};
ghost use Rattle.texts.specs.Written.{Appends};
ghost use Rattle.script_text.specs.Replies.{reply_text, told_line, row_lines, reply_line, bad_line};

use history::{KeptRows, Reply, Told};
use mars_base::NoMemory;
use record_slots::Value;
use texts::{MEDIA_FAULT, Piece, TextOut, append_pieces, put_number, put_pieces};

/// Appends the line of a reply, and a line for each row that it lists, or nothing.
pub fn write_reply(out: &mut Vec<u8>, caller: u8, reply: &Reply) -> Result<(), NoMemory>
    ensures ok { OnOk result (out.new.items ≡ out.old.items ++ reply_line caller reply.now) }
    ensures err { OnErr result (out.new.items ≡ out.old.items) }
{
    let start = out.len();
    let answer = put_reply(out, caller, reply);
    if answer.is_err() {
        out.truncate(start);
    }
    answer
}

/// Puts the line of a reply, and a line for each row that it lists.
pub fn put_reply<E, T: TextOut<E>>(out: &mut T, caller: u8, reply: &Reply) -> Result<(), E>
    ensures { Appends T.tells (T.view out.old) (T.view out.new) result (reply_line caller reply.now) }
{
    put_told(out, caller, reply)?;
    match reply {
        Reply::Listed(rows) => put_rows(out, caller, rows.as_slice()),
        _ => Ok(()),
    }
}

/// Puts the lines of a reply that a history keeps.
pub fn put_kept<E, T: TextOut<E>>(out: &mut T, caller: u8, told: &Told<'_>) -> Result<(), E>
    ensures { Appends T.tells (T.view out.old) (T.view out.new) result (reply_line caller (told_reply told.now)) }
{
    match told {
        Told::Plain(reply) => put_reply(out, caller, reply),
        Told::Rows(rows) => put_listed(out, caller, rows),
    }
}

fn put_listed<E, T: TextOut<E>>(out: &mut T, caller: u8, rows: &KeptRows<'_>) -> Result<(), E>
    ensures { Appends T.tells (T.view out.old) (T.view out.new) result (reply_line caller (Reply.Listed rows.now)) }
{
    put_rows_head(out, caller, rows.len())?;
    put_kept_rows(out, caller, rows.all())
}

fn put_rows_head<E, T: TextOut<E>>(out: &mut T, caller: u8, count: u64) -> Result<(), E>
    ensures { Appends T.tells (T.view out.old) (T.view out.new) result (told_line caller (codes "rows " ++ decimal count)) }
{
    put_pieces(
        out,
        &[
            Piece::Number(u64::from(caller)),
            Piece::Words(b" rows "),
            Piece::Number(count),
            Piece::Words(b"\n"),
        ],
    )
}

fn put_kept_rows<E, T: TextOut<E>>(out: &mut T, caller: u8, rows: KeptRows<'_>) -> Result<(), E>
    ensures { Appends T.tells (T.view out.old) (T.view out.new) result (row_lines caller (Reply.Listed rows.entry)) }
{
    let mut left = rows;
    while let Some((key, value, rest)) = left.next() {
        put_row(out, caller, key, &value)?;
        left = rest;
    }
    Ok(())
}

// Puts the line of a reply without its rows.
fn put_told<E, T: TextOut<E>>(out: &mut T, caller: u8, reply: &Reply) -> Result<(), E>
    ensures { Appends T.tells (T.view out.old) (T.view out.new) result (told_line caller (reply_text reply.now)) }
{
    put_number(out, u64::from(caller))?;
    out.put(b" ")?;
    put_reply_text(out, reply)?;
    out.put(b"\n")
}

/// Puts the words of a reply.
pub fn put_reply_text<E, T: TextOut<E>>(out: &mut T, reply: &Reply) -> Result<(), E>
    ensures { Appends T.tells (T.view out.old) (T.view out.new) result (reply_text reply.now) }
{
    match reply {
        Reply::Fine => out.put(b"ok"),
        Reply::Found(value) => put_value(out, value),
        Reply::Absent => out.put(b"none"),
        Reply::Listed(rows) => put_count(out, b"rows ", rows.as_slice().len() as u64),
        Reply::Saved(n) => put_count(out, b"saved ", u64::from(*n)),
        Reply::Committed(n) => put_count(out, b"committed ", *n),
        Reply::Purged(n) => put_count(out, b"purged ", u64::from(*n)),
        Reply::NoTransaction => out.put(b"no transaction"),
        Reply::NoTable => out.put(b"no table"),
        Reply::Already => out.put(b"already"),
        Reply::NoSave { save } => put_count(out, b"no save ", u64::from(*save)),
        Reply::SavesFull => out.put(b"saves full 32"),
        Reply::Busy { holder } => put_count(out, b"busy ", u64::from(*holder)),
        Reply::LogFull {
            logger,
            held,
            needed,
        } => put_log_full(out, *logger, *held, *needed),
        Reply::SlotsFull { slots: n } => put_count(out, b"slots full ", u64::from(*n)),
        Reply::PagesFull { pages: n } => put_count(out, b"pages full ", u64::from(*n)),
        Reply::Media => out.put(MEDIA_FAULT),
        Reply::Dead => out.put(b"dead"),
        Reply::NoMemory => out.put(b"no memory"),
        Reply::Damaged { page } => put_count(out, b"damaged ", u64::from(*page)),
    }
}

/// Appends the answer to a bad line. Lines are counted from 1.
pub fn write_bad_line(out: &mut Vec<u8>, n: u64) -> Result<(), NoMemory>
    ensures ok { OnOk result (out.new.items ≡ out.old.items ++ bad_line n) }
    ensures err { OnErr result (out.new.items ≡ out.old.items) }
{
    append_pieces(
        out,
        &[
            Piece::Words(b"bad line "),
            Piece::Number(n),
            Piece::Words(b"\n"),
        ],
    )
}

fn put_value<E, T: TextOut<E>>(out: &mut T, value: &Value) -> Result<(), E>
    ensures { Appends T.tells (T.view out.old) (T.view out.new) result (codes "val " ++ value.now) }
{
    out.put(b"val ")?;
    out.put(value.as_bytes())
}

// Puts words that end with a number.
fn put_count<E, T: TextOut<E>>(out: &mut T, words: &[u8], n: u64) -> Result<(), E>
    ensures { Appends T.tells (T.view out.old) (T.view out.new) result (words.now ++ decimal n) }
{
    out.put(words)?;
    put_number(out, n)
}

fn put_log_full<E, T: TextOut<E>>(out: &mut T, logger: u8, held: u16, needed: u16) -> Result<(), E>
    ensures { Appends T.tells (T.view out.old) (T.view out.new) result (reply_text (Reply.LogFull logger held needed)) }
{
    put_pieces(
        out,
        &[
            Piece::Words(b"log full "),
            Piece::Number(u64::from(logger)),
            Piece::Words(b" "),
            Piece::Number(u64::from(held)),
            Piece::Words(b" "),
            Piece::Number(u64::from(needed)),
        ],
    )
}

// Puts a line for each row.
fn put_rows<E, T: TextOut<E>>(out: &mut T, caller: u8, rows: &[(u64, Value)]) -> Result<(), E>
    ensures { Appends T.tells (T.view out.old) (T.view out.new) result (row_lines caller (Reply.Listed rows.now)) }
{
    for row in rows {
        put_row(out, caller, row.0, &row.1)?;
    }
    Ok(())
}

fn put_row<E, T: TextOut<E>>(out: &mut T, caller: u8, key: u64, value: &Value) -> Result<(), E>
    ensures { Appends T.tells (T.view out.old) (T.view out.new) result (told_line caller (codes "row " ++ decimal key ++ 32 ∷ value.now)) }
{
    put_pieces(
        out,
        &[
            Piece::Number(u64::from(caller)),
            Piece::Words(b" row "),
            Piece::Number(key),
            Piece::Words(b" "),
            Piece::Words(value.as_bytes()),
            Piece::Words(b"\n"),
        ],
    )
}

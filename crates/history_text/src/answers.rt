// What readers were answered.
ghost use Rattle.std.specs.Prelude.{◌≡◌, ◌++◌, ◌≤◌, length, OnOk};
ghost use Rattle.std.specs.List.{flat_map};
ghost use Rattle.history.specs.declared.answer.Answer as Answer;
ghost use Rattle.history.specs.Table.{found};
ghost use Rattle.script_text.specs.Replies.{reply_text};
ghost use Rattle.history_text.specs.Text.{answer_line, answer_text, numbered};

use crate::keys::append_key;
use history::{Answer, Answers, Key, Reply};
use mars_base::NoMemory;
use record_slots::Value;
use script_text::put_reply_text;
use texts::{Piece, append_pieces};

/// Appends the lines of all readers, which are numbered from 0. At `Err` some of them may have been appended.
pub fn write_answers(text: &mut Vec<u8>, told: &[Answers]) -> Result<(), NoMemory>
    requires few { length told.now ≤ 255 }
    ensures { OnOk result (text.new.items ≡ text.old.items ++ numbered (λ reader. flat_map (answer_line reader)) 0 told.now) }
{
    for (reader, answers) in told.iter().enumerate() {
        write_reader(text, reader as u8, answers.as_slice())?;
    }
    Ok(())
}

// Appends a line for each answer of a reader.
fn write_reader(text: &mut Vec<u8>, reader: u8, answers: &[Answer]) -> Result<(), NoMemory>
    ensures { OnOk result (text.new.items ≡ text.old.items ++ flat_map (answer_line reader) answers.now) }
{
    for answer in answers {
        write_answer(text, reader, answer)?;
    }
    Ok(())
}

fn write_answer(text: &mut Vec<u8>, reader: u8, answer: &Answer) -> Result<(), NoMemory>
    ensures { OnOk result (text.new.items ≡ text.old.items ++ answer_line reader answer.now) }
{
    append_pieces(
        text,
        &[
            Piece::Words(b"read "),
            Piece::Number(u64::from(reader)),
            Piece::Words(b" "),
        ],
    )?;
    write_answer_text(text, answer)?;
    text.extend_from_slice(b"\n")?;
    Ok(())
}

fn write_answer_text(text: &mut Vec<u8>, answer: &Answer) -> Result<(), NoMemory>
    ensures { OnOk result (text.new.items ≡ text.old.items ++ answer_text answer.now) }
{
    match answer {
        Answer::Value { key, at, value } => write_value(text, key, *at, value),
        Answer::NoTable => put_reply_text(text, &Reply::NoTable),
    }
}

fn write_value(
    text: &mut Vec<u8>,
    key: &Key,
    at: u64,
    value: &Option<Value>,
) -> Result<(), NoMemory>
    ensures { OnOk result (text.new.items ≡ text.old.items ++ answer_text (Answer.Value key.now at value.now)) }
{
    append_key(text, key)?;
    append_pieces(
        text,
        &[Piece::Words(b" at "), Piece::Number(at), Piece::Words(b" ")],
    )?;
    write_found(text, value)
}

fn write_found(text: &mut Vec<u8>, value: &Option<Value>) -> Result<(), NoMemory>
    ensures { OnOk result (text.new.items ≡ text.old.items ++ reply_text (found value.now)) }
{
    match value {
        Some(value) => append_pieces(
            text,
            &[Piece::Words(b"val "), Piece::Words(value.as_bytes())],
        ),
        None => append_pieces(text, &[Piece::Words(b"none")]),
    }
}

// The lines of an input and of its answers.
use crate::fault::LineFault;
use crate::fields::size;
use std::alloc::Global;

/// Puts a line, whose mark may say how often and whether a newline ends it, behind what is there.
pub fn push_lines(
    alloc: Global,
    out: &mut Vec<u8>,
    mark: &str,
    text: &str,
) -> Result<(), LineFault> {
    let (mark, is_ended) = match mark.strip_suffix('|') {
        Some(front) => (front, false),
        None => (mark, true),
    };
    let times = match mark.strip_prefix('*') {
        Some(times) => size(times)?,
        None if mark.is_empty() => 1,
        None => return Err(LineFault::Repetition),
    };
    let mut line = Vec::new(alloc);
    push_text(alloc, &mut line, text)?;
    if is_ended {
        line.push(b'\n')?;
    }
    out.extend_from_slice(&line.repeat(alloc, times)?)?;
    Ok(())
}

// Puts a text with its repetitions.
fn push_text(alloc: Global, out: &mut Vec<u8>, text: &str) -> Result<(), LineFault> {
    let mut pieces = text.split('{');
    if let Some(front) = pieces.next() {
        push_escaped(alloc, out, front)?;
    }
    for piece in pieces {
        let (repeated, behind) = piece.split_once('}').ok_or(LineFault::Repetition)?;
        let (once, times) = repeated.rsplit_once('*').ok_or(LineFault::Repetition)?;
        out.extend_from_slice(&once.as_bytes().repeat(alloc, size(times)?)?)?;
        push_escaped(alloc, out, behind)?;
    }
    Ok(())
}

// Puts a text with its escaped bytes.
fn push_escaped(alloc: Global, out: &mut Vec<u8>, text: &str) -> Result<(), LineFault> {
    let mut pieces = text.split('\\');
    if let Some(front) = pieces.next() {
        out.extend_from_slice(front.as_bytes())?;
    }
    for piece in pieces {
        push_behind_escape(alloc, out, piece)?;
    }
    Ok(())
}

// Puts a byte that is escaped, and the text behind it.
fn push_behind_escape(alloc: Global, out: &mut Vec<u8>, piece: &str) -> Result<(), LineFault> {
    let digits = piece.strip_prefix('x').ok_or(LineFault::Escape)?;
    let (byte, behind) = digits.split_at_checked(2).ok_or(LineFault::Escape)?;
    let Ok(byte) = hex::decode(alloc, byte) else {
        return Err(LineFault::Escape);
    };
    out.extend_from_slice(&byte)?;
    out.extend_from_slice(behind.as_bytes())?;
    Ok(())
}

// The parts of a line.
ghost use Rattle.std.specs.Prelude.{◌<◌, ◌≤◌, IfOk, vec_len};

use crate::fault::LineFault;
use std::alloc::Global;

/// The first word, and what follows the space behind it.
pub fn word_and_rest(text: &str) -> (&str, &str) {
    text.split_once(' ').unwrap_or((text, ""))
}

pub fn two_words(text: &str) -> Result<(&str, &str), LineFault> {
    text.split_once(' ').ok_or(LineFault::Missing)
}

pub fn number(text: &str) -> Result<u64, LineFault> {
    match text.parse::<u64>() {
        Ok(number) => Ok(number),
        Err(_) => Err(LineFault::Number),
    }
}

pub fn size(text: &str) -> Result<usize, LineFault> {
    match text.parse::<usize>() {
        Ok(number) => Ok(number),
        Err(_) => Err(LineFault::Number),
    }
}

// A number below 2^32.
fn small(text: &str) -> Result<u32, LineFault> {
    match text.parse::<u32>() {
        Ok(number) => Ok(number),
        Err(_) => Err(LineFault::Number),
    }
}

/// Such numbers, with spaces between them.
pub fn numbers(alloc: Global, text: &str) -> Result<Vec<u32>, LineFault> {
    let mut numbers = Vec::new(alloc);
    for word in text.split_whitespace() {
        numbers.push(small(word)?)?;
    }
    Ok(numbers)
}

/// The first and the last of `A to B`, which are one number where no second stands.
pub fn span(text: &str) -> Result<(u64, u64), LineFault>
    ensures { IfOk result (λ span. span.0 ≤ span.1) }
{
    let (first, last) = match text.split_once(" to ") {
        Some((first, last)) => (number(first)?, number(last)?),
        None => {
            let only = number(text)?;
            (only, only)
        }
    };
    if last < first {
        return Err(LineFault::Number);
    }
    Ok((first, last))
}

pub fn words(alloc: Global, text: &str) -> Result<Vec<String>, LineFault> {
    let mut words = Vec::new(alloc);
    for word in text.split_whitespace() {
        words.push(String::from_str(alloc, word)?)?;
    }
    Ok(words)
}

/// `HEX` or `HEX*N`, at least one byte.
pub fn bytes(alloc: Global, text: &str) -> Result<Vec<u8>, LineFault>
    ensures { IfOk result (λ bytes. 0 < vec_len bytes) }
{
    let (digits, times) = match text.split_once('*') {
        Some((digits, times)) => (digits, size(times)?),
        None => (text, 1),
    };
    let Ok(once) = hex::decode(alloc, digits) else {
        return Err(LineFault::Hex);
    };
    let bytes = once.repeat(alloc, times)?;
    if bytes.is_empty() {
        return Err(LineFault::Hex);
    }
    Ok(bytes)
}

/// Bytes for what is not sure, as `HEX` or as `-`, which is none. There is one choice at least.
pub fn choices(alloc: Global, text: &str) -> Result<Vec<Vec<u8>>, LineFault>
    ensures { IfOk result (λ choices. 0 < vec_len choices) }
{
    let mut choices = Vec::new(alloc);
    for word in text.split_whitespace() {
        choices.push(choice(alloc, word)?)?;
    }
    if choices.is_empty() {
        choices.push(Vec::new(alloc))?;
    }
    Ok(choices)
}

fn choice(alloc: Global, word: &str) -> Result<Vec<u8>, LineFault> {
    if word == "-" {
        return Ok(Vec::new(alloc));
    }
    bytes(alloc, word)
}

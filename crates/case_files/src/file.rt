// The cases of a file.
use crate::case::Case;
use crate::fault::{BadLine, LineFault};
use std::alloc::Global;

// A line that says something, and its number.
#[derive(Clone, Copy)]
struct Line<'a> {
    number: usize,
    text: &'a str,
}

/// The cases of a file with this text.
pub fn read_cases(alloc: Global, text: &str) -> Result<Vec<Case>, BadLine> {
    let mut head = Vec::new(alloc);
    let mut cases = Vec::new(alloc);
    for (i, text) in text.lines().enumerate() {
        let line = Line {
            number: i.saturating_add(1),
            text,
        };
        if let Err(fault) = take_line(alloc, line, &mut head, &mut cases) {
            return Err(BadLine {
                line: line.number,
                fault,
            });
        }
    }
    Ok(cases)
}

// Puts a line where it belongs: to the head, to a new case, or to the last case.
fn take_line<'a>(
    alloc: Global,
    line: Line<'a>,
    head: &mut Vec<Line<'a>>,
    cases: &mut Vec<Case>,
) -> Result<(), LineFault> {
    if line.text.is_empty() || line.text.starts_with('#') {
        return Ok(());
    }
    if let Some(name) = line.text.strip_prefix("case ") {
        let case = case_behind(alloc, head, name, line.number)?;
        cases.push(case)?;
        return Ok(());
    }
    match cases.last_mut() {
        Some(case) => case.take(alloc, line.text),
        None => {
            head.push(line)?;
            Ok(())
        }
    }
}

// A case of this name that begins with the lines of the head.
fn case_behind(alloc: Global, head: &[Line], name: &str, number: usize) -> Result<Case, LineFault> {
    let mut case = Case::new(alloc, name, number)?;
    for line in head {
        case.take(alloc, line.text)?;
    }
    Ok(case)
}

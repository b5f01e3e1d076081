use crate::fault::LineFault;
use crate::fields::{choices, numbers, size, word_and_rest};
use crate::run::Run;
use std::alloc::Global;

/// What there is before a case is played.
#[derive(Clone, Copy)]
pub enum Image {
    /// A fresh array of these numbers.
    Fresh {
        loggers: u8,
        numbers: u8,
        entries: u16,
        pages: u32,
    },
    Zeros {
        len: usize,
    },
}

#[derive(Drop)]
pub struct Case {
    pub name: String,
    /// The line at which it begins.
    pub line: usize,
    /// What the case is to be refused for, if it is wrong.
    pub wrong: Option<String>,
    pub image: Image,
    pub is_over_file: bool,
    /// Each goes over what the one before it left.
    pub runs: Vec<Run>,
}

impl Case {
    /// A case of one run, of which nothing is said yet.
    pub fn new(alloc: Global, name: &str, line: usize) -> Result<Case, LineFault> {
        let mut runs = Vec::new(alloc);
        runs.push(Run::new(alloc, choices(alloc, "")?)?)?;
        Ok(Case {
            name: String::from_str(alloc, name)?,
            line,
            wrong: None,
            image: Image::Fresh {
                loggers: 4,
                numbers: 8,
                entries: 16,
                pages: 64,
            },
            is_over_file: false,
            runs,
        })
    }

    /// Takes what a line says.
    pub fn take(&mut self, alloc: Global, line: &str) -> Result<(), LineFault> {
        let (word, rest) = word_and_rest(line);
        match word {
            "wrong" => self.wrong = Some(String::from_str(alloc, rest)?),
            "image" => self.image = read_image(alloc, rest)?,
            "file" => self.is_over_file = true,
            _ => take_run_line(alloc, &mut self.runs, word, rest)?,
        }
        Ok(())
    }
}

// Takes what a line says of the last run, or that another follows.
fn take_run_line(
    alloc: Global,
    runs: &mut Vec<Run>,
    word: &str,
    rest: &str,
) -> Result<(), LineFault> {
    if word == "then" {
        runs.push(Run::new(alloc, choices(alloc, rest)?)?)?;
        return Ok(());
    }
    match runs.last_mut() {
        Some(run) => run.take(alloc, word, rest),
        None => Err(LineFault::Word),
    }
}

fn read_image(alloc: Global, text: &str) -> Result<Image, LineFault> {
    match word_and_rest(text) {
        ("fresh", shape) => read_fresh(&numbers(alloc, shape)?),
        ("zeros", len) => Ok(Image::Zeros { len: size(len)? }),
        _ => Err(LineFault::Image),
    }
}

fn read_fresh(shape: &[u32]) -> Result<Image, LineFault> {
    let [loggers, numbers, entries, pages] = shape else {
        return Err(LineFault::Image);
    };
    let (Ok(loggers), Ok(numbers), Ok(entries)) = (
        u8::try_from(*loggers),
        u8::try_from(*numbers),
        u16::try_from(*entries),
    ) else {
        return Err(LineFault::Number);
    };
    Ok(Image::Fresh {
        loggers,
        numbers,
        entries,
        pages: *pages,
    })
}

use crate::draws::push_drawn;
use crate::fault::LineFault;
use crate::fields::{bytes, number, size, span, two_words, word_and_rest, words};
use crate::held::Held;
use crate::loads::push_loads;
use crate::text_lines::push_lines;
use std::alloc::Global;

/// Bytes, and the place in the image where they begin.
#[derive(Drop)]
pub struct Placed {
    pub at: usize,
    pub bytes: Vec<u8>,
}

/// What goes wrong in a run.
#[derive(Clone, Copy)]
pub enum TroubleKind {
    Nothing,
    Read,
    Write,
    Medium,
    Power,
}

/// What goes wrong, and at which calls: the run is made once for each of them.
#[derive(Clone, Copy)]
pub struct Trouble {
    pub kind: TroubleKind,
    pub first: u64,
    pub last: u64,
}

/// Answers and a status that a run may end with.
#[derive(Drop)]
pub struct Wanted {
    pub text: Vec<u8>,
    /// Of the text only the lines before the write that fails.
    pub is_front: bool,
    /// No text is said.
    pub is_unsaid: bool,
    /// Where calls of the medium are to fail, no call failed.
    pub is_unfailed: bool,
    /// The number of the status, and the text told of it.
    pub status: u64,
    pub fault: String,
}

/// A call that the medium is asked for, as text.
#[derive(Drop)]
pub struct Made {
    pub nth: usize,
    pub call: String,
}

/// What a run leaves on the medium.
#[derive(Drop)]
pub struct Left {
    pub has: Vec<Placed>,
    /// All other bytes are as before.
    pub is_only: bool,
    pub is_unwritten: bool,
    /// The call that failed is the last.
    pub is_stopped: bool,
    pub calls: Option<usize>,
    pub made: Vec<Made>,
}

/// A run over what is there.
#[derive(Drop)]
pub struct Run {
    /// What stands where nothing is sure of what the run before left.
    pub choices: Vec<Vec<u8>>,
    pub len: Option<usize>,
    pub sets: Vec<Placed>,
    pub words: Vec<String>,
    pub input: Vec<u8>,
    /// Who is held where.
    pub holds: Vec<Held>,
    pub trouble: Trouble,
    /// Each way that will do.
    pub wanted: Vec<Wanted>,
    pub left: Left,
}

impl Run {
    /// A run without words and input, of which no answer and status 0 are wanted.
    pub fn new(alloc: Global, choices: Vec<Vec<u8>>) -> Result<Run, LineFault> {
        let mut ways = Vec::new(alloc);
        ways.push(Wanted::new(alloc))?;
        Ok(Run {
            choices,
            len: None,
            sets: Vec::new(alloc),
            words: Vec::new(alloc),
            input: Vec::new(alloc),
            holds: Vec::new(alloc),
            trouble: Trouble {
                kind: TroubleKind::Nothing,
                first: 0,
                last: 0,
            },
            wanted: ways,
            left: Left {
                has: Vec::new(alloc),
                is_only: false,
                is_unwritten: false,
                is_stopped: false,
                calls: None,
                made: Vec::new(alloc),
            },
        })
    }

    /// Takes what a line says of the run.
    pub fn take(&mut self, alloc: Global, word: &str, rest: &str) -> Result<(), LineFault> {
        match word {
            "length" | "set" | "words" | "hold" => self.take_start(alloc, word, rest),
            "drawn" | "loads" => self.take_many(alloc, word, rest),
            "fail" | "power" => {
                self.trouble = Trouble::read(word, rest)?;
                Ok(())
            }
            "or" | "front" | "unsaid" | "unfailed" | "status" => self.take_wanted(
                alloc, word, rest,
            ),
            "has" | "only" | "unwritten" | "stops" | "calls" | "call" => self
                .left
                .take(alloc, word, rest),
            _ => self.take_text(alloc, word, rest),
        }
    }

    // What there is before the run, its words, and who is held in it.
    fn take_start(&mut self, alloc: Global, word: &str, rest: &str) -> Result<(), LineFault> {
        match word {
            "length" => self.len = Some(size(rest)?),
            "set" => self.sets.push(Placed::read(alloc, rest)?)?,
            "hold" => self.holds.push(Held::read(alloc, rest)?)?,
            _ => self.words = words(alloc, rest)?,
        }
        Ok(())
    }

    // Many lines of the input.
    fn take_many(&mut self, alloc: Global, word: &str, rest: &str) -> Result<(), LineFault> {
        let (count, behind) = two_words(rest)?;
        let count = number(count)?;
        if word == "drawn" {
            return push_drawn(alloc, &mut self.input, count, number(behind)?);
        }
        let (first, last) = span(behind)?;
        push_loads(alloc, self, first, last, count)
    }

    // A line of the input or of the answers.
    fn take_text(&mut self, alloc: Global, word: &str, rest: &str) -> Result<(), LineFault> {
        if let Some(mark) = word.strip_prefix('>') {
            return push_lines(alloc, &mut self.input, mark, rest);
        }
        let Some(mark) = word.strip_prefix('<') else {
            return Err(LineFault::Word);
        };
        match self.wanted.last_mut() {
            Some(way) => push_lines(alloc, &mut way.text, mark, rest),
            None => Err(LineFault::Word),
        }
    }

    // How the run ends.
    fn take_wanted(&mut self, alloc: Global, word: &str, rest: &str) -> Result<(), LineFault> {
        if word == "or" {
            self.wanted.push(Wanted::new(alloc))?;
            return Ok(());
        }
        let Some(way) = self.wanted.last_mut() else {
            return Err(LineFault::Word);
        };
        match word {
            "front" => way.is_front = true,
            "unsaid" => way.is_unsaid = true,
            "unfailed" => way.is_unfailed = true,
            _ => {
                let (status, fault) = word_and_rest(rest);
                way.status = number(status)?;
                way.fault = String::from_str(alloc, fault)?;
            }
        }
        Ok(())
    }
}

impl Left {
    fn take(&mut self, alloc: Global, word: &str, rest: &str) -> Result<(), LineFault> {
        match word {
            "has" => self.has.push(Placed::read(alloc, rest)?)?,
            "only" => self.is_only = true,
            "unwritten" => self.is_unwritten = true,
            "stops" => self.is_stopped = true,
            "calls" => self.calls = Some(size(rest)?),
            _ => {
                let (nth, call) = two_words(rest)?;
                self.made.push(Made {
                    nth: size(nth)?,
                    call: String::from_str(alloc, call)?,
                })?;
            }
        }
        Ok(())
    }
}

impl Wanted {
    fn new(alloc: Global) -> Wanted {
        Wanted {
            text: Vec::new(alloc),
            is_front: false,
            is_unsaid: false,
            is_unfailed: false,
            status: 0,
            fault: String::new(alloc),
        }
    }
}

impl Placed {
    pub(crate) fn read(alloc: Global, text: &str) -> Result<Placed, LineFault> {
        let (at, hex) = two_words(text)?;
        Ok(Placed {
            at: size(at)?,
            bytes: bytes(alloc, hex)?,
        })
    }
}

impl Trouble {
    fn read(word: &str, rest: &str) -> Result<Trouble, LineFault> {
        let (kind, calls) = if word == "power" {
            (TroubleKind::Power, rest)
        } else {
            let (what, calls) = two_words(rest)?;
            (failing(what)?, calls)
        };
        let (first, last) = span(calls)?;
        Ok(Trouble { kind, first, last })
    }
}

fn failing(what: &str) -> Result<TroubleKind, LineFault> {
    match what {
        "read" => Ok(TroubleKind::Read),
        "write" => Ok(TroubleKind::Write),
        "medium" => Ok(TroubleKind::Medium),
        _ => Err(LineFault::Trouble),
    }
}

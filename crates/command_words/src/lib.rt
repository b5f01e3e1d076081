//! The words of the command line after the one that names the image.
//!
//! Begin with `read_words`. The command line in `clap`'s terms is `specs/CommandLine.antt`, and what words ask for is `AsksFor` in
//! `specs/Asked.antt`. The laws are that words ask for one thing at most (`one_command`), and what usual words ask for (`usual_words`). The
//! words of the program that restores are read by `read_restore_words`, and are in `specs/Restore.antt`.
#![tactic(auto)]

mod command_line;
mod fault;
mod laws;
mod number;
mod restore_numbers;
mod restore_words;
mod words;

pub use fault::WordsFault;
pub use laws::{one_command, usual_words};
pub use restore_numbers::RestoreNumbers;
pub use restore_words::{RestoreWords, read_restore_words};
pub use words::{
    CallersNumbers, DrillNumbers, EawOptions, FormatNumbers, RunOptions, Words, Writing, read_words,
};

//! Scripts of raw commands, run over any store that answers the commands of the array (`EawStore`).
//!
//! Begin with `answer_commands`, and `answer_script`, which writes the frames that commands send too. What a command asks for, and which
//! test fails first, is in `specs/Tests.antt`, what it is answered in `specs/Answers.antt`, and how the lines act in `specs/Lines.antt`.
#![tactic(auto)]

mod buffers;
mod commands;
mod ends;
mod in_data;
mod mirrored;
mod perform;
mod reads;
mod refusal;
mod run;
mod writes;

pub use mirrored::answer_script;
pub use run::answer_commands;

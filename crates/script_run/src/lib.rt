//! Scripts: the input, its lines, and the run over whatever answers them (`Responder`). Each line is answered, and the answer is written,
//! before the next one is read.
//!
//! Begin with `answer_lines`. How lines act on a state is `Script` in `specs/Script.antt`, and what a run writes is `Ran` in
//! `specs/Transcript.antt`.
#![tactic(auto)]

mod ended;
mod input;
mod lines;
mod responder;
mod run;

pub use ended::Ended;
pub use input::{InputFault, MOST, read_input};
pub use lines::next_line;
pub use responder::{Responder, Stop};
pub use run::answer_lines;

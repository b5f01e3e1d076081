// A list of answers to calls that are still to come.
ghost use Rattle.std.specs.Prelude.{◌≡◌, drop};
ghost use Rattle.media_file.specs.AsListed.{next_of};

use crate::Answer;
use std::marker::Model;

/// The answers to calls that are still to come, the next one first.
#[derive(Drop)]
pub struct AnswerList {
    answers: Vec<Answer>,
    next: usize,
}

impl Model for AnswerList {
    ghost use Rattle.std.specs.Prelude.{List, drop};
    ghost use Rattle.media_file.specs.declared.honest_call.Answer.{Answer};

    ghost Value = { List Answer };

    ghost view = { λ l. drop l.next l.answers.items };
}

impl AnswerList {
    pub fn new(answers: Vec<Answer>) -> AnswerList
        ensures { result ≡ answers.items }
    {
        AnswerList { answers, next: 0 }
    }

    /// Takes the next answer. A call after the end of the list is done in full.
    pub fn take(&mut self) -> Answer
        ensures answer { result ≡ next_of self.old }
        ensures rest { self.new ≡ drop 1 self.old }
    {
        let Some(answer) = self.answers.get(self.next) else {
            return Answer::Whole;
        };
        let answer = *answer;
        self.next += 1;
        answer
    }
}

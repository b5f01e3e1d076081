// How the calls of a file are answered.
use case_files::CaseFault;
use media_file::Answer;
use std::alloc::Global;

// As many as a run over the images of these cases makes at most. Those behind them are answered wholly.
const CALLS: usize = 20_000;

/// How the calls of a file are answered, over and over.
#[derive(Clone, Copy)]
pub enum Way {
    Wholly,
    InParts,
    Interrupted,
    Mixed,
}

pub const WAYS: [Way; 4] = [Way::Wholly, Way::InParts, Way::Interrupted, Way::Mixed];

impl Way {
    // The call that opens the file is answered wholly.
    fn answer(self, nth: usize) -> Answer {
        match (self, nth % 5) {
            (Way::Wholly, _) | (_, 0) => Answer::Whole,
            (Way::InParts, rest) => Answer::Part { most: rest * 37 },
            (Way::Interrupted, 1 | 2 | 4) | (Way::Mixed, 1) => Answer::Interrupted,
            (Way::Interrupted, _) => Answer::Whole,
            (Way::Mixed, 2) => Answer::Part { most: 1 },
            (Way::Mixed, 3) => Answer::Interrupted,
            (Way::Mixed, _) => Answer::Part { most: 300 },
        }
    }
}

/// The answers to the calls of a file, of which the `fails`-th fails; from 1 on.
pub fn answers(alloc: Global, way: Way, fails: Option<u64>) -> Result<Vec<Answer>, CaseFault> {
    let mut answers = Vec::with_capacity(alloc, CALLS)?;
    for nth in 0..CALLS {
        if fails == Some(nth as u64 + 1) {
            answers.push(Answer::Failed)?;
        } else {
            answers.push(way.answer(nth))?;
        }
    }
    Ok(answers)
}

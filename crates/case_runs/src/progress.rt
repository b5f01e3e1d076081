// How far a case has come.
use case_files::Report;
use std::alloc::Global;

/// One way to play: what stands where nothing is sure, and which of the calls is the one that fails.
#[derive(Clone, Copy)]
pub struct Trial {
    pub choice: usize,
    pub nth: u64,
}

/// How often something was played.
#[derive(Clone, Copy)]
pub struct Plays {
    pub runs: u64,
    /// The runs that went over a file.
    pub over_file: u64,
    /// The runs that went over the plain store as well.
    pub over_plain: u64,
}

impl Plays {
    pub fn none() -> Plays {
        Plays {
            runs: 0,
            over_file: 0,
            over_plain: 0,
        }
    }

    pub fn plus(self, more: Plays) -> Plays {
        Plays {
            runs: self.runs.saturating_add(more.runs),
            over_file: self.over_file.saturating_add(more.over_file),
            over_plain: self.over_plain.saturating_add(more.over_plain),
        }
    }
}

/// How far a case has come.
#[derive(Drop)]
pub struct Progress {
    /// The trials in which it is, or in which it ended.
    pub trials: Vec<Trial>,
    pub plays: Plays,
    pub report: Report,
}

impl Progress {
    pub fn new(alloc: Global) -> Progress {
        Progress {
            trials: Vec::new(alloc),
            plays: Plays::none(),
            report: Report::new(alloc),
        }
    }
}

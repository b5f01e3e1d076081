// How a caller waits for another: it spins, then gives up the processor, then sleeps, each time for twice as long. The core makes one step
// at a time, so a caller that spins takes a processor and speeds up nothing.
use crossbeam_utils::Backoff;
use std::time::Duration;

// The first sleep, in microseconds.
const FIRST: u64 = 50;

// How often a sleep doubles: the longest is 3.2 milliseconds.
const MOST_DOUBLINGS: u32 = 6;

/// How long a caller has waited since it last got what it waits for.
#[derive(Debug, Drop)]
pub struct Patience {
    backoff: Backoff,
    doublings: u32,
}

impl Patience {
    pub fn new() -> Self {
        Patience {
            backoff: Backoff::new(),
            doublings: 0,
        }
    }

    // Spins or gives up the processor; or, once it has done so often enough, says how long to sleep.
    pub(crate) fn next_nap(&mut self) -> Option<Duration> {
        if !self.backoff.is_completed() {
            self.backoff.snooze();
            return None;
        }
        let doublings = self.doublings.min(MOST_DOUBLINGS);
        self.doublings = doublings + 1;
        Some(Duration::from_micros(FIRST << doublings))
    }
}

impl Default for Patience {
    fn default() -> Self {
        Patience::new()
    }
}

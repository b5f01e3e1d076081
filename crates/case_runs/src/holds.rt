// The gate of all runs: it holds those who work beside each other until others have come to their places.
ghost use Rattle.std.specs.Prelude.{◌≡◌, true};

use case_files::{CaseFault, Held, Stop};
use mars_shell::{Doorway, Gate, Place};
use std::alloc::Global;
use std::sync::atomic::{AtomicBool, AtomicU64, Ordering};
use std::thread;

// How often a flag is looked at. Behind that the wait for it is given up, so that a run ends.
const LOOKS: u64 = 20_000_000;

// Waits for a flag, but not for ever. Whether it was set.
fn wait_for(flag: &AtomicBool) -> bool {
    for _look in 0..LOOKS {
        if flag.load(Ordering::SeqCst) {
            return true;
        }
        thread::yield_now();
    }
    false
}

/// What a case says of a place, and how often the worker has come there.
#[derive(Drop)]
pub struct Hold {
    held: Held,
    came: AtomicU64,
}

impl Hold {
    // Counts that a worker has come to a place, and answers whether what is to happen there happens now.
    fn is_due(&self, place: Place) -> bool {
        if place != place_of(self.held) {
            return false;
        }
        self.came.fetch_add(1, Ordering::SeqCst).wrapping_add(1) == self.held.time
    }
}

fn place_of(held: Held) -> Place {
    let Held {
        stop,
        who,
        nth,
        call,
        time: _,
        sets: _,
        waits: _,
    } = held;
    match stop {
        Stop::Began => Place::Began { caller: who, nth },
        Stop::Answered => Place::Answered {
            caller: who,
            nth,
            call,
        },
        Stop::Offered => Place::Offered { caller: who, nth },
        Stop::Ended => Place::Ended { caller: who, nth },
        Stop::ReadBegan => Place::ReadBegan { reader: who, nth },
    }
}

/// The holds of a run, to none of whose places anyone has come.
pub fn holds_of(alloc: Global, held: &[Held]) -> Result<Vec<Hold>, CaseFault> {
    let mut holds = Vec::new(alloc);
    for held in held {
        holds.push(Hold {
            held: *held,
            came: AtomicU64::new(0),
        })?;
    }
    Ok(holds)
}

#[derive(Drop)]
pub struct Holds<'a> {
    holds: &'a [Hold],
    first: AtomicBool,
    second: AtomicBool,
    third: AtomicBool,
    fourth: AtomicBool,
    given_up: AtomicU64,
}

impl<'a> Holds<'a> {
    pub fn new(holds: &'a [Hold]) -> Self {
        Holds {
            holds,
            first: AtomicBool::new(false),
            second: AtomicBool::new(false),
            third: AtomicBool::new(false),
            fourth: AtomicBool::new(false),
            given_up: AtomicU64::new(0),
        }
    }

    /// How many waits were given up.
    pub fn given_up(&self) -> u64 {
        self.given_up.load(Ordering::SeqCst)
    }

    fn flag(&self, number: u32) -> Option<&AtomicBool> {
        match number {
            1 => Some(&self.first),
            2 => Some(&self.second),
            3 => Some(&self.third),
            4 => Some(&self.fourth),
            _ => None,
        }
    }

    fn keep(&self, held: Held) {
        if let Some(flag) = self.flag(held.sets) {
            flag.store(true, Ordering::SeqCst);
        }
        if let Some(flag) = self.flag(held.waits) {
            if !wait_for(flag) {
                self.given_up.fetch_add(1, Ordering::SeqCst);
            }
        }
    }

    // Holds whoever has come to this place, where that is due.
    fn hold(&self, place: Place) {
        for hold in self.holds {
            if hold.is_due(place) {
                self.keep(hold.held);
            }
        }
    }
}

impl<'a> Gate for &'a Holds<'a> {
    ghost told = { λ holds place. Unit {0} };

    fn at(&self, place: Place) {
        self.hold(place);
    }
}

/// The way to the holds of a run, which notes whether it was opened.
#[derive(Drop)]
pub struct HoldsDoorway<'a> {
    holds: &'a Holds<'a>,
    is_opened: bool,
}

impl<'a> HoldsDoorway<'a> {
    pub fn new(holds: &'a Holds<'a>) -> Self {
        HoldsDoorway {
            holds,
            is_opened: false,
        }
    }
}

impl<'a> Doorway for HoldsDoorway<'a> {
    type Behind = &'a Holds<'a>;

    ghost gate = { λ doorway. doorway.holds };

    ghost opened = { λ doorway. doorway.is_opened ≡ true };

    fn open(&mut self) -> &'a Holds<'a> {
        self.is_opened = true;
        self.holds
    }
}

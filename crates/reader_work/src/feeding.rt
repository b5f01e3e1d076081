// A gate at which commits are published.
ghost use Rattle.std.specs.Prelude.{◌≡◌};
ghost use Rattle.reader_work.specs.News.{IfEnded};

use crate::news::{Board, News};
use caller_steps::Core;
use caller_work::{Gate, Place};
use core::mem::replace_with;
use mars_manager::Mars;
use std::alloc::Global;
use std::sync::{Mutex, Wait};

/// Publishes what callers have committed.
pub trait Publisher {
    /// That it was asked to publish, which only those know who have asked it.
    ghost asked: { Self → Type 0 };

    fn publish(&self)
        ensures { asked self.now };
}

/// Publishes all that was committed where a transaction has ended, before it comes to another gate.
#[derive(Drop)]
pub struct Feeding<'p, 'g, P, G> {
    pub publisher: &'p P,
    pub gate: &'g G,
}

impl<P: Publisher, G: Gate> Gate for Feeding<'_, '_, P, G> {
    ghost told = { λ feeding place. G.told feeding.gate.now place × IfEnded place (P.asked feeding.publisher.now) };

    fn at(&self, place: Place) {
        if let Place::Ended { .. } = place {
            self.publisher.publish();
        }
        self.gate.at(place);
    }
}

/// News that workers share behind a lock, one at a time.
#[derive(Drop)]
pub struct SharedNews<'r, 'm, 'n, 'f, R, C: Core + Drop, B: Board> {
    pub rt: &'r R,
    pub alloc: Global,
    pub mars: &'m Mars<C>,
    pub news: &'n Mutex<News<'f, C, B>>,
    pub ghost own: { mars.now.table ≡ B.table },
}

impl<R: Wait, C: Core + Drop, B: Board> Publisher for SharedNews<'_, '_, '_, '_, R, C, B> {
    ghost asked = { λ news. Unit {0} };

    fn publish(&self) {
        let mut held = self.news.lock(self.rt);
        replace_with(
            &mut *held,
            (self.rt, self.alloc, self.mars),
            |news, (rt, alloc, mars)| news.published(rt, alloc, mars),
        );
    }
}

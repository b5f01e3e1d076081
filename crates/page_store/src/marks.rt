// The saves of a number, and its open top action.
ghost use Rattle.std.specs.Prelude.{◌≡◌, ◌-◌, ◌<◌, ◌≤◌, [], ◌∷◌, ◌++◌, length, take, slice_index_or, None, Some};
ghost use Rattle.std.specs.Bool.{OnTrue, OnFalse};
ghost use Rattle.page_store.specs.Marked.{floor_at};

use arrayvec::ArrayVec;
use std::marker::Model;

/// The most saves of a number.
pub const SAVES_MAX: usize = 32;

// How many parts the log had at each save, and how many when an open top action began.
#[derive(Drop)]
pub struct Marks {
    saves: ArrayVec<u32, SAVES_MAX>,
    top: Option<u32>,
}

impl Model for Marks {
    ghost use Rattle.std.specs.Prelude.{◌≤◌, length};
    ghost use Rattle.page_store.specs.Marked.{Marked};

    ghost Value = { Marked };

    ghost view = { λ m. record { counts = m.saves.items; top = m.top } };

    ghost invariant = { λ m. length m.saves.items ≤ 32 };
}

impl Marks {
    pub fn new() -> Marks
        ensures { result ≡ record { counts = []; top = None } }
    {
        Marks {
            saves: ArrayVec::new(),
            top: None,
        }
    }

    // How many saves there are.
    pub fn saves(&self) -> u32
        ensures count { result ≡ length self.now.counts }
        ensures most { result ≤ 32 }
    {
        self.saves.len() as u32
    }

    pub fn is_full(&self) -> bool
        ensures full { OnTrue result (length self.now.counts ≡ 32) }
        ensures room { OnFalse result (length self.now.counts < 32) }
    {
        self.saves.is_full()
    }

    // How many parts there were at the last save, or when the open top action began, if that is more.
    pub fn floor(&self) -> u32
        ensures { result ≡ floor_at self.now }
    {
        let saved = self.saves.as_slice().last().copied().unwrap_or(0);
        saved.max(self.top.unwrap_or(0))
    }

    // How many parts there were at save `n`, counted from 1.
    pub fn at_save(&self, n: u32) -> u32
        requires some { 0 < n }
        requires there { n ≤ length self.now.counts }
        ensures { result ≡ slice_index_or self.now.counts (n - 1) 0 }
    {
        self.saves.as_slice()[n as usize - 1]
    }

    pub fn save(&mut self, count: u32)
        requires { length self.old.counts < 32 }
        ensures { self.new ≡ record self.old { counts = self.old.counts ++ count ∷ [] } }
    {
        self.saves.push(count);
    }

    // Forgets the saves after the first `n`.
    pub fn cut(&mut self, n: u32)
        ensures { self.new ≡ record self.old { counts = take n self.old.counts } }
    {
        self.saves.truncate(n as usize);
    }

    pub fn top(&self) -> Option<u32>
        ensures { result ≡ self.now.top }
    {
        self.top
    }

    pub fn begin_top(&mut self, count: u32)
        ensures { self.new ≡ record self.old { top = Some count } }
    {
        self.top = Some(count);
    }

    pub fn end_top(&mut self)
        ensures { self.new ≡ record self.old { top = None } }
    {
        self.top = None;
    }
}

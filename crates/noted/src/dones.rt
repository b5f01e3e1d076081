// Committed transactions.
ghost use Rattle.std.specs.Prelude.{◌≡◌, ◌≤◌, ◌+◌, ◌-◌, ◌^◌, [], ◌∷◌, ◌++◌, List, length, drop, max, IsTrue, IsFalse, IsSome, IfSome, OnOk, vec_len, vec_capacity};

use crate::calls::LiveCalls;
use crate::keeper::Keeper;
use ghost_notes::Notes;
use history::Done;
use mars_base::NoMemory;
use std::alloc::Global;
use std::marker::{Model, PhantomData};

/// Transactions in the order of their commits, at most 2^63. They are kept in memory, but for the first ones once they were given up, or they
/// are only counted.
#[derive(Drop)]
pub struct Dones<H: Keeper> {
    // Those behind the first.
    kept: Option<Vec<Done>>,
    // How many were given up.
    first: u64,
    count: u64,
    room: u64,
    notes: Notes<Done>,
    keeper: PhantomData<H>,
}

impl<H: Keeper> Model for Dones<H> {
    ghost use Rattle.std.specs.Prelude.{◌≡◌, ◌≤◌, ◌+◌, ◌^◌, ℕ, List, IsTrue, IsFalse, IsSome, IfSome, length, drop, vec_capacity};
    ghost use Rattle.noted.specs.Room.{Roomy};

    ghost Value = { Roomy };

    ghost view = { λ d. record { items = d.notes.said; first = d.first; capacity = d.room } };

    ghost invariant = { λ d. (d.count ≡ length d.notes.said) × (d.count ≤ d.room) × (d.room ≤ 2 ^ 63) × (d.first ≤ d.count) × (IsFalse H.forgets → d.first ≡ 0)
        × IfSome d.kept (λ dones. (dones.items ≡ drop d.first d.notes.said) × (d.room ≤ d.first + vec_capacity dones)) × (IsTrue H.keeps → IsSome d.kept) };
}

impl<H: Keeper> Dones<H> {
    pub fn new(alloc: Global) -> Dones<H>
        ensures items { result.items ≡ [] }
        ensures first { result.first ≡ 0 }
    {
        let kept = if H::keeps() {
            Some(Vec::new(alloc))
        } else {
            None
        };
        Dones {
            kept,
            first: 0,
            count: 0,
            room: 0,
            notes: Notes::new(),
            keeper: PhantomData,
        }
    }

    /// How many there are.
    pub fn count(&self) -> u64
        ensures count { result ≡ length self.now.items }
        ensures few { result ≤ 2 ^ 63 }
    {
        self.count
    }

    /// Makes room for so many more.
    pub fn reserve(&mut self, more: u64) -> Result<(), NoMemory>
        ensures items { self.new.items ≡ self.old.items }
        ensures first { self.new.first ≡ self.old.first }
        ensures room { OnOk result (length self.old.items + more ≤ self.new.capacity) }
        ensures few { OnOk result (self.new.capacity ≤ 2 ^ 63) }
    {
        const MOST: u64 = 1 << 63;
        if more > MOST - self.count {
            return Err(NoMemory);
        }
        if let Some(dones) = &mut self.kept {
            dones.reserve(more as usize)?;
        }
        self.room = self.count + more;
        Ok(())
    }

    /// Puts a transaction behind them, in the room that there is. Where it is kept, its calls take no room that they do not need.
    pub fn push_reserved(&mut self, caller: u8, calls: LiveCalls<H>, at: u64, last: u64)
        requires { length self.old.items + 1 ≤ self.old.capacity }
        ensures items { self.new.items ≡ self.old.items ++ (record { caller = caller; calls = calls; at = at; last = last }) ∷ [] }
        ensures first { self.new.first ≡ self.old.first }
        ensures capacity { self.new.capacity ≡ self.old.capacity }
    {
        let (calls, told) = calls.into_parts();
        self.count += 1;
        self.notes = self.notes.then(&(caller, &told, at, last));
        let Some(calls) = calls else {
            self.kept = None;
            return;
        };
        if let Some(dones) = &mut self.kept {
            dones.push_reserved(Done {
                caller,
                calls: calls.fitted(),
                at,
                last,
            });
        }
    }

    /// The first `told` need not be kept any longer. They are given up once they are half of what is kept or more, so that for each that goes at
    /// most one that stays is moved.
    pub fn forget(&mut self, told: u64)
        ensures items { self.new.items ≡ self.old.items }
        ensures capacity { self.new.capacity ≡ self.old.capacity }
        ensures first { self.new.first ≤ max self.old.first told }
        ensures half { IsTrue H.forgets → told ≤ length self.old.items → told - self.new.first ≤ length self.old.items - told }
    {
        let told = told.min(self.count);
        if !H::forgets() || told <= self.first {
            return;
        }
        let gone = told - self.first;
        if gone < self.count - told {
            return;
        }
        if let Some(dones) = &mut self.kept {
            drop_front(dones, gone as usize);
        }
        self.first = told;
    }

    /// What is kept of them, if anything is, and what proofs know. None was given up.
    pub(crate) fn into_parts(self) -> (Option<Vec<Done>>, Notes<Done>)
        requires { self.first ≡ 0 }
        ensures dones { IfSome result.0 (λ dones. dones.items ≡ self.items) }
        ensures kept { IsTrue H.keeps → IsSome result.0 }
        ensures notes { result.1.said ≡ self.items }
    {
        let Dones {
            kept,
            first: _,
            count: _,
            room: _,
            notes,
            keeper: _,
        } = self;
        (kept, notes)
    }

    /// How many of the first were given up, and those behind them, if they are kept.
    pub fn kept(&self) -> Option<(u64, &[Done])>
        ensures first { IfSome result (λ kept. (kept.0 ≡ self.now.first) × (kept.0 ≤ length self.now.items)) }
        ensures dones { IfSome result (λ kept. kept.1.now ≡ drop kept.0 self.now.items) }
        ensures kept { IsTrue H.keeps → IsSome result }
        ensures whole { IsFalse H.forgets → IfSome result (λ kept. kept.0 ≡ 0) }
    {
        match &self.kept {
            Some(dones) => Some((self.first, dones)),
            None => None,
        }
    }
}

// Gives up the first so many.
fn drop_front(dones: &mut Vec<Done>, count: usize)
    requires { count ≤ vec_len dones.old }
    ensures items { dones.new.items ≡ drop count dones.old.items }
    ensures capacity { vec_capacity dones.new ≡ vec_capacity dones.old }
{
    let rest = dones.len() - count;
    dones.rotate_left(count);
    dones.truncate(rest);
}

// The transactions of which it is not known whether they were committed.
ghost use Rattle.std.specs.Prelude.{◌≡◌, [], ◌∷◌, IsTrue, IsSome, IfSome};

use crate::calls::LiveCalls;
use crate::dones::Dones;
use crate::keeper::Keeper;
use ghost_notes::Notes;
use history::Done;
use std::marker::{Model, PhantomData};

#[derive(Drop)]
pub enum Doubted {
    Single(Option<Done>),
    Group(Vec<Done>),
}

/// The transactions whose commit met a fault of the medium: one that was committed alone, or a group. They are kept in memory, or not.
#[derive(Drop)]
pub struct Doubt<H: Keeper> {
    kept: Option<Doubted>,
    notes: Notes<Done>,
    keeper: PhantomData<H>,
}

impl<H: Keeper> Model for Doubt<H> {
    ghost use Rattle.std.specs.Prelude.{◌≡◌, List, IsTrue, IsSome, IfSome};
    ghost use Rattle.history.specs.declared.transaction.Done.{Done};
    ghost use Rattle.noted.specs.Doubted.{all_of};

    ghost Value = { List Done };

    ghost view = { λ d. d.notes.said };

    ghost invariant = { λ d. IfSome d.kept (λ dones. all_of dones ≡ d.notes.said) × (IsTrue H.keeps → IsSome d.kept) };
}

impl<H: Keeper> Doubt<H> {
    pub fn none() -> Doubt<H>
        ensures { result ≡ [] }
    {
        let kept = if H::keeps() {
            Some(Doubted::Single(None))
        } else {
            None
        };
        Doubt {
            kept,
            notes: Notes::new(),
            keeper: PhantomData,
        }
    }

    /// One that was committed alone. It takes no memory.
    pub fn single(caller: u8, calls: LiveCalls<H>, at: u64) -> Doubt<H>
        ensures { result ≡ (record { caller = caller; calls = calls; at = at; last = at }) ∷ [] }
    {
        let (calls, told) = calls.into_parts();
        let kept = match calls {
            Some(calls) => Some(Doubted::Single(Some(Done {
                caller,
                calls,
                at,
                last: at,
            }))),
            None => None,
        };
        Doubt {
            kept,
            notes: Notes::new().then(&(caller, &told, at)),
            keeper: PhantomData,
        }
    }

    pub fn group(dones: Dones<H>) -> Doubt<H>
        requires { dones.first ≡ 0 }
        ensures { result ≡ dones.items }
    {
        let (dones, notes) = dones.into_parts();
        let kept = match dones {
            Some(dones) => Some(Doubted::Group(dones)),
            None => None,
        };
        Doubt {
            kept,
            notes,
            keeper: PhantomData,
        }
    }

    /// All of them, if they are kept.
    pub fn as_slice(&self) -> Option<&[Done]>
        ensures dones { IfSome result (λ dones. dones.now ≡ self.now) }
        ensures kept { IsTrue H.keeps → IsSome result }
    {
        match &self.kept {
            Some(Doubted::Single(done)) => Some(done.as_slice()),
            Some(Doubted::Group(dones)) => Some(dones),
            None => None,
        }
    }
}

// The granted calls of a live transaction.
ghost use Rattle.std.specs.Prelude.{◌≡◌, [], ◌∷◌, ◌++◌, List, ℕ, IfOk, IfErr, IfSome, IsSome, IsTrue, OnErr};
ghost use Rattle.history.specs.Writes.{Row};

use crate::keeper::Keeper;
use ghost_notes::Notes;
use history::{Calls, CallsWithRoom, Reply, TableCall};
use std::alloc::Global;
use std::marker::{Model, PhantomData};

/// The granted calls of a live transaction, each with its reply. They are kept in memory, or not.
#[derive(Drop)]
pub struct LiveCalls<H: Keeper> {
    kept: Option<Calls>,
    notes: Notes<(TableCall, Reply)>,
    keeper: PhantomData<H>,
}

impl<H: Keeper> Model for LiveCalls<H> {
    ghost use Rattle.std.specs.Prelude.{List, ◌≡◌, IsTrue, IsSome, IfSome};
    ghost use Rattle.history.specs.declared.call.TableCall.{TableCall};
    ghost use Rattle.history.specs.declared.call.Reply.{Reply};

    ghost Value = { List (TableCall × Reply) };

    ghost view = { λ c. c.notes.said };

    ghost invariant = { λ c. IfSome c.kept (λ calls. calls ≡ c.notes.said) × (IsTrue H.keeps → IsSome c.kept) };
}

impl<H: Keeper> LiveCalls<H> {
    pub fn new(alloc: Global) -> LiveCalls<H>
        ensures { result ≡ [] }
    {
        let kept = if H::keeps() {
            Some(Calls::new(alloc))
        } else {
            None
        };
        LiveCalls {
            kept,
            notes: Notes::new(),
            keeper: PhantomData,
        }
    }

    /// The same with room for one more call, or as they are if there is no memory for it.
    pub fn with_room(self) -> Result<LiveCallsWithRoom<H>, LiveCalls<H>>
        ensures ok { IfOk result (λ calls. calls ≡ self) }
        ensures err { IfErr result (λ calls. calls ≡ self) }
    {
        let LiveCalls {
            kept,
            notes,
            keeper,
        } = self;
        match kept {
            None => Ok(LiveCallsWithRoom {
                kept: None,
                notes,
                keeper,
            }),
            Some(calls) => match calls.with_room() {
                Ok(calls) => Ok(LiveCallsWithRoom {
                    kept: Some(calls),
                    notes,
                    keeper,
                }),
                Err(calls) => Err(LiveCalls {
                    kept: Some(calls),
                    notes,
                    keeper,
                }),
            },
        }
    }

    /// What is kept of them, if anything is, and what proofs know.
    pub(crate) fn into_parts(self) -> (Option<Calls>, Notes<(TableCall, Reply)>)
        ensures calls { IfSome result.0 (λ calls. calls ≡ self) }
        ensures kept { IsTrue H.keeps → IsSome result.0 }
        ensures notes { result.1.said ≡ self }
    {
        let LiveCalls {
            kept,
            notes,
            keeper: _,
        } = self;
        (kept, notes)
    }
}

/// The same with room for one more.
#[derive(Drop)]
pub struct LiveCallsWithRoom<H: Keeper> {
    kept: Option<CallsWithRoom>,
    notes: Notes<(TableCall, Reply)>,
    keeper: PhantomData<H>,
}

impl<H: Keeper> Model for LiveCallsWithRoom<H> {
    ghost use Rattle.std.specs.Prelude.{List, ◌≡◌, IsTrue, IsSome, IfSome};
    ghost use Rattle.history.specs.declared.call.TableCall.{TableCall};
    ghost use Rattle.history.specs.declared.call.Reply.{Reply};

    ghost Value = { List (TableCall × Reply) };

    ghost view = { λ c. c.notes.said };

    ghost invariant = { λ c. IfSome c.kept (λ calls. calls ≡ c.notes.said) × (IsTrue H.keeps → IsSome c.kept) };
}

impl<H: Keeper> LiveCallsWithRoom<H> {
    /// The calls with this one, in the room that there is, or as they are. Only the rows of a scan can lack memory.
    pub fn push(self, call: &TableCall, reply: &Reply) -> Result<LiveCalls<H>, LiveCalls<H>>
        ensures ok { IfOk result (λ calls. calls ≡ self ++ (call.now, reply.now) ∷ []) }
        ensures err { IfErr result (λ calls. calls ≡ self) }
        ensures listed { OnErr result ((rows : List Row) × (reply.now ≡ Reply.Listed rows)) }
    {
        let LiveCallsWithRoom {
            kept,
            notes,
            keeper,
        } = self;
        let told = notes.then(&(call, reply));
        match kept {
            None => Ok(LiveCalls {
                kept: None,
                notes: told,
                keeper,
            }),
            Some(calls) => match calls.push(call, reply) {
                Ok(calls) => Ok(LiveCalls {
                    kept: Some(calls),
                    notes: told,
                    keeper,
                }),
                Err(calls) => Err(LiveCalls {
                    kept: Some(calls),
                    notes,
                    keeper,
                }),
            },
        }
    }

    /// The calls as they are.
    pub fn into_calls(self) -> LiveCalls<H>
        ensures { result ≡ self }
    {
        let LiveCallsWithRoom {
            kept,
            notes,
            keeper,
        } = self;
        match kept {
            None => LiveCalls {
                kept: None,
                notes,
                keeper,
            },
            Some(calls) => LiveCalls {
                kept: Some(calls.into_calls()),
                notes,
                keeper,
            },
        }
    }
}

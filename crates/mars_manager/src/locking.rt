// The locks of a pass.
ghost use Rattle.std.specs.Prelude.{ℕ, ◌≡◌, ◌<◌, IfOk, IfErr, slice_index_or};
ghost use Rattle.history.specs.declared.call.Call.TheVariants.{Table};
ghost use Rattle.history.specs.declared.locks.Mode.TheVariants as mode;
ghost use Rattle.stripe_words.specs.declared.hold.Hold.TheVariants.{Free, Shared};
ghost use Rattle.mars_manager.specs.Pass.{names_of};
ghost use Rattle.mars_manager.specs.Asked.{IsStepFor, IsReadingBelow, IsStepOf, Meets, AsksUp};
ghost use Rattle.mars_manager.specs.Locks.{number_asked, IsCovered, IsBelow, Locks, HasReadable, HasLocked, HasLockedFor, IsRefused, IsRefusedFor, FindsOther, hold_of, touched_by, with_hold, with_holds, noted, excluded_by};

use crate::mars::Mars;
use crate::pass::Pass;
use caller_steps::Core;
use history::{Mode, TableCall, stripe_of};
use record_slots::Names;
use stripe_words::{Hold, lowest_locked, lowest_marked, mark_bit};

/// What becomes of a try to lock a stripe.
#[derive(Clone, Copy, Debug, PartialEq, Eq)]
pub enum Lock {
    Held,
    /// The word of the stripe had a bit of another pass in its way: in shared mode an exclusive lock. `holder` is the lowest such pass.
    Busy { holder: u8 },
    NoTransaction,
}

// Another pass stands in the way.
#[derive(Clone, Copy)]
pub struct InWay {
    pub holder: u8,
}

// The number of the table that a call asks for, if it asks for one that is there.
fn table_asked(names: &Names, call: &TableCall) -> Option<u8>
    ensures { result ≡ number_asked names.now call.now }
{
    match call {
        TableCall::Get { table, .. }
        | TableCall::Put { table, .. }
        | TableCall::Del { table, .. }
        | TableCall::Scan { table, .. } => names.number(table),
        TableCall::Save | TableCall::Back { .. } => None,
    }
}

impl<C: Core + Drop> Mars<C> {
    // Tries to lock a stripe for reading.
    fn lock_shared(&self, pass: &mut Pass<C>, stripe: u8) -> Result<(), InWay>
        requires own { pass.old.table ≡ self.now.table }
        requires stripe { stripe < 64 }
        ensures table { pass.new.table ≡ pass.old.table }
        ensures held { IfOk result (λ _. HasLocked mode.Shared stripe pass.old.known pass.new.known) }
        ensures busy { IfErr result (λ b. IsRefused mode.Shared stripe b.holder pass.old.known pass.new.known) }
        ensures steps { Meets (IsStepFor mode.Shared stripe) pass.old.known pass.new.known }
    {
        let at = usize::from(stripe);
        match pass.holds[at] {
            Hold::Shared | Hold::Exclusive => Ok(()),
            Hold::Trying => unreachable!(),
            Hold::Free => match self.gain(&mut pass.seat, pass.number, stripe) {
                Ok(()) => {
                    pass.holds[at] = Hold::Shared;
                    Ok(())
                }
                Err(found) => Err(InWay {
                    holder: lowest_locked(found, pass.number),
                }),
            },
        }
    }

    // Makes a shared lock exclusive; at a refusal it stays.
    fn raise(&self, pass: &mut Pass<C>, stripe: u8) -> Result<(), u64>
        requires own { pass.old.table ≡ self.now.table }
        requires stripe { stripe < 64 }
        requires shared { hold_of stripe pass.old.known ≡ Shared }
        ensures table { pass.new.table ≡ pass.old.table }
        ensures raised { IfOk result (λ _. (found : ℕ) × (pass.new.known ≡ excluded_by stripe found pass.old.known)) }
        ensures refused { IfErr result (λ found. (pass.new.known ≡ noted stripe mode.Exclusive found pass.old.known) × FindsOther pass.old.known.number found) }
    {
        let found = self.exclude(&mut pass.seat, pass.number, stripe);
        if found == mark_bit(pass.number) {
            pass.holds[usize::from(stripe)] = Hold::Exclusive;
            return Ok(());
        }
        Err(found)
    }

    // Tries to lock a stripe for reading and writing.
    fn lock_exclusive(&self, pass: &mut Pass<C>, stripe: u8) -> Result<(), InWay>
        requires own { pass.old.table ≡ self.now.table }
        requires stripe { stripe < 64 }
        ensures table { pass.new.table ≡ pass.old.table }
        ensures held { IfOk result (λ _. HasLocked mode.Exclusive stripe pass.old.known pass.new.known) }
        ensures busy { IfErr result (λ b. IsRefused mode.Exclusive stripe b.holder pass.old.known pass.new.known) }
        ensures steps { Meets (IsStepFor mode.Exclusive stripe) pass.old.known pass.new.known }
    {
        let at = usize::from(stripe);
        match pass.holds[at] {
            Hold::Exclusive => Ok(()),
            Hold::Trying => unreachable!(),
            Hold::Shared => match self.raise(pass, stripe) {
                Ok(()) => Ok(()),
                Err(found) => Err(InWay {
                    holder: lowest_marked(found, pass.number),
                }),
            },
            Hold::Free => {
                if let Err(found) = self.gain(&mut pass.seat, pass.number, stripe) {
                    return Err(InWay {
                        holder: lowest_marked(found, pass.number),
                    });
                }
                pass.holds[at] = Hold::Shared;
                match self.raise(pass, stripe) {
                    Ok(()) => Ok(()),
                    Err(found) => {
                        self.release(&mut pass.seat, pass.number, stripe);
                        pass.holds[at] = Hold::Free;
                        Err(InWay {
                            holder: lowest_marked(found, pass.number),
                        })
                    }
                }
            }
        }
    }

    // Tries to lock a stripe. At a refusal the pass has what it had.
    fn try_lock(&self, pass: &mut Pass<C>, stripe: u8, asked: Mode) -> Result<(), InWay>
        requires own { pass.old.table ≡ self.now.table }
        requires stripe { stripe < 64 }
        ensures table { pass.new.table ≡ pass.old.table }
        ensures held { IfOk result (λ _. HasLocked asked stripe pass.old.known pass.new.known) }
        ensures busy { IfErr result (λ b. IsRefused asked stripe b.holder pass.old.known pass.new.known) }
        ensures steps { Meets (IsStepFor asked stripe) pass.old.known pass.new.known }
    {
        match asked {
            Mode::Shared => self.lock_shared(pass, stripe),
            Mode::Exclusive => self.lock_exclusive(pass, stripe),
        }
    }

    // Lowers what the pass has of a stripe.
    fn lower(&self, pass: &mut Pass<C>, stripe: u8, to: Hold)
        requires own { pass.old.table ≡ self.now.table }
        requires stripe { stripe < 64 }
        requires below { IsBelow to (hold_of stripe pass.old.known) }
        requires covered { IsCovered (touched_by pass.old.known) (with_hold stripe to pass.old.known).holds }
        ensures table { pass.new.table ≡ pass.old.table }
        ensures known { pass.new.known ≡ with_hold stripe to pass.old.known }
    {
        let at = usize::from(stripe);
        match to {
            Hold::Free => match pass.holds[at] {
                Hold::Free => {}
                _ => {
                    self.release(&mut pass.seat, pass.number, stripe);
                    pass.holds[at] = Hold::Free;
                }
            },
            Hold::Shared => match pass.holds[at] {
                Hold::Exclusive => {
                    self.back(&mut pass.seat, pass.number, stripe);
                    pass.holds[at] = Hold::Shared;
                }
                _ => {}
            },
            _ => {}
        }
    }

    // Lowers what the pass has of each stripe.
    pub(crate) fn restore(&self, pass: &mut Pass<C>, holds: &[Hold; 64])
        requires own { pass.old.table ≡ self.now.table }
        requires below { (t : ℕ) → IsBelow (slice_index_or holds.now t Free) (hold_of t pass.old.known) }
        requires covered { IsCovered (touched_by pass.old.known) holds.now }
        ensures table { pass.new.table ≡ pass.old.table }
        ensures known { pass.new.known ≡ with_holds holds.now pass.old.known }
    {
        pass.number();
        for stripe in 0..64u8 {
            self.lower(pass, stripe, holds[usize::from(stripe)]);
        }
    }

    // Tries to lock all stripes for reading. At a refusal the pass has what it had.
    fn lock_all(&self, pass: &mut Pass<C>) -> Result<(), (u8, InWay)>
        requires own { pass.old.table ≡ self.now.table }
        ensures table { pass.new.table ≡ pass.old.table }
        ensures held { IfOk result (λ _. HasReadable 64 pass.old.known pass.new.known) }
        ensures busy { IfErr result (λ e. (e.0 < 64) × IsRefused mode.Shared e.0 e.1.holder pass.old.known pass.new.known) }
        ensures steps { Meets (IsReadingBelow 64) pass.old.known pass.new.known }
        ensures rising { AsksUp pass.old.known pass.new.known }
    {
        pass.number();
        let before = pass.holds;
        for stripe in 0..64u8 {
            if let Err(way) = self.try_lock(pass, stripe, Mode::Shared) {
                self.restore(pass, &before);
                return Err((stripe, way));
            }
        }
        Ok(())
    }

    // Tries to lock what a call on a table touches, if that table is there. At a refusal the pass has what it had.
    pub(crate) fn lock_for(&self, pass: &mut Pass<C>, call: &TableCall) -> Result<(), InWay>
        requires own { pass.old.table ≡ self.now.table }
        ensures table { pass.new.table ≡ pass.old.table }
        ensures held { IfOk result (λ _. HasLockedFor (Table call.now) pass.old.known pass.new.known) }
        ensures busy { IfErr result (λ b. IsRefusedFor (Table call.now) b.holder pass.old.known pass.new.known) }
        ensures steps { Meets (IsStepOf (names_of pass.old.known) (Table call.now)) pass.old.known pass.new.known }
        ensures rising { AsksUp pass.old.known pass.new.known }
    {
        pass.number();
        let Some(table) = table_asked(&pass.names, call) else {
            return Ok(());
        };
        match call {
            TableCall::Get { table: _, key } => {
                self.try_lock(pass, stripe_of(table, *key) as u8, Mode::Shared)
            }
            TableCall::Put {
                table: _,
                key,
                value: _,
            } => self.try_lock(pass, stripe_of(table, *key) as u8, Mode::Exclusive),
            TableCall::Del { table: _, key } => {
                self.try_lock(pass, stripe_of(table, *key) as u8, Mode::Exclusive)
            }
            TableCall::Scan {
                table: _,
                low: _,
                high: _,
            } => self.lock_all(pass).map_err(|refused| refused.1),
            TableCall::Save | TableCall::Back { .. } => Ok(()),
        }
    }

    /// Tries to lock a stripe of keys for the pass's transaction, if it takes calls, in one step on its word and without the turn. A lock
    /// stands until the transaction ends. At a refusal the pass has what it had: a shared lock stays if it cannot be made exclusive.
    pub fn lock(&self, pass: &mut Pass<C>, stripe: u8, asked: Mode) -> Lock
        requires own { pass.old.table ≡ self.now.table }
        requires stripe { stripe < 64 }
        ensures table { pass.new.table ≡ pass.old.table }
        ensures lock { Locks asked stripe pass.old.known result pass.new.known }
        ensures steps { Meets (IsStepFor asked stripe) pass.old.known pass.new.known }
    {
        if !pass.takes {
            return Lock::NoTransaction;
        }
        match self.try_lock(pass, stripe, asked) {
            Ok(()) => Lock::Held,
            Err(way) => Lock::Busy { holder: way.holder },
        }
    }
}

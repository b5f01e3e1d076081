// The callers, each with what it has, and the names of the tables that they ask for.
ghost use Rattle.std.specs.Prelude.{◌≡◌, ◌+◌, ◌<◌, ◌≤◌, [], List, ℕ, Some, None, IfOk, IfErr, IfSome, IfNone, OnOk, is_some, length, slice_set};
ghost use Rattle.array_shape.specs.NumberSet.{members};
ghost use Rattle.caller_steps.specs.Locked.{IsFree, IsBusyWith};
ghost use Rattle.caller_steps.specs.Offers.{is_offered};
ghost use Rattle.caller_steps.specs.State.{State, unoffered, offered, unsettled};
ghost use Rattle.history.specs.Locks.{touched, touches};
ghost use Rattle.history.specs.declared.call.TableCall.{TableCall};
ghost use Rattle.mars_core.specs.Masks.{AreMasksOf};
ghost use Rattle.mars_core.specs.declared.locks.Locks.TheVariants.{Held};
ghost use Rattle.mars_core.specs.Seats.{live_of, live_in, offer_in, offers_in, offered_in, calls_at, calls_in, IsMasked, Seated, Given, IsOf, Ends, bare};
ghost use Rattle.mars_core.specs.TableCall.{number_for};

use crate::live::Live;
use crate::locks::Locks;
use crate::masks::Masks;
use crate::offer::Offer;
use crate::seat::{Ending, Seat};
use array_shape::NumberSet;
use history::TableCall;
use mars_base::NoMemory;
use noted::{Dones, Keeper, LiveCalls};
use record_slots::Names;
use std::alloc::Global;
use std::marker::Model;
use std::mem::replace;

/// A seat for each caller, and the names of the tables. The keeper says whether the calls of live transactions stay in memory.
#[derive(Drop)]
pub struct Seats<H: Keeper> {
    names: Names,
    places: Vec<Seat<LiveCalls<H>>>,
}

impl<H: Keeper> Model for Seats<H> {
    ghost use Rattle.std.specs.Prelude.{◌≤◌, length};
    ghost use Rattle.mars_core.specs.Seats as seats;

    ghost Value = { seats.Seats };

    ghost view = { λ s. record { names = s.names; places = s.places.items } };

    ghost invariant = { λ s. seats.AreMasked s.names s.places.items × (length s.names ≤ 8) };
}

impl<H: Keeper> Seats<H> {
    /// `count` callers without a transaction, beside tables of these names.
    pub fn new(alloc: Global, names: Names, count: u8) -> Result<Seats<H>, NoMemory>
        ensures names { IfOk result (λ seats. seats.names ≡ names) }
        ensures count { IfOk result (λ seats. length seats.places ≡ count) }
        ensures none { IfOk result (λ seats. (caller : ℕ) → live_in seats caller ≡ None) }
        ensures unoffered { IfOk result (λ seats. (caller : ℕ) → offers_in seats caller ≡ unoffered) }
    {
        // There are at most eight names.
        let _few = names.count();
        let mut places = Vec::with_capacity(alloc, usize::from(count))?;
        for _caller in 0..count {
            places.push(Seat::Free)?;
        }
        Ok(Seats { names, places })
    }

    /// The names of the tables, by their numbers.
    pub fn names(&self) -> &Names
        ensures { result.now ≡ self.now.names }
    {
        &self.names
    }

    /// The number of the table that a call asks for, or 0 if it asks for none; `None` if there is no table of the name.
    pub fn number_for(&self, asked: &TableCall) -> Option<u8>
        ensures number { result ≡ number_for self.now.names asked.now }
        ensures few { IfSome result (λ table. table < 8) }
    {
        match asked {
            TableCall::Get { table, .. }
            | TableCall::Put { table, .. }
            | TableCall::Del { table, .. }
            | TableCall::Scan { table, .. } => self.names.number(table),
            TableCall::Save | TableCall::Back { .. } => Some(0),
        }
    }

    pub fn is_live(&self, caller: u8) -> bool
        requires { caller < length self.now.places }
        ensures { result ≡ is_some (live_in self.now caller) }
    {
        match &self.places[usize::from(caller)] {
            Seat::Live(_) | Seat::Offered(_) => true,
            Seat::Free | Seat::Committed { .. } => false,
        }
    }

    /// What the caller has offered and not settled.
    pub fn offer(&self, caller: u8) -> Offer
        requires { caller < length self.now.places }
        ensures { offer_in result ≡ offers_in self.now caller }
    {
        match &self.places[usize::from(caller)] {
            Seat::Free | Seat::Live(_) => Offer::Nothing,
            Seat::Offered(_) => Offer::Offered,
            Seat::Committed { at } => Offer::Committed { at: *at },
        }
    }

    fn is_offered(&self, caller: u8) -> bool
        requires { caller < length self.now.places }
        ensures { result ≡ is_offered (offers_in self.now caller) }
    {
        self.offer(caller) == Offer::Offered
    }

    /// The stripes that the caller's live transaction touched.
    pub fn touched(&self, caller: u8) -> Masks
        requires { caller < length self.now.places }
        ensures { AreMasksOf (touched self.now.names (calls_at self.now caller)) result }
    {
        match &self.places[usize::from(caller)] {
            Seat::Live(live) | Seat::Offered(live) => live.masks,
            Seat::Free | Seat::Committed { .. } => Masks::none(),
        }
    }

    /// Begins a transaction. It takes no memory.
    pub fn begin(&mut self, alloc: Global, caller: u8)
        requires inside { caller < length self.old.places }
        requires unoffered { offers_in self.old caller ≡ unoffered }
        ensures { Seated self.old caller (Some []) self.new }
    {
        self.places[usize::from(caller)] = Seat::Live(Live::new(alloc));
    }

    /// Removes and returns the caller's live transaction.
    pub fn take(&mut self, caller: u8) -> Option<Live<LiveCalls<H>>>
        requires inside { caller < length self.old.places }
        requires unoffered { offers_in self.old caller ≡ unoffered }
        ensures live { calls_in result ≡ live_in self.old caller }
        ensures masked { IfSome result (IsMasked self.old.names) }
        ensures out { Seated self.old caller None self.new }
    {
        match replace(&mut self.places[usize::from(caller)], Seat::Free) {
            Seat::Live(live) => Some(live),
            _ => None,
        }
    }

    /// Ends the caller's live transaction.
    pub fn end(&mut self, caller: u8)
        requires inside { caller < length self.old.places }
        requires unoffered { offers_in self.old caller ≡ unoffered }
        ensures { Seated self.old caller None self.new }
    {
        self.places[usize::from(caller)] = Seat::Free;
    }

    /// Makes this the caller's live transaction.
    pub fn put(&mut self, caller: u8, live: Live<LiveCalls<H>>)
        requires inside { caller < length self.old.places }
        requires unoffered { offers_in self.old caller ≡ unoffered }
        requires masked { IsMasked self.old.names live }
        ensures { Seated self.old caller (Some live.calls) self.new }
    {
        self.places[usize::from(caller)] = Seat::Live(live);
    }

    /// Makes this the caller's live transaction, which it has offered.
    pub fn put_offered(&mut self, caller: u8, live: Live<LiveCalls<H>>)
        requires inside { caller < length self.old.places }
        requires masked { IsMasked self.old.names live }
        ensures { Given self.old caller (Some live.calls) offered self.new }
    {
        self.places[usize::from(caller)] = Seat::Offered(live);
    }

    /// Frees the seat of a caller whose transaction a group has committed, and returns its number.
    pub fn settle(&mut self, caller: u8) -> u64
        requires inside { caller < length self.old.places }
        requires committed { (n : ℕ) × (offers_in self.old caller ≡ unsettled n) }
        ensures number { offers_in self.old caller ≡ unsettled result }
        ensures free { Given self.old caller None unoffered self.new }
    {
        match replace(&mut self.places[usize::from(caller)], Seat::Free) {
            Seat::Committed { at } => at,
            _ => unreachable!(),
        }
    }

    /// The callers that have offered a transaction which no group has committed, and how many they are.
    pub fn offered(&self) -> (NumberSet, usize)
        requires { length self.now.places ≤ 64 }
        ensures callers { members result.0 ≡ offered_in self.now }
        ensures count { result.1 ≡ length (offered_in self.now) }
    {
        let mut callers = NumberSet::empty();
        let mut count = 0;
        for caller in 0..self.places.len() as u8 {
            if self.is_offered(caller) {
                callers = callers.with(caller);
                count += 1;
            }
        }
        (callers, count)
    }

    // Removes and returns the transaction that the caller has offered, and leaves this in its place.
    fn take_offer(&mut self, caller: u8, seat: Seat<LiveCalls<H>>) -> Live<LiveCalls<H>>
        requires inside { caller < length self.old.places }
        requires offered { offers_in self.old caller ≡ offered }
        requires ended { live_of seat ≡ None }
        ensures live { live_in self.old caller ≡ Some result.calls }
        ensures after { self.new ≡ record self.old { places = slice_set self.old.places caller seat } }
    {
        match replace(&mut self.places[usize::from(caller)], seat) {
            Seat::Offered(live) => live,
            _ => unreachable!(),
        }
    }

    /// Ends all transactions that were offered, as one group, and puts them behind those of a list that has room for them, by rising caller.
    /// `before` transactions were committed before it, and `last` is the number of the group's last one.
    pub fn take_offered(&mut self, ending: Ending, before: u64, last: u64, into: &mut Dones<H>)
        requires few { length self.old.places ≤ 64 }
        requires last { before + length (offered_in self.old) ≡ last }
        requires room { length into.old.items + length (offered_in self.old) ≤ into.old.capacity }
        ensures ends { (state : State) → IsOf self.old before state → Ends ending last state (offered_in self.old) self.old into.old.items into.new.items self.new }
        ensures first { into.new.first ≡ into.old.first }
    {
        let mut at = before;
        for caller in 0..self.places.len() as u8 {
            if self.is_offered(caller) {
                at += 1;
                let live = self.take_offer(caller, ending.seat(at));
                into.push_reserved(caller, live.calls, at, last);
            }
        }
    }

    /// The lowest other caller whose live transaction has touched one of these stripes, where one of the two touches is for writing.
    pub fn holder(&self, caller: u8, masks: Masks) -> Option<u8>
        requires { length self.now.places ≤ 64 }
        ensures busy { (asked : TableCall) → AreMasksOf (touches self.now.names asked) masks → IfSome result (IsBusyWith (bare self.now) caller asked) }
        ensures free { (asked : TableCall) → AreMasksOf (touches self.now.names asked) masks → IfNone result (IsFree (bare self.now) caller asked) }
    {
        for other in 0..self.places.len() as u8 {
            if other != caller && self.is_live(other) && masks.clash(self.touched(other)) {
                return Some(other);
            }
        }
        None
    }

    /// The stripes that a call of the table with this number touches, or the caller that stands in its way. Where none is known to, none is
    /// looked for.
    pub fn stripes_for(
        &self,
        locks: Locks,
        caller: u8,
        table: u8,
        asked: &TableCall,
    ) -> Result<Masks, u8>
        requires few { length self.now.places ≤ 64 }
        requires table { number_for self.now.names asked.now ≡ Some table }
        requires locked { locks ≡ Held → IsFree (bare self.now) caller asked.now }
        ensures touches { IfOk result (AreMasksOf (touches self.now.names asked.now)) }
        ensures free { OnOk result (IsFree (bare self.now) caller asked.now) }
        ensures busy { IfErr result (IsBusyWith (bare self.now) caller asked.now) }
    {
        let masks = Masks::touched_by(table, asked);
        match locks {
            Locks::Asked => match self.holder(caller, masks) {
                Some(holder) => Err(holder),
                None => Ok(masks),
            },
            Locks::Held => Ok(masks),
        }
    }
}

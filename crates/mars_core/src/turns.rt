// Callers by turns over records.
ghost use Rattle.std.specs.Prelude.{◌≡◌, ◌+◌, ◌<◌, ◌≤◌, ◌^◌, [], ℕ, None, Ok, IfOk, IfErr, IfSome, IsSome, OnErr, IsTrue, IsFalse, is_some, length, slice_index_or};
ghost use Rattle.std.specs.FinMap.{entries};
ghost use Rattle.history.specs.Rows.{records_in};
ghost use Rattle.eaw_face.specs.Causes.{IsAlive};
ghost use Rattle.eaw_face.specs.Mirroring.{Mirrors, GivesUp};
ghost use Rattle.page_store.specs.Shown.{counts_in, pages_of};
ghost use Rattle.history.specs.Locks.{touched, has_table};
ghost use Rattle.history.specs.declared.call.Call.TheVariants.{Begin, Table as OnTable, Control as Controls};
ghost use Rattle.history.specs.declared.call.Control.TheVariants as control;
ghost use Rattle.history.specs.declared.locks.Mode.TheVariants.{Shared, Exclusive};
ghost use Rattle.history.specs.declared.call.Reply.TheVariants.{Dead};
ghost use Rattle.caller_steps.specs.Core.{IsSafe, Steps};
ghost use Rattle.caller_steps.specs.Fate.{is_busy, is_refusal};
ghost use Rattle.caller_steps.specs.Locked.{IsLocked, finds_table};
ghost use Rattle.caller_steps.specs.Purging.{PurgeCause};
ghost use Rattle.caller_steps.specs.Room as steps_room;
ghost use Rattle.caller_steps.specs.State.{unoffered, offered, unsettled, calls_of};
ghost use Rattle.record_table.specs.Names.{KeepsNames};
ghost use Rattle.record_table.specs.Shown.{state_of};
ghost use Rattle.record_table.specs.Upgrading.{Upgrades};
ghost use Rattle.mars_core.specs.Attached.{CoreCause, GivesBack, is_media_fault};
ghost use Rattle.mars_core.specs.declared.locks.Locks.TheVariants.{Held};
ghost use Rattle.mars_core.specs.Held.{core_of};
ghost use Rattle.mars_core.specs.Masks.{IsMaskOf};
ghost use Rattle.mars_core.specs.Over.{Begins, IsOver, LeavesView};
ghost use Rattle.mars_core.specs.Seats.{live_in, offers_in};
ghost use Rattle.mars_core.specs.Works.{IsShown};

mod taped;

use crate::asking::answer;
use crate::fault::CoreFault;
use crate::live::Live;
use crate::locks::Locks;
use crate::offer::Offer;
use crate::purging::clear;
use crate::seat::Ending;
use crate::seats::Seats;
use caller_steps::Core as Steps;
use eaw_face::EawStore;
use history::{Call, Control, Done, Reply, TableCall, Tables};
use mars_base::NoMemory;
use noted::{Base, Dones, Doubt, Keeper, NotedRows};
use page_store::{KeyIndex, Pages, SaveRoom};
use record_slots::{Name, Names};
use record_table::Records;
use std::alloc::Global;
use std::marker::Model;
use std::mem::replace;

/// Callers that take turns on records over a store, under an index. Each call locks the stripe of its key in its table (of 64), and a scan
/// all stripes, until the transaction ends: a get and a scan beside other readers, a put and a removal alone. The keeper says whether the
/// history and the records at the opening stay in memory.
#[derive(Drop)]
pub struct Core<S: EawStore, K: KeyIndex, H: Keeper> {
    alloc: Global,
    records: Records<S, K>,
    base: Base<H>,
    seats: Seats<H>,
    history: Dones<H>,
    /// The transactions whose commit met a fault of the medium. They may be durable or not.
    doubt: Doubt<H>,
}

impl<S: EawStore, K: KeyIndex, H: Keeper> Model for Core<S, K, H> {
    ghost use Rattle.std.specs.Prelude.{length};
    ghost use Rattle.page_store.specs.Shown.{pages_of};
    ghost use Rattle.mars_core.specs.Held.{Held, state_over};
    ghost use Rattle.mars_core.specs.Kept.{IsKept};

    ghost Value = { Held S };

    ghost view = { λ c. record { records = c.records; base = c.base; seats = c.seats; history = c.history.items; doubt = c.doubt } };

    ghost invariant = { λ c. IsKept S.tells S.opens K.index (pages_of (S.view c.records.store) c.records) (length c.seats.places) c.base
        (state_over K.index (S.view c.records.store) (record { records = c.records; base = c.base; seats = c.seats; history = c.history.items; doubt = c.doubt })) };
}

impl<S: EawStore, K: KeyIndex, H: Keeper> Core<S, K, H> {
    /// A core over a store that is not dead and on which no number is live. It begins with the records of the store's data, which it brings
    /// to version 2 last, and that data shows its first state. An error returns the store: the data is not a sound index, the medium failed,
    /// or memory ran out.
    pub fn attach(alloc: Global, room: SaveRoom, store: S) -> Result<Core<S, K, H>, (CoreFault, S)>
        requires alive { IsAlive (S.view store) }
        requires idle { (t : ℕ) → (S.view store).ranges t ≡ None }
        ensures begins { IfOk result (λ core. Begins S.tells (S.opens (S.view store).shape) K.index (S.view store) (S.view core.records.store)
            (core_of S.opens K.index (S.view core.records.store) core)) }
        ensures shown { IfOk result (λ core. IsTrue S.tells
            → steps_room.IsShown (core_of S.opens K.index (S.view core.records.store) core).limits (core_of S.opens K.index (S.view core.records.store) core).state) }
        ensures shows { IfOk result (λ core. IsTrue S.tells
            → (core_of S.opens K.index (S.view core.records.store) core).shows (core_of S.opens K.index (S.view core.records.store) core).state) }
        ensures cause { IfErr result (λ failed. CoreCause S.tells K.index (S.view store) failed.0) }
        ensures gives_back { IfErr result (λ failed. GivesBack S.tells (S.opens (S.view store).shape) (is_media_fault failed.0) (S.view store) (S.view failed.1)) }
    {
        let (records, tables) = match Records::attach(alloc, Pages::attach_in(room, store)) {
            Ok(attached) => attached,
            Err((fault, pages)) => return Err((CoreFault::from(fault), pages.into_store())),
        };
        begin_over(alloc, records, tables)
    }

    /// The records at the opening, in the order of their keys: of each table its rows. There are some if they are kept.
    pub fn base(&self) -> Option<&Tables>
        ensures base { IfSome result (λ tables. tables.now ≡ self.now.base) }
        ensures kept { IsTrue H.keeps → IsSome result }
        ensures entries { IsTrue S.tells → IfSome result (λ tables. records_in tables.now ≡ entries (core_of S.opens K.index (S.view self.now.records.store) self.now).state.base) }
    {
        self.base.tables()
    }

    /// The transactions whose commit met a fault of the medium: one that was committed alone, or a group. They are there if they are kept.
    pub fn doubt(&self) -> Option<&[Done]>
        ensures doubt { IfSome result (λ dones. dones.now ≡ self.now.doubt) }
        ensures kept { IsTrue H.keeps → IsSome result }
    {
        self.doubt.as_slice()
    }

    /// Whether the caller has a live transaction. While the store below is not dead, what is logged there for the caller is what its calls
    /// have written: written into the records, it leaves what the caller sees.
    pub fn live(&self, caller: u8) -> bool
        requires { caller < (S.view self.now.records.store).shape.numbers }
        ensures live { result ≡ is_some (live_in self.now.seats caller) }
        ensures views { IsTrue S.tells → IsAlive (S.view self.now.records.store) → LeavesView K.index (S.view self.now.records.store) (core_of S.opens K.index (S.view self.now.records.store) self.now).state caller }
    {
        self.seats.is_live(caller)
    }

    /// A bit for each stripe that the caller's live transaction touched for reading.
    pub fn touched_read(&self, caller: u8) -> u64
        requires { caller < (S.view self.now.records.store).shape.numbers }
        ensures { IsMaskOf Shared (touched self.now.seats.names (calls_of (core_of S.opens K.index (S.view self.now.records.store) self.now).state caller)) result }
    {
        self.seats.touched(caller).reads
    }

    /// A bit for each stripe that the caller's live transaction touched for writing.
    pub fn touched_write(&self, caller: u8) -> u64
        requires { caller < (S.view self.now.records.store).shape.numbers }
        ensures { IsMaskOf Exclusive (touched self.now.seats.names (calls_of (core_of S.opens K.index (S.view self.now.records.store) self.now).state caller)) result }
    {
        self.seats.touched(caller).writes
    }

    /// The oldest frame that the store below has sent and not yet given up. It is empty if there is none.
    pub fn first_frame(&self) -> &[u8]
        ensures { IsTrue (S.view self.now.records.store).sending.told → result.now ≡ slice_index_or (S.view self.now.records.store).sending.frames 0 [] }
    {
        self.records.first_frame()
    }

    /// Gives that frame up. If there is none, it does nothing.
    pub fn drop_frame(&mut self)
        ensures gives_up { GivesUp (S.view self.old.records.store) (S.view self.new.records.store) }
        ensures rest { self.new ≡ record self.old { records = self.new.records } }
    {
        self.records.drop_frame();
    }

    /// Whether the sending of frames has ended.
    pub fn link_down(&self) -> bool
        ensures { result ≡ (S.view self.now.records.store).sending.is_down }
    {
        self.records.link_down()
    }

    /// The store below. What live transactions have written is still logged in it, and leaves their views.
    pub fn into_store(self) -> S
        ensures store { result ≡ self.records.store }
        ensures over { IsOver S.tells (S.opens (S.view result).shape) K.index (S.view result) (core_of S.opens K.index (S.view result) self) }
    {
        let Core {
            alloc: _,
            records,
            base: _,
            seats: _,
            history: _,
            doubt: _,
        } = self;
        records.into_pages().into_store()
    }

    #[tactic(auto, using(crate::proofs::GivingUp::sends_none))]
    fn begin(&mut self, caller: u8) -> Reply
        requires inside { caller < (S.view self.old.records.store).shape.numbers }
        requires alive { IsAlive (S.view self.old.records.store) }
        requires unoffered { offers_in self.old.seats caller ≡ unoffered }
        ensures steps { Steps S.tells caller Begin (core_of S.opens K.index (S.view self.old.records.store) self.old)
            (core_of S.opens K.index (S.view self.new.records.store) self.new) result }
        ensures sends { Mirrors S.tells (S.view self.old.records.store) (S.view self.new.records.store) }
        ensures not_busy { IsFalse (is_busy result) }
    {
        if self.seats.is_live(caller) {
            return Reply::Already;
        }
        self.seats.begin(self.alloc, caller);
        Reply::Fine
    }

    // Answers a call that the one-thread table answers. Meanwhile the transaction is out of its seat.
    #[tactic(auto, using(crate::proofs::GivingUp::sends_none))]
    fn ask(&mut self, caller: u8, asked: &TableCall, locks: Locks) -> Reply
        requires inside { caller < (S.view self.old.records.store).shape.numbers }
        requires alive { IsAlive (S.view self.old.records.store) }
        requires unoffered { offers_in self.old.seats caller ≡ unoffered }
        requires shown { IsShown S.tells K.index (pages_of (S.view self.old.records.store) self.old.records) }
        requires locked { locks ≡ Held → IsLocked (core_of S.opens K.index (S.view self.old.records.store) self.old).state caller (OnTable asked.now) }
        ensures steps { Steps S.tells caller (OnTable asked.now) (core_of S.opens K.index (S.view self.old.records.store) self.old)
            (core_of S.opens K.index (S.view self.new.records.store) self.new) result }
        ensures sends { Mirrors S.tells (S.view self.old.records.store) (S.view self.new.records.store) }
        ensures not_busy { locks ≡ Held → IsFalse (is_busy result) }
        ensures tabled { IsFalse (is_refusal result) → IsTrue (has_table self.old.seats.names asked.now) }
    {
        let Some(live) = self.seats.take(caller) else {
            return Reply::NoTransaction;
        };
        let (live, reply) = answer(
            self.alloc,
            &mut self.records,
            &self.seats,
            caller,
            live,
            asked,
            locks,
        );
        self.seats.put(caller, live);
        reply
    }

    #[tactic(auto, using(crate::proofs::GivingUp::sends_none))]
    fn commit(&mut self, caller: u8) -> Reply
        requires inside { caller < (S.view self.old.records.store).shape.numbers }
        requires alive { IsAlive (S.view self.old.records.store) }
        requires unoffered { offers_in self.old.seats caller ≡ unoffered }
        ensures steps { Steps S.tells caller (Controls control.Commit) (core_of S.opens K.index (S.view self.old.records.store) self.old)
            (core_of S.opens K.index (S.view self.new.records.store) self.new) result }
        ensures sends { Mirrors S.tells (S.view self.old.records.store) (S.view self.new.records.store) }
        ensures not_busy { IsFalse (is_busy result) }
    {
        let at = self.history.count() + 1;
        let Some(live) = self.seats.take(caller) else {
            return Reply::NoTransaction;
        };
        let Live { calls, masks } = live;
        // There is room for the transaction first, so that nothing is committed that there is no memory to keep.
        match self.history.reserve(1) {
            Ok(()) => {}
            Err(NoMemory) => {
                self.seats.put(caller, Live { calls, masks });
                return Reply::NoMemory;
            }
        }
        match self.records.commit(caller) {
            Ok(()) => {
                self.history.push_reserved(caller, calls, at, at);
                Reply::Committed(at)
            }
            Err(fault) => {
                self.doubt = Doubt::single(caller, calls, at);
                Reply::from(fault)
            }
        }
    }

    #[tactic(auto, using(crate::proofs::GivingUp::sends_none))]
    fn abort(&mut self, caller: u8) -> Reply
        requires inside { caller < (S.view self.old.records.store).shape.numbers }
        requires alive { IsAlive (S.view self.old.records.store) }
        requires unoffered { offers_in self.old.seats caller ≡ unoffered }
        ensures steps { Steps S.tells caller (Controls control.Abort) (core_of S.opens K.index (S.view self.old.records.store) self.old)
            (core_of S.opens K.index (S.view self.new.records.store) self.new) result }
        ensures sends { Mirrors S.tells (S.view self.old.records.store) (S.view self.new.records.store) }
        ensures not_busy { IsFalse (is_busy result) }
    {
        if !self.seats.is_live(caller) {
            return Reply::NoTransaction;
        }
        match self.records.abort(caller) {
            Ok(()) => {
                self.seats.end(caller);
                Reply::Fine
            }
            Err(fault) => Reply::from(fault),
        }
    }

    // A caller offers its live transaction, which then takes no more calls.
    #[tactic(auto, using(crate::proofs::GivingUp::sends_none))]
    fn offer(&mut self, caller: u8) -> Reply
        requires inside { caller < (S.view self.old.records.store).shape.numbers }
        requires alive { IsAlive (S.view self.old.records.store) }
        requires unoffered { offers_in self.old.seats caller ≡ unoffered }
        ensures steps { Steps S.tells caller (Controls control.Offer) (core_of S.opens K.index (S.view self.old.records.store) self.old)
            (core_of S.opens K.index (S.view self.new.records.store) self.new) result }
        ensures sends { Mirrors S.tells (S.view self.old.records.store) (S.view self.new.records.store) }
        ensures not_busy { IsFalse (is_busy result) }
    {
        let Some(live) = self.seats.take(caller) else {
            return Reply::NoTransaction;
        };
        self.seats.put_offered(caller, live);
        Reply::Fine
    }

    // Takes keys without records out of the index: each key whose stripe no live transaction touches is tried once, by rising table and
    // key. A key stays whose pair its page keeps as the last one.
    #[tactic(auto, using(crate::proofs::GivingUp::sends_none))]
    fn purge(&mut self, caller: u8) -> Reply
        requires inside { caller < (S.view self.old.records.store).shape.numbers }
        requires alive { IsAlive (S.view self.old.records.store) }
        requires unoffered { offers_in self.old.seats caller ≡ unoffered }
        ensures steps { Steps S.tells caller (Controls control.Purge) (core_of S.opens K.index (S.view self.old.records.store) self.old)
            (core_of S.opens K.index (S.view self.new.records.store) self.new) result }
        ensures cause { PurgeCause (core_of S.opens K.index (S.view self.old.records.store) self.old).state caller result }
        ensures sends { Mirrors S.tells (S.view self.old.records.store) (S.view self.new.records.store) }
        ensures not_busy { IsFalse (is_busy result) }
    {
        if self.seats.is_live(caller) {
            return Reply::Already;
        }
        match clear(&mut self.records, &self.seats, caller) {
            Ok(taken) => Reply::Purged(taken),
            Err(fault) => Reply::from(fault),
        }
    }

    // Answers a caller that has offered nothing.
    #[tactic(auto, using(crate::proofs::GivingUp::sends_none))]
    fn make_open(&mut self, caller: u8, call: &Call, locks: Locks) -> Reply
        requires inside { caller < (S.view self.old.records.store).shape.numbers }
        requires alive { IsAlive (S.view self.old.records.store) }
        requires shown { IsShown S.tells K.index (pages_of (S.view self.old.records.store) self.old.records) }
        requires unoffered { offers_in self.old.seats caller ≡ unoffered }
        requires safe { IsTrue S.tells → IsSafe (core_of S.opens K.index (S.view self.old.records.store) self.old) (S.view self.old.records.store).moment (length self.old.history) }
        requires locked { locks ≡ Held → IsLocked (core_of S.opens K.index (S.view self.old.records.store) self.old).state caller call.now }
        ensures steps { Steps S.tells caller call.now (core_of S.opens K.index (S.view self.old.records.store) self.old)
            (core_of S.opens K.index (S.view self.new.records.store) self.new) result }
        ensures purge { call.now ≡ Controls control.Purge → PurgeCause (core_of S.opens K.index (S.view self.old.records.store) self.old).state caller result }
        ensures sends { Mirrors S.tells (S.view self.old.records.store) (S.view self.new.records.store) }
        ensures not_busy { locks ≡ Held → IsFalse (is_busy result) }
        ensures tabled { IsFalse (is_refusal result) → IsTrue (finds_table self.old.seats.names call.now) }
    {
        match call {
            Call::Begin => self.begin(caller),
            Call::Table(asked) => self.ask(caller, asked, locks),
            Call::Control(control) => match control {
                Control::Commit => self.commit(caller),
                Control::Abort => self.abort(caller),
                Control::Offer => self.offer(caller),
                Control::Settle => Reply::NoTransaction,
                Control::Purge => self.purge(caller),
            },
        }
    }

    // Commits all that callers have offered as one group, and ends the caller's own.
    #[tactic(auto, using(crate::proofs::GivingUp::sends_none))]
    fn settle(&mut self, caller: u8) -> Reply
        requires inside { caller < (S.view self.old.records.store).shape.numbers }
        requires alive { IsAlive (S.view self.old.records.store) }
        requires offered { offers_in self.old.seats caller ≡ offered }
        ensures steps { Steps S.tells caller (Controls control.Settle) (core_of S.opens K.index (S.view self.old.records.store) self.old)
            (core_of S.opens K.index (S.view self.new.records.store) self.new) result }
        ensures sends { Mirrors S.tells (S.view self.old.records.store) (S.view self.new.records.store) }
        ensures not_busy { IsFalse (is_busy result) }
    {
        let (callers, count) = self.seats.offered();
        // There is room for the group before its commit, so that nothing is committed that there is no memory to keep.
        let Ok((mut history, mut doubt)) = rooms(self.alloc, &mut self.history, count as u64) else {
            return Reply::NoMemory;
        };
        let before = history.count();
        let last = before + count as u64;
        match self.records.commit_group(callers) {
            Ok(()) => {
                self.seats
                    .take_offered(Ending::Committed, before, last, &mut history);
                drop(doubt);
                self.history = history;
                Reply::Committed(self.seats.settle(caller))
            }
            Err(fault) => {
                self.seats
                    .take_offered(Ending::Doubtful, before, last, &mut doubt);
                self.history = history;
                self.doubt = Doubt::group(doubt);
                Reply::from(fault)
            }
        }
    }

    // Answers a caller that has offered its transaction: it settles, or is refused.
    #[tactic(auto, using(crate::proofs::GivingUp::sends_none))]
    fn make_offered(&mut self, caller: u8, call: &Call) -> Reply
        requires inside { caller < (S.view self.old.records.store).shape.numbers }
        requires alive { IsAlive (S.view self.old.records.store) }
        requires offered { offers_in self.old.seats caller ≡ offered }
        requires safe { IsTrue S.tells → IsSafe (core_of S.opens K.index (S.view self.old.records.store) self.old) (S.view self.old.records.store).moment (length self.old.history) }
        ensures steps { Steps S.tells caller call.now (core_of S.opens K.index (S.view self.old.records.store) self.old)
            (core_of S.opens K.index (S.view self.new.records.store) self.new) result }
        ensures sends { Mirrors S.tells (S.view self.old.records.store) (S.view self.new.records.store) }
        ensures not_busy { IsFalse (is_busy result) }
        ensures purge { call.now ≡ Controls control.Purge → PurgeCause (core_of S.opens K.index (S.view self.old.records.store) self.old).state caller result }
    {
        match call {
            Call::Begin => Reply::Already,
            Call::Table(_) => Reply::NoTransaction,
            Call::Control(control) => match control {
                Control::Purge => Reply::Already,
                Control::Settle => self.settle(caller),
                _ => Reply::NoTransaction,
            },
        }
    }

    // Answers a caller whose offered transaction a group has committed: it is told its number, or is refused.
    #[tactic(auto, using(crate::proofs::GivingUp::sends_none))]
    fn make_committed(&mut self, caller: u8, call: &Call) -> Reply
        requires inside { caller < (S.view self.old.records.store).shape.numbers }
        requires alive { IsAlive (S.view self.old.records.store) }
        requires committed { (n : ℕ) × (offers_in self.old.seats caller ≡ unsettled n) }
        requires safe { IsTrue S.tells → IsSafe (core_of S.opens K.index (S.view self.old.records.store) self.old) (S.view self.old.records.store).moment (length self.old.history) }
        ensures steps { Steps S.tells caller call.now (core_of S.opens K.index (S.view self.old.records.store) self.old)
            (core_of S.opens K.index (S.view self.new.records.store) self.new) result }
        ensures sends { Mirrors S.tells (S.view self.old.records.store) (S.view self.new.records.store) }
        ensures not_busy { IsFalse (is_busy result) }
        ensures purge { call.now ≡ Controls control.Purge → PurgeCause (core_of S.opens K.index (S.view self.old.records.store) self.old).state caller result }
    {
        match call {
            Call::Begin => Reply::Already,
            Call::Table(_) => Reply::NoTransaction,
            Call::Control(control) => match control {
                Control::Purge => Reply::Already,
                Control::Settle => Reply::Committed(self.seats.settle(caller)),
                _ => Reply::NoTransaction,
            },
        }
    }

    #[tactic(auto, using(crate::proofs::GivingUp::sends_none))]
    fn make(&mut self, caller: u8, call: &Call, locks: Locks) -> Reply
        requires inside { caller < (S.view self.old.records.store).shape.numbers }
        requires locked { locks ≡ Held → IsLocked (core_of S.opens K.index (S.view self.old.records.store) self.old).state caller call.now }
        ensures steps { Steps S.tells caller call.now (core_of S.opens K.index (S.view self.old.records.store) self.old)
            (core_of S.opens K.index (S.view self.new.records.store) self.new) result }
        ensures sends { Mirrors S.tells (S.view self.old.records.store) (S.view self.new.records.store) }
        ensures dead { IsTrue (S.view self.old.records.store).is_dead → (result ≡ Dead) × (self.new ≡ self.old) }
        ensures purge { call.now ≡ Controls control.Purge → PurgeCause (core_of S.opens K.index (S.view self.old.records.store) self.old).state caller result }
        ensures not_busy { locks ≡ Held → IsFalse (is_busy result) }
        ensures tabled { IsFalse (is_refusal result) → IsTrue (finds_table self.old.seats.names call.now) }
    {
        if self.records.is_dead() {
            return Reply::Dead;
        }
        match self.seats.offer(caller) {
            Offer::Nothing => self.make_open(caller, call, locks),
            Offer::Offered => self.make_offered(caller, call),
            Offer::Committed { .. } => self.make_committed(caller, call),
        }
    }
}

impl<S: EawStore, K: KeyIndex, H: Keeper> Steps for Core<S, K, H> {
    ghost use Rattle.eaw_face.specs.Mirroring.{Mirrors};
    ghost use Rattle.mars_core.specs.Held.{core_of};

    ghost tells = { S.tells };

    ghost keeps = { H.keeps };

    ghost forgets = { H.forgets };

    ghost view = { λ core. core_of S.opens K.index (S.view core.records.store) core };

    ghost sends = { λ old new. Mirrors S.tells (S.view old.records.store) (S.view new.records.store) };

    fn step(&mut self, caller: u8, call: &Call) -> Reply {
        self.make(caller, call, Locks::Asked)
    }

    fn step_locked(&mut self, caller: u8, call: &Call) -> Reply {
        self.make(caller, call, Locks::Held)
    }

    fn names(&self) -> &Names {
        self.seats.names()
    }

    fn told(&self) -> u64 {
        self.history.count()
    }

    fn history(&self) -> Option<(u64, &[Done])> {
        self.history.kept()
    }

    fn forget(&mut self, told: u64) {
        self.history.forget(told);
    }
}

// Takes a history out, and makes an empty one, each with room for so many more. Without memory the history stays.
fn rooms<H: Keeper>(
    alloc: Global,
    history: &mut Dones<H>,
    more: u64,
) -> Result<(Dones<H>, Dones<H>), NoMemory>
    ensures items { IfOk result (λ made. made.0.items ≡ history.old.items) }
    ensures room { IfOk result (λ made. length made.0.items + more ≤ made.0.capacity) }
    ensures few { IfOk result (λ made. made.0.capacity ≤ 2 ^ 63) }
    ensures empty { IfOk result (λ made. made.1.items ≡ []) }
    ensures whole { IfOk result (λ made. made.1.first ≡ 0) }
    ensures second_room { IfOk result (λ made. more ≤ made.1.capacity) }
    ensures err { OnErr result (history.new.items ≡ history.old.items) }
{
    let mut empty = Dones::new(alloc);
    empty.reserve(more)?;
    history.reserve(more)?;
    Ok((replace(history, Dones::new(alloc)), empty))
}

// Makes room for the callers, over the records at the opening and their rows, and then brings the data to version 2.
fn begin_over<S: EawStore, K: KeyIndex, H: Keeper>(
    alloc: Global,
    records: Records<S, K>,
    tables: Vec<(Name, NotedRows<H>)>,
) -> Result<Core<S, K, H>, (CoreFault, S)>
    requires alive { IsAlive (S.view records.store) }
    requires free { (t : ℕ) → (S.view records.store).ranges t ≡ None }
    requires sound { IsTrue S.tells → K.index.sound (S.view records.store).state.bytes }
    requires base { IsTrue S.tells → records_in tables.items ≡ entries (state_of K.index (pages_of (S.view records.store) records)).table }
    requires idle { IsTrue S.tells → (t : ℕ) → ((state_of K.index (pages_of (S.view records.store) records)).logs t).writes ≡ [] }
    requires unmarked { (t : ℕ) → counts_in records.marks t ≡ [] }
    requires unsaved { IsTrue S.tells → (t : ℕ) → ((state_of K.index (pages_of (S.view records.store) records)).logs t).saved ≡ [] }
    ensures begins { IfOk result (λ core. Begins S.tells (S.opens (S.view records.store).shape) K.index (S.view records.store) (S.view core.records.store)
        (core_of S.opens K.index (S.view core.records.store) core)) }
    ensures cause { IfErr result (λ failed. CoreCause S.tells K.index (S.view records.store) failed.0) }
    ensures gives_back { IfErr result (λ failed. GivesBack S.tells (S.opens (S.view records.store).shape) (is_media_fault failed.0) (S.view records.store) (S.view failed.1)) }
{
    let base = match gathered(alloc, tables) {
        Ok(base) => base,
        Err(_) => return Err((CoreFault::NoMemory, records.into_pages().into_store())),
    };
    let seats = match Seats::new(alloc, records.names(), records.shape().numbers) {
        Ok(seats) => seats,
        Err(_) => return Err((CoreFault::NoMemory, records.into_pages().into_store())),
    };
    let records = upgraded(records)?;
    Ok(Core {
        alloc,
        records,
        base,
        seats,
        history: Dones::new(alloc),
        doubt: Doubt::none(),
    })
}

// Tables with their names, as they stand.
fn gathered<H: Keeper>(
    alloc: Global,
    tables: Vec<(Name, NotedRows<H>)>,
) -> Result<Base<H>, NoMemory>
    ensures { IfOk result (λ all. all ≡ tables.items) }
{
    let mut all = Base::new(alloc);
    for (name, rows) in tables {
        all.push(name, rows)?;
    }
    Ok(all)
}

// Records whose data was brought to version 2.
fn upgraded<S: EawStore, K: KeyIndex>(
    records: Records<S, K>,
) -> Result<Records<S, K>, (CoreFault, S)>
    requires alive { IsAlive (S.view records.store) }
    requires free { (S.view records.store).ranges 0 ≡ None }
    ensures upgrades { IfOk result (λ after. Upgrades S.tells (S.opens (S.view records.store).shape) K.index
        (pages_of (S.view records.store) records) (pages_of (S.view after.store) after) (Ok tt)) }
    ensures cause { IfErr result (λ failed. CoreCause S.tells K.index (S.view records.store) failed.0) }
    ensures gives_back { IfErr result (λ failed. GivesBack S.tells (S.opens (S.view records.store).shape) (is_media_fault failed.0) (S.view records.store) (S.view failed.1)) }
{
    let mut records = records;
    match records.upgrade() {
        Ok(()) => Ok(records),
        Err(fault) => Err((CoreFault::from(fault), records.into_pages().into_store())),
    }
}

// Pages over a store of editable atomic writes.
ghost use Rattle.std.specs.Prelude.{◌≡◌, ◌≢◌, ◌↔◌, ◌+◌, ◌^◌, ◌<◌, ◌≤◌, ℕ, [], true, List, None, Some, is_some, slice_index, slice_index_or, filter, if◌then◌else◌, IsTrue, IsOk, IfOk, IfErr, OnErr, OnOk, IsErrOf, length};
ghost use Rattle.std.specs.Option.{option_map};
ghost use Rattle.mars_base.specs.Bytes.{put, range};
ghost use Rattle.mars_base.specs.Costs.{Costs};
ghost use Rattle.array_shape.specs.NumberSet.{members};
ghost use Rattle.array_shape.specs.Places.{data_len};
ghost use Rattle.array_shape.specs.Logged.{applied};
ghost use Rattle.eaw_face.specs.Causes.{IsAlive};
ghost use Rattle.eaw_face.specs.Command.{Command, commit, abort, nested_top, partial_abort};
ghost use Rattle.eaw_face.specs.Command as model;
ghost use Rattle.eaw_face.specs.State.{listed, group_log, is_one_of, with_each, part_at, range_at};
ghost use Rattle.eaw_face.specs.StoreView.{log_len};
ghost use Rattle.eaw_face.specs.Mirroring.{GivesUp};
ghost use Rattle.page_store.specs.Command.{write_as, save, back, top_begin, top_end, end, end_group, atomic_write, read_as, read};
ghost use Rattle.page_store.specs.Device.{device, device_cost};
ghost use Rattle.page_store.specs.Does.{Becomes, Does};
ghost use Rattle.page_store.specs.Edit.{edit_pos, meet};
ghost use Rattle.page_store.specs.Fits.{FitAll, LacksRoom, is_page_on};
ghost use Rattle.page_store.specs.Kept.{IsOrdered};
ghost use Rattle.page_store.specs.Reads.{Reads, lay_cost, seen_cost};
ghost use Rattle.page_store.specs.Shown.{IsInPage, IsUnmarked, address, counts_in, outline_of, top_in, pages_of, state_of};
ghost use Rattle.page_store.specs.Told.{IsKnown, TellsAs, DoesWhereLive};
ghost use Rattle.page_store.specs.State.{view_of};

mod taped;

use crate::fault::PageFault;
use crate::marks::Marks;
use crate::room::SaveRoom;
use array_shape::{NumberSet, Shape};
use eaw_face::{EawFault, EawStore};
use mars_base::NoMemory;
use std::alloc::Global;
use std::marker::Model;

/// Pages with savepoints and nested top actions over an array of editable atomic writes (ARIES' savepoints and nested top actions, over
/// the commands of the SOSP paper). What a number sees, its view, is the data with all that it has written.
///
/// Each call is one of the model's (`Does`): what it makes of parts and saves, when each refusal comes, and what a loss of power
/// during it may leave. After a refusal other than `Media` nothing has changed. After `Media` each call that can be refused
/// answers `Dead`.
#[derive(Drop)]
pub struct Pages<S: EawStore> {
    store: S,
    marks: Vec<Marks>,
}

impl<S: EawStore> Model for Pages<S> {
    ghost use Rattle.page_store.specs.Shown.{Shown};
    ghost use Rattle.page_store.specs.Invariant.{IsSound};

    ghost Value = { Shown S };

    ghost view = { λ p. record { store = p.store; marks = p.marks.items } };

    ghost invariant = { λ p. IsSound (S.view p.store) p.marks.items };
}

impl<S: EawStore> Pages<S> {
    /// Pages over a store, without saves. The memory for saves is taken here.
    pub fn attach(alloc: Global, store: S) -> Result<Pages<S>, (NoMemory, S)>
        ensures fresh { IfOk result (λ pages. (pages.store ≡ store) × IsUnmarked pages.marks) }
        ensures err { IfErr result (λ failed. failed.1 ≡ store) }
    {
        match SaveRoom::new(alloc) {
            Ok(room) => Ok(Pages::attach_in(room, store)),
            Err(_) => Err((NoMemory, store)),
        }
    }

    /// Pages over a store, without saves, in room that was taken before.
    pub fn attach_in(room: SaveRoom, store: S) -> Pages<S>
        ensures store { result.store ≡ store }
        ensures fresh { IsUnmarked result.marks }
    {
        let marks = room.take(store.shape().numbers);
        Pages { store, marks }
    }

    /// The shape of the array below.
    pub fn shape(&self) -> Shape
        ensures { result ≡ (S.view self.now.store).shape }
    {
        self.store.shape()
    }

    /// How many parts the number has logged: 0 if it is not live.
    pub fn log_len(&self, tid: u8) -> u32
        requires { tid < (S.view self.now.store).shape.numbers }
        ensures { result ≡ log_len (S.view self.now.store) tid }
    {
        self.store.log_len(tid)
    }

    pub fn is_live(&self, tid: u8) -> bool
        requires { tid < (S.view self.now.store).shape.numbers }
        ensures { result ≡ is_some ((S.view self.now.store).ranges tid) }
    {
        self.store.is_live(tid)
    }

    /// How many saves the number has, at most 32.
    pub fn saves(&self, tid: u8) -> u32
        requires { tid < (S.view self.now.store).shape.numbers }
        ensures count { result ≡ length (counts_in self.now.marks tid) }
        ensures most { result ≤ 32 }
    {
        self.marks[usize::from(tid)].saves()
    }

    /// The mark of the number's open top action, if one is open.
    pub fn open_top(&self, tid: u8) -> Option<u32>
        requires { tid < (S.view self.now.store).shape.numbers }
        ensures { result ≡ top_in self.now.marks tid }
    {
        self.marks[usize::from(tid)].top()
    }

    /// Whether an earlier call has met a fault of the medium. If none has, saves and open top actions are in order.
    pub fn is_dead(&self) -> bool
        ensures dead { result ≡ (S.view self.now.store).is_dead }
        ensures ordered { IsAlive (S.view self.now.store) → IsOrdered (outline_of (pages_of (S.view self.now.store) self.now)) }
    {
        self.store.is_dead()
    }

    /// The oldest frame that the store below has sent and not yet given up. It is empty if there is none.
    pub fn first_frame(&self) -> &[u8]
        ensures { IsTrue (S.view self.now.store).sending.told → result.now ≡ slice_index_or (S.view self.now.store).sending.frames 0 [] }
    {
        self.store.first_frame()
    }

    /// Gives that frame up. If there is none, it does nothing.
    pub fn drop_frame(&mut self)
        ensures gives_up { GivesUp (S.view self.old.store) (S.view self.new.store) }
        ensures marks { self.new.marks ≡ self.old.marks }
    {
        self.store.drop_frame();
    }

    /// Whether the sending of frames has ended.
    pub fn link_down(&self) -> bool
        ensures { result ≡ (S.view self.now.store).sending.is_down }
    {
        self.store.link_down()
    }

    /// Fills the buffer with committed data of a page, from byte `at` of the page on.
    pub fn read(&mut self, page: u32, at: u32, buf: &mut [u8]) -> Result<(), PageFault>
        requires { IsInPage (S.view self.old.store) page at (length buf.old) }
        ensures does { Does S.tells (S.opens (S.view self.old.store).shape) read
            (pages_of (S.view self.old.store) self.old) (pages_of (S.view self.new.store) self.new) result }
        ensures bytes { IsTrue S.tells → OnOk result (buf.new ≡ range (S.view self.old.store).state.bytes (address page at) (length buf.old)) }
        ensures costs { Costs true (S.calls self.old.store (model.read (address page at) (length buf.old))) (S.view self.old.store).moment (S.view self.new.store).moment result }
        ensures steady { OnOk result ((command : Command) → S.calls self.new.store command ≡ S.calls self.old.store command) }
        ensures refused { IfErr result (λ fault. fault ≢ PageFault.Media → self.new ≡ self.old) }
    {
        told(self.store.read(address(page, at), buf))
    }

    /// Reads what the number sees of a page: the data with the number's own parts written.
    pub fn read_as(&mut self, tid: u8, page: u32, at: u32, buf: &mut [u8]) -> Result<(), PageFault>
        requires tid { tid < (S.view self.old.store).shape.numbers }
        requires inside { IsInPage (S.view self.old.store) page at (length buf.old) }
        ensures does { Does S.tells (S.opens (S.view self.old.store).shape) (read_as tid)
            (pages_of (S.view self.old.store) self.old) (pages_of (S.view self.new.store) self.new) result }
        ensures bytes { IsTrue S.tells → OnOk result (buf.new ≡
            range (view_of tid (state_of (pages_of (S.view self.old.store) self.old))) (address page at) (length buf.old)) }
        ensures costs { Costs true (seen_cost (S.calls self.old.store) tid (address page at) (length buf.old) (listed ((S.view self.old.store).ranges tid)))
            (S.view self.old.store).moment (S.view self.new.store).moment result }
        ensures steady { OnOk result ((command : Command) → S.calls self.new.store command ≡ S.calls self.old.store command) }
        ensures refused { IfErr result (λ fault. fault ≢ PageFault.Media → self.new ≡ self.old) }
    {
        told(read_seen(&mut self.store, tid, address(page, at), buf))
    }

    /// Writes bytes within a page as the number: they are in its view at once, and in the data once it commits. A part that it has
    /// logged since its last save, and since its open top action began, is edited if it has just this range and no later part
    /// meets it. Otherwise one more part is logged.
    pub fn write_as(&mut self, tid: u8, page: u32, at: u32, bytes: &[u8]) -> Result<(), PageFault>
        requires tid { tid < (S.view self.old.store).shape.numbers }
        requires some { 0 < length bytes.now }
        requires inside { IsInPage (S.view self.old.store) page at (length bytes.now) }
        ensures does { Does S.tells (S.opens (S.view self.old.store).shape) (write_as tid (address page at) bytes.now)
            (pages_of (S.view self.old.store) self.old) (pages_of (S.view self.new.store) self.new) result }
        ensures seen { IsTrue S.tells → OnOk result (view_of tid (state_of (pages_of (S.view self.new.store) self.new))
            ≡ put (view_of tid (state_of (pages_of (S.view self.old.store) self.old))) (address page at) bytes.now) }
        ensures costs { Costs S.tells (device_cost (S.calls self.old.store) (device (write_as tid (address page at) bytes.now) (outline_of (pages_of (S.view self.old.store) self.old))))
            (S.view self.old.store).moment (S.view self.new.store).moment result }
        ensures refused { IfErr result (λ fault. fault ≢ PageFault.Media → self.new ≡ self.old) }
    {
        let addr = address(page, at);
        let floor = self.marks[usize::from(tid)].floor();
        match edited_part(&self.store, tid, floor, addr, bytes.len() as u64) {
            Some(pos) => told(self.store.log_edit(tid, pos, 0, bytes)),
            None => told(self.store.log_write(tid, addr, bytes)),
        }
    }

    /// Saves what the number has logged, and returns how many saves it has by then.
    pub fn save(&mut self, tid: u8) -> Result<u32, PageFault>
        requires tid { tid < (S.view self.old.store).shape.numbers }
        requires closed { IsAlive (S.view self.old.store) → top_in self.old.marks tid ≡ None }
        ensures does { Does S.tells (S.opens (S.view self.old.store).shape) (save tid)
            (pages_of (S.view self.old.store) self.old) (pages_of (S.view self.new.store) self.new) result }
        ensures count { IfOk result (λ n. n ≡ length (counts_in self.new.marks tid)) }
        ensures refused { OnErr result (self.new ≡ self.old) }
        ensures idle { self.new.store ≡ self.old.store }
        ensures due { IsErrOf result PageFault.Media → ⊥ }
    {
        if self.store.is_dead() {
            return Err(PageFault::Dead);
        }
        let count = self.store.log_len(tid);
        let marks = &mut self.marks[usize::from(tid)];
        if marks.is_full() {
            return Err(PageFault::SavesFull);
        }
        marks.save(count);
        Ok(marks.saves())
    }

    /// Takes the number back to its save `n`, counted from 1: it sees again what it saw then, over the data as it is now. Later
    /// saves are gone, and this one stays.
    pub fn back(&mut self, tid: u8, n: u32) -> Result<(), PageFault>
        requires tid { tid < (S.view self.old.store).shape.numbers }
        requires some { 0 < n }
        requires there { n ≤ length (counts_in self.old.marks tid) }
        requires closed { IsAlive (S.view self.old.store) → top_in self.old.marks tid ≡ None }
        ensures does { Does S.tells (S.opens (S.view self.old.store).shape) (back tid n)
            (pages_of (S.view self.old.store) self.old) (pages_of (S.view self.new.store) self.new) result }
        ensures costs { Costs S.tells (device_cost (S.calls self.old.store) (device (back tid n) (outline_of (pages_of (S.view self.old.store) self.old))))
            (S.view self.old.store).moment (S.view self.new.store).moment result }
        ensures refused { OnErr result (self.new ≡ self.old) }
        ensures idle { (S.view self.new.store).moment ≡ (S.view self.old.store).moment }
        ensures due { IsErrOf result PageFault.Media → ⊥ }
    {
        if self.store.is_dead() {
            return Err(PageFault::Dead);
        }
        let count = self.marks[usize::from(tid)].at_save(n);
        drop_from(&mut self.store, tid, count)?;
        self.marks[usize::from(tid)].cut(n);
        Ok(())
    }

    /// Begins a top action of the number, and returns the mark that its end takes.
    pub fn top_begin(&mut self, tid: u8) -> u32
        requires tid { tid < (S.view self.old.store).shape.numbers }
        requires closed { IsAlive (S.view self.old.store) → top_in self.old.marks tid ≡ None }
        ensures mark { result ≡ log_len (S.view self.old.store) tid }
        ensures begun { IsAlive (S.view self.old.store) → Becomes S.tells (top_begin tid)
            (pages_of (S.view self.old.store) self.old) (pages_of (S.view self.new.store) self.new) }
        ensures idle { self.new.store ≡ self.old.store }
    {
        let mark = self.store.log_len(tid);
        self.marks[usize::from(tid)].begin_top(mark);
        mark
    }

    /// Ends a top action: what the number has written since it began becomes data at once, and stays whatever becomes of the rest
    /// (ARIES' nested top action).
    pub fn top_end(&mut self, tid: u8, mark: u32) -> Result<(), PageFault>
        requires tid { tid < (S.view self.old.store).shape.numbers }
        requires open { IsAlive (S.view self.old.store) → top_in self.old.marks tid ≡ Some mark }
        ensures does { Does S.tells (S.opens (S.view self.old.store).shape) (top_end tid mark)
            (pages_of (S.view self.old.store) self.old) (pages_of (S.view self.new.store) self.new) result }
        ensures refused { IfErr result (λ fault. fault ≢ PageFault.Media → self.new ≡ self.old) }
        ensures due { IsErrOf result PageFault.Media → mark < log_len (S.view self.old.store) tid }
        ensures idle { log_len (S.view self.old.store) tid ≡ mark → (S.view self.new.store).moment ≡ (S.view self.old.store).moment }
        ensures costs { Costs S.tells (device_cost (S.calls self.old.store) (device (top_end tid mark) (outline_of (pages_of (S.view self.old.store) self.old))))
            (S.view self.old.store).moment (S.view self.new.store).moment result }
    {
        if self.store.is_dead() {
            return Err(PageFault::Dead);
        }
        commit_from(&mut self.store, tid, mark)?;
        self.marks[usize::from(tid)].end_top();
        Ok(())
    }

    /// Commits the number or aborts it, and forgets its saves. It is then free. For a number that is not live, only its saves go.
    pub fn end(&mut self, tid: u8, commits: bool) -> Result<(), PageFault>
        requires tid { tid < (S.view self.old.store).shape.numbers }
        requires closed { IsAlive (S.view self.old.store) → top_in self.old.marks tid ≡ None }
        ensures does { Does S.tells (S.opens (S.view self.old.store).shape) (end tid commits)
            (pages_of (S.view self.old.store) self.old) (pages_of (S.view self.new.store) self.new) result }
        ensures costs { Costs S.tells (device_cost (S.calls self.old.store) (device (end tid commits) (outline_of (pages_of (S.view self.old.store) self.old))))
            (S.view self.old.store).moment (S.view self.new.store).moment result }
        ensures refused { IfErr result (λ fault. fault ≢ PageFault.Media → self.new ≡ self.old) }
        // An abort uses no medium, nor does a commit of nothing.
        ensures due { IsErrOf result PageFault.Media → IsTrue commits × (0 < log_len (S.view self.old.store) tid) }
        ensures idle { log_len (S.view self.old.store) tid ≡ 0 → (S.view self.new.store).moment ≡ (S.view self.old.store).moment }
    {
        if self.store.is_dead() {
            return Err(PageFault::Dead);
        }
        end_number(&mut self.store, tid, commits)?;
        self.marks[usize::from(tid)].cut(0);
        Ok(())
    }

    /// Commits the live numbers of a set, all at once, and forgets the saves of all its numbers. They are then free. What the lowest
    /// number has written goes into the data first.
    pub fn end_group(&mut self, tids: NumberSet) -> Result<(), PageFault>
        requires closed { IsAlive (S.view self.old.store) → (t : ℕ) → t < (S.view self.old.store).shape.numbers → is_one_of (members tids) t ≡ true → top_in self.old.marks t ≡ None }
        ensures does { Does S.tells (S.opens (S.view self.old.store).shape) (end_group (members tids))
            (pages_of (S.view self.old.store) self.old) (pages_of (S.view self.new.store) self.new) result }
        ensures costs { Costs S.tells (device_cost (S.calls self.old.store) (device (end_group (members tids)) (outline_of (pages_of (S.view self.old.store) self.old))))
            (S.view self.old.store).moment (S.view self.new.store).moment result }
        ensures refused { IfErr result (λ fault. fault ≢ PageFault.Media → self.new ≡ self.old) }
        // A commit of nothing uses no medium.
        ensures due { IsErrOf result PageFault.Media → 0 < length (group_log (S.view self.old.store).ranges (members tids)) }
        ensures idle { length (group_log (S.view self.old.store).ranges (members tids)) ≡ 0 → (S.view self.new.store).moment ≡ (S.view self.old.store).moment }
    {
        if self.store.is_dead() {
            return Err(PageFault::Dead);
        }
        let live = live_among(&self.store, tids);
        told(self.store.commit_group(live))?;
        forget_saves(&mut self.marks, tids);
        Ok(())
    }

    /// Writes bytes of the data at once, under a number that is not live before it or after it. They may lie in several pages.
    pub fn atomic_write(&mut self, tid: u8, addr: u64, bytes: &[u8]) -> Result<(), PageFault>
        requires tid { tid < (S.view self.old.store).shape.numbers }
        requires some { 0 < length bytes.now }
        requires inside { addr + length bytes.now ≤ data_len (S.view self.old.store).shape }
        requires free { (S.view self.old.store).ranges tid ≡ None }
        ensures does { Does S.tells (S.opens (S.view self.old.store).shape) (atomic_write tid addr bytes.now)
            (pages_of (S.view self.old.store) self.old) (pages_of (S.view self.new.store) self.new) result }
        ensures costs { Costs S.tells (device_cost (S.calls self.old.store) (device (atomic_write tid addr bytes.now) (outline_of (pages_of (S.view self.old.store) self.old))))
            (S.view self.old.store).moment (S.view self.new.store).moment result }
        ensures refused { IfErr result (λ fault. fault ≢ PageFault.Media → self.new ≡ self.old) }
    {
        told(self.store.atomic_write(tid, addr, bytes))
    }

    /// Whether there is room for one more part of the number in each of these pages. A page that is named twice counts twice.
    pub fn fits(&self, tid: u8, pages: &[u32]) -> Result<(), PageFault>
        requires tid { tid < (S.view self.now.store).shape.numbers }
        requires few { length pages.now < 2 ^ 16 }
        ensures fits { OnOk result (IsAlive (S.view self.now.store) × FitAll (S.view self.now.store) tid pages.now) }
        ensures full { IfErr result (LacksRoom (S.view self.now.store) tid pages.now) }
    {
        if self.store.is_dead() {
            return Err(PageFault::Dead);
        }
        let shape = self.store.shape();
        let counts = counts_of(pages, shape.loggers);
        for logger in 0..shape.loggers {
            let held = self.store.held(tid, logger);
            let needed = counts[usize::from(logger)];
            if u32::from(held) + u32::from(needed) > u32::from(shape.entries) {
                return Err(PageFault::LogFull {
                    logger,
                    held,
                    needed,
                });
            }
        }
        Ok(())
    }

    /// The store below. What numbers have logged is still in it.
    pub fn into_store(self) -> S
        ensures { result ≡ self.store }
    {
        let Pages { store, marks: _ } = self;
        store
    }
}

// The address of a place in a page.
fn address(page: u32, at: u32) -> u64
    ensures { result ≡ address page at }
{
    512 * u64::from(page) + u64::from(at)
}

// An answer of the store, as pages give it. The store is asked only for live numbers.
fn told<T: Drop>(answer: Result<T, EawFault>) -> Result<(), PageFault>
    requires { IfErr answer IsKnown }
    ensures { TellsAs answer result }
{
    match answer {
        Ok(_) => Ok(()),
        Err(fault) => Err(PageFault::from(fault)),
    }
}

// Reads what the number sees: the data, and over it each part that meets the range.
fn read_seen<S: EawStore>(store: &mut S, tid: u8, addr: u64, buf: &mut [u8]) -> Result<(), EawFault>
    requires tid { tid < (S.view store.old).shape.numbers }
    requires inside { addr + length buf.old ≤ data_len (S.view store.old).shape }
    ensures does { Reads S.tells (S.opens (S.view store.old).shape) tid (S.view store.old) (S.view store.new) result }
    ensures bytes { IsTrue S.tells → OnOk result (buf.new ≡
        range (applied (listed ((S.view store.old).state.logs tid)) (S.view store.old).state.bytes) addr (length buf.old)) }
    ensures costs { Costs true (seen_cost (S.calls store.old) tid addr (length buf.old) (listed ((S.view store.old).ranges tid)))
        (S.view store.old).moment (S.view store.new).moment result }
    ensures steady { OnOk result ((command : Command) → S.calls store.new command ≡ S.calls store.old command) }
    ensures refused { IfErr result (λ fault. fault ≢ EawFault.Media → store.new ≡ store.old) }
{
    store.read(addr, buf)?;
    for pos in 0..store.log_len(tid) {
        lay_part(store, tid, pos, addr, buf)?;
    }
    Ok(())
}

// Lays the part at a position of the number's log over bytes that were read from `addr` on, if it meets them.
fn lay_part<S: EawStore>(
    store: &mut S,
    tid: u8,
    pos: u32,
    addr: u64,
    buf: &mut [u8],
) -> Result<(), EawFault>
    requires tid { tid < (S.view store.old).shape.numbers }
    requires pos { pos < log_len (S.view store.old) tid }
    requires alive { IsAlive (S.view store.old) }
    requires inside { addr + length buf.old ≤ data_len (S.view store.old).shape }
    ensures does { Reads S.tells (S.opens (S.view store.old).shape) tid (S.view store.old) (S.view store.new) result }
    ensures laid { IsTrue S.tells → (bytes : List ℕ) → length bytes ≡ data_len (S.view store.old).shape → buf.old ≡ range bytes addr (length buf.old)
        → OnOk result (buf.new ≡ (let part = part_at (listed ((S.view store.old).state.logs tid)) pos in range (put bytes part.0 part.1) addr (length buf.old))) }
    ensures costs { Costs true (lay_cost (S.calls store.old) tid (addr, length buf.old) (range_at (listed ((S.view store.old).ranges tid)) pos))
        (S.view store.old).moment (S.view store.new).moment result }
    ensures steady { OnOk result ((command : Command) → S.calls store.new command ≡ S.calls store.old command) }
    ensures refused { IfErr result (λ fault. fault ≢ EawFault.Media → store.new ≡ store.old) }
{
    let (start, len) = store.part_range(tid, pos);
    let end = addr + buf.len() as u64;
    let first = start.max(addr);
    let last = (start + u64::from(len)).min(end);
    if first >= last {
        return Ok(());
    }
    let mut part = [0; 512];
    store.log_read(tid, pos, &mut part)?;
    let from = (first - start) as usize;
    let to = (last - start) as usize;
    overwrite(buf, (first - addr) as usize, &part[from..to]);
    Ok(())
}

// Writes these bytes over those from `at` on.
fn overwrite(bytes: &mut [u8], at: usize, more: &[u8])
    requires { at + length more.now ≤ length bytes.old }
    ensures { bytes.new ≡ put bytes.old at more.now }
{
    bytes[at..at + more.len()].copy_from_slice(more);
}

// The part that a write of this range edits: from the floor on, of just this range, and met by no later one. The last part that the
// range meets decides.
fn edited_part<S: EawStore>(store: &S, tid: u8, floor: u32, addr: u64, len: u64) -> Option<u32>
    requires tid { tid < (S.view store.now).shape.numbers }
    requires some { 0 < len }
    requires inside { addr + len ≤ data_len (S.view store.now).shape }
    ensures { result ≡ edit_pos floor (addr, len) (listed ((S.view store.now).ranges tid)) }
{
    for pos in (floor..store.log_len(tid)).rev() {
        let (start, count) = store.part_range(tid, pos);
        let count = u64::from(count);
        if is_same(start, count, addr, len) {
            return Some(pos);
        }
        if meet(addr, len, start, count) {
            return None;
        }
    }
    None
}

// Whether two ranges are the same.
fn is_same(start: u64, count: u64, addr: u64, len: u64) -> bool
    ensures { IsTrue result ↔ ((start ≡ addr) × (count ≡ len)) }
{
    start == addr && count == len
}

// Whether two ranges share a byte.
fn meet(addr: u64, len: u64, start: u64, count: u64) -> bool
    requires first { addr + len < 2 ^ 64 }
    requires second { start + count < 2 ^ 64 }
    ensures { result ≡ meet (addr, len) (start, count) }
{
    addr < start + count && start < addr + len
}

// Drops the parts from an offset on, if the number is live.
fn drop_from<S: EawStore>(store: &mut S, tid: u8, offset: u32) -> Result<(), PageFault>
    requires tid { tid < (S.view store.old).shape.numbers }
    requires alive { IsAlive (S.view store.old) }
    requires offset { offset ≤ log_len (S.view store.old) tid }
    ensures does { DoesWhereLive ((S.view store.old).ranges tid) (store.new ≡ store.old) S.tells (S.opens (S.view store.old).shape) (partial_abort tid offset)
        (S.view store.old) (S.view store.new) result }
    ensures refused { IfErr result (λ fault. fault ≢ PageFault.Media → store.new ≡ store.old) }
    ensures costs { Costs S.tells (device_cost (S.calls store.old) (option_map (λ ranges. partial_abort tid offset) ((S.view store.old).ranges tid)))
        (S.view store.old).moment (S.view store.new).moment result }
    ensures idle { (S.view store.new).moment ≡ (S.view store.old).moment }
    ensures done { IsOk result }
{
    if !store.is_live(tid) {
        return Ok(());
    }
    told(store.partial_abort(tid, offset))
}

// Commits the parts from an offset on, if the number is live.
fn commit_from<S: EawStore>(store: &mut S, tid: u8, offset: u32) -> Result<(), PageFault>
    requires tid { tid < (S.view store.old).shape.numbers }
    requires alive { IsAlive (S.view store.old) }
    requires offset { offset ≤ log_len (S.view store.old) tid }
    ensures does { DoesWhereLive ((S.view store.old).ranges tid) (store.new ≡ store.old) S.tells (S.opens (S.view store.old).shape) (nested_top tid offset)
        (S.view store.old) (S.view store.new) result }
    ensures refused { IfErr result (λ fault. fault ≢ PageFault.Media → store.new ≡ store.old) }
    ensures due { IsErrOf result PageFault.Media → offset < log_len (S.view store.old) tid }
    ensures idle { log_len (S.view store.old) tid ≡ offset → (S.view store.new).moment ≡ (S.view store.old).moment }
    ensures costs { Costs S.tells (device_cost (S.calls store.old) (option_map (λ ranges. nested_top tid offset) ((S.view store.old).ranges tid)))
        (S.view store.old).moment (S.view store.new).moment result }
{
    if !store.is_live(tid) {
        return Ok(());
    }
    told(store.nested_top(tid, offset))
}

// Commits the number or aborts it, if it is live.
fn end_number<S: EawStore>(store: &mut S, tid: u8, commits: bool) -> Result<(), PageFault>
    requires tid { tid < (S.view store.old).shape.numbers }
    requires alive { IsAlive (S.view store.old) }
    ensures does { DoesWhereLive ((S.view store.old).ranges tid) (store.new ≡ store.old) S.tells (S.opens (S.view store.old).shape) (if commits then commit tid else abort tid)
        (S.view store.old) (S.view store.new) result }
    ensures refused { IfErr result (λ fault. fault ≢ PageFault.Media → store.new ≡ store.old) }
    ensures costs { Costs S.tells (device_cost (S.calls store.old) (option_map (λ ranges. if commits then commit tid else abort tid) ((S.view store.old).ranges tid)))
        (S.view store.old).moment (S.view store.new).moment result }
    ensures due { IsErrOf result PageFault.Media → IsTrue commits × (0 < log_len (S.view store.old) tid) }
    ensures idle { log_len (S.view store.old) tid ≡ 0 → (S.view store.new).moment ≡ (S.view store.old).moment }
{
    if !store.is_live(tid) {
        return Ok(());
    }
    if commits {
        told(store.commit(tid))
    } else {
        told(store.abort(tid))
    }
}

// The live numbers of a set.
fn live_among<S: EawStore>(store: &S, tids: NumberSet) -> NumberSet
    ensures { members result ≡ filter (λ t. is_some ((S.view store.now).ranges t)) (members tids) }
{
    let mut live = NumberSet::empty();
    for tid in 0..store.shape().numbers {
        if tids.contains(tid) && store.is_live(tid) {
            live = live.with(tid);
        }
    }
    live
}

// Forgets the saves of the numbers of a set, as far as they are the array's.
fn forget_saves(marks: &mut [Marks], tids: NumberSet)
    ensures many { length marks.new ≡ length marks.old }
    ensures counts { counts_in marks.new ≡ with_each (counts_in marks.old) (members tids) [] }
    ensures top { top_in marks.new ≡ top_in marks.old }
{
    for tid in tids.members() {
        let at = usize::from(tid);
        if at < marks.len() {
            marks[at].cut(0);
        }
    }
}

// How many of the pages each logger has: they are dealt to the loggers by turns.
fn counts_of(pages: &[u32], loggers: u8) -> [u16; 8]
    requires loggers { 0 < loggers }
    requires most { loggers ≤ 8 }
    requires few { length pages.now < 2 ^ 16 }
    ensures { (g : ℕ) → g < loggers → slice_index result g ≡ length (filter (is_page_on loggers g) pages.now) }
{
    let mut counts = [0; 8];
    for page in pages {
        let logger = (*page % u32::from(loggers)) as usize;
        counts[logger] += 1;
    }
    counts
}

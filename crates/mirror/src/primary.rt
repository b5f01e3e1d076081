// A store that sends what its commits write.
ghost use Rattle.std.specs.Prelude.{ℕ, ◌≡◌, ◌<◌, [], All, false, length, replicate, IfOk, IfErr, vec_capacity};
ghost use Rattle.array_shape.specs.NumberSet.{members};
ghost use Rattle.eaw_face.specs.Causes.{IsAlive};
ghost use Rattle.mirror.specs.Applying.{IsFree};
ghost use Rattle.mirror.specs.Log.{log_at};
ghost use Rattle.mirror.specs.Mirroring.{IsFreed};

use crate::link::Link;
use crate::log::PlainLog;
use crate::sender::Sender;
use array_shape::{NumberSet, Shape};
use eaw_face::{EawFault, EawStore};
use mars_base::NoMemory;
use std::alloc::Global;
use std::marker::Model;

/// A store that sends what each commit writes as a frame over a link, in sequence from 1 on. A send that fails leaves the commit's answer
/// as it is, and ends the sending for good. Room for what the numbers log, and for the longest frame, is taken when it is made.
#[derive(Drop)]
pub struct Primary<S: EawStore, L: Link> {
    store: S,
    logs: Vec<PlainLog>,
    sender: Sender<L>,
}

impl<S: EawStore, L: Link> Model for Primary<S, L> {
    ghost use Rattle.std.specs.Prelude.{◌≡◌};
    ghost use Rattle.mirror.specs.Mirroring.{PrimaryView, AreCopies};

    ghost Value = { PrimaryView S L };

    ghost view = { λ p. record { store = p.store; link = p.sender.link; sent = p.sender.sent; is_down = p.sender.is_down } };

    ghost invariant = { λ p. (p.sender.shape ≡ (S.view p.store).shape) × AreCopies S.tells (S.view p.store) p.logs.items };
}

// Logs of so many numbers, none of which has logged anything.
fn empty_logs(alloc: Global, numbers: u8, room: usize) -> Result<Vec<PlainLog>, NoMemory>
    ensures logs { IfOk result (λ logs. logs.items ≡ replicate numbers (record { is_live = false; parts = []; room = room })) }
    ensures room { IfOk result (λ logs. vec_capacity logs ≡ numbers) }
{
    let mut logs = Vec::with_capacity(alloc, usize::from(numbers))?;
    for _number in 0..numbers {
        logs.push_reserved(PlainLog::new(alloc, room)?);
    }
    Ok(logs)
}

// Frees the logs of a set of numbers.
fn free_logs(logs: &mut Vec<PlainLog>, tids: NumberSet)
    requires { All (λ t. t < length logs.old.items) (members tids) }
    ensures len { length logs.new.items ≡ length logs.old.items }
    ensures freed { (t : ℕ) → IsFreed (members tids) t (log_at logs.old.items t) (log_at logs.new.items t) }
{
    for tid in tids.members() {
        logs[usize::from(tid)].free();
    }
}

impl<S: EawStore, L: Link> Primary<S, L> {
    ghost use Rattle.std.specs.Prelude.{◌≡◌, false, IfOk, IfErr};

    /// A primary that has sent nothing. An error returns the store and the link.
    pub fn attach(alloc: Global, store: S, link: L) -> Result<Primary<S, L>, (NoMemory, S, L)>
        requires alive { IsAlive (S.view store) }
        requires free { IsFree (S.view store) }
        ensures primary { IfOk result (λ primary. primary ≡ record { store = store; link = link; sent = 0; is_down = false }) }
        ensures returned { IfErr result (λ failed. (failed.1 ≡ store) × (failed.2 ≡ link)) }
    {
        let shape = store.shape();
        let room = usize::from(shape.loggers) * usize::from(shape.entries);
        let Ok(logs) = empty_logs(alloc, shape.numbers, room) else {
            return Err((NoMemory, store, link));
        };
        match Sender::new(alloc, shape, link) {
            Ok(sender) => Ok(Primary {
                store,
                logs,
                sender,
            }),
            Err((no_memory, link)) => Err((no_memory, store, link)),
        }
    }

    /// The store and the link.
    pub fn into_parts(self) -> (S, L)
        ensures store { result.0 ≡ self.store }
        ensures link { result.1 ≡ self.link }
    {
        let Primary { store, sender, .. } = self;
        (store, sender.into_link())
    }
}

impl<S: EawStore, L: Link> EawStore for Primary<S, L> {
    ghost use Rattle.mirror.specs.Mirroring.{over, sending_in};

    ghost tells = { S.tells };

    ghost view = { λ p. over (S.view p.store) (sending_in L.tells L.frames L.faults p) };

    ghost opens = { S.opens };

    ghost calls = { λ p command. S.calls p.store command };

    ghost defers = { S.defers };

    ghost waiting = { λ p. S.waiting p.store };

    ghost shaped = { λ p. S.shaped p.store };

    ghost few_wait = { λ p. S.few_wait p.store };

    ghost long = { λ p. S.long p.store };

    ghost outlines = { λ p. S.outlines p.store };

    ghost placed = { λ p. S.placed p.store };

    ghost beyond = { λ p. S.beyond p.store };

    ghost some_now = { λ p told alive. let some = S.some_now p.store told alive in record { image = some.image; left = some.left } };

    ghost counts_now = { λ p. S.counts_now p.store };

    ghost only_now = { λ p. S.only_now p.store };

    ghost one_data = { S.one_data };

    fn shape(&self) -> Shape {
        self.store.shape()
    }

    fn log_write(&mut self, tid: u8, addr: u64, bytes: &[u8]) -> Result<u32, EawFault> {
        let len = self.store.log_write(tid, addr, bytes)?;
        let shape = self.store.shape();
        self.logs[usize::from(tid)].append(shape, addr, bytes);
        Ok(len)
    }

    fn commit(&mut self, tid: u8) -> Result<(), EawFault> {
        self.store.commit(tid)?;
        let at = usize::from(tid);
        self.sender.send_log(tid, &self.logs[at], 0);
        self.logs[at].free();
        Ok(())
    }

    fn commit_group(&mut self, tids: NumberSet) -> Result<(), EawFault> {
        self.store.commit_group(tids)?;
        self.sender.send_logs(tids, &self.logs);
        free_logs(&mut self.logs, tids);
        Ok(())
    }

    fn abort(&mut self, tid: u8) -> Result<(), EawFault> {
        self.store.abort(tid)?;
        self.logs[usize::from(tid)].free();
        Ok(())
    }

    fn nested_top(&mut self, tid: u8, offset: u32) -> Result<(), EawFault> {
        self.store.nested_top(tid, offset)?;
        let at = usize::from(tid);
        self.sender.send_log(tid, &self.logs[at], offset as usize);
        self.logs[at].truncate(offset as usize);
        Ok(())
    }

    fn partial_abort(&mut self, tid: u8, offset: u32) -> Result<(), EawFault> {
        self.store.partial_abort(tid, offset)?;
        self.logs[usize::from(tid)].truncate(offset as usize);
        Ok(())
    }

    fn atomic_write(&mut self, tid: u8, addr: u64, bytes: &[u8]) -> Result<(), EawFault> {
        self.store.atomic_write(tid, addr, bytes)?;
        let at = usize::from(tid);
        let shape = self.store.shape();
        self.logs[at].append(shape, addr, bytes);
        self.sender.send_log(tid, &self.logs[at], 0);
        self.logs[at].free();
        Ok(())
    }

    fn log_read(&mut self, tid: u8, pos: u32, buf: &mut [u8; 512]) -> Result<(u64, u16), EawFault> {
        self.store.log_read(tid, pos, buf)
    }

    fn log_edit(&mut self, tid: u8, pos: u32, at: u32, bytes: &[u8]) -> Result<(), EawFault> {
        self.store.log_edit(tid, pos, at, bytes)?;
        self.logs[usize::from(tid)].edit(pos as usize, at, bytes);
        Ok(())
    }

    fn read(&mut self, addr: u64, buf: &mut [u8]) -> Result<(), EawFault> {
        self.store.read(addr, buf)
    }

    fn log_len(&self, tid: u8) -> u32 {
        self.store.log_len(tid)
    }

    fn held(&self, tid: u8, logger: u8) -> u16 {
        self.store.held(tid, logger)
    }

    fn is_dead(&self) -> bool {
        self.store.is_dead()
    }

    fn is_live(&self, tid: u8) -> bool {
        self.store.is_live(tid)
    }

    fn part_range(&self, tid: u8, pos: u32) -> (u64, u16) {
        self.store.part_range(tid, pos)
    }

    fn first_frame(&self) -> &[u8] {
        self.sender.first_frame()
    }

    fn drop_frame(&mut self) {
        self.sender.drop_frame();
    }

    fn link_down(&self) -> bool {
        self.sender.is_down()
    }
}

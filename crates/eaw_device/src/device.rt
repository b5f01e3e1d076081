// The commands, over all loggers.
ghost use Rattle.std.specs.Prelude.{◌≡◌, ◌≢◌, ◌+◌, ◌^◌, ◌≤◌, ◌<◌, ℕ, true, drop, false, None, IsTrue, IsFalse, IfOk, IfErr, OnOk, length, nat_lt};
ghost use Rattle.mars_base.specs.Costs.{Costs};
ghost use Rattle.array_shape.specs.NumberSet.{has, members};
ghost use Rattle.array_shape.specs.Parts.{parts_of_write};
ghost use Rattle.write_back.specs.Orders.{IsFree, due_for};
ghost use Rattle.array_shape.specs.Places.{data_len};
ghost use Rattle.eaw_face.specs.StoreView.{IsLive, log_len};
ghost use Rattle.eaw_face.specs.Command.{commit_group, log_write};
ghost use Rattle.eaw_face.specs.Does.{Does};
ghost use Rattle.eaw_face.specs.Causes.{known};
ghost use Rattle.eaw_device.specs.Costs.{back_cost};
ghost use Rattle.eaw_device.specs.Depths.{IsOfDepth};
ghost use Rattle.device_recovery.specs.Recovered.{HasNoVote};
ghost use Rattle.eaw_device.specs.Opens.{Attached, FindsData, AttachCause, AttachLeaves, KeepsData, Opens, OpensWithin, IsBehind};
ghost use Rattle.eaw_device.specs.Steps.{IsQuiet, LogHasCells, RefusesWrite};
ghost use Rattle.eaw_device.specs.Props.{IsSound-prop};
ghost use Rattle.commit_queue.specs.Deferred.{deferred_orders};
ghost use Rattle.eaw_device.specs.Sound.{IsSound, LacksLog, LacksGroup, deferred_of, view_of};

mod taped;

use crate::committing::{commit_log, commit_logs};
use crate::depth::Depth;
use crate::fault::AttachFault;
use crate::log::{Log, clear_logs};
use crate::opening::open_array;
use crate::staging::check_room;
use array_shape::{NumberSet, Shape};
use eaw_face::{EawFault, EawStore};
use logger::{Logger, stage_write};
use pcm_media::Media;
use std::alloc::Global;
use std::marker::{Brand, PhantomData};
use write_back::LateData;

/// The array over a medium. At most so many commits as its depth says may wait for their write-back after they were answered.
#[derive(Drop)]
pub struct Eaw<M: Media, D: Depth = Brand> {
    media: M,
    shape: Shape,
    logs: Vec<Log>,
    late: LateData,
    is_dead: bool,
    of: PhantomData<D>,
    ghost sound: { IsSound M.tells (M.view media) shape logs.items late is_dead } by { IsSound-prop M.tells (M.view media) shape logs.items late is_dead },
    ghost depth: { IsOfDepth D.least D.most late.queue.depth },
}

impl<M: Media> Eaw<M> {
    /// Opens the array on the medium: reads its header, takes memory for its tables, and recovers. No number is live then, and no commit
    /// ever waits. On an error the medium is given back.
    pub fn attach(alloc: Global, media: M) -> Result<Eaw<M>, (AttachFault, M)>
        ensures opens { IfOk result (λ eaw. Attached M.tells (M.view media) (view_of (M.view eaw.media) eaw.shape eaw.logs.items eaw.late eaw.is_dead)) }
        // An image that opens with some data is opened with that data.
        ensures found { IfOk result (λ eaw. FindsData M.tells (M.view media) (view_of (M.view eaw.media) eaw.shape eaw.logs.items eaw.late eaw.is_dead)) }
        ensures none_waits { IfOk result (λ eaw. deferred_of eaw.late ≡ 0) }
        ensures cause { IfErr result (λ e. AttachCause M.tells (M.view media) (M.view e.1).faults e.0) }
        ensures unwritten { IfErr result (λ e. AttachLeaves M.tells (M.view media) (M.view e.1) e.0) }
        ensures keeps { IfOk result (λ eaw. KeepsData M.tells (M.view media) (M.view eaw.media).moment (M.view eaw.media).left_since) }
        ensures keeps_on_err { IfErr result (λ e. KeepsData M.tells (M.view media) (M.view e.1).moment (M.view e.1).left_since) }
        ensures later { IfErr result (λ e. (M.view media).faults ≤ (M.view e.1).faults) }
        ensures kept { IfErr result (λ e. e.0 ≢ AttachFault.Media → (M.view e.1).faults ≡ (M.view media).faults) }
        ensures within { IfErr result (λ e. OpensWithin M.tells (M.view media) (M.view e.1).moment) }
        ensures early { IfErr result (λ e. e.0 ≡ AttachFault.NoMemory → (M.view e.1).moment ≡ (M.view media).moment + 1) }
        ensures at_once { IfOk result (λ eaw. (view_of (M.view eaw.media) eaw.shape eaw.logs.items eaw.late eaw.is_dead).depth ≡ 0) }
    {
        Eaw::<M, Brand>::attach_late(alloc, media, 0)
    }
}

impl<M: Media, D: Depth> Eaw<M, D> {
    /// The same, on which at most `depth` commits may wait: if 0, none may.
    pub fn attach_late(
        alloc: Global,
        mut media: M,
        depth: u8,
    ) -> Result<Eaw<M, D>, (AttachFault, M)>
        requires { IsOfDepth D.least D.most depth }
        ensures opens { IfOk result (λ eaw. Attached M.tells (M.view media) (view_of (M.view eaw.media) eaw.shape eaw.logs.items eaw.late eaw.is_dead)) }
        // An image that opens with some data is opened with that data.
        ensures found { IfOk result (λ eaw. FindsData M.tells (M.view media) (view_of (M.view eaw.media) eaw.shape eaw.logs.items eaw.late eaw.is_dead)) }
        ensures none_waits { IfOk result (λ eaw. deferred_of eaw.late ≡ 0) }
        ensures cause { IfErr result (λ e. AttachCause M.tells (M.view media) (M.view e.1).faults e.0) }
        ensures unwritten { IfErr result (λ e. AttachLeaves M.tells (M.view media) (M.view e.1) e.0) }
        ensures keeps { IfOk result (λ eaw. KeepsData M.tells (M.view media) (M.view eaw.media).moment (M.view eaw.media).left_since) }
        ensures keeps_on_err { IfErr result (λ e. KeepsData M.tells (M.view media) (M.view e.1).moment (M.view e.1).left_since) }
        ensures later { IfErr result (λ e. (M.view media).faults ≤ (M.view e.1).faults) }
        ensures kept { IfErr result (λ e. e.0 ≢ AttachFault.Media → (M.view e.1).faults ≡ (M.view media).faults) }
        ensures within { IfErr result (λ e. OpensWithin M.tells (M.view media) (M.view e.1).moment) }
        ensures early { IfErr result (λ e. e.0 ≡ AttachFault.NoMemory → (M.view e.1).moment ≡ (M.view media).moment + 1) }
        ensures limit { IfOk result (λ eaw. (view_of (M.view eaw.media) eaw.shape eaw.logs.items eaw.late eaw.is_dead).depth ≡ depth) }
    {
        match open_array(alloc, &mut media, depth) {
            Ok((shape, logs, late)) => Ok(Eaw {
                media,
                shape,
                logs,
                late,
                is_dead: false,
                of: PhantomData,
            }),
            Err(fault) => Err((fault, media)),
        }
    }

    /// How many commits may wait for their write-back.
    pub fn depth(&self) -> u8
        ensures depth { result ≡ self.now.late.queue.depth }
        ensures of_type { IsOfDepth D.least D.most result }
    {
        self.late.depth()
    }

    /// How many commits wait for their write-back: as many as there are different order numbers above 0 among the decided rows.
    pub fn deferred(&self) -> u8
        ensures many { result ≡ deferred_of self.now.late }
        ensures most { result ≤ self.now.late.queue.depth }
        ensures none { IsFalse (nat_lt 0 D.most) → result ≡ 0 }
        ensures counted { IsTrue M.tells → self.now.is_dead ≡ false → result ≡ length (deferred_orders self.now.shape (M.view self.now.media).content.bytes) }
    {
        self.late.len() as u8
    }

    /// The medium. What live numbers have logged is given up. If no commit may wait, no row is voted; else those that wait still do.
    pub fn into_media(self) -> M
        ensures behind { IsBehind M.tells (nat_lt 0 D.most) (view_of (M.view self.media) self.shape self.logs.items self.late self.is_dead) (M.view result) }
        ensures quiet { self.late.queue.depth ≡ 0 → IsTrue M.tells → self.is_dead ≡ false → HasNoVote self.shape (M.view result).content.bytes }
        ensures most { deferred_of self.late ≤ D.most }
        ensures counted { IsTrue M.tells → self.is_dead ≡ false → length (deferred_orders self.shape (M.view result).content.bytes) ≡ deferred_of self.late }
    {
        let Eaw {
            media,
            shape: _,
            logs: _,
            late: _,
            is_dead: _,
            of: _,
        } = self;
        media
    }

    // Writes back what waits of the numbers of a group: none that waits has one of them then.
    fn settle_for(&mut self, group: u64) -> Result<(), EawFault>
        requires { self.old.is_dead ≡ false }
        ensures quiet { IsQuiet M.tells (Opens self.old.shape) (view_of (M.view self.old.media) self.old.shape self.old.logs.items self.old.late self.old.is_dead)
            (view_of (M.view self.new.media) self.new.shape self.new.logs.items self.new.late self.new.is_dead) result }
        ensures shape { self.new.shape ≡ self.old.shape }
        ensures logs { self.new.logs ≡ self.old.logs }
        ensures free { OnOk result ((t : ℕ) → has group t ≡ true → IsFree t self.new.late.queue.ballots.items) }
        ensures left { OnOk result (self.new.late.queue.ballots.items ≡ drop (due_for group self.old.late.queue.ballots.items) self.old.late.queue.ballots.items) }
        ensures table { self.new.late.queue.cells ≡ self.old.late.queue.cells }
        ensures depth { self.new.late.queue.depth ≡ self.old.late.queue.depth }
        ensures costs { Costs M.tells (back_cost self.old.shape self.old.late.queue group) (M.view self.old.media).moment (M.view self.new.media).moment result }
    {
        match self
            .late
            .write_back_for(&mut self.media, &self.shape, group)
        {
            Ok(()) => Ok(()),
            Err(_) => {
                self.is_dead = true;
                Err(EawFault::Media)
            }
        }
    }

    // Logs a write, once what waits of the number is written back.
    fn write_log(&mut self, tid: u8, addr: u64, bytes: &[u8]) -> Result<u32, EawFault>
        requires { addr + length bytes.now ≤ data_len self.old.shape }
        ensures does { Does M.tells (Opens self.old.shape) (log_write tid addr bytes.now) (view_of (M.view self.old.media) self.old.shape self.old.logs.items self.old.late self.old.is_dead)
            (view_of (M.view self.new.media) self.new.shape self.new.logs.items self.new.late self.new.is_dead) result }
        ensures len { IfOk result (λ n. n ≡ log_len (view_of (M.view self.new.media) self.new.shape self.new.logs.items self.new.late self.new.is_dead) tid) }
        ensures left { OnOk result (self.new.late.queue.ballots.items ≡ drop (due_for (2 ^ tid) self.old.late.queue.ballots.items) self.old.late.queue.ballots.items) }
        ensures table { OnOk result (self.new.late.queue.cells ≡ self.old.late.queue.cells) }
        ensures depth { OnOk result (self.new.late.queue.depth ≡ self.old.late.queue.depth) }
        ensures costs { Costs M.tells (back_cost self.old.shape self.old.late.queue (2 ^ tid) + length (parts_of_write addr bytes.now)) (M.view self.old.media).moment (M.view self.new.media).moment result }
        ensures refused { IfErr result (λ fault. fault ≢ EawFault.Media → self.new ≡ self.old) }
    {
        let len = bytes.len() as u64;
        let at = self.find_room(tid, addr, len)?;
        // The cells that the write takes may be those of a commit that waits.
        self.settle_for(1 << tid)?;
        let log = &self.logs[at];
        if stage_write(&mut self.media, &self.shape, tid, &log.held, addr, bytes).is_err() {
            self.is_dead = true;
            return Err(EawFault::Media);
        }
        self.logs[at].add_range(&self.shape, addr, len);
        Ok(self.logs[at].entries.len() as u32)
    }

    // Where the log of a live number is in the table.
    fn find_live(&self, tid: u8) -> Result<usize, EawFault>
        ensures at { IfOk result (λ at. at ≡ tid) }
        ensures alive { OnOk result (self.now.is_dead ≡ false) }
        ensures live { OnOk result (IsLive (view_of (M.view self.now.media) self.now.shape self.now.logs.items self.now.late self.now.is_dead) tid) }
        ensures cause { IfErr result (LacksLog (view_of (M.view self.now.media) self.now.shape self.now.logs.items self.now.late self.now.is_dead) tid) }
    {
        if self.is_dead {
            return Err(EawFault::Dead);
        }
        let at = usize::from(tid);
        if tid >= self.shape.numbers || !self.logs[at].is_live {
            return Err(EawFault::UnknownTid { tid });
        }
        Ok(at)
    }

    // Whether each number of a set has a log.
    fn find_group(&self, tids: NumberSet) -> Result<(), EawFault>
        ensures alive { OnOk result (self.now.is_dead ≡ false) }
        ensures live { OnOk result (known (view_of (M.view self.now.media) self.now.shape self.now.logs.items self.now.late self.now.is_dead) (commit_group (members tids)) None) }
        ensures cause { IfErr result (LacksGroup (view_of (M.view self.now.media) self.now.shape self.now.logs.items self.now.late self.now.is_dead) (members tids)) }
    {
        if self.is_dead {
            return Err(EawFault::Dead);
        }
        for tid in tids.members() {
            self.find_live(tid)?;
        }
        Ok(())
    }

    // Where the log of a number is in the table, if it has room for a write.
    fn find_room(&self, tid: u8, addr: u64, len: u64) -> Result<usize, EawFault>
        requires { addr + len ≤ data_len self.now.shape }
        ensures at { IfOk result (λ at. at ≡ tid) }
        ensures alive { OnOk result (self.now.is_dead ≡ false) }
        ensures small { OnOk result (tid < self.now.shape.numbers) }
        ensures room { OnOk result (LogHasCells self.now.shape self.now.logs.items tid addr len) }
        ensures cause { IfErr result (RefusesWrite self.now.shape self.now.logs.items self.now.is_dead tid addr len) }
    {
        if self.is_dead {
            return Err(EawFault::Dead);
        }
        if tid >= self.shape.numbers {
            return Err(EawFault::UnknownTid { tid });
        }
        let at = usize::from(tid);
        check_room(&self.shape, &self.logs[at], addr, len)?;
        Ok(at)
    }
}

impl<M: Media, D: Depth> EawStore for Eaw<M, D> {
    ghost use Rattle.eaw_device.specs.Sound.{view_of};
    ghost use Rattle.eaw_device.specs.Opens.{Opens};
    ghost use Rattle.eaw_device.specs.Costs.{calls_of};
    ghost use Rattle.std.specs.Prelude.{nat_lt};
    ghost use Rattle.eaw_device.specs.Laws.{outlines, placed, beyond, some_now, only_now, one_data, length-shown};

    ghost tells = { M.tells };

    ghost view = { λ s. view_of (M.view s.media) s.shape s.logs.items s.late s.is_dead };

    ghost opens = { Opens };

    ghost defers = { nat_lt 0 D.least };

    ghost waiting = { λ s. deferred_of s.late };

    ghost calls = { λ s command. calls_of command s.late (view_of (M.view s.media) s.shape s.logs.items s.late s.is_dead) };

    ghost shaped = { λ s. s.sound.shaped };

    ghost few_wait = { λ s. s.sound.ready.fit.few };

    ghost long = { λ s told. length-shown M.tells (M.view s.media) s.shape s.logs.items s.late s.is_dead s.sound told };

    ghost outlines = { λ s t told alive. outlines s.shape s.late (M.view s.media).content s.logs.items t (s.sound.told told alive) };

    ghost placed = { λ s t. placed s.shape s.logs.items t (s.sound.kept t) };

    ghost beyond = { λ s t past. beyond s.logs.items s.shape t s.sound.many past };

    ghost some_now = { λ s told alive. some_now (M.view s.media) s.shape s.logs.items s.late s.is_dead (λ t image. M.counts_now s.media t image told) };

    ghost counts_now = { λ s t image told le left. M.counts_now s.media t image told le (M.only_now s.media image told left) };

    ghost only_now = { λ s image told alive left. only_now M.tells (M.view s.media) s.shape s.logs.items s.late s.is_dead image s.sound told alive (M.only_now s.media image told left) };

    ghost one_data = { one_data };

    fn shape(&self) -> Shape {
        self.shape
    }

    fn log_write(&mut self, tid: u8, addr: u64, bytes: &[u8]) -> Result<u32, EawFault> {
        self.write_log(tid, addr, bytes)
    }

    fn commit(&mut self, tid: u8) -> Result<(), EawFault> {
        let at = self.find_live(tid)?;
        if commit_log(
            &mut self.media,
            &self.shape,
            &mut self.late,
            tid,
            &self.logs[at],
            0,
        )
        .is_err()
        {
            self.is_dead = true;
            return Err(EawFault::Media);
        }
        self.logs[at].clear(&self.shape);
        Ok(())
    }

    fn commit_group(&mut self, tids: NumberSet) -> Result<(), EawFault> {
        self.find_group(tids)?;
        if commit_logs(
            &mut self.media,
            &self.shape,
            &mut self.late,
            &self.logs,
            tids,
        )
        .is_err()
        {
            self.is_dead = true;
            return Err(EawFault::Media);
        }
        clear_logs(&mut self.logs, &self.shape, tids);
        Ok(())
    }

    fn abort(&mut self, tid: u8) -> Result<(), EawFault> {
        let at = self.find_live(tid)?;
        self.logs[at].clear(&self.shape);
        Ok(())
    }

    fn nested_top(&mut self, tid: u8, offset: u32) -> Result<(), EawFault> {
        let at = self.find_live(tid)?;
        let from = offset as usize;
        if commit_log(
            &mut self.media,
            &self.shape,
            &mut self.late,
            tid,
            &self.logs[at],
            from,
        )
        .is_err()
        {
            self.is_dead = true;
            return Err(EawFault::Media);
        }
        self.logs[at].truncate(&self.shape, from);
        Ok(())
    }

    fn partial_abort(&mut self, tid: u8, offset: u32) -> Result<(), EawFault> {
        let at = self.find_live(tid)?;
        self.logs[at].truncate(&self.shape, offset as usize);
        Ok(())
    }

    fn atomic_write(&mut self, tid: u8, addr: u64, bytes: &[u8]) -> Result<(), EawFault> {
        self.write_log(tid, addr, bytes)?;
        self.commit(tid)
    }

    fn log_read(&mut self, tid: u8, pos: u32, buf: &mut [u8; 512]) -> Result<(u64, u16), EawFault> {
        let at = self.find_live(tid)?;
        let entry = self.logs[at].entries[pos as usize];
        let logger = Logger::new(self.shape, self.shape.place(entry.addr).logger);
        match logger.read_entry(&mut self.media, tid, entry.cell, buf) {
            Ok(_) => Ok((entry.addr, entry.len)),
            Err(_) => {
                self.is_dead = true;
                Err(EawFault::Media)
            }
        }
    }

    fn log_edit(&mut self, tid: u8, pos: u32, at: u32, bytes: &[u8]) -> Result<(), EawFault> {
        let number = self.find_live(tid)?;
        let entry = self.logs[number].entries[pos as usize];
        let logger = Logger::new(self.shape, self.shape.place(entry.addr).logger);
        match logger.edit(&mut self.media, tid, entry.cell, at as u16, bytes) {
            Ok(()) => Ok(()),
            Err(_) => {
                self.is_dead = true;
                Err(EawFault::Media)
            }
        }
    }

    #[inline(always)]
    fn read(&mut self, addr: u64, buf: &mut [u8]) -> Result<(), EawFault> {
        if self.is_dead {
            return Err(EawFault::Dead);
        }
        match self.late.read(&mut self.media, &self.shape, addr, buf) {
            Ok(()) => Ok(()),
            Err(_) => {
                self.is_dead = true;
                Err(EawFault::Media)
            }
        }
    }

    fn log_len(&self, tid: u8) -> u32 {
        self.logs[usize::from(tid)].entries.len() as u32
    }

    fn held(&self, tid: u8, logger: u8) -> u16 {
        self.logs[usize::from(tid)].held[usize::from(logger)]
    }

    fn is_dead(&self) -> bool {
        self.is_dead
    }

    fn is_live(&self, tid: u8) -> bool {
        self.logs[usize::from(tid)].is_live
    }

    fn part_range(&self, tid: u8, pos: u32) -> (u64, u16) {
        let entry = self.logs[usize::from(tid)].entries[pos as usize];
        (entry.addr, entry.len)
    }

    fn first_frame(&self) -> &[u8] {
        &[]
    }

    fn drop_frame(&mut self) {}

    fn link_down(&self) -> bool {
        false
    }
}

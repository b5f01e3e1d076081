// An array in memory.
ghost use Rattle.std.specs.Prelude.{◌≡◌, ◌≢◌, ◌+◌, ◌*◌, ◌^◌, ◌≤◌, ◌<◌, true, false, [], ◌∷◌, ◌++◌, length, take, drop, replicate, IfOk, IfErr, OnOk, OnErr, IsErrOf, None, ◌↔◌, ℕ, IsTrue, vec_capacity};
ghost use Rattle.mars_base.specs.Bytes.{put, range};
ghost use Rattle.mars_base.specs.Costs.{Costs};
ghost use Rattle.array_shape.specs.NumberSet.{members};
ghost use Rattle.array_shape.specs.Places.{data_len};
ghost use Rattle.array_shape.specs.Parts.{parts_on, parts_of_write};
ghost use Rattle.array_shape.specs.Logged.{applied, ranges_of};
ghost use Rattle.eaw_face.specs.State.{listed, group_log, with_each, edited, range_at, part_at};
ghost use Rattle.eaw_face.specs.StoreView.{IsLive, log_len};
ghost use Rattle.eaw_face.specs.Command.{Command, log_write, log_edit, commit, commit_group, abort, nested_top, partial_abort, atomic_write, log_read, read};
ghost use Rattle.eaw_face.specs.Does.{Does};
ghost use Rattle.eaw_face.specs.Causes.{fit, known};
ghost use Rattle.eaw_face.specs.Mirroring.{ShowsSame};
ghost use Rattle.memory_eaw.specs.Kept.{fresh_kept, MustFail, MustFailChange};
ghost use Rattle.memory_eaw.specs.Plain.{IsSound, IsData};
ghost use Rattle.memory_eaw.specs.Fresh.{IsFresh};
ghost use Rattle.memory_eaw.specs.Log.{logged};
ghost use Rattle.memory_eaw.specs.Calls.{Counts, plain_calls};
ghost use Rattle.mirror.specs.Log.{log_at};
ghost use Rattle.memory_eaw.specs.Steps.{relogged, called_plain, changed_plain, failed_plain, committed, IsUnknown, IsUnknownIn, IsFullBy};

use crate::journal::Journal;
use array_shape::{NumberSet, Shape};
use eaw_face::{EawFault, EawStore};
use mars_base::NoMemory;
use mirror::PlainLog;
use std::alloc::Global;

/// An array of editable atomic writes in plain memory, for tests.
///
/// All memory for its commands is taken when it is made. A call that is not refused is counted, except that a commit of nothing
/// and an abort are not counted, and do not fail. Below the last value of its moment, and while it has room for changes, a
/// counted call fails exactly when it is listed.
#[derive(Drop)]
pub struct MemoryEaw {
    shape: Shape,
    bytes: Vec<u8>,
    logs: Vec<PlainLog>,
    journal: Journal,
    is_dead: bool,
    ghost sound: { IsSound (record { shape = shape; bytes = bytes.items; logs = logs.items; kept = journal; is_dead = is_dead }) },
}

// `numbers` logs that are not live, each with this room.
fn free_logs(alloc: Global, numbers: u8, room: usize) -> Result<Vec<PlainLog>, NoMemory>
    ensures logs { IfOk result (λ logs. logs.items ≡ replicate numbers (record { is_live = false; parts = []; room = room })) }
    ensures room { IfOk result (λ logs. vec_capacity logs ≡ numbers) }
{
    let mut logs = Vec::with_capacity(alloc, usize::from(numbers))?;
    for _number in 0..numbers {
        logs.push_reserved(PlainLog::new(alloc, room)?);
    }
    Ok(logs)
}

// How many parts of a range this logger has.
fn count_range(shape: Shape, logger: u8, addr: u64, len: u64) -> u16
    requires { addr + len ≤ data_len shape }
    ensures { result ≡ length (parts_on shape logger addr len) }
{
    let mut count = 0;
    for part in shape.parts(addr, len) {
        if part.logger == logger {
            count += 1;
        }
    }
    count
}

impl MemoryEaw {
    ghost use Rattle.memory_eaw.specs.Shown.{plain_of, shown, kept_of};

    /// An array of this shape over a copy of these bytes, with room for `changes` commands that change the data. No call is
    /// listed.
    pub fn new(
        alloc: Global,
        shape: Shape,
        bytes: &[u8],
        changes: u64,
    ) -> Result<MemoryEaw, NoMemory>
        requires { length bytes.now ≡ data_len shape }
        ensures store { IfOk result (λ eaw. IsFresh shape bytes.now (shown eaw)) }
        ensures kept { IfOk result (λ eaw. kept_of eaw ≡ fresh_kept (length bytes.now) changes) }
    {
        let room = usize::from(shape.loggers) * usize::from(shape.entries);
        Ok(MemoryEaw {
            shape,
            bytes: Vec::from_slice(alloc, bytes)?,
            logs: free_logs(alloc, shape.numbers, room)?,
            journal: Journal::new(alloc, bytes.len() as u64, changes)?,
            is_dead: false,
        })
    }

    /// Lists a call as one that fails: the `nth` counted call, from 1 since the array was made.
    pub fn fail(&mut self, nth: u64) -> Result<(), NoMemory>
        ensures store { ShowsSame (shown self.old) (shown self.new) }
        ensures ok { OnOk result (kept_of self.new ≡ record (kept_of self.old) { listed = (kept_of self.old).listed ++ nth ∷ [] }) }
        ensures err { OnErr result (kept_of self.new ≡ kept_of self.old) }
    {
        self.journal.fail(nth)
    }

    fn check_alive(&self) -> Result<(), EawFault>
        ensures alive { OnOk result (self.now.is_dead ≡ false) }
        ensures dead { IfErr result (λ fault. (fault ≡ EawFault.Dead) × (self.now.is_dead ≡ true)) }
    {
        if self.is_dead {
            return Err(EawFault::Dead);
        }
        Ok(())
    }

    fn check_number(&self, tid: u8) -> Result<(), EawFault>
        ensures known { OnOk result ((self.now.is_dead ≡ false) × (tid < self.now.shape.numbers)) }
        ensures refused { IfErr result (IsUnknown (shown self.now) (tid < self.now.shape.numbers) tid) }
    {
        self.check_alive()?;
        if tid >= self.shape.numbers {
            return Err(EawFault::UnknownTid { tid });
        }
        Ok(())
    }

    fn check_live(&self, tid: u8) -> Result<(), EawFault>
        ensures live { OnOk result ((self.now.is_dead ≡ false) × IsLive (shown self.now) tid) }
        ensures refused { IfErr result (IsUnknown (shown self.now) (IsLive (shown self.now) tid) tid) }
    {
        self.check_alive()?;
        if tid >= self.shape.numbers || !self.logs[usize::from(tid)].is_live() {
            return Err(EawFault::UnknownTid { tid });
        }
        Ok(())
    }

    // Whether each number of a set is live.
    fn check_group(&self, tids: NumberSet) -> Result<(), EawFault>
        ensures live { OnOk result ((self.now.is_dead ≡ false) × known (shown self.now) (commit_group (members tids)) None) }
        ensures refused { IfErr result (IsUnknownIn (shown self.now) (members tids)) }
    {
        self.check_alive()?;
        for tid in tids.members() {
            self.check_live(tid)?;
        }
        Ok(())
    }

    // Whether a number of a set has logged anything.
    fn has_logged(&self, tids: NumberSet) -> bool
        requires { known (shown self.now) (commit_group (members tids)) None }
        ensures { IsTrue result ↔ (0 < length (group_log (logged (plain_of self.now).logs) (members tids))) }
    {
        for tid in tids.members() {
            if self.logs[usize::from(tid)].len() > 0 {
                return true;
            }
        }
        false
    }

    // Whether each logger has room for its share of a write besides what the number has logged.
    fn check_room(&self, tid: u8, addr: u64, bytes: &[u8]) -> Result<(), EawFault>
        requires tid { tid < self.now.shape.numbers }
        requires inside { addr + length bytes.now ≤ data_len self.now.shape }
        ensures fits { OnOk result (fit (shown self.now).shape (listed ((shown self.now).ranges tid)) (ranges_of (parts_of_write addr bytes.now)) None) }
        ensures full { IfErr result (IsFullBy (shown self.now) (listed ((shown self.now).ranges tid)) (ranges_of (parts_of_write addr bytes.now))) }
    {
        let log = &self.logs[usize::from(tid)];
        for logger in 0..self.shape.loggers {
            let held = log.count_on(self.shape, logger);
            let needed = count_range(self.shape, logger, addr, bytes.len() as u64);
            if u32::from(held) + u32::from(needed) > u32::from(self.shape.entries) {
                return Err(EawFault::LogFull {
                    logger,
                    held,
                    needed,
                });
            }
        }
        Ok(())
    }

    // Counts a call that changes no data.
    fn call(&mut self) -> Result<(), EawFault>
        ensures done { OnOk result ((MustFail (kept_of self.old) → ⊥) × (plain_of self.new ≡ called_plain (plain_of self.old))) }
        ensures failed { IfErr result (λ fault.
            (fault ≡ EawFault.Media) × MustFail (kept_of self.old) × (plain_of self.new ≡ failed_plain (plain_of self.old))) }
    {
        if !self.journal.call() {
            self.is_dead = true;
            return Err(EawFault::Media);
        }
        Ok(())
    }

    // Counts a call that changes data.
    fn change(&mut self) -> Result<(), EawFault>
        ensures done { OnOk result ((MustFailChange (kept_of self.old) → ⊥) × (plain_of self.new ≡ changed_plain (plain_of self.old).bytes (plain_of self.old))) }
        ensures failed { IfErr result (λ fault.
            (fault ≡ EawFault.Media) × MustFailChange (kept_of self.old) × (plain_of self.new ≡ failed_plain (plain_of self.old))) }
    {
        if !self.journal.change(&self.bytes) {
            self.is_dead = true;
            return Err(EawFault::Media);
        }
        Ok(())
    }

    // Writes the parts that a number has logged, from `offset` on, into the data. If there is none, no call is counted.
    fn commit_from(&mut self, tid: u8, offset: usize) -> Result<(), EawFault>
        requires tid { tid < self.old.shape.numbers }
        requires offset { offset ≤ length (log_at (plain_of self.old).logs tid).parts }
        ensures done { OnOk result
            ((offset < length (log_at (plain_of self.old).logs tid).parts → MustFailChange (kept_of self.old) → ⊥)
            × (plain_of self.new ≡ committed (drop offset (log_at (plain_of self.old).logs tid).parts) (plain_of self.old))) }
        ensures failed { IfErr result (λ fault.
            (fault ≡ EawFault.Media) × (offset < length (log_at (plain_of self.old).logs tid).parts)
            × MustFailChange (kept_of self.old) × (plain_of self.new ≡ failed_plain (plain_of self.old))) }
    {
        let at = usize::from(tid);
        if offset == self.logs[at].len() {
            return Ok(());
        }
        self.change()?;
        self.apply_from(at, offset);
        Ok(())
    }

    // Writes the parts of a log, from `offset` on, into the data.
    fn apply_from(&mut self, at: usize, offset: usize)
        requires at { at < self.old.shape.numbers }
        requires offset { offset ≤ length (log_at (plain_of self.old).logs at).parts }
        ensures { plain_of self.new ≡ record (plain_of self.old)
            { bytes = applied (drop offset (log_at (plain_of self.old).logs at).parts) (plain_of self.old).bytes } }
    {
        self.logs[at].apply_from(offset, &mut self.bytes);
    }

    // Writes the parts that the numbers of a set have logged into the data. If there is none, no call is counted.
    fn commit_all(&mut self, tids: NumberSet) -> Result<(), EawFault>
        requires { known (shown self.old) (commit_group (members tids)) None }
        ensures done { OnOk result
            ((0 < length (group_log (logged (plain_of self.old).logs) (members tids)) → MustFailChange (kept_of self.old) → ⊥)
            × (plain_of self.new ≡ committed (group_log (logged (plain_of self.old).logs) (members tids)) (plain_of self.old))) }
        ensures failed { IfErr result (λ fault.
            (fault ≡ EawFault.Media) × (0 < length (group_log (logged (plain_of self.old).logs) (members tids)))
            × MustFailChange (kept_of self.old) × (plain_of self.new ≡ failed_plain (plain_of self.old))) }
    {
        if !self.has_logged(tids) {
            return Ok(());
        }
        self.change()?;
        self.apply_all(tids);
        Ok(())
    }

    // Writes the parts of these logs into the data, those of the lowest number first.
    fn apply_all(&mut self, tids: NumberSet)
        requires { known (shown self.old) (commit_group (members tids)) None }
        ensures { plain_of self.new ≡ record (plain_of self.old)
            { bytes = applied (group_log (logged (plain_of self.old).logs) (members tids)) (plain_of self.old).bytes } }
    {
        for tid in tids.members() {
            self.apply_from(usize::from(tid), 0);
        }
    }

    // Puts bytes into the data.
    fn put(&mut self, addr: u64, bytes: &[u8])
        requires { addr + length bytes.now ≤ data_len self.old.shape }
        ensures { plain_of self.new ≡ record (plain_of self.old) { bytes = put (plain_of self.old).bytes addr bytes.now } }
    {
        let at = addr as usize;
        self.bytes[at..at + bytes.len()].copy_from_slice(bytes);
    }

    // Logs the parts of a write. Returns how many parts the number has logged by then.
    fn append(&mut self, tid: u8, addr: u64, bytes: &[u8]) -> u32
        requires tid { tid < self.old.shape.numbers }
        requires inside { addr + length bytes.now ≤ data_len self.old.shape }
        requires room { length (log_at (plain_of self.old).logs tid).parts + length (parts_of_write addr bytes.now) ≤ self.old.shape.loggers * self.old.shape.entries }
        ensures logs { plain_of self.new ≡ relogged tid true ((log_at (plain_of self.old).logs tid).parts ++ parts_of_write addr bytes.now) (plain_of self.old) }
        ensures len { result ≡ length (log_at (plain_of self.old).logs tid).parts + length (parts_of_write addr bytes.now) }
    {
        let shape = self.shape;
        let log = &mut self.logs[usize::from(tid)];
        log.append(shape, addr, bytes);
        log.len() as u32
    }

    // Replaces bytes of a logged part.
    fn edit_part(&mut self, tid: u8, pos: usize, at: u32, bytes: &[u8])
        requires tid { tid < self.old.shape.numbers }
        requires pos { pos < length (log_at (plain_of self.old).logs tid).parts }
        requires within { at + length bytes.now ≤ (range_at (ranges_of (log_at (plain_of self.old).logs tid).parts) pos).1 }
        ensures { plain_of self.new ≡ relogged tid (log_at (plain_of self.old).logs tid).is_live
            (edited pos at bytes.now (log_at (plain_of self.old).logs tid).parts) (plain_of self.old) }
    {
        self.logs[usize::from(tid)].edit(pos, at, bytes);
    }

    // Drops the parts that a number has logged from `offset` on.
    fn truncate(&mut self, tid: u8, offset: usize)
        requires { tid < self.old.shape.numbers }
        ensures { plain_of self.new ≡ relogged tid (log_at (plain_of self.old).logs tid).is_live
            (take offset (log_at (plain_of self.old).logs tid).parts) (plain_of self.old) }
    {
        self.logs[usize::from(tid)].truncate(offset);
    }

    // Drops all that a number has logged, and frees it.
    fn free(&mut self, tid: u8)
        requires { tid < self.old.shape.numbers }
        ensures { plain_of self.new ≡ relogged tid false [] (plain_of self.old) }
    {
        self.logs[usize::from(tid)].free();
    }

    // Drops all that the numbers of a set have logged, and frees them.
    fn free_all(&mut self, tids: NumberSet)
        requires { known (shown self.old) (commit_group (members tids)) None }
        ensures logs { logged (plain_of self.new).logs ≡ with_each (logged (plain_of self.old).logs) (members tids) None }
        ensures same { plain_of self.new ≡ record (plain_of self.old) { logs = (plain_of self.new).logs } }
    {
        for tid in tids.members() {
            self.free(tid);
        }
    }

    // Reads a logged part.
    fn read_part(&self, tid: u8, pos: usize, buf: &mut [u8; 512]) -> (u64, u16)
        requires tid { tid < self.now.shape.numbers }
        requires pos { pos < length (log_at (plain_of self.now).logs tid).parts }
        ensures range { result ≡ range_at (ranges_of (log_at (plain_of self.now).logs tid).parts) pos }
        ensures bytes { take result.1 buf.new ≡ (part_at (log_at (plain_of self.now).logs tid).parts pos).1 }
    {
        self.logs[usize::from(tid)].read(pos, buf)
    }

    // Reads the data.
    fn copy_range(&self, addr: u64, buf: &mut [u8])
        requires { addr + length buf.old ≤ data_len self.now.shape }
        ensures { buf.new ≡ range (plain_of self.now).bytes addr (length buf.old) }
    {
        let at = addr as usize;
        buf.copy_from_slice(&self.bytes[at..at + buf.len()]);
    }
}

impl EawStore for MemoryEaw {
    ghost use Rattle.std.specs.Prelude.{true, refl};
    ghost use Rattle.std.proofs.Common.{sym, ◌∙◌};
    ghost use Rattle.std.proofs.Math.Nat.{le_refl};
    ghost use Rattle.memory_eaw.specs.Shown.{plain_of, shown, kept_of};
    ghost use Rattle.memory_eaw.specs.Calls.{plain_calls};
    ghost use Rattle.memory_eaw.specs.Laws.{beyond_in, placed_in, some_now, counts_now, only_now};

    ghost tells = { true };

    ghost view = { shown };

    ghost opens = { λ shape. IsData };

    ghost calls = { λ s command. plain_calls command (shown s) };

    ghost shaped = { λ s. s.shape.in_range };

    ghost few_wait = { λ s. le_refl 0 };

    ghost long = { λ s told. s.sound.long };

    ghost outlines = { λ s t told alive. refl };

    ghost placed = { λ s t. placed_in (plain_of s) s.sound t };

    ghost beyond = { λ s t le. beyond_in (plain_of s) s.sound t le };

    ghost some_now = { λ s told alive. some_now (plain_of s) };

    ghost counts_now = { λ s t image told le left. counts_now (plain_of s) s.sound t image le left };

    ghost only_now = { λ s image told alive left. only_now (plain_of s) s.sound image left };

    ghost one_data = { λ shape image a b is also. sym is ∙ also };

    fn shape(&self) -> Shape {
        self.shape
    }

    fn log_write(&mut self, tid: u8, addr: u64, bytes: &[u8]) -> Result<u32, EawFault>
        requires some { 0 < length bytes.now }
        requires inside { addr + length bytes.now ≤ data_len self.old.shape }
        ensures does { Does true IsData (log_write tid addr bytes.now) (shown self.old) (shown self.new) result }
        ensures len { IfOk result (λ n. n ≡ log_len (shown self.new) tid) }
        ensures costs { Costs true (plain_calls (log_write tid addr bytes.now) (shown self.old)) (shown self.old).moment (shown self.new).moment result }
        ensures refused { IfErr result (λ fault. fault ≢ EawFault.Media → self.new ≡ self.old) }
        ensures calls { Counts (log_write tid addr bytes.now) (shown self.old) (kept_of self.old) (kept_of self.new) result }
    {
        self.check_number(tid)?;
        self.check_room(tid, addr, bytes)?;
        self.call()?;
        Ok(self.append(tid, addr, bytes))
    }

    fn commit(&mut self, tid: u8) -> Result<(), EawFault>
        ensures does { Does true IsData (commit tid) (shown self.old) (shown self.new) result }
        ensures due { IsErrOf result EawFault.Media → 0 < log_len (shown self.old) tid }
        ensures idle { log_len (shown self.old) tid ≡ 0 → (shown self.new).moment ≡ (shown self.old).moment }
        ensures costs { Costs true (plain_calls (commit tid) (shown self.old)) (shown self.old).moment (shown self.new).moment result }
        ensures refused { IfErr result (λ fault. fault ≢ EawFault.Media → self.new ≡ self.old) }
        ensures calls { Counts (commit tid) (shown self.old) (kept_of self.old) (kept_of self.new) result }
    {
        self.check_live(tid)?;
        self.commit_from(tid, 0)?;
        self.free(tid);
        Ok(())
    }

    fn commit_group(&mut self, tids: NumberSet) -> Result<(), EawFault>
        ensures does { Does true IsData (commit_group (members tids)) (shown self.old) (shown self.new) result }
        ensures due { IsErrOf result EawFault.Media → 0 < length (group_log (shown self.old).ranges (members tids)) }
        ensures idle { length (group_log (shown self.old).ranges (members tids)) ≡ 0 → (shown self.new).moment ≡ (shown self.old).moment }
        ensures costs { Costs true (plain_calls (commit_group (members tids)) (shown self.old)) (shown self.old).moment (shown self.new).moment result }
        ensures refused { IfErr result (λ fault. fault ≢ EawFault.Media → self.new ≡ self.old) }
        ensures calls { Counts (commit_group (members tids)) (shown self.old) (kept_of self.old) (kept_of self.new) result }
    {
        self.check_group(tids)?;
        self.commit_all(tids)?;
        self.free_all(tids);
        Ok(())
    }

    fn abort(&mut self, tid: u8) -> Result<(), EawFault>
        ensures does { Does true IsData (abort tid) (shown self.old) (shown self.new) result }
        ensures due { IsErrOf result EawFault.Media → ⊥ }
        ensures idle { (shown self.new).moment ≡ (shown self.old).moment }
        ensures costs { Costs true (plain_calls (abort tid) (shown self.old)) (shown self.old).moment (shown self.new).moment result }
        ensures refused { OnErr result (self.new ≡ self.old) }
        ensures calls { Counts (abort tid) (shown self.old) (kept_of self.old) (kept_of self.new) result }
    {
        self.check_live(tid)?;
        self.free(tid);
        Ok(())
    }

    fn nested_top(&mut self, tid: u8, offset: u32) -> Result<(), EawFault>
        requires { offset ≤ log_len (shown self.old) tid }
        ensures does { Does true IsData (nested_top tid offset) (shown self.old) (shown self.new) result }
        ensures due { IsErrOf result EawFault.Media → offset < log_len (shown self.old) tid }
        ensures idle { log_len (shown self.old) tid ≡ offset → (shown self.new).moment ≡ (shown self.old).moment }
        ensures costs { Costs true (plain_calls (nested_top tid offset) (shown self.old)) (shown self.old).moment (shown self.new).moment result }
        ensures refused { IfErr result (λ fault. fault ≢ EawFault.Media → self.new ≡ self.old) }
        ensures calls { Counts (nested_top tid offset) (shown self.old) (kept_of self.old) (kept_of self.new) result }
    {
        self.check_live(tid)?;
        let offset = offset as usize;
        self.commit_from(tid, offset)?;
        self.truncate(tid, offset);
        Ok(())
    }

    fn partial_abort(&mut self, tid: u8, offset: u32) -> Result<(), EawFault>
        requires { offset ≤ log_len (shown self.old) tid }
        ensures does { Does true IsData (partial_abort tid offset) (shown self.old) (shown self.new) result }
        ensures due { IsErrOf result EawFault.Media → ⊥ }
        ensures idle { (shown self.new).moment ≡ (shown self.old).moment }
        ensures costs { Costs true (plain_calls (partial_abort tid offset) (shown self.old)) (shown self.old).moment (shown self.new).moment result }
        ensures refused { OnErr result (self.new ≡ self.old) }
        ensures calls { Counts (partial_abort tid offset) (shown self.old) (kept_of self.old) (kept_of self.new) result }
    {
        self.check_live(tid)?;
        self.truncate(tid, offset as usize);
        Ok(())
    }

    fn atomic_write(&mut self, tid: u8, addr: u64, bytes: &[u8]) -> Result<(), EawFault>
        requires some { 0 < length bytes.now }
        requires inside { addr + length bytes.now ≤ data_len self.old.shape }
        requires tid { tid < self.old.shape.numbers }
        requires free { (shown self.old).ranges tid ≡ None }
        ensures does { Does true IsData (atomic_write tid addr bytes.now) (shown self.old) (shown self.new) result }
        ensures costs { Costs true (plain_calls (atomic_write tid addr bytes.now) (shown self.old)) (shown self.old).moment (shown self.new).moment result }
        ensures refused { IfErr result (λ fault. fault ≢ EawFault.Media → self.new ≡ self.old) }
        ensures calls { Counts (atomic_write tid addr bytes.now) (shown self.old) (kept_of self.old) (kept_of self.new) result }
    {
        self.check_alive()?;
        self.check_room(tid, addr, bytes)?;
        self.change()?;
        self.put(addr, bytes);
        Ok(())
    }

    fn log_read(&mut self, tid: u8, pos: u32, buf: &mut [u8; 512]) -> Result<(u64, u16), EawFault>
        requires { IsLive (shown self.old) tid → pos < log_len (shown self.old) tid }
        ensures does { Does true IsData (log_read tid) (shown self.old) (shown self.new) result }
        ensures part { IfOk result (λ part. part ≡ range_at (listed ((shown self.old).ranges tid)) pos) }
        ensures bytes { IfOk result (λ part. take part.1 buf.new ≡ (part_at (listed ((shown self.old).state.logs tid)) pos).1) }
        ensures costs { Costs true (plain_calls (log_read tid) (shown self.old)) (shown self.old).moment (shown self.new).moment result }
        ensures steady { OnOk result ((command : Command) → plain_calls command (shown self.new) ≡ plain_calls command (shown self.old)) }
        ensures refused { IfErr result (λ fault. fault ≢ EawFault.Media → self.new ≡ self.old) }
        ensures unread { IfErr result (λ fault. fault ≢ EawFault.Media → buf.new ≡ buf.old) }
        ensures calls { Counts (log_read tid) (shown self.old) (kept_of self.old) (kept_of self.new) result }
    {
        self.check_live(tid)?;
        self.call()?;
        Ok(self.read_part(tid, pos as usize, buf))
    }

    fn log_edit(&mut self, tid: u8, pos: u32, at: u32, bytes: &[u8]) -> Result<(), EawFault>
        requires pos { IsLive (shown self.old) tid → pos < log_len (shown self.old) tid }
        requires within { IsLive (shown self.old) tid →
            at + length bytes.now ≤ (range_at (listed ((shown self.old).ranges tid)) pos).1 }
        ensures does { Does true IsData (log_edit tid pos at bytes.now) (shown self.old) (shown self.new) result }
        ensures costs { Costs true (plain_calls (log_edit tid pos at bytes.now) (shown self.old)) (shown self.old).moment (shown self.new).moment result }
        ensures refused { IfErr result (λ fault. fault ≢ EawFault.Media → self.new ≡ self.old) }
        ensures calls { Counts (log_edit tid pos at bytes.now) (shown self.old) (kept_of self.old) (kept_of self.new) result }
    {
        self.check_live(tid)?;
        self.call()?;
        self.edit_part(tid, pos as usize, at, bytes);
        Ok(())
    }

    fn read(&mut self, addr: u64, buf: &mut [u8]) -> Result<(), EawFault>
        requires { addr + length buf.old ≤ data_len self.old.shape }
        ensures does { Does true IsData (read addr (length buf.old)) (shown self.old) (shown self.new) result }
        ensures bytes { OnOk result (buf.new ≡ range (shown self.old).state.bytes addr (length buf.old)) }
        ensures costs { Costs true (plain_calls (read addr (length buf.old)) (shown self.old)) (shown self.old).moment (shown self.new).moment result }
        ensures steady { OnOk result ((command : Command) → plain_calls command (shown self.new) ≡ plain_calls command (shown self.old)) }
        ensures refused { IfErr result (λ fault. fault ≢ EawFault.Media → self.new ≡ self.old) }
        ensures unread { IfErr result (λ fault. fault ≢ EawFault.Media → buf.new ≡ buf.old) }
        ensures calls { Counts (read addr (length buf.old)) (shown self.old) (kept_of self.old) (kept_of self.new) result }
    {
        self.check_alive()?;
        self.call()?;
        self.copy_range(addr, buf);
        Ok(())
    }

    fn log_len(&self, tid: u8) -> u32 {
        self.logs[usize::from(tid)].len() as u32
    }

    fn held(&self, tid: u8, logger: u8) -> u16 {
        self.logs[usize::from(tid)].count_on(self.shape, logger)
    }

    fn is_dead(&self) -> bool {
        self.is_dead
    }

    fn is_live(&self, tid: u8) -> bool {
        self.logs[usize::from(tid)].is_live()
    }

    fn part_range(&self, tid: u8, pos: u32) -> (u64, u16) {
        self.logs[usize::from(tid)].range(pos as usize)
    }

    fn first_frame(&self) -> &[u8] {
        &[]
    }

    fn drop_frame(&mut self) {}

    fn link_down(&self) -> bool {
        false
    }
}

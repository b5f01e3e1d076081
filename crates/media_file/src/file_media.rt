// A medium over a file.
ghost use Rattle.std.specs.Prelude.{◌≡◌, ◌+◌, ◌-◌, ◌^◌, ◌≤◌, ◌<◌, ℕ, [], ◌∷◌, length, IsOk, IfOk, OnOk, OnErr, IfSome, IsSome, IsTrue};
ghost use Rattle.mars_base.specs.Causes.{Rose};
ghost use Rattle.mars_base.specs.Moments.{Ticks};
ghost use Rattle.media_file.specs.Filled.{pieces};
ghost use Rattle.media_file.specs.Past.{held, AreBefore};

use crate::again::{measure, resize, sync};
use crate::filling::write_zeros;
use crate::reading::read_all;
use crate::writing::write_all;
use crate::{Calls, FileCalls};
use mars_base::Failed;
use pcm_media::Media;
use std::fs::File;
use std::rt::Files;

/// A medium over a file that nobody else changes. It tells its bytes if its calls are trusted. Its faults are its own calls that
/// failed and those of the file that did. For each of its calls it makes one call of the file, if the file does that one in full.
#[derive(Drop)]
pub struct FileMedia<C: Calls> {
    calls: C,
    size: u64,
    moment: u64,
    faults: u64,
    ghost sized: { size < 2 ^ 64 },
    ghost whole: { IsTrue C.trusted → length (held (C.past calls)).bytes ≡ size },
    ghost stamped: { IsTrue C.trusted → AreBefore (moment + 1) (C.past calls).calls },
}

impl<C: Calls + Drop> FileMedia<C> {
    ghost use Rattle.media_file.specs.Shown.{shown, opened};

    /// The medium over a file of which no call has been made. A file shorter than `least` bytes is extended to them with
    /// zeros, which are written, and synced. Fails if one of these calls does.
    pub fn over(calls: C, least: u64) -> Result<FileMedia<C>, Failed>
        requires { IsTrue C.trusted → (C.past calls).calls ≡ [] }
        ensures long { IfOk result (λ media. least ≤ (shown media).size) }
        ensures anew { IfOk result (λ media. ((shown media).moment ≡ 0) × ((shown media).faults ≡ (C.faults calls).failed)) }
        ensures content { IsTrue C.trusted → IfOk result (λ media. (shown media).content ≡ opened least (C.past calls).first) }
        ensures ready { (more_calls more : ℕ) → ((size : ℕ) → size ≤ least → IsTrue (C.steady calls (more_calls + 1 + pieces (least - size) + 1 + 1) (least - size + more))) → IsOk result }
    {
        let mut calls = calls;
        let size = measure(&mut calls, 0)?;
        if size >= least {
            return Ok(FileMedia {
                calls,
                size,
                moment: 0,
                faults: 0,
            });
        }
        resize(&mut calls, 0, least)?;
        write_zeros(&mut calls, 0, size, least - size)?;
        sync(&mut calls, 0)?;
        Ok(FileMedia {
            calls,
            size: least,
            moment: 0,
            faults: 0,
        })
    }
}

impl FileMedia<FileCalls> {
    ghost use Rattle.media_file.specs.Shown.{shown};

    /// The medium over the file at `path`, which stays locked until the medium is dropped. A file shorter than `least` bytes is
    /// extended to them with zeros. If there is no file, one is made, unless `least` is 0: then the answer is None.
    ///
    /// Fails if the system refuses a call, the folder is missing, another program holds the lock, or there is no memory for the path of
    /// the folder. The file is then as it was, or one that was made or extended here.
    pub fn attach<R: AllocGlobal + Files<File = File>>(
        rt: &R,
        path: &str,
        least: u64,
    ) -> Result<Option<FileMedia<FileCalls>>, Failed>
        ensures there { 1 ≤ least → IfOk result IsSome }
        ensures long { IfOk result (λ media. IfSome media (λ m. least ≤ (shown m).size)) }
        ensures anew { IfOk result (λ media. IfSome media (λ m. ((shown m).moment ≡ 0) × ((shown m).faults ≡ 0))) }
    {
        match FileCalls::open(rt, path, least)? {
            Some(calls) => Ok(Some(FileMedia::over(calls, least)?)),
            None => Ok(None),
        }
    }
}

impl<C: Calls> FileMedia<C> {
    ghost use Rattle.media_file.specs.Shown.{calls_of};

    /// The file.
    pub fn into_calls(self) -> C
        ensures { result ≡ calls_of self }
    {
        let FileMedia {
            calls,
            size: _,
            moment: _,
            faults: _,
        } = self;
        calls
    }

    // Counts a fault.
    fn fault(&mut self) -> Failed
        ensures calls { self.new.calls ≡ self.old.calls }
        ensures size { self.new.size ≡ self.old.size }
        ensures moment { self.new.moment ≡ self.old.moment }
        ensures counted { Rose self.old.faults self.new.faults }
        ensures later { self.old.faults ≤ self.new.faults }
    {
        self.faults = self.faults.saturating_add(1);
        Failed
    }

    // Raises the moment, or fails at its last value.
    fn tick(&mut self) -> Result<(), Failed>
        ensures calls { self.new.calls ≡ self.old.calls }
        ensures size { self.new.size ≡ self.old.size }
        ensures ticks { Ticks self.old.moment self.new.moment result }
        ensures ready { self.old.moment < 2 ^ 64 - 1 → IsOk result }
        ensures later { (self.old.moment ≤ self.new.moment) × (self.old.faults ≤ self.new.faults) }
        ensures faults { OnOk result (self.new.faults ≡ self.old.faults) }
        ensures counted { OnErr result (Rose self.old.faults self.new.faults) }
    {
        if self.moment == u64::MAX {
            return Err(self.fault());
        }
        self.moment += 1;
        Ok(())
    }
}

impl<C: Calls> Media for FileMedia<C> {
    ghost use Rattle.std.specs.Prelude.{◌+◌, ◌-◌, ◌^◌, nat_le, ◌&&◌};
    ghost use Rattle.std.proofs.Common.{inl};
    ghost use Rattle.media_file.specs.Shown.{shown};
    ghost use Rattle.media_file.specs.Past.{only_now};

    ghost tells = { C.trusted };

    ghost view = { shown };

    ghost steady = { λ m calls more. nat_le (m.moment + calls) (2 ^ 64 - 1) && C.steady m.calls calls more };

    // A file promises nothing.
    ghost spent = { λ m. Unit {0} };

    ghost long = { λ m told. m.whole told };

    ghost counts_now = { λ m t image told le left. inl left };

    ghost only_now = { λ m image told left. only_now (C.past m.calls) m.moment image (m.stamped told) left };

    fn len(&self) -> u64 {
        self.size
    }

    fn moment(&self) -> u64 {
        self.moment
    }

    fn read(&mut self, at: u64, buf: &mut [u8]) -> Result<(), Failed> {
        self.tick()?;
        match read_all(&mut self.calls, self.moment, at, buf) {
            Ok(()) => Ok(()),
            Err(_) => Err(self.fault()),
        }
    }

    fn write(&mut self, at: u64, bytes: &[u8]) -> Result<(), Failed> {
        self.tick()?;
        match write_all(&mut self.calls, self.moment, at, bytes) {
            Ok(()) => Ok(()),
            Err(_) => Err(self.fault()),
        }
    }

    fn barrier(&mut self) -> Result<(), Failed> {
        self.tick()?;
        match sync(&mut self.calls, self.moment) {
            Ok(()) => Ok(()),
            Err(_) => Err(self.fault()),
        }
    }

    fn fails_when_spent(&self) {}
}

// Calls on long bytes, made by a sound core.
ghost use Rattle.std.specs.Prelude.{◌≡◌, ◌<◌, IsTrue};
ghost use Rattle.taped_records.specs.Long.{PutsBytes, DelsBytes, ReadsBytes, AreBytes, AreMany};

use crate::sound::Sound;
use caller_steps::Core as Steps;
use long_values::{LongKey, Unkept};
use record_slots::Name;
use std::alloc::Global;
use transactions::Stop;

impl<C: Steps> Sound<C> {
    pub fn put_long(
        &mut self,
        caller: u8,
        table: Name,
        key: LongKey,
        bytes: &[u8],
    ) -> Result<(), Stop<Unkept>>
        requires { caller < (C.view self.old).limits.callers }
        ensures limits { (C.view self.new).limits ≡ (C.view self.old).limits }
        ensures puts { IsTrue C.tells → PutsBytes table key bytes.now caller (C.view self.old) (C.view self.new) result }
    {
        long_values::put(&mut self.core, caller, table, key, bytes)
    }

    pub fn get_long(
        &mut self,
        alloc: Global,
        caller: u8,
        table: Name,
        key: LongKey,
    ) -> Result<Option<Vec<u8>>, Stop<Unkept>>
        requires { caller < (C.view self.old).limits.callers }
        ensures limits { (C.view self.new).limits ≡ (C.view self.old).limits }
        ensures reads { IsTrue C.tells → ReadsBytes table key AreBytes caller (C.view self.old) (C.view self.new) result }
    {
        long_values::get(alloc, &mut self.core, caller, table, key)
    }

    pub fn del_long(&mut self, caller: u8, table: Name, key: LongKey) -> Result<bool, Stop<Unkept>>
        requires { caller < (C.view self.old).limits.callers }
        ensures limits { (C.view self.new).limits ≡ (C.view self.old).limits }
        ensures removes { IsTrue C.tells → DelsBytes table key caller (C.view self.old) (C.view self.new) result }
    {
        long_values::del(&mut self.core, caller, table, key)
    }

    pub fn length_long(
        &mut self,
        caller: u8,
        table: Name,
        key: LongKey,
    ) -> Result<Option<u64>, Stop<Unkept>>
        requires { caller < (C.view self.old).limits.callers }
        ensures limits { (C.view self.new).limits ≡ (C.view self.old).limits }
        ensures reads { IsTrue C.tells → ReadsBytes table key AreMany caller (C.view self.old) (C.view self.new) result }
    {
        long_values::length(&mut self.core, caller, table, key)
    }
}

// Long bytes under keys: values of any bytes, each in records of a table that has nothing else.
ghost use Rattle.std.specs.Prelude.{◌≡◌, ◌<◌, ◌⊎◌, IfOk, IfErr};
ghost use Rattle.taped_records.specs.Calls.{IsOutside};
ghost use Rattle.taped_records.specs.Long.{AsksToPut, AsksToGet, AsksToDel, AsksLength, IsBadPlace};
ghost use Rattle.taped_records.specs.Long.{Within, PutsBytes, DelsBytes, ReadsBytes, AreBytes, AreMany};

use crate::long_told::{tell_bytes, tell_del, tell_length, tell_put};
use crate::records::TapedRecords;
use crate::status::{BAD_CALLER, BAD_KEY, BAD_NAME};
use long_values::{LongKey, Unkept};
use record_slots::Name;
use std::alloc::Global;
use transactions::Stop;

impl TapedRecords {
    /// Puts the bytes under the key, in the place of those that were there.
    pub fn put_bytes(&mut self, caller: u8, table: &[u8], key: u64, bytes: &[u8]) -> i32
        ensures { AsksToPut table.now key bytes.now caller self.old self.new result }
    {
        match self.place_of(caller, table, key) {
            Ok((name, place)) => tell_put(&self.ask_put(caller, name, place, bytes)),
            Err(status) => status,
        }
    }

    /// The bytes under the key: as many as there is room for, and how many there are.
    pub fn get_bytes(
        &mut self,
        alloc: Global,
        caller: u8,
        table: &[u8],
        key: u64,
        room: &mut [u8],
        len: &mut u64,
    ) -> i32
        ensures { AsksToGet table.now key caller room.old room.new len.old len.new self.old self.new result }
    {
        match self.place_of(caller, table, key) {
            Ok((name, place)) => tell_bytes(&self.ask_get(alloc, caller, name, place), room, len),
            Err(status) => status,
        }
    }

    /// Removes them.
    pub fn del_bytes(&mut self, caller: u8, table: &[u8], key: u64) -> i32
        ensures { AsksToDel table.now key caller self.old self.new result }
    {
        match self.place_of(caller, table, key) {
            Ok((name, place)) => tell_del(&self.ask_del(caller, name, place)),
            Err(status) => status,
        }
    }

    /// How many there are.
    pub fn bytes_length(&mut self, caller: u8, table: &[u8], key: u64, len: &mut u64) -> i32
        ensures { AsksLength table.now key caller len.old len.new self.old self.new result }
    {
        match self.place_of(caller, table, key) {
            Ok((name, place)) => tell_length(&self.ask_length(caller, name, place), len),
            Err(status) => status,
        }
    }

    // The table and the key, if there is such a caller and there may be such.
    fn place_of(&self, caller: u8, table: &[u8], key: u64) -> Result<(Name, LongKey), i32>
        ensures ok { IfOk result (λ place. (caller < self.now.callers) × (place.0 ≡ table.now) × (place.1 ≡ key)) }
        ensures err { IfErr result (λ status. IsOutside caller self.now status ⊎ IsBadPlace table.now key status) }
    {
        if caller >= self.callers {
            return Err(BAD_CALLER);
        }
        let Some(name) = Name::of(table) else {
            return Err(BAD_NAME);
        };
        match LongKey::of(key) {
            Some(place) => Ok((name, place)),
            None => Err(BAD_KEY),
        }
    }

    fn ask_put(
        &mut self,
        caller: u8,
        table: Name,
        key: LongKey,
        bytes: &[u8],
    ) -> Result<(), Stop<Unkept>>
        requires { caller < self.old.callers }
        ensures { Within (PutsBytes table key bytes.now) caller self.old self.new result }
    {
        self.core.put_long(caller, table, key, bytes)
    }

    fn ask_get(
        &mut self,
        alloc: Global,
        caller: u8,
        table: Name,
        key: LongKey,
    ) -> Result<Option<Vec<u8>>, Stop<Unkept>>
        requires { caller < self.old.callers }
        ensures { Within (ReadsBytes table key AreBytes) caller self.old self.new result }
    {
        self.core.get_long(alloc, caller, table, key)
    }

    fn ask_del(&mut self, caller: u8, table: Name, key: LongKey) -> Result<bool, Stop<Unkept>>
        requires { caller < self.old.callers }
        ensures { Within (DelsBytes table key) caller self.old self.new result }
    {
        self.core.del_long(caller, table, key)
    }

    fn ask_length(
        &mut self,
        caller: u8,
        table: Name,
        key: LongKey,
    ) -> Result<Option<u64>, Stop<Unkept>>
        requires { caller < self.old.callers }
        ensures { Within (ReadsBytes table key AreMany) caller self.old self.new result }
    {
        self.core.length_long(caller, table, key)
    }
}

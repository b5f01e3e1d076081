// The calls of callers: each answers a status, and tells what its reply says.
ghost use Rattle.std.specs.Prelude.{◌≡◌};
ghost use Rattle.history.specs.declared.call.Call.TheVariants.{Begin, Table, Control as Controls};
ghost use Rattle.history.specs.declared.call.TableCall.TheVariants.{Get, Put, Del, Scan, Save, Back};
ghost use Rattle.history.specs.declared.call.Control.TheVariants.{Commit, Abort, Offer, Settle, Purge};
ghost use Rattle.taped_records.specs.Calls.{Calls, Fits, IsBadName, IsBadRecord};
ghost use Rattle.taped_calls.specs.Told.{IsPutOut};
ghost use Rattle.taped_records.specs.Told.{Nothing, same_rows, rows_in, number_in, count_in, value_in};

use crate::putting::{tell, tell_number, tell_value};
use crate::records::TapedRecords;
use crate::status::{BAD_NAME, BAD_VALUE};
use history::{Call, Control, TableCall};
use record_slots::{Name, Value};

impl TapedRecords {
    /// Begins a transaction of the caller's.
    pub fn begin(&mut self, caller: u8) -> i32
        ensures { Calls same_rows Fits Nothing caller Begin self.old self.new result }
    {
        tell(&self.ask(caller, &Call::Begin))
    }

    /// The value of a key: as much of it as there is room for, and its length.
    pub fn get(&mut self, caller: u8, table: &[u8], key: u64, room: &mut [u8], len: &mut u64) -> i32
        ensures { Calls same_rows (IsBadName table.now) (λ told. IsPutOut (value_in told) room.old room.new len.old len.new) caller (Table (Get table.now key)) self.old self.new result }
    {
        let Some(name) = Name::of(table) else {
            return BAD_NAME;
        };
        tell_value(
            &self.ask(caller, &Call::Table(TableCall::Get { table: name, key })),
            room,
            len,
        )
    }

    /// Gives a key this value.
    pub fn put(&mut self, caller: u8, table: &[u8], key: u64, value: &[u8]) -> i32
        ensures { Calls same_rows (IsBadRecord table.now value.now) Nothing caller (Table (Put table.now key value.now)) self.old self.new result }
    {
        let Some(name) = Name::of(table) else {
            return BAD_NAME;
        };
        let Some(text) = Value::of(value) else {
            return BAD_VALUE;
        };
        let call = Call::Table(TableCall::Put {
            table: name,
            key,
            value: text,
        });
        tell(&self.ask(caller, &call))
    }

    /// Removes the record of a key.
    pub fn del(&mut self, caller: u8, table: &[u8], key: u64) -> i32
        ensures { Calls same_rows (IsBadName table.now) Nothing caller (Table (Del table.now key)) self.old self.new result }
    {
        let Some(name) = Name::of(table) else {
            return BAD_NAME;
        };
        tell(&self.ask(caller, &Call::Table(TableCall::Del { table: name, key })))
    }

    /// Reads the records from one key to another, both included, and tells how many there are. `row` tells each, until the next scan.
    pub fn scan(&mut self, caller: u8, table: &[u8], low: u64, high: u64, count: &mut u64) -> i32
        ensures { Calls rows_in (IsBadName table.now) (λ told. count.new ≡ count_in count.old told) caller (Table (Scan table.now low high)) self.old self.new result }
    {
        let Some(name) = Name::of(table) else {
            return BAD_NAME;
        };
        let call = Call::Table(TableCall::Scan {
            table: name,
            low,
            high,
        });
        self.ask_rows(caller, &call, count)
    }

    /// Makes a save, and tells its number, counted from 1.
    pub fn save(&mut self, caller: u8, number: &mut u64) -> i32
        ensures { Calls same_rows Fits (λ told. number.new ≡ number_in number.old told) caller (Table Save) self.old self.new result }
    {
        tell_number(&self.ask(caller, &Call::Table(TableCall::Save)), number)
    }

    /// Goes back to a save.
    pub fn back(&mut self, caller: u8, save: u32) -> i32
        ensures { Calls same_rows Fits Nothing caller (Table (Back save)) self.old self.new result }
    {
        tell(&self.ask(caller, &Call::Table(TableCall::Back { save })))
    }

    /// Commits the transaction, and tells its number since the opening, counted from 1.
    pub fn commit(&mut self, caller: u8, number: &mut u64) -> i32
        ensures { Calls same_rows Fits (λ told. number.new ≡ number_in number.old told) caller (Controls Commit) self.old self.new result }
    {
        tell_number(&self.ask(caller, &Call::Control(Control::Commit)), number)
    }

    /// Drops the transaction.
    pub fn abort(&mut self, caller: u8) -> i32
        ensures { Calls same_rows Fits Nothing caller (Controls Abort) self.old self.new result }
    {
        tell(&self.ask(caller, &Call::Control(Control::Abort)))
    }

    /// Gives the transaction to the next group that is settled.
    pub fn offer(&mut self, caller: u8) -> i32
        ensures { Calls same_rows Fits Nothing caller (Controls Offer) self.old self.new result }
    {
        tell(&self.ask(caller, &Call::Control(Control::Offer)))
    }

    /// Commits all transactions that were offered as one group, unless one has done so, and tells the number of the caller's own.
    pub fn settle(&mut self, caller: u8, number: &mut u64) -> i32
        ensures { Calls same_rows Fits (λ told. number.new ≡ number_in number.old told) caller (Controls Settle) self.old self.new result }
    {
        tell_number(&self.ask(caller, &Call::Control(Control::Settle)), number)
    }

    /// Takes keys without records out of the index, and tells how many.
    pub fn purge(&mut self, caller: u8, number: &mut u64) -> i32
        ensures { Calls same_rows Fits (λ told. number.new ≡ number_in number.old told) caller (Controls Purge) self.old self.new result }
    {
        tell_number(&self.ask(caller, &Call::Control(Control::Purge)), number)
    }
}

ghost use Rattle.std.specs.Prelude.{◌≡◌, [], ◌∷◌, ◌++◌, List, IfOk, IfErr, OnOk, OnErr, MatchOption};
ghost use Rattle.history.specs.Writes.{Row};
ghost use Rattle.history.specs.Told.{told_reply};

use crate::packing::{MOST, append_entry};
use crate::unpacking::{Told, behind_call, read_call, read_told};
use crate::{Reply, TableCall};
use mars_base::{Listed, NoMemory};
use std::alloc::Global;
use std::marker::Model;

// A run of fewer bytes is copied where its room is given back.
const SHORT: usize = 4096;

/// The granted calls of a transaction, each with its reply, one behind the other in one run of bytes.
#[derive(Debug, Drop)]
pub struct Calls {
    bytes: Vec<u8>,
}

impl Model for Calls {
    ghost use Rattle.std.specs.Prelude.{List};
    ghost use Rattle.history.specs.declared.call.TableCall.{TableCall};
    ghost use Rattle.history.specs.declared.call.Reply.{Reply};
    ghost use Rattle.history.specs.Packed.{entries_in, ArePacked};

    ghost Value = { List (TableCall × Reply) };

    ghost view = { λ c. entries_in c.bytes.items };

    ghost invariant = { λ c. ArePacked c.bytes.items };
}

impl Calls {
    pub fn new(alloc: Global) -> Self
        ensures { result ≡ [] }
    {
        Calls {
            bytes: Vec::new(alloc),
        }
    }

    pub fn push(&mut self, call: TableCall, reply: Reply) -> Result<(), NoMemory>
        ensures ok { OnOk result (self.new ≡ self.old ++ (call, reply) ∷ []) }
        ensures err { OnErr result (self.new ≡ self.old) }
    {
        self.bytes.reserve(MOST)?;
        append_entry(&mut self.bytes, &call, &reply)
    }

    /// The same with room for one more call, or as they are if there is no memory for it.
    pub fn with_room(self) -> Result<CallsWithRoom, Calls>
        ensures ok { IfOk result (λ calls. calls ≡ self) }
        ensures err { IfErr result (λ calls. calls ≡ self) }
    {
        let Calls { mut bytes } = self;
        match bytes.reserve(MOST) {
            Ok(()) => Ok(CallsWithRoom { bytes }),
            Err(_) => Err(Calls { bytes }),
        }
    }

    /// The same without the room that is not needed.
    pub fn fitted(self) -> Calls
        ensures { result ≡ self }
    {
        // What is cut off behind a short run is too small for the next one, and would lie between both for good. So it is copied.
        if self.bytes.len() < SHORT {
            if let Ok(copy) = self.copy() {
                return copy;
            }
        }
        let Calls { mut bytes } = self;
        bytes.shrink_to_fit();
        Calls { bytes }
    }

    /// A copy of the calls.
    pub fn copy(&self) -> Result<Calls, NoMemory>
        ensures { IfOk result (λ copy. copy ≡ self.now) }
    {
        Ok(Calls {
            bytes: self.bytes.clone()?,
        })
    }

    pub fn entries(&self) -> Entries<'_>
        ensures { result ≡ self.now }
    {
        Entries { bytes: &self.bytes }
    }
}

/// Calls that are kept, each with its reply, from some one on.
#[derive(Drop)]
pub struct Entries<'a> {
    bytes: &'a [u8],
}

impl<'a> Model for Entries<'a> {
    ghost use Rattle.std.specs.Prelude.{List};
    ghost use Rattle.history.specs.declared.call.TableCall.{TableCall};
    ghost use Rattle.history.specs.declared.call.Reply.{Reply};
    ghost use Rattle.history.specs.Packed.{entries_in, ArePacked};

    ghost Value = { List (TableCall × Reply) };

    ghost view = { λ e. entries_in e.bytes.now };

    ghost invariant = { λ e. ArePacked e.bytes.now };
}

impl<'a> Entries<'a> {
    /// The first call with its reply, and those behind it.
    pub fn next(&self) -> Option<(TableCall, Told<'a>, Entries<'a>)>
        ensures { MatchOption result (self.now ≡ []) (λ p. self.now ≡ (p.0, told_reply p.1) ∷ p.2) }
    {
        if self.bytes.is_empty() {
            return None;
        }
        let (call, rest) = read_call(self.bytes);
        let (told, behind) = read_told(rest);
        Some((call, told, Entries { bytes: behind }))
    }

    /// The reply to the first call, and the calls behind that one. The call itself is passed over.
    pub fn next_told(&self) -> Option<(Told<'a>, Entries<'a>)>
        ensures { MatchOption result (self.now ≡ []) (λ p. (call : TableCall) × (self.now ≡ (call, told_reply p.0) ∷ p.1)) }
    {
        if self.bytes.is_empty() {
            return None;
        }
        let rest = behind_call(self.bytes);
        let (told, behind) = read_told(rest);
        Some((told, Entries { bytes: behind }))
    }
}

/// The granted calls of a transaction, each with its reply, with room for one more.
#[derive(Drop)]
pub struct CallsWithRoom {
    bytes: Vec<u8>,
}

impl Model for CallsWithRoom {
    ghost use Rattle.std.specs.Prelude.{List, ◌+◌, ◌≤◌, length, vec_capacity};
    ghost use Rattle.history.specs.declared.call.TableCall.{TableCall};
    ghost use Rattle.history.specs.declared.call.Reply.{Reply};
    ghost use Rattle.history.specs.Packed.{entries_in, ArePacked, HasRoom};

    ghost Value = { List (TableCall × Reply) };

    ghost view = { λ c. entries_in c.bytes.items };

    ghost invariant = { λ c. HasRoom c.bytes.items (vec_capacity c.bytes) };
}

impl CallsWithRoom {
    /// The calls with this one, in the room that there is, or as they are. Only the rows of a scan can lack memory.
    pub fn push(self, call: &TableCall, reply: &Reply) -> Result<Calls, Calls>
        ensures ok { IfOk result (λ calls. calls ≡ self ++ (call.now, reply.now) ∷ []) }
        ensures err { IfErr result (λ calls. calls ≡ self) }
        ensures listed { OnErr result ((rows : List Row) × (reply.now ≡ Reply.Listed rows)) }
    {
        let CallsWithRoom { mut bytes } = self;
        match append_entry(&mut bytes, call, reply) {
            Ok(()) => Ok(Calls { bytes }),
            Err(_) => Err(Calls { bytes }),
        }
    }

    /// The calls as they are.
    pub fn into_calls(self) -> Calls
        ensures { result ≡ self }
    {
        let CallsWithRoom { bytes } = self;
        Calls { bytes }
    }
}

/// A committed transaction: its caller, its calls, its number, counted from 1, and the number of the last transaction of its group: those
/// that were committed together with it, all or none. Alone it is the last one itself.
#[derive(Debug, Drop)]
pub struct Done {
    pub caller: u8,
    pub calls: Calls,
    pub at: u64,
    pub last: u64,
}

/// Committed transactions, in the order of their commits.
pub type History = Listed<Done>;

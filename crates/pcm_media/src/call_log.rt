// The calls that a medium in memory keeps, in little room: 16 bytes for a write, and three for a mark, which counts reads and then writes
// up to a barrier.
ghost use Rattle.std.specs.Prelude.{◌≡◌, ◌+◌, ◌<◌, ◌≤◌, ◌⊎◌, ℕ, [], ◌∷◌, ◌++◌, IfOk, OnOk, OnErr, vec_len};
ghost use Rattle.std.specs.Vec.{vec_capacity};
ghost use Rattle.pcm_media.specs.declared.call.Call.TheVariants.{Read, Write, Barrier};
ghost use Rattle.pcm_media.specs.declared.call.End.TheVariants.{Open};
ghost use Rattle.pcm_media.specs.Calls.{ranges_in, with_call};
ghost use Rattle.pcm_media.specs.Replay.{unsettled_after};

use crate::call::{Call, End, Mark, Place};
use mars_base::NoMemory;
use std::alloc::Global;
use std::marker::Model;

#[derive(Drop)]
pub struct CallLog {
    // Of all writes, also of those that failed.
    places: Vec<Place>,
    marks: Vec<Mark>,
    // The mark behind those, which further calls may join.
    last: Mark,
    // How many of the places came before the last barrier that was done.
    settled: usize,
}

impl Model for CallLog {
    ghost use Rattle.std.specs.Prelude.{length, ◌∷◌, ◌++◌, []};
    ghost use Rattle.std.specs.Vec.{vec_capacity};
    ghost use Rattle.pcm_media.specs.Calls.{records_in};
    ghost use Rattle.pcm_media.specs.Logged.{Logged, least_room, most_room, AreCounted};

    ghost Value = { Logged };

    ghost view = { λ l. record { records = records_in (l.marks.items ++ l.last ∷ []) l.places.items; room = least_room (vec_capacity l.places) (length l.places.items) (vec_capacity l.marks) (length l.marks.items); most_room = most_room (vec_capacity l.places) (length l.places.items) (vec_capacity l.marks) (length l.marks.items) } };

    ghost invariant = { λ l. AreCounted l.marks.items l.last l.places.items l.settled };
}

// The last mark with one more read. If that can not join its reads, the mark is put behind the others, and a new one begins.
fn with_read(marks: &mut Vec<Mark>, last: Mark) -> Mark
    requires room { vec_len marks.old < vec_capacity marks.old }
    ensures room { vec_capacity marks.new ≡ vec_capacity marks.old }
    ensures mark { ((marks.new.items ≡ marks.old.items) × (last.writes ≡ 0) × (result ≡ record last { reads = last.reads + 1 }))
        ⊎ ((marks.new.items ≡ marks.old.items ++ last ∷ []) × (result ≡ record { reads = 1; writes = 0; end = Open })) }
{
    if last.writes == 0 && last.reads < u8::MAX {
        return Mark {
            reads: last.reads + 1,
            ..last
        };
    }
    marks.push_reserved(last);
    Mark {
        reads: 1,
        ..Mark::EMPTY
    }
}

// The last mark with one more write, or a new one.
fn with_write(marks: &mut Vec<Mark>, last: Mark) -> Mark
    requires room { vec_len marks.old < vec_capacity marks.old }
    ensures room { vec_capacity marks.new ≡ vec_capacity marks.old }
    ensures mark { ((marks.new.items ≡ marks.old.items) × (result ≡ record last { writes = last.writes + 1 }))
        ⊎ ((marks.new.items ≡ marks.old.items ++ last ∷ []) × (result ≡ record { reads = 0; writes = 1; end = Open })) }
{
    if last.writes < u8::MAX {
        return Mark {
            writes: last.writes + 1,
            ..last
        };
    }
    marks.push_reserved(last);
    Mark {
        writes: 1,
        ..Mark::EMPTY
    }
}

impl CallLog {
    // No call, with room for `calls` of them and no more.
    pub fn new(alloc: Global, calls: u64) -> Result<CallLog, NoMemory>
        ensures records { IfOk result (λ l. l.records ≡ []) }
        ensures room { IfOk result (λ l. (l.room ≡ calls) × (l.most_room ≡ calls)) }
    {
        Ok(CallLog {
            places: Vec::with_capacity(alloc, calls as usize)?,
            marks: Vec::with_capacity(alloc, calls as usize)?,
            last: Mark::EMPTY,
            settled: 0,
        })
    }

    // Makes room for one more call. It fails only if there is none.
    pub fn reserve(&mut self) -> Result<(), NoMemory>
        ensures records { self.new.records ≡ self.old.records }
        ensures room { self.old.room ≤ self.new.room }
        ensures ok { OnOk result (0 < self.new.room) }
        ensures err { OnErr result (self.old.room ≡ 0) }
    {
        self.places.reserve(1)?;
        self.marks.reserve(1)?;
        Ok(())
    }

    // The places of the writes behind the last barrier that was done.
    pub fn unsettled(&self) -> &[Place]
        ensures { unsettled_after self.now.records [] ≡ ranges_in result.now }
    {
        &self.places[self.settled..]
    }

    // Keeps a call.
    pub fn push(&mut self, call: Call, is_done: bool)
        requires { 0 < self.old.room }
        ensures records { self.new.records ≡ with_call self.old.records call is_done }
        ensures room { self.old.room ≤ self.new.room + 1 }
    {
        match call {
            Call::Read => self.push_read(is_done),
            Call::Write { at, len } => self.push_write(Place { at, len }, is_done),
            Call::Barrier => self.push_barrier(is_done),
        }
    }

    fn push_read(&mut self, is_done: bool)
        requires { 0 < self.old.room }
        ensures records { self.new.records ≡ with_call self.old.records Read is_done }
        ensures room { self.old.room ≤ self.new.room + 1 }
    {
        if is_done {
            self.last = with_read(&mut self.marks, self.last);
        } else {
            self.marks.push_reserved(Mark {
                end: End::FailedRead,
                ..self.last
            });
            self.last = Mark::EMPTY;
        }
    }

    fn push_write(&mut self, place: Place, is_done: bool)
        requires { 0 < self.old.room }
        ensures records { self.new.records ≡ with_call self.old.records (Write place.at place.len) is_done }
        ensures room { self.old.room ≤ self.new.room + 1 }
    {
        self.places.push_reserved(place);
        if is_done {
            self.last = with_write(&mut self.marks, self.last);
        } else {
            self.marks.push_reserved(Mark {
                end: End::FailedWrite,
                ..self.last
            });
            self.last = Mark::EMPTY;
        }
    }

    fn push_barrier(&mut self, is_done: bool)
        requires { 0 < self.old.room }
        ensures records { self.new.records ≡ with_call self.old.records Barrier is_done }
        ensures room { self.old.room ≤ self.new.room + 1 }
    {
        if is_done {
            self.settled = self.places.len();
            self.marks.push_reserved(Mark {
                end: End::Settled,
                ..self.last
            });
            self.last = Mark::EMPTY;
        } else {
            self.marks.push_reserved(Mark {
                end: End::FailedBarrier,
                ..self.last
            });
            self.last = Mark::EMPTY;
        }
    }
}

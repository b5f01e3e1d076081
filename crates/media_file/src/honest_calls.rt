// An honest file in memory.
ghost use Rattle.std.specs.Prelude.{◌≡◌, ◌-◌, ◌≤◌, ◌⊎◌, ℕ, min, List, [], length, take, drop, replicate, true, false, if◌then◌else◌, is_ok, IfErr, IfOk, OnOk, OnErr, MatchResult};
ghost use Rattle.media_file.specs.Past.{held, noted, measured, came, stands, resized, synced};
ghost use Rattle.media_file.specs.Counted.{after_answer, part_of};
ghost use Rattle.media_file.specs.AsListed.{next_of, Obeys, part_done};
ghost use Rattle.media_file.specs.Honest.{past_of, event_of, is_quiet};

use crate::answer_list::AnswerList;
use crate::{Answer, CallFault, CallFaults, Calls, Done, HonestCall};
use mars_base::NoMemory;
use std::alloc::Global;

// What a failed write leaves in its place.
const SPOILT: u8 = 0xee;

/// A file in memory. It keeps its calls. It answers them one after another as a list says, and does those after the end of the
/// list in full. A call also fails if no memory is left to keep it, and a write if it reaches past the end: then it says for good
/// that not all is as listed.
#[derive(Drop)]
pub struct HonestCalls {
    alloc: Global,
    first: Vec<u8>,
    bytes: Vec<u8>,
    calls: Vec<HonestCall>,
    answers: AnswerList,
    as_listed: bool,
    faults: CallFaults,
    ghost tells: { (held (past_of first.items calls.items)).bytes ≡ bytes.items },
}

impl HonestCalls {
    ghost use Rattle.pcm_media.specs.Replay.{at_rest};
    ghost use Rattle.media_file.specs.InMemory.{past_in, Takes};
    ghost use Rattle.media_file.specs.Counted.{no_faults};

    /// A file with a copy of these bytes, all durable, of which no call has been made.
    pub fn new(alloc: Global, bytes: &[u8], answers: Vec<Answer>) -> Result<HonestCalls, NoMemory>
        ensures past { IfOk result (λ file. past_in file ≡ record { first = at_rest bytes.now; calls = [] }) }
        ensures anew { IfOk result (λ file. (file.faults ≡ no_faults) × (file.answers ≡ answers.items) × (file.as_listed ≡ true)) }
    {
        Ok(HonestCalls {
            alloc,
            first: Vec::from_slice(alloc, bytes)?,
            bytes: Vec::from_slice(alloc, bytes)?,
            calls: Vec::new(alloc),
            answers: AnswerList::new(answers),
            as_listed: true,
            faults: CallFaults::new(),
        })
    }

    /// What a read of the whole file gives.
    pub fn bytes(&self) -> &[u8]
        ensures { result.now ≡ (held (past_in self.now)).bytes }
    {
        &self.bytes
    }

    /// What it held at first.
    pub fn first(&self) -> &[u8]
        ensures { result.now ≡ (past_in self.now).first.bytes }
    {
        &self.first
    }

    /// Its calls, the oldest first.
    pub fn calls(&self) -> &[HonestCall]
        ensures { past_of (past_in self.now).first.bytes result.now ≡ past_in self.now }
    {
        &self.calls
    }

    /// Whether each call so far was answered as listed. If not, memory ran out, or a write reached past the end.
    pub fn is_as_listed(&self) -> bool
        ensures { result ≡ self.now.as_listed }
    {
        self.as_listed
    }

    /// How many of its calls failed, and how many were interrupted.
    pub fn faults(&self) -> CallFaults
        ensures { result ≡ self.now.faults }
    {
        self.faults
    }

    // How many of `len` bytes the next call does, by the list of answers.
    fn answer(&mut self, len: usize) -> Result<usize, CallFault>
        ensures count { IfOk result (λ count. count ≡ part_done (next_of self.old.answers) len) }
        ensures obeys { Obeys (next_of self.old.answers) result }
        ensures rest { self.new.answers ≡ drop 1 self.old.answers }
        ensures same { (past_in self.new ≡ past_in self.old) × (self.new.faults ≡ self.old.faults) × (self.new.as_listed ≡ self.old.as_listed) }
    {
        match self.answers.take() {
            Answer::Whole => Ok(len),
            Answer::Part { most } => Ok(most.min(len)),
            Answer::Interrupted => Err(CallFault::Interrupted),
            Answer::Failed => Err(CallFault::Failed),
        }
    }

    // Fails a call that its answer does not fail.
    fn fail(&mut self) -> CallFault
        ensures failed { result ≡ CallFault.Failed }
        ensures not_listed { self.new.as_listed ≡ false }
        ensures same { (past_in self.new ≡ past_in self.old) × (self.new.faults ≡ self.old.faults) × (self.new.answers ≡ self.old.answers) }
    {
        self.as_listed = false;
        CallFault::Failed
    }

    // Keeps a call that changes no byte.
    fn keep(&mut self, moment: u64, done: Done) -> Result<(), CallFault>
        requires { is_quiet done ≡ true }
        ensures kept { OnOk result (past_in self.new ≡ noted moment (event_of done (held (past_in self.old))) (past_in self.old)) }
        ensures failed { OnErr result (past_in self.new ≡ past_in self.old) }
        ensures fault { IfErr result (λ fault. fault ≡ CallFault.Failed) }
        ensures listed { self.new.as_listed ≡ (if is_ok result then self.old.as_listed else false) }
        ensures same { (self.new.faults ≡ self.old.faults) × (self.new.answers ≡ self.old.answers) }
    {
        match self.calls.push(HonestCall { moment, done }) {
            Ok(()) => Ok(()),
            Err(_) => Err(self.fail()),
        }
    }

    // Puts bytes at a place, and keeps the write.
    fn put(&mut self, moment: u64, at: u64, bytes: &[u8]) -> Result<(), CallFault>
        ensures put { OnOk result (past_in self.new ≡ noted moment (stands at bytes.now) (past_in self.old)) }
        ensures failed { OnErr result (past_in self.new ≡ past_in self.old) }
        ensures fault { IfErr result (λ fault. fault ≡ CallFault.Failed) }
        ensures listed { self.new.as_listed ≡ (if is_ok result then self.old.as_listed else false) }
        ensures same { (self.new.faults ≡ self.old.faults) × (self.new.answers ≡ self.old.answers) }
    {
        let place = at as usize;
        if place > self.bytes.len() || self.bytes.len() - place < bytes.len() {
            return Err(self.fail());
        }
        let Ok(copy) = Vec::from_slice(self.alloc, bytes) else {
            return Err(self.fail());
        };
        let done = Done::Written { at, bytes: copy };
        if self.calls.push(HonestCall { moment, done }).is_err() {
            return Err(self.fail());
        }
        self.bytes[place..place + bytes.len()].copy_from_slice(bytes);
        Ok(())
    }

    // Leaves at a place bytes that nobody wrote, if they fit and memory suffices.
    fn spoil(&mut self, moment: u64, at: u64, len: usize)
        ensures left { (past_in self.new ≡ past_in self.old)
            ⊎ (past_in self.new ≡ noted moment (stands at (replicate len SPOILT)) (past_in self.old)) }
        ensures spoilt { self.new.as_listed ≡ true →
            (self.old.as_listed ≡ true) × (past_in self.new ≡ noted moment (stands at (replicate len SPOILT)) (past_in self.old)) }
        ensures same { (self.new.faults ≡ self.old.faults) × (self.new.answers ≡ self.old.answers) }
    {
        match vec![in self.alloc; SPOILT; len] {
            Ok(left) => {
                let _ = self.put(moment, at, &left);
            }
            Err(_) => {
                self.fail();
            }
        }
    }

    fn measure(&mut self, moment: u64) -> Result<u64, CallFault>
        ensures noted { MatchResult result
            (λ len. past_in self.new ≡ noted moment (measured len) (past_in self.old))
            (λ _. past_in self.new ≡ past_in self.old) }
        ensures faults { self.new.faults ≡ self.old.faults }
        ensures takes { Takes self.old self.new result }
    {
        self.answer(0)?;
        self.keep(moment, Done::Measured)?;
        Ok(self.bytes.len() as u64)
    }

    fn read(&mut self, moment: u64, at: u64, buf: &mut [u8]) -> Result<usize, CallFault>
        ensures count { IfOk result (λ count. count ≤ length buf.old) }
        ensures noted { MatchResult result
            (λ count. past_in self.new ≡ noted moment (came at (take count buf.new)) (past_in self.old))
            (λ _. past_in self.new ≡ past_in self.old) }
        ensures faults { self.new.faults ≡ self.old.faults }
        ensures part { IfOk result (λ count. count ≡ min (part_done (next_of self.old.answers) (length buf.old)) (length (held (past_in self.old)).bytes - at)) }
        ensures takes { Takes self.old self.new result }
    {
        let count = self.answer(buf.len())?;
        let place = (at as usize).min(self.bytes.len());
        let count = count.min(self.bytes.len() - place);
        self.keep(moment, Done::Read { at, count })?;
        buf[..count].copy_from_slice(&self.bytes[place..place + count]);
        Ok(count)
    }

    fn write(&mut self, moment: u64, at: u64, bytes: &[u8]) -> Result<usize, CallFault>
        ensures count { IfOk result (λ count. count ≤ length bytes.now) }
        ensures noted { MatchResult result
            (λ count. past_in self.new ≡ noted moment (stands at (take count bytes.now)) (past_in self.old))
            (λ _. (past_in self.new ≡ past_in self.old) ⊎ ((left : List ℕ) × (length left ≡ length bytes.now) × (past_in self.new ≡ noted moment (stands at left) (past_in self.old)))) }
        ensures faults { self.new.faults ≡ self.old.faults }
        ensures part { IfOk result (λ count. count ≡ part_done (next_of self.old.answers) (length bytes.now)) }
        ensures spoilt { self.new.as_listed ≡ true → OnErr result (past_in self.new ≡ noted moment (stands at (replicate (length bytes.now) SPOILT)) (past_in self.old)) }
        ensures takes { Takes self.old self.new result }
    {
        match self.answer(bytes.len()) {
            Ok(count) => {
                self.put(moment, at, &bytes[..count])?;
                Ok(count)
            }
            Err(fault) => {
                self.spoil(moment, at, bytes.len());
                Err(fault)
            }
        }
    }

    fn resize(&mut self, moment: u64, len: u64) -> Result<(), CallFault>
        ensures noted { MatchResult result
            (λ _. past_in self.new ≡ noted moment (resized len) (past_in self.old))
            (λ _. past_in self.new ≡ past_in self.old) }
        ensures faults { self.new.faults ≡ self.old.faults }
        ensures takes { Takes self.old self.new result }
    {
        self.answer(0)?;
        if self.calls.reserve(1).is_err() || self.bytes.resize(len as usize, 0).is_err() {
            return Err(self.fail());
        }
        let done = Done::Resized { len };
        self.calls.push_reserved(HonestCall { moment, done });
        Ok(())
    }

    fn sync(&mut self, moment: u64) -> Result<(), CallFault>
        ensures noted { MatchResult result
            (λ _. past_in self.new ≡ noted moment synced (past_in self.old))
            (λ _. past_in self.new ≡ past_in self.old) }
        ensures faults { self.new.faults ≡ self.old.faults }
        ensures takes { Takes self.old self.new result }
    {
        self.answer(0)?;
        self.keep(moment, Done::Synced)?;
        Ok(())
    }
}

impl Calls for HonestCalls {
    ghost use Rattle.std.specs.Prelude.{true, false, reverse};
    ghost use Rattle.pcm_media.specs.Replay.{at_rest};
    ghost use Rattle.media_file.specs.Honest.{honest_told};
    ghost use Rattle.media_file.specs.InMemory.{past_in, Takes};

    ghost trusted = { true };

    ghost past = { past_in };

    ghost faults = { λ file. file.faults };

    ghost steady = { λ _ _ _. false };

    ghost honest = { λ file told. honest_told (at_rest file.first.items) (reverse file.calls.items) };

    fn len(&mut self, moment: u64) -> Result<u64, CallFault>
        ensures noted { MatchResult result
            (λ len. past_in self.new ≡ noted moment (measured len) (past_in self.old))
            (λ _. past_in self.new ≡ past_in self.old) }
        ensures counted { self.new.faults ≡ after_answer result self.old.faults }
        ensures takes { Takes self.old self.new result }
    {
        let answer = self.measure(moment);
        self.faults.count(answer)
    }

    fn read_at(&mut self, moment: u64, at: u64, buf: &mut [u8]) -> Result<usize, CallFault>
        ensures count { IfOk result (λ count. count ≤ length buf.old) }
        ensures noted { MatchResult result
            (λ count. past_in self.new ≡ noted moment (came at (take count buf.new)) (past_in self.old))
            (λ _. past_in self.new ≡ past_in self.old) }
        ensures counted { self.new.faults ≡ after_answer (part_of (length buf.old) result) self.old.faults }
        ensures part { IfOk result (λ count. count ≡ min (part_done (next_of self.old.answers) (length buf.old)) (length (held (past_in self.old)).bytes - at)) }
        ensures takes { Takes self.old self.new result }
    {
        let answer = self.read(moment, at, buf);
        self.faults.count_part(buf.len(), answer)
    }

    fn write_at(&mut self, moment: u64, at: u64, bytes: &[u8]) -> Result<usize, CallFault>
        ensures count { IfOk result (λ count. count ≤ length bytes.now) }
        ensures noted { MatchResult result
            (λ count. past_in self.new ≡ noted moment (stands at (take count bytes.now)) (past_in self.old))
            (λ _. (past_in self.new ≡ past_in self.old) ⊎ ((left : List ℕ) × (length left ≡ length bytes.now) × (past_in self.new ≡ noted moment (stands at left) (past_in self.old)))) }
        ensures counted { self.new.faults ≡ after_answer (part_of (length bytes.now) result) self.old.faults }
        ensures part { IfOk result (λ count. count ≡ part_done (next_of self.old.answers) (length bytes.now)) }
        ensures spoilt { self.new.as_listed ≡ true → OnErr result (past_in self.new ≡ noted moment (stands at (replicate (length bytes.now) SPOILT)) (past_in self.old)) }
        ensures takes { Takes self.old self.new result }
    {
        let answer = self.write(moment, at, bytes);
        self.faults.count_part(bytes.len(), answer)
    }

    fn set_len(&mut self, moment: u64, len: u64) -> Result<(), CallFault>
        ensures noted { MatchResult result
            (λ _. past_in self.new ≡ noted moment (resized len) (past_in self.old))
            (λ _. past_in self.new ≡ past_in self.old) }
        ensures counted { self.new.faults ≡ after_answer result self.old.faults }
        ensures takes { Takes self.old self.new result }
    {
        let answer = self.resize(moment, len);
        self.faults.count(answer)
    }

    fn sync_data(&mut self, moment: u64) -> Result<(), CallFault>
        ensures noted { MatchResult result
            (λ _. past_in self.new ≡ noted moment synced (past_in self.old))
            (λ _. past_in self.new ≡ past_in self.old) }
        ensures counted { self.new.faults ≡ after_answer result self.old.faults }
        ensures takes { Takes self.old self.new result }
    {
        let answer = self.sync(moment);
        self.faults.count(answer)
    }
}

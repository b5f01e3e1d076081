// What a script says for its callers and readers.
ghost use Rattle.std.specs.Prelude.{◌≡◌, ◌<◌, ℕ, List, [], length, replicate, None, IfOk, OnOk};
ghost use Rattle.script_run.specs.Lines.{lines_of};
ghost use Rattle.script_text.specs.declared.joint_line.JointLine.{JointLine};
ghost use Rattle.script_text.specs.declared.joint_line.JointLine.TheVariants.{Told, Read};
ghost use Rattle.caller_plans.specs.Asks.{keys_from};
ghost use Rattle.caller_plans.specs.Plans.{AllSay, faults_from, plans_from};
ghost use Rattle.caller_plans.specs.Drafts.{empty_draft, all_drafted, IsAmong, Takes};

use crate::draft::Draft;
use crate::fate::{LineFault, LineFaults};
use crate::plan::{Keys, Plans};
use history::{Call, Key};
use mars_base::NoMemory;
use script_run::next_line;
use script_text::{JointLine, read_joint_line};
use std::alloc::Global;

/// What a script says for its callers and readers.
#[derive(Debug, Drop)]
pub struct Script {
    /// The lines that are passed over, by rising number.
    pub faults: LineFaults,
    /// What each caller plans, by rising caller.
    pub plans: Vec<Plans>,
    /// What each reader asks for, by rising reader.
    pub asks: Vec<Keys>,
}

/// Reads the lines of a script for this many callers and readers.
pub fn read_script(
    alloc: Global,
    input: &[u8],
    callers: u8,
    readers: u8,
) -> Result<Script, NoMemory>
    ensures { IfOk result (λ script. (said : List JointLine) × AllSay callers readers (lines_of input.now) said
        × (script.faults ≡ faults_from 1 (λ caller. None) said) × (script.plans.items ≡ plans_from 0 callers said)
        × (script.asks.items ≡ keys_from 0 readers said)) }
{
    let mut reading = Reading::new(alloc, callers, readers)?;
    let mut rest = input;
    let mut number: u64 = 1;
    while let Some((line, after)) = next_line(rest) {
        reading.take(alloc, number, &read_joint_line(line, callers, readers))?;
        number += 1;
        rest = after;
    }
    reading.ended(alloc)
}

// What has been read so far.
#[derive(Drop)]
struct Reading {
    faults: LineFaults,
    drafts: Vec<Draft>,
    asks: Vec<Keys>,
}

// As many drafts of callers that have made no call.
fn empty_drafts(alloc: Global, callers: u8) -> Result<Vec<Draft>, NoMemory>
    ensures { IfOk result (λ drafts. drafts.items ≡ replicate callers empty_draft) }
{
    let mut drafts = Vec::with_capacity(alloc, usize::from(callers))?;
    for _caller in 0..callers {
        drafts.push(Draft::new(alloc))?;
    }
    Ok(drafts)
}

// As many lists of keys, all empty.
fn empty_asks(alloc: Global, readers: u8) -> Result<Vec<Keys>, NoMemory>
    ensures { IfOk result (λ asks. asks.items ≡ replicate readers []) }
{
    let mut asks = Vec::with_capacity(alloc, usize::from(readers))?;
    for _reader in 0..readers {
        asks.push(Keys::new(alloc))?;
    }
    Ok(asks)
}

impl Reading {
    fn new(alloc: Global, callers: u8, readers: u8) -> Result<Reading, NoMemory>
        ensures faults { IfOk result (λ reading. reading.faults ≡ []) }
        ensures drafts { IfOk result (λ reading. reading.drafts.items ≡ replicate callers empty_draft) }
        ensures asks { IfOk result (λ reading. reading.asks.items ≡ replicate readers []) }
    {
        let drafts = empty_drafts(alloc, callers)?;
        let asks = empty_asks(alloc, readers)?;
        Ok(Reading {
            faults: LineFaults::new(alloc),
            drafts,
            asks,
        })
    }

    // Takes the line with this number.
    fn take(&mut self, alloc: Global, number: u64, line: &JointLine) -> Result<(), NoMemory>
        requires { IsAmong (length self.old.drafts.items) (length self.old.asks.items) line.now }
        ensures { OnOk result (Takes number line.now self.old self.new) }
    {
        match line {
            JointLine::Nothing => Ok(()),
            JointLine::Bad => {
                self.faults.push(LineFault::Bad { line: number })?;
                Ok(())
            }
            JointLine::Told { caller, call } => self.hear(alloc, number, *caller, call),
            JointLine::Read { reader, key } => self.ask(*reader, key),
        }
    }

    // Takes the line of a caller's call.
    fn hear(&mut self, alloc: Global, number: u64, caller: u8, call: &Call) -> Result<(), NoMemory>
        requires { caller < length self.old.drafts.items }
        ensures { OnOk result (Takes number (Told caller call.now) self.old self.new) }
    {
        if self.drafts[usize::from(caller)].is_stray(call) {
            self.faults.push(LineFault::Stray { line: number })?;
            return Ok(());
        }
        self.drafts[usize::from(caller)].add(alloc, call)
    }

    // Takes the line by which a reader asks for a key.
    fn ask(&mut self, reader: u8, key: &Key) -> Result<(), NoMemory>
        requires { reader < length self.old.asks.items }
        ensures { OnOk result ((number : ℕ) → Takes number (Read reader key.now) self.old self.new) }
    {
        self.asks[usize::from(reader)].push(*key)?;
        Ok(())
    }

    // What was read, when no line is left.
    fn ended(self, alloc: Global) -> Result<Script, NoMemory>
        ensures faults { IfOk result (λ script. script.faults ≡ self.faults) }
        ensures plans { IfOk result (λ script. script.plans.items ≡ all_drafted 0 self.drafts.items []) }
        ensures asks { IfOk result (λ script. script.asks.items ≡ self.asks.items) }
    {
        let mut plans = Vec::with_capacity(alloc, self.drafts.len())?;
        for draft in self.drafts {
            plans.push(draft.ended()?)?;
        }
        Ok(Script {
            faults: self.faults,
            plans,
            asks: self.asks,
        })
    }
}

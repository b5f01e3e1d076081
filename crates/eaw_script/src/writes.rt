// Commands that write bytes.
ghost use Rattle.std.specs.Prelude.{◌≡◌, ◌<◌, false};
ghost use Rattle.eaw_face.specs.Command.{log_write, atomic_write, log_edit};
ghost use Rattle.script_text.specs.Eaw.{does};
ghost use Rattle.script_text.specs.HexText.{IsBlock};
ghost use Rattle.eaw_script.specs.Performed.{Performed};

use crate::in_data::is_in_data;
use crate::refusal::refusal;
use eaw_face::EawStore;
use mars_base::Failed;
use script_text::Answer;

/// Logs a write.
#[tactic(auto, using(crate::proofs::Performing::sends_none))]
pub fn log_write<S: EawStore>(
    store: &mut S,
    number: u8,
    addr: u32,
    bytes: &[u8],
) -> Result<Answer<'static>, Failed>
    requires number { number < (S.view store.old).shape.numbers }
    requires alive { (S.view store.old).is_dead ≡ false }
    requires block { IsBlock bytes.now }
    ensures { Performed S.tells (S.opens (S.view store.old).shape) (S.view store.old) (S.view store.new) number (does (log_write number addr bytes.now)) result }
{
    if !is_in_data(&store.shape(), addr, bytes.len()) {
        return Ok(Answer::BadRange);
    }
    match store.log_write(number, u64::from(addr), bytes) {
        Ok(len) => Ok(Answer::Logged(len)),
        Err(fault) => refusal(fault),
    }
}

/// Writes at once, without a log, under a number that is free.
#[tactic(auto, using(crate::proofs::Performing::sends_none))]
pub fn atomic<S: EawStore>(
    store: &mut S,
    number: u8,
    addr: u32,
    bytes: &[u8],
) -> Result<Answer<'static>, Failed>
    requires number { number < (S.view store.old).shape.numbers }
    requires alive { (S.view store.old).is_dead ≡ false }
    requires block { IsBlock bytes.now }
    ensures { Performed S.tells (S.opens (S.view store.old).shape) (S.view store.old) (S.view store.new) number (does (atomic_write number addr bytes.now)) result }
{
    if !is_in_data(&store.shape(), addr, bytes.len()) {
        return Ok(Answer::BadRange);
    }
    if store.is_live(number) {
        return Ok(Answer::Live);
    }
    match store.atomic_write(number, u64::from(addr), bytes) {
        Ok(()) => Ok(Answer::Fine),
        Err(fault) => refusal(fault),
    }
}

/// Overwrites bytes of a logged part.
#[tactic(auto, using(crate::proofs::Performing::sends_none))]
pub fn edit_log<S: EawStore>(
    store: &mut S,
    number: u8,
    pos: u32,
    at: u32,
    bytes: &[u8],
) -> Result<Answer<'static>, Failed>
    requires number { number < (S.view store.old).shape.numbers }
    requires alive { (S.view store.old).is_dead ≡ false }
    requires block { IsBlock bytes.now }
    ensures { Performed S.tells (S.opens (S.view store.old).shape) (S.view store.old) (S.view store.new) number (does (log_edit number pos at bytes.now)) result }
{
    if !store.is_live(number) {
        return Ok(Answer::Unknown);
    }
    if pos >= store.log_len(number) {
        return Ok(Answer::BadRange);
    }
    let (_, len) = store.part_range(number, pos);
    if u64::from(at) + bytes.len() as u64 > u64::from(len) {
        return Ok(Answer::BadRange);
    }
    match store.log_edit(number, pos, at, bytes) {
        Ok(()) => Ok(Answer::Fine),
        Err(fault) => refusal(fault),
    }
}

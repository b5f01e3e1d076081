// Commands that end a log, or what it has from an offset on.
ghost use Rattle.std.specs.Prelude.{◌≡◌, ◌<◌, false};
ghost use Rattle.eaw_face.specs.Command.{commit, abort, nested_top, partial_abort};
ghost use Rattle.script_text.specs.Eaw.{does};
ghost use Rattle.eaw_script.specs.Performed.{Performed};

use crate::refusal::refusal;
use eaw_face::EawStore;
use mars_base::Failed;
use script_text::Answer;

/// Commits a log.
#[tactic(auto, using(crate::proofs::Performing::sends_none))]
pub fn commit<S: EawStore>(store: &mut S, number: u8) -> Result<Answer<'static>, Failed>
    requires number { number < (S.view store.old).shape.numbers }
    requires alive { (S.view store.old).is_dead ≡ false }
    ensures { Performed S.tells (S.opens (S.view store.old).shape) (S.view store.old) (S.view store.new) number (does (commit number)) result }
{
    if !store.is_live(number) {
        return Ok(Answer::Unknown);
    }
    match store.commit(number) {
        Ok(()) => Ok(Answer::Fine),
        Err(fault) => refusal(fault),
    }
}

/// Discards a log.
#[tactic(auto, using(crate::proofs::Performing::sends_none))]
pub fn abort<S: EawStore>(store: &mut S, number: u8) -> Result<Answer<'static>, Failed>
    requires number { number < (S.view store.old).shape.numbers }
    requires alive { (S.view store.old).is_dead ≡ false }
    ensures { Performed S.tells (S.opens (S.view store.old).shape) (S.view store.old) (S.view store.new) number (does (abort number)) result }
{
    if !store.is_live(number) {
        return Ok(Answer::Unknown);
    }
    match store.abort(number) {
        Ok(()) => Ok(Answer::Fine),
        Err(fault) => refusal(fault),
    }
}

/// Commits what a log has from an offset on.
#[tactic(auto, using(crate::proofs::Performing::sends_none))]
pub fn nested<S: EawStore>(
    store: &mut S,
    number: u8,
    offset: u32,
) -> Result<Answer<'static>, Failed>
    requires number { number < (S.view store.old).shape.numbers }
    requires alive { (S.view store.old).is_dead ≡ false }
    ensures { Performed S.tells (S.opens (S.view store.old).shape) (S.view store.old) (S.view store.new) number (does (nested_top number offset)) result }
{
    if !store.is_live(number) {
        return Ok(Answer::Unknown);
    }
    if offset > store.log_len(number) {
        return Ok(Answer::BadRange);
    }
    match store.nested_top(number, offset) {
        Ok(()) => Ok(Answer::Fine),
        Err(fault) => refusal(fault),
    }
}

/// Discards what a log has from an offset on.
#[tactic(auto, using(crate::proofs::Performing::sends_none))]
pub fn partial<S: EawStore>(
    store: &mut S,
    number: u8,
    offset: u32,
) -> Result<Answer<'static>, Failed>
    requires number { number < (S.view store.old).shape.numbers }
    requires alive { (S.view store.old).is_dead ≡ false }
    ensures { Performed S.tells (S.opens (S.view store.old).shape) (S.view store.old) (S.view store.new) number (does (partial_abort number offset)) result }
{
    if !store.is_live(number) {
        return Ok(Answer::Unknown);
    }
    if offset > store.log_len(number) {
        return Ok(Answer::BadRange);
    }
    match store.partial_abort(number, offset) {
        Ok(()) => Ok(Answer::Fine),
        Err(fault) => refusal(fault),
    }
}

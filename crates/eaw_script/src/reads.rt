// Commands that read bytes or ask for a count.
ghost use Rattle.std.specs.Prelude.{◌≡◌, ◌<◌, ◌≤◌, false};
ghost use Rattle.eaw_face.specs.Command.{read};
ghost use Rattle.script_text.specs.Eaw.{does, read_log, log_len, held};
ghost use Rattle.eaw_script.specs.Performed.{Performed};

use crate::buffers::PART;
use crate::in_data::is_in_data;
use crate::refusal::refusal;
use eaw_face::EawStore;
use mars_base::Failed;
use script_text::{Answer, BLOCK, Lent};

/// Reads a logged part.
#[tactic(auto, using(crate::proofs::Performing::sends_none))]
pub fn read_log<'a, S: EawStore>(
    store: &mut S,
    number: u8,
    pos: u32,
    part: &'a mut [u8; PART],
) -> Result<Answer<'a>, Failed>
    requires number { number < (S.view store.old).shape.numbers }
    requires alive { (S.view store.old).is_dead ≡ false }
    ensures { Performed S.tells (S.opens (S.view store.old).shape) (S.view store.old) (S.view store.new) number (read_log pos) result }
{
    if !store.is_live(number) {
        return Ok(Answer::Unknown);
    }
    if pos >= store.log_len(number) {
        return Ok(Answer::BadRange);
    }
    match store.log_read(number, pos, part) {
        Ok((addr, len)) => Ok(Answer::Part {
            addr,
            bytes: Lent::of(&part[..usize::from(len)]),
        }),
        Err(fault) => refusal(fault),
    }
}

/// Reads committed data.
#[tactic(auto, using(crate::proofs::Performing::sends_none))]
pub fn read<'a, S: EawStore>(
    store: &mut S,
    number: u8,
    addr: u32,
    len: u32,
    block: &'a mut [u8; BLOCK],
) -> Result<Answer<'a>, Failed>
    requires number { number < (S.view store.old).shape.numbers }
    requires alive { (S.view store.old).is_dead ≡ false }
    requires len { len ≤ 1024 }
    ensures { Performed S.tells (S.opens (S.view store.old).shape) (S.view store.old) (S.view store.new) number (does (read addr len)) result }
{
    let count = len as usize;
    if !is_in_data(&store.shape(), addr, count) {
        return Ok(Answer::BadRange);
    }
    match store.read(u64::from(addr), &mut block[..count]) {
        Ok(()) => Ok(Answer::Data {
            bytes: Lent::of(&block[..count]),
        }),
        Err(fault) => refusal(fault),
    }
}

/// How many parts a log has.
#[tactic(auto, using(crate::proofs::Performing::sends_none))]
pub fn log_len<S: EawStore>(store: &S, number: u8) -> Answer<'static>
    requires number { number < (S.view store.now).shape.numbers }
    requires alive { (S.view store.now).is_dead ≡ false }
    ensures { Performed S.tells (S.opens (S.view store.now).shape) (S.view store.now) (S.view store.now) number log_len (Ok result) }
{
    Answer::Len(store.log_len(number))
}

/// How many of its parts a logger holds.
#[tactic(auto, using(crate::proofs::Performing::sends_none))]
pub fn held<S: EawStore>(store: &S, number: u8, logger: u8) -> Answer<'static>
    requires number { number < (S.view store.now).shape.numbers }
    requires alive { (S.view store.now).is_dead ≡ false }
    ensures { Performed S.tells (S.opens (S.view store.now).shape) (S.view store.now) (S.view store.now) number (held logger) (Ok result) }
{
    if logger >= store.shape().loggers {
        return Answer::BadRange;
    }
    Answer::Held(store.held(number, logger))
}

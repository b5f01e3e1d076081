// The input of a run and the array that it works on.
ghost use Rattle.std.specs.Prelude.{◌≡◌, ◌<◌, ◌≤◌, ℕ, [], true, false, IsTrue, IsFalse, IfOk, IfErr};
ghost use Rattle.eaw_device.specs.Depths.{IsOfDepth};
ghost use Rattle.eaw_device.specs.Opens.{Attached, KeepsData, OpensWithin};
ghost use Rattle.array_runs.specs.Input.{InputSays};
ghost use Rattle.array_runs.specs.Opening.{IsUnread, IsUnopened, Unopened};
ghost use Rattle.array_runs.specs.Outcome.{OutcomeOf};
ghost use Rattle.array_runs.specs.Statuses.{Counts, IsEarly};

use crate::status::{Status, status_of};
use eaw_device::{Depth, Eaw};
use eaw_face::EawStore;
use outside::Source;
use page_store::SaveRoom;
use pcm_media::Media;
use script_run::{InputFault, read_input};
use std::alloc::Global;

/// Reads the input to its end if it is asked for, then opens the array that the medium holds, on which at most `depth` commits may wait. An
/// error returns the medium with the status that the run ends with.
pub fn open<S: Source, M: Media, D: Depth>(
    alloc: Global,
    reads: bool,
    source: &mut S,
    media: M,
    depth: u8,
) -> Result<(Vec<u8>, Eaw<M, D>), (Status, M)>
    requires { IsOfDepth D.least D.most depth }
    ensures kind { IfErr result (λ ended. IsUnopened ended.0) }
    ensures early { IfErr result (λ ended. IsEarly ended.0 → IsTrue reads × (ended.1 ≡ media)) }
    ensures unread { IsFalse reads → source.new ≡ source.old }
    ensures steady { IsTrue (S.steady source.old) → IfErr result (λ ended. ended.0 ≡ Status.ReadFault → ⊥) }
    ensures read { IfOk result (λ opened. IsTrue reads → IsTrue S.tells → S.left source.old ≡ opened.0.items) }
    ensures ended { IfOk result (λ opened. IsTrue reads → IsTrue S.tells → InputSays Status.Good (S.left source.old) (S.left source.new)) }
    ensures input { IfErr result (λ ended. IsTrue reads → IsTrue S.tells → InputSays ended.0 (S.left source.old) (S.left source.new)) }
    ensures counts { IfErr result (λ ended. Counts ended.0 (S.faults source.old) (S.faults source.new) 0 0 (M.view media).faults (M.view ended.1).faults) }
    ensures kept { IfOk result (λ opened. S.faults source.new ≡ S.faults source.old) }
    ensures unopened { IsTrue M.tells → IfErr result (λ ended. Unopened (M.view media) ended.0 (M.view ended.1)) }
    ensures within { IfErr result (λ ended. OpensWithin M.tells (M.view media) (M.view ended.1).moment) }
    ensures attached { IfOk result (λ opened. Attached M.tells (M.view media) (⟦<Eaw<M, D> as EawStore>⟧.view opened.1)) }
    ensures keeps { IfOk result (λ opened. KeepsData M.tells (M.view media) (⟦<Eaw<M, D> as EawStore>⟧.view opened.1).moment (⟦<Eaw<M, D> as EawStore>⟧.view opened.1).left_since) }
    ensures limit { IfOk result (λ opened. (⟦<Eaw<M, D> as EawStore>⟧.view opened.1).depth ≡ depth) }
{
    let input = match read_if(alloc, reads, source) {
        Ok(input) => input,
        Err(status) => return Err((status, media)),
    };
    match open_array(alloc, media, depth) {
        Ok(store) => Ok((input, store)),
        Err(ended) => Err(ended),
    }
}

/// The room for the pages, the input if it is asked for, and the array that the medium holds, which has numbers for so many callers. An
/// error returns the medium with the status that the run ends with.
pub fn open_for<S: Source, M: Media, D: Depth>(
    alloc: Global,
    reads: bool,
    callers: u8,
    source: &mut S,
    media: M,
    depth: u8,
) -> Result<(SaveRoom, Vec<u8>, Eaw<M, D>), (Status, M)>
    requires { IsOfDepth D.least D.most depth }
    ensures usage { IfErr result (λ ended. ended.0 ≡ Status.Usage → 0 < callers) }
    ensures early { IfErr result (λ ended. IsEarly ended.0 → IsTrue reads × (ended.1 ≡ media)) }
    ensures unread { IsFalse reads → source.new ≡ source.old }
    ensures steady { IsTrue (S.steady source.old) → IfErr result (λ ended. ended.0 ≡ Status.ReadFault → ⊥) }
    ensures read { IfOk result (λ opened. IsTrue reads → IsTrue S.tells → S.left source.old ≡ opened.1.items) }
    ensures ended { IfOk result (λ opened. IsTrue reads → IsTrue S.tells → InputSays Status.Good (S.left source.old) (S.left source.new)) }
    ensures input { IfErr result (λ ended. IsTrue reads → IsTrue S.tells → InputSays ended.0 (S.left source.old) (S.left source.new)) }
    ensures counts { IfErr result (λ ended. (sink : ℕ) → Counts ended.0 (S.faults source.old) (S.faults source.new) sink sink (M.view media).faults (M.view ended.1).faults) }
    ensures kept { IfOk result (λ opened. S.faults source.new ≡ S.faults source.old) }
    ensures outcome { IsTrue M.tells → IfErr result (λ ended. OutcomeOf true true callers (λ none. ⊥) (M.view media) ended.0 (M.view ended.1) false []) }
    ensures within { IfErr result (λ ended. OpensWithin M.tells (M.view media) (M.view ended.1).moment) }
    ensures attached { IfOk result (λ opened. Attached M.tells (M.view media) (⟦<Eaw<M, D> as EawStore>⟧.view opened.2)) }
    ensures keeps { IfOk result (λ opened. KeepsData M.tells (M.view media) (⟦<Eaw<M, D> as EawStore>⟧.view opened.2).moment (⟦<Eaw<M, D> as EawStore>⟧.view opened.2).left_since) }
    ensures limit { IfOk result (λ opened. (⟦<Eaw<M, D> as EawStore>⟧.view opened.2).depth ≡ depth) }
    ensures enough { IfOk result (λ opened. callers ≤ (⟦<Eaw<M, D> as EawStore>⟧.view opened.2).shape.numbers) }
{
    // The room is taken first, so that a lack of memory for it leaves the medium alone.
    let room = match SaveRoom::new(alloc) {
        Ok(room) => room,
        Err(_) => return Err((Status::NoMemory, media)),
    };
    let (input, store) = open(alloc, reads, source, media, depth)?;
    if callers > store.shape().numbers {
        return Err((Status::Usage, store.into_media()));
    }
    Ok((room, input, store))
}

// The input up to its end if it is asked for, else nothing. An error is the status that the run ends with.
fn read_if<S: Source>(alloc: Global, reads: bool, source: &mut S) -> Result<Vec<u8>, Status>
    ensures kind { IfErr result (λ status. IsUnread status) }
    ensures asked { IfErr result (λ status. IsTrue reads) }
    ensures unread { IsFalse reads → source.new ≡ source.old }
    ensures steady { IsTrue (S.steady source.old) → IfErr result (λ status. status ≡ Status.ReadFault → ⊥) }
    ensures read { IfOk result (λ input. IsTrue reads → IsTrue S.tells → S.left source.old ≡ input.items) }
    ensures ended { IfOk result (λ input. IsTrue reads → IsTrue S.tells → InputSays Status.Good (S.left source.old) (S.left source.new)) }
    ensures input { IfErr result (λ status. IsTrue S.tells → InputSays status (S.left source.old) (S.left source.new)) }
    ensures counts { IfErr result (λ status. Counts status (S.faults source.old) (S.faults source.new) 0 0 0 0) }
    ensures kept { IfOk result (λ input. S.faults source.new ≡ S.faults source.old) }
{
    if !reads {
        return Ok(Vec::new(alloc));
    }
    match read_input(alloc, source) {
        Ok(input) => Ok(input),
        Err(InputFault::TooLong) => Err(Status::TooLong),
        Err(InputFault::Failed) => Err(Status::ReadFault),
        Err(InputFault::NoMemory) => Err(Status::NoMemory),
    }
}

// Opens the array that the medium holds. An error returns the medium with the status that the run ends with.
fn open_array<M: Media, D: Depth>(
    alloc: Global,
    media: M,
    depth: u8,
) -> Result<Eaw<M, D>, (Status, M)>
    requires { IsOfDepth D.least D.most depth }
    ensures kind { IfErr result (λ ended. IsUnopened ended.0) }
    ensures late { IfErr result (λ ended. IsEarly ended.0 → ⊥) }
    ensures counts { IfErr result (λ ended. Counts ended.0 0 0 0 0 (M.view media).faults (M.view ended.1).faults) }
    ensures unopened { IsTrue M.tells → IfErr result (λ ended. Unopened (M.view media) ended.0 (M.view ended.1)) }
    ensures within { IfErr result (λ ended. OpensWithin M.tells (M.view media) (M.view ended.1).moment) }
    ensures attached { IfOk result (λ store. Attached M.tells (M.view media) (⟦<Eaw<M, D> as EawStore>⟧.view store)) }
    ensures keeps { IfOk result (λ store. KeepsData M.tells (M.view media) (⟦<Eaw<M, D> as EawStore>⟧.view store).moment (⟦<Eaw<M, D> as EawStore>⟧.view store).left_since) }
    ensures limit { IfOk result (λ store. (⟦<Eaw<M, D> as EawStore>⟧.view store).depth ≡ depth) }
{
    match Eaw::<M, D>::attach_late(alloc, media, depth) {
        Ok(store) => Ok(store),
        Err((fault, media)) => Err((status_of(fault), media)),
    }
}

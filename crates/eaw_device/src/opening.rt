// An opening: the header, memory for the tables, as much as they need, and recovery.
ghost use Rattle.std.specs.Prelude.{◌≡◌, ◌≢◌, ◌+◌, ◌≤◌, IsTrue, IfOk, IfErr, OnErr, vec_capacity};
ghost use Rattle.eaw_device.specs.Opens.{AttachCause, AttachLeaves, KeepsData, OpensWithin};
ghost use Rattle.eaw_device.specs.Opening.{AreFree, IsOpened, Settled};

use crate::attach::{read_header, settle};
use crate::fault::AttachFault;
use crate::log::Log;
use array_shape::Shape;
use mars_base::NoMemory;
use pcm_media::Media;
use std::alloc::Global;
use write_back::LateData;

/// Settles the array on the medium, and returns its shape, a free log for each number, and a queue of which `depth` commits may wait.
pub(crate) fn open_array<M: Media>(
    alloc: Global,
    media: &mut M,
    depth: u8,
) -> Result<(Shape, Vec<Log>, LateData), AttachFault>
    ensures settled { IfOk result (λ opened. Settled M.tells (M.view media.old) opened.0 (M.view media.new)) }
    ensures free { IfOk result (λ opened. AreFree opened.0 opened.1.items) }
    ensures room { IfOk result (λ opened. vec_capacity opened.1 ≡ opened.0.numbers) }
    ensures late { IfOk result (λ opened. IsOpened opened.0 depth opened.2) }
    ensures cause { IfErr result (AttachCause M.tells (M.view media.old) (M.view media.new).faults) }
    ensures unwritten { IfErr result (AttachLeaves M.tells (M.view media.old) (M.view media.new)) }
    ensures keeps { KeepsData M.tells (M.view media.old) (M.view media.new).moment (M.view media.new).left_since }
    ensures later { (M.view media.old).faults ≤ (M.view media.new).faults }
    ensures kept { IfErr result (λ fault. fault ≢ AttachFault.Media → (M.view media.new).faults ≡ (M.view media.old).faults) }
    ensures within { OnErr result (OpensWithin M.tells (M.view media.old) (M.view media.new).moment) }
    ensures early { IfErr result (λ fault. fault ≡ AttachFault.NoMemory → (M.view media.new).moment ≡ (M.view media.old).moment + 1) }
{
    let shape = read_header(media)?;
    let (logs, late) = match free_tables(alloc, &shape, depth) {
        Ok(tables) => tables,
        Err(_) => return Err(AttachFault::NoMemory),
    };
    match settle(media, &shape) {
        Ok(()) => Ok((shape, logs, late)),
        Err(fault) => Err(fault),
    }
}

// A free log for each number, and the queue.
fn free_tables(alloc: Global, shape: &Shape, depth: u8) -> Result<(Vec<Log>, LateData), NoMemory>
    ensures free { IfOk result (λ tables. AreFree shape.now tables.0.items) }
    ensures room { IfOk result (λ tables. vec_capacity tables.0 ≡ shape.now.numbers) }
    ensures late { IfOk result (λ tables. IsOpened shape.now depth tables.1) }
{
    let logs = free_logs(alloc, shape)?;
    Ok((logs, LateData::new(alloc, shape, depth)?))
}

fn free_logs(alloc: Global, shape: &Shape) -> Result<Vec<Log>, NoMemory>
    ensures free { IfOk result (λ logs. AreFree shape.now logs.items) }
    ensures room { IfOk result (λ logs. vec_capacity logs ≡ shape.now.numbers) }
{
    let mut logs = Vec::with_capacity(alloc, usize::from(shape.numbers))?;
    for _tid in 0..shape.numbers {
        logs.push_reserved(Log::new(alloc, shape)?);
    }
    Ok(logs)
}

// One run of a case.
use crate::holds::{Holds, HoldsDoorway, holds_of};
use crate::image::media_of;
use crate::run_media::played_in_memory;
use case_files::{CaseFault, Ran, Record, Run, TracedMedia, TroubleKind, has_failed};
use mars_shell::{Status, fault_text, run};
use outside::{MemorySink, MemorySource};
use pcm_media::{FusedMedia, Media, MemoryMedia};
use std::alloc::Global;
use std::sync::Wait;
use std::thread::Threads;

// Room for most answers; past it the sink grows.
const TEXT: u64 = 4096;

/// A run that gives back another medium than it was given.
pub const ANOTHER_MEDIUM: CaseFault = CaseFault::Differs { what: "medium" };

/// What a run with this status came to.
pub fn ran_with(
    alloc: Global,
    status: Status,
    sink: MemorySink,
    left: (Vec<Record>, MemoryMedia),
    has_failed: bool,
) -> Result<Ran, CaseFault> {
    let (calls, media) = left;
    let mut buf = [0; 64];
    let len = fault_text(&status, &mut buf);
    Ok(Ran {
        status: u64::from(status.number()),
        fault: Vec::from_slice(alloc, &buf[..len])?,
        sink,
        has_failed,
        calls,
        media,
    })
}

/// Makes a run over an image in memory, of whose calls the one of number `fails` fails.
pub fn run_over_memory<R: AllocGlobal + Threads + Wait + Sync>(
    rt: &R,
    asked: &Run,
    image: &[u8],
    nth: u64,
    fails: Option<u64>,
) -> Result<Ran, CaseFault> {
    let mut media = media_of(rt.alloc(), image)?;
    if let Some(call) = fails {
        media.fail(call)?;
    }
    let mut sink = sink_of(rt.alloc(), asked, nth)?;
    let media = played_in_memory(TracedMedia::wrap(rt.alloc(), media));
    let (status, media) = run_over(rt, asked, nth, &mut sink, media)?;
    let left = media.into_memory().ok_or(ANOTHER_MEDIUM)?.into_parts()?;
    let has_failed = has_failed(&left.0);
    ran_with(rt.alloc(), status, sink, left, has_failed)
}

/// The call of a medium, or of a file, that is to fail.
pub fn failing_call(asked: &Run, nth: u64) -> Option<u64> {
    match asked.trouble.kind {
        TroubleKind::Medium => Some(nth),
        TroubleKind::Nothing | TroubleKind::Read | TroubleKind::Write | TroubleKind::Power => None,
    }
}

/// A sink for the answers of a run. Where writes are to fail, the `nth` does.
pub fn sink_of(alloc: Global, asked: &Run, nth: u64) -> Result<MemorySink, CaseFault> {
    let mut sink = MemorySink::new(alloc, TEXT)?;
    if let TroubleKind::Write = asked.trouble.kind {
        sink.fail(nth)?;
    }
    Ok(sink)
}

/// Makes a run over a medium. Where power is lost, that is behind `nth` calls. Nobody waits in vain where the case holds them.
pub fn run_over<R: AllocGlobal + Threads + Wait + Sync, M: Media + Drop + Send>(
    rt: &R,
    asked: &Run,
    nth: u64,
    sink: &mut MemorySink,
    media: M,
) -> Result<(Status, M), CaseFault> {
    let mut source = MemorySource::new(rt.alloc(), &asked.input)?;
    if let TroubleKind::Read = asked.trouble.kind {
        source.fail(nth)?;
    }
    let passes = match asked.trouble.kind {
        TroubleKind::Power => nth,
        TroubleKind::Nothing | TroubleKind::Read | TroubleKind::Write | TroubleKind::Medium => {
            u64::MAX
        }
    };
    let holds = holds_of(rt.alloc(), &asked.holds)?;
    let holds = Holds::new(&holds);
    let mut doorway = HoldsDoorway::new(&holds);
    let media = FusedMedia::wrap(media, passes);
    let (status, media) = run(rt, &asked.words, &mut source, sink, media, &mut doorway);
    if holds.given_up() > 0 {
        return Err(CaseFault::Differs { what: "a wait" });
    }
    Ok((status, media.into_inner()))
}

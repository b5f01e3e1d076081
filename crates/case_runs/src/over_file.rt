// A run over a file.
use crate::file_bytes::{lengthened, same_as};
use crate::image::media_of;
use crate::once::{ANOTHER_MEDIUM, failing_call, ran_with, run_over, run_over_memory, sink_of};
use crate::run_media::played_over_file;
use crate::way::{Way, answers};
use case_files::{CaseFault, Ran, Report, Run, compare_ran};
use mars_shell::{Status, room};
use media_file::{CallFault, Calls, FileMedia, HonestCalls};
use pcm_media::Media;
use std::sync::Wait;
use std::thread::Threads;

/// What a run over a file came to.
#[derive(Drop)]
pub struct OverFile {
    pub ran: Ran,
    /// How many calls were made of the medium over it; none is where the file could not be opened.
    calls: Option<u64>,
}

/// Makes a run over a file with these bytes, whose calls are answered in this way, but that the `nth` may fail.
pub fn run_over_file<R: AllocGlobal + Threads + Wait + Sync>(
    rt: &R,
    asked: &Run,
    image: &[u8],
    nth: u64,
    way: Way,
) -> Result<OverFile, CaseFault> {
    let alloc = rt.alloc();
    let fails = failing_call(asked, nth);
    let file = HonestCalls::new(alloc, image, answers(alloc, way, fails)?)?;
    let mut sink = sink_of(alloc, asked, nth)?;
    let Ok(media) = FileMedia::over(file, room(alloc, &asked.words)?) else {
        let left = (Vec::new(alloc), media_of(alloc, image)?);
        let ran = ran_with(alloc, Status::MediaFault, sink, left, fails.is_some())?;
        return Ok(OverFile { ran, calls: None });
    };
    let (status, media) = run_over(rt, asked, nth, &mut sink, played_over_file(media))?;
    let media = media.into_file().ok_or(ANOTHER_MEDIUM)?;
    let calls = Some(media.moment());
    let mut file = media.into_calls();
    let left = same_as(alloc, &file)?;
    let has_failed = fails.is_some() && !is_still_to_fail(&mut file, nth);
    let ran = ran_with(alloc, status, sink, left, has_failed)?;
    Ok(OverFile { ran, calls })
}

// Whether one of the next so many calls of a file is to fail.
fn is_still_to_fail(file: &mut HonestCalls, calls: u64) -> bool {
    for _ in 0..calls {
        if file.sync_data(0) == Err(CallFault::Failed) {
            return true;
        }
    }
    false
}

/// Compares what a run over a file came to with the same run over a medium in memory: also where something is not sure. Where a call of
/// the file failed, the call of the medium for which it was made fails in memory. That was the last one.
pub fn compare_memory<R: AllocGlobal + Threads + Wait + Sync>(
    rt: &R,
    asked: &Run,
    image: &[u8],
    nth: u64,
    over: &OverFile,
    report: &mut Report,
) -> Result<(), CaseFault> {
    let OverFile { ran, calls } = over;
    let fails = match (ran.has_failed, *calls) {
        // Nothing is opened in memory.
        (true, None) => return Ok(()),
        (true, Some(last)) => Some(last),
        (false, _) => None,
    };
    let image = lengthened(rt.alloc(), image, room(rt.alloc(), &asked.words)? as usize)?;
    compare_ran(
        &run_over_memory(rt, asked, &image, nth, fails)?,
        ran,
        report,
    )
}

// The runs of a case, one behind the other.
use crate::image::{first_media, image_before};
use crate::once::{failing_call, run_over_memory};
use crate::over_file::{compare_memory, run_over_file};
use crate::plain::{compare_plain, has_twin};
use crate::progress::{Progress, Trial};
use crate::way::{WAYS, Way};
use case_files::{Case, CaseFault, Ran, Run, compare};
use pcm_media::MemoryMedia;
use std::alloc::Global;
use std::sync::Wait;
use std::thread::Threads;

/// What a run goes over.
#[derive(Clone, Copy)]
enum Over {
    Memory,
    /// A file, whose calls are answered in this way.
    File(Way),
}

/// Makes the runs of a case in all its trials, up to what does not come to what it says.
pub fn play_case<R: AllocGlobal + Threads + Wait + Sync>(
    rt: &R,
    case: &Case,
    progress: &mut Progress,
) -> Result<(), CaseFault> {
    let media = first_media(rt.alloc(), case.image)?;
    if !case.is_over_file {
        return follow(rt, &case.runs, Over::Memory, &media, progress);
    }
    for way in WAYS {
        follow(rt, &case.runs, Over::File(way), &media, progress)?;
    }
    Ok(())
}

// Makes the first of these runs over what was left, and over what each of its trials leaves the others.
fn follow<R: AllocGlobal + Threads + Wait + Sync>(
    rt: &R,
    runs: &[Run],
    over: Over,
    left: &MemoryMedia,
    progress: &mut Progress,
) -> Result<(), CaseFault> {
    let Some((run, later)) = runs.split_first() else {
        return Ok(());
    };
    for trial in &trials_of(rt.alloc(), run)? {
        progress.trials.push(*trial)?;
        let media = make_trial(rt, run, over, left, trial, progress)?;
        follow(rt, later, over, &media, progress)?;
        progress.trials.pop();
    }
    Ok(())
}

// Makes a run in one of its trials, compares what it came to, and gives what it left.
fn make_trial<R: AllocGlobal + Threads + Wait + Sync>(
    rt: &R,
    run: &Run,
    over: Over,
    left: &MemoryMedia,
    trial: &Trial,
    progress: &mut Progress,
) -> Result<MemoryMedia, CaseFault> {
    let alloc = rt.alloc();
    let choice = match run.choices.get(trial.choice) {
        Some(choice) => choice.as_slice(),
        None => &[],
    };
    let before = image_before(alloc, left, choice, run)?;
    let ran = make_run(rt, run, over, &before, trial.nth, progress)?;
    compare(alloc, run, trial.nth, &before, &ran, &mut progress.report)?;
    if has_twin(run, &ran) {
        progress.plays.over_plain = progress.plays.over_plain.saturating_add(1);
        compare_plain(alloc, run, &before, &ran, &mut progress.report)?;
    }
    Ok(ran.media)
}

// Makes a run, over a file or in memory. Over a file it does just what it does in memory.
fn make_run<R: AllocGlobal + Threads + Wait + Sync>(
    rt: &R,
    run: &Run,
    over: Over,
    before: &[u8],
    nth: u64,
    progress: &mut Progress,
) -> Result<Ran, CaseFault> {
    progress.plays.runs = progress.plays.runs.saturating_add(1);
    let Over::File(way) = over else {
        return run_over_memory(rt, run, before, nth, failing_call(run, nth));
    };
    progress.plays.over_file = progress.plays.over_file.saturating_add(1);
    let made = run_over_file(rt, run, before, nth, way)?;
    compare_memory(rt, run, before, nth, &made, &mut progress.report)?;
    Ok(made.ran)
}

// All trials of a run.
fn trials_of(alloc: Global, run: &Run) -> Result<Vec<Trial>, CaseFault> {
    let mut trials = Vec::new(alloc);
    for choice in 0..run.choices.len() {
        push_trials(&mut trials, choice, run)?;
    }
    Ok(trials)
}

fn push_trials(trials: &mut Vec<Trial>, choice: usize, run: &Run) -> Result<(), CaseFault> {
    for nth in run.trouble.first..=run.trouble.last {
        trials.push(Trial { choice, nth })?;
    }
    Ok(())
}

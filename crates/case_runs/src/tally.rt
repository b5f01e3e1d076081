// All cases of a folder.
use crate::playing::play_case;
use crate::progress::{Plays, Progress};
use anyhow::{Result, bail};
use case_files::{Case, CaseFault, read_cases};
use std::alloc::{AllocError, Global};
use std::fs;
use std::rt::Files;
use std::sync::Wait;
use std::thread::Threads;

/// How many cases came to what they say, how many did not, and how much was played for it.
#[derive(Clone, Copy)]
pub struct Tally {
    pub passed: u64,
    pub failed: u64,
    pub plays: Plays,
}

/// Plays the cases of each file of a folder whose name ends in `.cases`, in the order of the names.
pub fn play_folder<R>(rt: &R, folder: &str) -> Result<Tally>
where
    R: AllocGlobal + Threads + Wait + Sync + Files + Print + Clone + Drop,
{
    let mut tally = Tally {
        passed: 0,
        failed: 0,
        plays: Plays::none(),
    };
    for path in &paths_in(rt, folder)? {
        play_file(rt, path.as_str(), &mut tally)?;
    }
    Ok(tally)
}

fn paths_in<R>(rt: &R, folder: &str) -> Result<Vec<String>>
where
    R: AllocGlobal + Threads + Wait + Sync + Files + Clone + Drop,
{
    let mut paths = Vec::new(rt.alloc());
    for entry in fs::read_dir(rt, folder)? {
        let entry = entry?;
        if entry.file_name().ends_with(".cases") {
            paths.push(path_in(rt.alloc(), folder, entry.file_name())?)?;
        }
    }
    paths.sort()?;
    Ok(paths)
}

fn path_in(alloc: Global, folder: &str, name: &str) -> Result<String, AllocError> {
    let mut path = String::from_str(alloc, folder)?;
    path.push('/')?;
    path.push_str(name)?;
    Ok(path)
}

fn play_file<R>(rt: &R, path: &str, tally: &mut Tally) -> Result<()>
where
    R: AllocGlobal + Threads + Wait + Sync + Files + Print,
{
    for case in &cases_in(rt, path)? {
        let mut progress = Progress::new(rt.alloc());
        let ended = play_case(rt, case, &mut progress);
        tally.plays = tally.plays.plus(progress.plays);
        if passes(case, ended) {
            tally.passed = tally.passed.saturating_add(1);
        } else {
            tally.failed = tally.failed.saturating_add(1);
            tell(rt, path, case, ended, &progress)?;
        }
    }
    Ok(())
}

fn cases_in<R>(rt: &R, path: &str) -> Result<Vec<Case>>
where
    R: AllocGlobal + Threads + Wait + Sync + Files,
{
    let text = fs::read_to_string(rt, path)?;
    match read_cases(rt.alloc(), text.as_str()) {
        Ok(cases) => Ok(cases),
        Err(bad) => bail!("{path}:{bad}"),
    }
}

// A wrong case passes where it is refused for what it says.
fn passes(case: &Case, ended: Result<(), CaseFault>) -> bool {
    match (&case.wrong, ended) {
        (None, Ok(())) => true,
        (Some(wrong), Err(fault)) => fault.is_of(wrong.as_str()),
        (None, Err(_)) | (Some(_), Ok(())) => false,
    }
}

// Tells of a case that does not pass: why, and in which of its trials.
fn tell(
    rt: &impl Print,
    path: &str,
    case: &Case,
    ended: Result<(), CaseFault>,
    progress: &Progress,
) -> Result<()> {
    println!(rt; "{path}:{}: {}", case.line, case.name)?;
    match ended {
        Ok(()) => println!(rt; "    it is not refused")?,
        Err(fault) => println!(rt; "    {fault}")?,
    }
    for trial in &progress.trials {
        println!(rt; "    in choice {}, at call {}", trial.choice, trial.nth)?;
    }
    println!(rt; "    wanted: {}", progress.report.wanted.escape_ascii())?;
    println!(rt; "    was: {}", progress.report.was.escape_ascii())?;
    Ok(())
}

//! Plays the cases that the files of a folder say, and tells of each that does not come to what it says. The folder is the first
//! argument, or else the one in which the program runs. How cases are written, in files whose names end in `.cases`, stands at the head
//! of the crate `case_files`. Begin with `playing`: a case makes each run once for each call that is to fail, over memory (`once`) or over
//! a file (`over_file`). The images under all cases are in `image`; raw commands over the plain store, with which a run of them is compared,
//! in `plain`; and how far a case has come in `progress`.
#![tactic(auto)]

mod file_bytes;
mod holds;
mod image;
mod once;
mod over_file;
mod plain;
mod playing;
mod progress;
mod run_media;
mod tally;
mod way;

use crate::tally::{Tally, play_folder};
use anyhow::{Result, ensure};
use std::env;

fn main(rt: HostRuntime) -> Result<()> {
    let folder = env::args(&rt)?.nth(1);
    let folder = match &folder {
        Some(folder) => folder.as_str(),
        None => ".",
    };
    let Tally {
        passed,
        failed,
        plays,
    } = play_folder(&rt, folder)?;
    println!(rt;
        "{} runs, {} of them over a file",
        plays.runs, plays.over_file
    )?;
    println!(rt; "{} of them over the plain store as well", plays.over_plain)?;
    println!(rt; "{passed} cases passed")?;
    ensure!(failed == 0, "{failed} cases failed");
    Ok(())
}

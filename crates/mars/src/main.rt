//! The program: it makes the real source, sink and image, and hands them to `mars_shell::run`.
//!
//! Read first `main.rt`. `choice.rt` says which image the words name, `kept.rt` how much of a file stays in memory, `ending.rt` what is told on
//! standard error and with which number the program ends: that of the status of the run.
#![tactic(auto)]

ghost use Rattle.std.specs.Prelude.{IfErr};
ghost use Rattle.mars.specs.Ending.{IsUnbegun};

mod choice;
mod ending;
mod image;
mod kept;

use crate::choice::{Image, choose};
use crate::ending::{Ending, Told, run_told, tell_unbegun};
use crate::image::{fresh_image, no_image};
use crate::kept::resident;
use blank_media::BlankMedia;
use mars_base::NoMemory;
use mars_shell::Status;
use media_file::FileMedia;
use outside::{Sink, StdStream};
use pcm_media::Media;
use std::fs::File;
use std::io::{ErrorKind, Input, Result as IoResult};
use std::rt::{Env, Files};
use std::sync::Wait;
use std::thread::Threads;
use std::{env, io};

fn main(rt: HostRuntime) -> Ending {
    // A file that is opened takes the number of a closed stream, if there is one, and replies would be written into an image.
    // These take them first, and stay open to the end.
    let _held = [null(&rt), null(&rt), null(&rt)];
    let mut errors = StdStream::new(rt.stderr());
    Ending::from(whole(&rt, &mut errors))
}

// Reads as empty and refuses to be written. A system without it has no such protection.
fn null<R: Files<File = File>>(rt: &R) -> IoResult<File> {
    File::open(rt, "/dev/null")
}

// The words are read before the image is touched.
fn whole<R, E: Sink>(rt: &R, errors: &mut E) -> Told
where
    R: AllocGlobal + Env + Files<File = File> + Input + Print + Threads + Wait + Sync,
{
    let line = match words_given(rt) {
        Ok(line) => line,
        Err(status) => return tell_unbegun(status, errors),
    };
    match choose(rt.alloc(), &line) {
        Ok((Image::Memory, words)) => run_in_memory(rt, words, fresh_image(rt.alloc()), errors),
        Ok((Image::File { path, least }, words)) => run_on_file(rt, words, path, least, errors),
        Err(status) => tell_unbegun(status, errors),
    }
}

// All words of the command line.
fn words_given<R: AllocGlobal + Env>(rt: &R) -> Result<Vec<String>, Status>
    ensures { IfErr result IsUnbegun }
{
    let args = match env::args(rt) {
        Ok(args) => args,
        Err(error) if error.kind() == ErrorKind::OutOfMemory => return Err(Status::NoMemory),
        Err(_) => return Err(Status::Usage),
    };
    match args.collect::<Vec<String>>(rt.alloc()) {
        Ok(line) => Ok(line),
        Err(_) => Err(Status::NoMemory),
    }
}

// A run over a file, of which each block is read once. A missing file that is not to be created is an image of no bytes.
fn run_on_file<R, E: Sink>(rt: &R, words: &[String], path: &str, least: u64, errors: &mut E) -> Told
where
    R: AllocGlobal + Files<File = File> + Input + Print + Threads + Wait + Sync,
{
    match FileMedia::attach(rt, path, least) {
        Ok(Some(media)) => match resident(rt.alloc(), media) {
            Ok(media) => run_over(rt, words, media, errors),
            Err(_) => tell_unbegun(Status::NoMemory, errors),
        },
        Ok(None) => run_in_memory(rt, words, no_image(rt.alloc()), errors),
        Err(_) => tell_unbegun(Status::MediaFault, errors),
    }
}

// A run over an image that is lost at the end.
fn run_in_memory<R, E: Sink>(
    rt: &R,
    words: &[String],
    image: Result<BlankMedia, NoMemory>,
    errors: &mut E,
) -> Told
where
    R: AllocGlobal + Input + Print + Threads + Wait + Sync,
{
    match image {
        Ok(media) => run_over(rt, words, media, errors),
        Err(_) => tell_unbegun(Status::NoMemory, errors),
    }
}

fn run_over<R, M: Media + Drop + Send, E: Sink>(
    rt: &R,
    words: &[String],
    media: M,
    errors: &mut E,
) -> Told
where
    R: AllocGlobal + Input + Print + Threads + Wait + Sync,
{
    let mut source = StdStream::new(rt.reader());
    let mut sink = StdStream::new(io::writer(rt));
    run_told(rt, words, &mut source, &mut sink, media, errors).0
}

//! The program that restores: an array is made of the dump on its standard input, and put at a path.
//!
//! Read first `main.rt`. What is made of the input is `restore_runs::make_image`; `image_file.rt` puts it at its path, whole or not at all, and
//! `refusal.rt` has what is told where nothing was restored.
#![tactic(auto)]

mod image_file;
mod refusal;

use crate::image_file::{put_image, test_place};
use crate::refusal::Refusal;
use command_words::read_restore_words;
use outside::StdStream;
use restore_runs::make_image;
use std::fs::File;
use std::io::{ErrorKind, Input, IsTerminal, Result as IoResult};
use std::process::ExitCode;
use std::rt::{Env, Files};
use std::{env, process};

fn main(rt: HostRuntime) -> ExitCode {
    // A file that is opened takes the number of a closed stream, if there is one, and a message would be written into an image.
    // These take them first, and stay open to the end.
    let _held = [null(&rt), null(&rt), null(&rt)];
    if rt.stdin().is_terminal() {
        let _ = eprintln!(rt; "reading a dump from standard input; its last line is `records N`");
    }
    let status = match whole(&rt, process::id(rt.process())) {
        Ok(records) => told(&rt, records),
        Err(refusal) => refused(&rt, &refusal),
    };
    ExitCode::from(status)
}

// Reads as empty and refuses to be written. A system without it has no such protection.
fn null<R: Files<File = File>>(rt: &R) -> IoResult<File> {
    File::open(rt, "/dev/null")
}

// The words and the path are tested before the input is read. Returns how many records were restored.
fn whole<R>(rt: &R, process: u32) -> Result<u64, Refusal>
where
    R: AllocGlobal + Env + Files<File = File> + Input,
{
    let args = match env::args(rt) {
        Ok(args) => args,
        Err(error) if error.kind() == ErrorKind::OutOfMemory => return Err(Refusal::NoMemory),
        Err(_) => return Err(Refusal::Usage),
    };
    let Ok(line) = args.collect::<Vec<String>>(rt.alloc()) else {
        return Err(Refusal::NoMemory);
    };
    let [_, words @ ..] = line.as_slice() else {
        return Err(Refusal::Usage);
    };
    let asked = read_restore_words(rt.alloc(), words)?;
    let place = test_place(rt, asked.image, asked.replace)?;
    let mut source = StdStream::new(rt.reader());
    let mut made = make_image(rt.alloc(), &asked.numbers, &mut source)?;
    put_image(rt, &place, process, &mut made.image)?;
    Ok(made.records)
}

fn told<R: Print>(rt: &R, records: u64) -> u8 {
    match println!(rt; "restored {records}") {
        Ok(()) => 0,
        Err(_) => 5,
    }
}

fn refused<R: Eprint>(rt: &R, refusal: &Refusal) -> u8 {
    let _ = eprintln!(rt; "restore: {refusal}");
    refusal.number()
}

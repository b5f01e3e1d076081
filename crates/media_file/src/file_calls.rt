// A file of the system.
ghost use Rattle.std.specs.Prelude.{◌≡◌, ◌≢◌, ◌≤◌, Err, Ok, IfErr, IfOk, IfSome, IsSome};
ghost use Rattle.std.specs.IoError.{error_kind};
ghost use Rattle.media_file.specs.Opened.{anew, IsOpenedFor};

use crate::opening::{Opening, end_of, find_file, find_folder};
use crate::{CallFault, CallFaults, Calls};
use mars_base::Failed;
use std::fs::File;
use std::io;
use std::io::ErrorKind;
use std::os::unix::fs::FileExt;
use std::rt::Files;

/// A file of the system, open for reading and writing, and locked until it is dropped. Each call makes one call of the system,
/// or more if a length or a sync is interrupted. It is not trusted: no contract says what the system answers.
#[derive(Drop)]
pub struct FileCalls {
    file: File,
    faults: CallFaults,
    opening: Opening,
}

impl FileCalls {
    ghost use Rattle.media_file.specs.Counted.{no_faults};

    /// Opens the file at `path` and locks it. If there is none and a byte at least is asked for, one is made. If there is none and `least`
    /// is 0, the answer is None. An empty file that is to get bytes may have been made just now: it is durable in its folder before
    /// this returns.
    ///
    /// Fails if the system refuses one of these calls, if the folder is missing, if another program holds the lock, or if there is no
    /// memory for the path of the folder. The file is then as it was, or an empty one that was made here.
    pub fn open<R: AllocGlobal + Files<File = File>>(
        rt: &R,
        path: &str,
        least: u64,
    ) -> Result<Option<FileCalls>, Failed>
        ensures there { 1 ≤ least → IfOk result IsSome }
        ensures anew { IfOk result (λ found. IfSome found (λ file. file.faults ≡ no_faults)) }
        ensures opened { IfOk result (λ found. IfSome found (λ file. IsOpenedFor least file.opening)) }
    {
        let mut opening = Opening::new();
        match open_or_make(rt, path, least, &mut opening) {
            Ok(Some(file)) => Ok(Some(FileCalls {
                file,
                faults: CallFaults::new(),
                opening,
            })),
            Ok(None) => Ok(None),
            Err(_) => Err(Failed),
        }
    }
}

// The file, locked. Nothing of it is changed before the lock is held.
fn open_or_make<R: AllocGlobal + Files<File = File>>(
    rt: &R,
    path: &str,
    least: u64,
    opening: &mut Opening,
) -> io::Result<Option<File>>
    requires { opening.old ≡ anew }
    ensures there { 1 ≤ least → IfOk result IsSome }
    ensures none_made { least ≡ 0 → opening.new.made ≡ opening.old.made }
    ensures opened { IfOk result (λ found. IfSome found (λ file. IsOpenedFor least opening.new)) }
{
    let file = match find_file(rt, path)? {
        Some(file) => file,
        None if least == 0 => {
            find_folder(rt, path)?;
            return Ok(None);
        }
        None => opening.make(rt, path)?,
    };
    file.try_lock()?;
    if least > 0 && opening.measure(&file)? == 0 {
        opening.sync_folder(rt, path)?;
    }
    Ok(Some(file))
}

// What an answer of the system says of the call: it was interrupted only where a signal came first.
fn answer_of<T>(answer: io::Result<T>) -> Result<T, CallFault>
    ensures done { IfOk answer (λ value. result ≡ Ok value) }
    ensures interrupted { IfErr answer (λ error. error_kind error ≡ ErrorKind.Interrupted → result ≡ Err CallFault.Interrupted) }
    ensures failed { IfErr answer (λ error. error_kind error ≢ ErrorKind.Interrupted → result ≡ Err CallFault.Failed) }
{
    match answer {
        Ok(value) => Ok(value),
        Err(error) if error.kind() == ErrorKind::Interrupted => Err(CallFault::Interrupted),
        Err(_) => Err(CallFault::Failed),
    }
}

impl Calls for FileCalls {
    ghost use Rattle.std.specs.Prelude.{false, []};
    ghost use Rattle.std.proofs.lemmas.Bool.{false≢true};

    ghost trusted = { false };

    ghost past = { λ _. record { first = record { bytes = []; unsettled = [] }; calls = [] } };

    ghost faults = { λ file. file.faults };

    ghost steady = { λ _ _ _. false };

    ghost honest = { λ file told. absurd (false≢true told) };

    fn len(&mut self, _moment: u64) -> Result<u64, CallFault> {
        self.faults.count(answer_of(end_of(&self.file)))
    }

    fn read_at(&mut self, _moment: u64, at: u64, buf: &mut [u8]) -> Result<usize, CallFault> {
        let answer = answer_of(self.file.read_at(buf, at));
        self.faults.count_part(buf.len(), answer)
    }

    fn write_at(&mut self, _moment: u64, at: u64, bytes: &[u8]) -> Result<usize, CallFault> {
        let answer = answer_of(self.file.write_at(bytes, at));
        self.faults.count_part(bytes.len(), answer)
    }

    fn set_len(&mut self, _moment: u64, len: u64) -> Result<(), CallFault> {
        self.faults.count(answer_of(self.file.set_len(len)))
    }

    // A later read needs the bytes and the length of the file, and `sync_data` makes both durable. It leaves out what nobody
    // reads, such as the time of the last access.
    fn sync_data(&mut self, _moment: u64) -> Result<(), CallFault> {
        self.faults.count(answer_of(self.file.sync_data()))
    }
}

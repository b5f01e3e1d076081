// How a file of the system is opened at its path.
ghost use Rattle.std.specs.Prelude.{◌≡◌, true, IfOk, OnOk};

use std::fs::{File, OpenOptions};
use std::io::{ErrorKind, Seek, SeekFrom};
use std::path::Path;
use std::rt::Files;
use std::{fs, io};

/// What was done at a path to open the file there.
#[derive(Clone, Copy, Debug, PartialEq, Eq)]
pub struct Opening {
    /// There was no file, and an empty one was made.
    pub made: bool,
    /// The length in bytes that the file was seen to have, or 0.
    pub len: u64,
    /// The folder was synced: a loss of power leaves the file there.
    pub in_folder: bool,
}

impl Opening {
    ghost use Rattle.media_file.specs.Opened.{anew};

    /// Nothing yet.
    pub(crate) fn new() -> Opening
        ensures { result ≡ anew }
    {
        Opening {
            made: false,
            len: 0,
            in_folder: false,
        }
    }

    /// Makes an empty file at this path.
    pub(crate) fn make<R: Files<File = File>>(&mut self, rt: &R, path: &str) -> io::Result<File>
        ensures { self.new ≡ record self.old { made = true } }
    {
        self.made = true;
        options().create(true).open(rt, path)
    }

    /// The length of the file in bytes.
    pub(crate) fn measure(&mut self, file: &File) -> io::Result<u64>
        ensures len { IfOk result (λ len. self.new ≡ record self.old { len = len }) }
    {
        self.len = end_of(file)?;
        Ok(self.len)
    }

    /// Syncs the folder in which the file lies, also if the path leads there by a link.
    pub(crate) fn sync_folder<R: AllocGlobal + Files<File = File>>(
        &mut self,
        rt: &R,
        path: &str,
    ) -> io::Result<()>
        ensures { OnOk result (self.new ≡ record self.old { in_folder = true }) }
    {
        let whole = Path::new(path).canonicalize(rt)?;
        File::open(rt, folder_of(whole.as_path()))?.sync_all()?;
        self.in_folder = true;
        Ok(())
    }
}

/// The file at this path, if there is one.
pub(crate) fn find_file<R: Files<File = File>>(rt: &R, path: &str) -> io::Result<Option<File>> {
    match options().open(rt, path) {
        Ok(file) => Ok(Some(file)),
        Err(error) if error.kind() == ErrorKind::NotFound => Ok(None),
        Err(error) => Err(error),
    }
}

/// Fails if the folder of this path is not there.
pub(crate) fn find_folder<R: Files<File = File>>(rt: &R, path: &str) -> io::Result<()> {
    fs::metadata(rt, folder_of(Path::new(path)))?;
    Ok(())
}

/// The length in bytes: where the file ends, since a block device does not tell its length otherwise.
pub(crate) fn end_of(file: &File) -> io::Result<u64> {
    let mut file = file;
    file.seek(SeekFrom::End(0))
}

fn options() -> OpenOptions {
    let mut options = OpenOptions::new();
    options.read(true).write(true);
    options
}

fn folder_of(path: Path<'_>) -> Path<'_> {
    match path.parent() {
        Some(folder) if !folder.as_str().is_empty() => folder,
        _ => Path::new("."),
    }
}

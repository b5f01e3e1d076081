// Which image the command line names.
ghost use Rattle.std.specs.Prelude.{◌≡◌, ◌⊎◌, ℕ, List, map, string_bytes, IfOk, IfErr};
ghost use Rattle.mars.specs.Choice.{IsCommand, IsImage};

use command_words::{WordsFault, read_words};
use mars_shell::{Status, room};
use std::alloc::Global;

/// The image of a run.
#[derive(Clone, Copy)]
pub enum Image<'a> {
    /// A fresh array in memory, which is lost at the end.
    Memory,
    /// The file at this path, of at least `least` bytes. If `least` is 0, a missing file is not created.
    File { path: &'a str, least: u64 },
}

/// The image that the words of a command line name, and the words after it. The first word is the program's own. No file has been touched
/// yet.
pub fn choose<'a>(alloc: Global, line: &'a [String]) -> Result<(Image<'a>, &'a [String]), Status>
    ensures chosen { IfOk result (λ chosen. (name : List ℕ) × IsCommand (map string_bytes line.entry.now) name (map string_bytes chosen.1.now)
        × IsImage name (map string_bytes chosen.1.now) chosen.0) }
    ensures refused { IfErr result (λ status. (status ≡ Status.NoMemory)
        ⊎ ((status ≡ Status.Usage) × ((name : List ℕ) (words : List (List ℕ)) → IsCommand (map string_bytes line.entry.now) name words → ⊥))) }
{
    let [_, name, words @ ..] = line else {
        return Err(Status::Usage);
    };
    match read_words(alloc, words) {
        Ok(_) => {}
        Err(WordsFault::NoCommand) => return Err(Status::Usage),
        Err(WordsFault::NoMemory) => return Err(Status::NoMemory),
    }
    let image = image_of(alloc, name, words)?;
    Ok((image, words))
}

// The image of this name for these words.
fn image_of<'a>(alloc: Global, name: &'a str, words: &[String]) -> Result<Image<'a>, Status>
    ensures image { IfOk result (IsImage name.entry.now (map string_bytes words.now)) }
    ensures refused { IfErr result (λ status. status ≡ Status.NoMemory) }
{
    if name == "-" {
        return Ok(Image::Memory);
    }
    match room(alloc, words) {
        Ok(least) => Ok(Image::File { path: name, least }),
        Err(_) => Err(Status::NoMemory),
    }
}

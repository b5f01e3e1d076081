ghost use Rattle.std.specs.Prelude.{◌≡◌, [], map, string_bytes, IfOk, IfErr, true};
ghost use Rattle.clap.specs.Words.{app_of, fault_of, HasMatchesOf, is_simple_and_free};

use clap::error::ErrorKind;
use clap::{ArgMatches, Command};
use thiserror::Error;

/// Why words could not be read.
#[derive(Clone, Copy, Debug, PartialEq, Eq, Error)]
pub enum WordsFault {
    /// They ask for nothing that the program does.
    #[error("usage")]
    NoCommand,
    #[error("no memory")]
    NoMemory,
}

// What a command line, whose arguments have no rule on each other, finds in the words.
pub(crate) fn matched<'a>(
    command: Command<'a>,
    words: &'a [String],
) -> Result<ArgMatches<'a>, WordsFault>
    ensures matches { IfOk result (HasMatchesOf (app_of command.entry) (map string_bytes words.entry.now)) }
    ensures taken { IfOk result (λ _. is_simple_and_free (app_of command.entry) ≡ true → fault_of (app_of command.entry) (map string_bytes words.entry.now) ≡ []) }
    ensures refused { IfErr result (λ fault. fault ≡ WordsFault.NoCommand
        → is_simple_and_free (app_of command.entry) ≡ true → fault_of (app_of command.entry) (map string_bytes words.entry.now) ≡ [] → ⊥) }
{
    match command.try_get_matches_from(words) {
        Ok(matches) => Ok(matches),
        Err(error) if error.kind() == ErrorKind::OutOfMemory => Err(WordsFault::NoMemory),
        Err(_) => Err(WordsFault::NoCommand),
    }
}

// The words of the program that restores.
ghost use Rattle.std.specs.Prelude.{◌≡◌, [], ℕ, List, Bool, Option, map, codes, string_bytes, MatchOption, IfOk, IfErr, false};
ghost use Rattle.clap.specs.Words.{app_of, found_of, rows_of, first_of, new_rule};
ghost use Rattle.clap.specs.declared.builder.Command.TheViews.{out-Command};
ghost use Rattle.command_words.specs.Restore.{AsksToRestore, GivesNumbersTo, GivesRestore, IsSaid, bare_line, restore_line};

use crate::command_line::{flag, option};
use crate::fault::{WordsFault, matched};
use crate::number::read_within;
use crate::restore_numbers::RestoreNumbers;
use crate::words::{SHORT_MOST, number_of, read_flag};
use array_shape::Shape;
use clap::{Arg, ArgMatches, Command};
use std::alloc::{AllocError, Global};

/// What an array is to be restored to.
#[derive(Clone, Copy, Debug, PartialEq, Eq)]
pub struct RestoreWords<'a> {
    /// The path of the image.
    pub image: &'a str,
    pub numbers: RestoreNumbers,
    /// Whether an array that is there may be replaced.
    pub replace: bool,
}

const FILL_LEAST: u32 = 15;

const FILL_MOST: u32 = 30;

const FILL_DEFAULT: u32 = 24;

/// Reads the words behind the program's name: the path of the image, and the options `loggers`, `numbers`, `entries`, `pages`, `fill` and
/// `replace`, each at most once.
pub fn read_restore_words<'a>(
    alloc: Global,
    words: &'a [String],
) -> Result<RestoreWords<'a>, WordsFault>
    ensures asked { IfOk result (λ asked. AsksToRestore (map string_bytes words.entry.now) asked.image.now asked.numbers asked.replace) }
    ensures refused { IfErr result (λ fault. fault ≡ WordsFault.NoCommand
        → (image : List ℕ) (numbers : _) (replace : Bool) → AsksToRestore (map string_bytes words.entry.now) image numbers replace → ⊥) }
{
    let Ok(command) = restore_line(alloc) else {
        return Err(WordsFault::NoMemory);
    };
    let matches = matched(command, words)?;
    match asked(&matches) {
        Some(asked) => Ok(asked),
        None => Err(WordsFault::NoCommand),
    }
}

// The image and its options.
fn restore_line<'a>(alloc: Global) -> Result<Command<'a>, AllocError>
    ensures { IfOk result (λ command. app_of command ≡ restore_line) }
{
    let words = vec![in alloc;
        Arg::new(alloc, "image"),
        option(alloc, "loggers"),
        option(alloc, "numbers"),
        option(alloc, "entries"),
        option(alloc, "pages"),
        option(alloc, "fill"),
        flag(alloc, "replace"),
    ]?;
    bare_line(alloc).args(words)
}

fn bare_line<'a>(alloc: Global) -> Command<'a>
    ensures app { app_of result ≡ bare_line }
    ensures local { (out-Command result).has_globals ≡ false }
{
    Command::new(alloc, "restore")
        .no_binary_name(true)
        .disable_help_flag(true)
}

// What the words ask for.
fn asked<'a>(matches: &ArgMatches<'a>) -> Option<RestoreWords<'a>>
    ensures { MatchOption result
        ((image : List ℕ) (numbers : _) (replace : Bool) → GivesRestore (rows_of (found_of matches.now)) image numbers replace → ⊥)
        (λ asked. GivesRestore (rows_of (found_of matches.now)) asked.image.now asked.numbers asked.replace) }
{
    let image = matches.get_str("image")?;
    let numbers = read_numbers(matches)?;
    let replace = read_flag(matches, "replace");
    Some(RestoreWords {
        image,
        numbers,
        replace,
    })
}

fn read_numbers(matches: &ArgMatches<'_>) -> Option<RestoreNumbers>
    ensures { MatchOption result ((numbers : _) → GivesNumbersTo (rows_of (found_of matches.now)) numbers → ⊥) (GivesNumbersTo (rows_of (found_of matches.now))) }
{
    let default = Shape::default();
    let loggers = said(matches, "loggers")?;
    let numbers = number_of(
        matches,
        "numbers",
        0,
        SHORT_MOST,
        Some(u32::from(default.numbers)),
    )?;
    let entries = number_of(
        matches,
        "entries",
        0,
        SHORT_MOST,
        Some(u32::from(default.entries)),
    )?;
    let pages = said(matches, "pages")?;
    let fill = number_of(matches, "fill", FILL_LEAST, FILL_MOST, Some(FILL_DEFAULT))?;
    Some(RestoreNumbers {
        loggers,
        numbers: numbers as u16,
        entries: entries as u16,
        pages,
        fill: fill as u8,
    })
}

// The number that an option says, if it is given.
fn said(matches: &ArgMatches<'_>, name: &str) -> Option<Option<u16>>
    ensures { MatchOption result ((n : Option ℕ) → IsSaid (first_of name.now (rows_of (found_of matches.now))) n → ⊥)
        (IsSaid (first_of name.now (rows_of (found_of matches.now)))) }
{
    match matches.get_str(name) {
        Some(value) => {
            let n = read_within(value, 0, SHORT_MOST)?;
            Some(Some(n as u16))
        }
        None => Some(None),
    }
}

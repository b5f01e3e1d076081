ghost use Rattle.std.specs.Prelude.{◌≡◌, ◌<◌, ◌≤◌, ◌↔◌, IsTrue, ℕ, List, Some, map, codes, string_bytes, MatchOption, IfOk, IfErr};
ghost use Rattle.clap.specs.Words.{Text, Row, found_of, rows_of, first_of, subcommand_rows_of};
ghost use Rattle.command_words.specs.Asked.{AsksFor, AskForNothing, SubcommandAsks, GivesNumbers, GivesCallers, GivesWriting, IsNumber, is_given};
ghost use Rattle.command_words.specs.declared.words.Words.TheVariants.{Drill, Make};

use crate::command_line::command_line;
use crate::fault::{WordsFault, matched};
use crate::number::read_within;
use array_shape::Shape;
use clap::ArgMatches;
use record_slots::Name;
use std::alloc::Global;

/// What the words ask for.
#[derive(Clone, Copy, Debug, PartialEq, Eq)]
pub enum Words {
    /// To answer the lines of callers by turns.
    Run(RunOptions),
    /// To make callers' transactions on threads, and to write what came of them.
    Callers(CallersNumbers),
    /// To answer raw commands.
    Eaw(EawOptions),
    /// To write the records.
    Dump,
    /// To run a drawn script, and to write a summary.
    Drill(DrillNumbers),
    /// To make an array of these numbers, whatever was there before.
    Format(FormatNumbers),
    /// To make a table of this name.
    Make(Name),
    /// Takes keys without records out of the index of the records.
    Purge,
    /// To apply frames that lines say.
    Follow,
}

/// How callers by turns are answered.
#[derive(Clone, Copy, Debug, PartialEq, Eq)]
pub struct RunOptions {
    pub writing: Writing,
    /// Whether the frames that the calls send are written too.
    pub frames: bool,
}

/// How raw commands are answered.
#[derive(Clone, Copy, Debug, PartialEq, Eq)]
pub struct EawOptions {
    /// Whether the frames that they send are written too.
    pub frames: bool,
}

/// When the data of a commit is written to its place.
#[derive(Clone, Copy, Debug, PartialEq, Eq)]
pub enum Writing {
    /// Before the commit is answered.
    AtOnce,
    /// Later. At most so many commits wait for it, 1 to 64.
    Late(u8),
}

/// The numbers of an array as they are asked for, whether in range or not.
#[derive(Clone, Copy, Debug, PartialEq, Eq)]
pub struct FormatNumbers {
    /// Loggers.
    pub loggers: u16,
    /// Transaction numbers.
    pub numbers: u16,
    /// Log entries per transaction number and logger.
    pub entries: u16,
    /// Pages of 512 bytes per logger.
    pub pages: u16,
}

/// What a script is drawn from.
#[derive(Clone, Copy, Debug, PartialEq, Eq)]
pub struct DrillNumbers {
    /// The seed, below 2^31.
    pub seed: u32,
    /// Transactions, 1 to 100,000.
    pub count: u32,
    pub writing: Writing,
}

/// How many callers work on threads, how often they try, and how many readers are beside them.
#[derive(Clone, Copy, Debug, PartialEq, Eq)]
pub struct CallersNumbers {
    /// Callers, 1 to 32.
    pub callers: u8,
    /// How often a transaction that finds a key locked is tried, 1 to 1,000,000.
    pub tries: u32,
    pub writing: Writing,
    /// Readers, at most 8. If there are some, there are at most 31 callers.
    pub readers: u8,
}

pub(crate) const SHORT_MOST: u32 = 65_535;

const SEED_MOST: u32 = 2_147_483_647;

const COUNT_MOST: u32 = 100_000;

const CALLERS_MOST: u32 = 32;

const CALLERS_MOST_BESIDE: u32 = 31;

const READERS_MOST: u32 = 8;

const TRIES_MOST: u32 = 1_000_000;

const TRIES_DEFAULT: u32 = 100;

const DEPTH_MOST: u32 = 64;

/// Reads the words after the image's: `run`, `eaw`, `dump`, `purge`, `follow`, `make` with the name of a table, `callers` with a number and
/// the options `tries` and `readers`, `drill` with a seed and a count, or `format` with its options in any order. `run`, `callers` and
/// `drill` have the option `late` too, and `run` and `eaw` have `frames`. Each option is given at most once.
pub fn read_words(alloc: Global, words: &[String]) -> Result<Words, WordsFault>
    ensures asked { IfOk result (AsksFor (map string_bytes words.now)) }
    ensures refused { IfErr result (λ fault. fault ≡ WordsFault.NoCommand → AskForNothing (map string_bytes words.now)) }
{
    let Ok(command) = command_line(alloc) else {
        return Err(WordsFault::NoMemory);
    };
    let matches = matched(command, words)?;
    match asked(&matches) {
        Some(asked) => Ok(asked),
        None => Err(WordsFault::NoCommand),
    }
}

// What the subcommand asks for.
fn asked(matches: &ArgMatches<'_>) -> Option<Words>
    ensures { MatchOption result
        ((name : Text) (options : List Row) (asked : Words) → subcommand_rows_of matches.now ≡ Some (name, options) → SubcommandAsks name options asked → ⊥)
        (λ asked. (name : Text) × (options : List Row) × (subcommand_rows_of matches.now ≡ Some (name, options)) × SubcommandAsks name options asked) }
{
    let (name, options) = matches.subcommand()?;
    match name {
        "run" => {
            let writing = read_writing(options)?;
            let frames = read_flag(options, "frames");
            Some(Words::Run(RunOptions { writing, frames }))
        }
        "callers" => {
            let numbers = read_callers(options)?;
            Some(Words::Callers(numbers))
        }
        "eaw" => {
            let frames = read_flag(options, "frames");
            Some(Words::Eaw(EawOptions { frames }))
        }
        "dump" => Some(Words::Dump),
        "drill" => {
            let numbers = read_drill(options)?;
            Some(Words::Drill(numbers))
        }
        "format" => {
            let numbers = read_numbers(options)?;
            Some(Words::Format(numbers))
        }
        "make" => {
            let table = read_name(options)?;
            Some(Words::Make(table))
        }
        "purge" => Some(Words::Purge),
        "follow" => Some(Words::Follow),
        _ => None,
    }
}

// The numbers of `format`.
fn read_numbers(options: &ArgMatches<'_>) -> Option<FormatNumbers>
    ensures { MatchOption result ((numbers : FormatNumbers) → GivesNumbers (rows_of (found_of options.now)) numbers → ⊥)
        (GivesNumbers (rows_of (found_of options.now))) }
{
    let default = Shape::default();
    let loggers = short_or(options, "loggers", u16::from(default.loggers))?;
    let numbers = short_or(options, "numbers", u16::from(default.numbers))?;
    let entries = short_or(options, "entries", default.entries)?;
    let pages = short_or(options, "pages", default.pages as u16)?;
    Some(FormatNumbers {
        loggers,
        numbers,
        entries,
        pages,
    })
}

// The numbers of `drill`.
fn read_drill(values: &ArgMatches<'_>) -> Option<DrillNumbers>
    ensures { MatchOption result ((numbers : DrillNumbers) → SubcommandAsks (codes "drill") (rows_of (found_of values.now)) (Drill numbers) → ⊥)
        (λ numbers. SubcommandAsks (codes "drill") (rows_of (found_of values.now)) (Drill numbers)) }
{
    let seed = number_of(values, "seed", 0, SEED_MOST, None)?;
    let count = number_of(values, "count", 1, COUNT_MOST, None)?;
    let writing = read_writing(values)?;
    Some(DrillNumbers {
        seed,
        count,
        writing,
    })
}

// The numbers of `callers`.
fn read_callers(options: &ArgMatches<'_>) -> Option<CallersNumbers>
    ensures { MatchOption result ((numbers : CallersNumbers) → GivesCallers (rows_of (found_of options.now)) numbers → ⊥)
        (GivesCallers (rows_of (found_of options.now))) }
{
    let callers = number_of(options, "callers", 1, CALLERS_MOST, None)?;
    let tries = number_of(options, "tries", 1, TRIES_MOST, Some(TRIES_DEFAULT))?;
    let writing = read_writing(options)?;
    let readers = number_of(options, "readers", 1, READERS_MOST, Some(0))?;
    if !has_room(callers, readers) {
        return None;
    }
    Some(CallersNumbers {
        callers: callers as u8,
        tries,
        writing,
        readers: readers as u8,
    })
}

// Whether so many callers leave room for so many readers. What readers read takes the place of one caller.
fn has_room(callers: u32, readers: u32) -> bool
    ensures { IsTrue result ↔ (0 < readers → callers ≤ 31) }
{
    readers == 0 || callers <= CALLERS_MOST_BESIDE
}

// The name of a table that the word of `make` is.
fn read_name(values: &ArgMatches<'_>) -> Option<Name>
    ensures { MatchOption result ((table : List ℕ) → SubcommandAsks (codes "make") (rows_of (found_of values.now)) (Make table) → ⊥)
        (λ table. SubcommandAsks (codes "make") (rows_of (found_of values.now)) (Make table)) }
{
    let word = values.get_str("name")?;
    Name::of(word.as_bytes())
}

// When data is written, by the option `late`.
fn read_writing(options: &ArgMatches<'_>) -> Option<Writing>
    ensures { MatchOption result ((writing : Writing) → GivesWriting (first_of (codes "late") (rows_of (found_of options.now))) writing → ⊥)
        (GivesWriting (first_of (codes "late") (rows_of (found_of options.now)))) }
{
    if options.get_str("late").is_none() {
        return Some(Writing::AtOnce);
    }
    let depth = number_of(options, "late", 1, DEPTH_MOST, None)?;
    Some(Writing::Late(depth as u8))
}

// Whether an option without a value is given.
pub(crate) fn read_flag(options: &ArgMatches<'_>, name: &str) -> bool
    ensures { result ≡ is_given (first_of name.now (rows_of (found_of options.now))) }
{
    match options.get_str(name) {
        Some(value) => value == "true",
        None => false,
    }
}

// The number of an option of `format`, or the default if it is not given.
fn short_or(options: &ArgMatches<'_>, name: &str, default: u16) -> Option<u16>
    ensures { MatchOption result ((n : ℕ) → IsNumber 0 65535 (Some default) (first_of name.now (rows_of (found_of options.now))) n → ⊥)
        (IsNumber 0 65535 (Some default) (first_of name.now (rows_of (found_of options.now)))) }
{
    let number = number_of(options, name, 0, SHORT_MOST, Some(u32::from(default)))?;
    Some(number as u16)
}

// The number of a value, from `least` to `most`. If the value is missing, the default, if there is one.
pub(crate) fn number_of(
    values: &ArgMatches<'_>,
    name: &str,
    least: u32,
    most: u32,
    default: Option<u32>,
) -> Option<u32>
    ensures { MatchOption result ((n : ℕ) → IsNumber least most default (first_of name.now (rows_of (found_of values.now))) n → ⊥)
        (IsNumber least most default (first_of name.now (rows_of (found_of values.now)))) }
{
    match values.get_str(name) {
        Some(value) => read_within(value, least, most),
        None => default,
    }
}

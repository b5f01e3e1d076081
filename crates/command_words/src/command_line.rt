// The command line as clap reads it.
ghost use Rattle.std.specs.Prelude.{◌≡◌, [], ◌∷◌, IfOk, false, map, codes};
ghost use Rattle.clap.specs.Words.{app_of, shape_of, rule_of, new_rule};
ghost use Rattle.clap.specs.declared.builder.Command.TheViews.{out-Command};
ghost use Rattle.command_words.specs.CommandLine.{command_line, no_commands, subcommand, option_of, flag_of};

use clap::{Arg, ArgAction, Command};
use std::alloc::{AllocError, Global};

/// The commands and their options. There is no help: whatever is wrong is reported in one word.
pub fn command_line<'a>(alloc: Global) -> Result<Command<'a>, AllocError>
    ensures { IfOk result (λ command. app_of command ≡ command_line) }
{
    let commands = [
        run_command(alloc),
        eaw_command(alloc),
        Ok(Command::new(alloc, "dump")),
        format_command(alloc),
        drill_command(alloc),
        callers_command(alloc),
        make_command(alloc),
        Ok(Command::new(alloc, "purge")),
        Ok(Command::new(alloc, "follow")),
    ];
    let mut line = no_commands(alloc);
    for command in commands {
        line = line.subcommand(command?)?;
    }
    Ok(line)
}

fn no_commands<'a>(alloc: Global) -> Command<'a>
    ensures { app_of result ≡ no_commands }
{
    Command::new(alloc, "mars")
        .no_binary_name(true)
        .disable_help_flag(true)
        .disable_help_subcommand(true)
        .subcommand_required(true)
}

fn run_command<'a>(alloc: Global) -> Result<Command<'a>, AllocError>
    ensures shape { IfOk result (λ command. shape_of command ≡ subcommand (codes "run") (option_of (codes "late") ∷ flag_of (codes "frames") ∷ [])) }
    ensures local { IfOk result (λ command. (out-Command command).has_globals ≡ false) }
{
    let options = vec![in alloc; option(alloc, "late"), flag(alloc, "frames")]?;
    Command::new(alloc, "run").args(options)
}

fn eaw_command<'a>(alloc: Global) -> Result<Command<'a>, AllocError>
    ensures shape { IfOk result (λ command. shape_of command ≡ subcommand (codes "eaw") (flag_of (codes "frames") ∷ [])) }
    ensures local { IfOk result (λ command. (out-Command command).has_globals ≡ false) }
{
    Command::new(alloc, "eaw").arg(flag(alloc, "frames"))
}

fn format_command<'a>(alloc: Global) -> Result<Command<'a>, AllocError>
    ensures shape { IfOk result (λ command. shape_of command ≡ subcommand (codes "format") (map option_of (codes "loggers" ∷ codes "numbers" ∷ codes "entries" ∷ codes "pages" ∷ []))) }
    ensures local { IfOk result (λ command. (out-Command command).has_globals ≡ false) }
{
    let options = vec![in alloc;
        option(alloc, "loggers"),
        option(alloc, "numbers"),
        option(alloc, "entries"),
        option(alloc, "pages"),
    ]?;
    Command::new(alloc, "format").args(options)
}

fn drill_command<'a>(alloc: Global) -> Result<Command<'a>, AllocError>
    ensures shape { IfOk result (λ command. shape_of command ≡ subcommand (codes "drill") (new_rule (codes "seed") ∷ new_rule (codes "count") ∷ option_of (codes "late") ∷ [])) }
    ensures local { IfOk result (λ command. (out-Command command).has_globals ≡ false) }
{
    let words = vec![in alloc;
        Arg::new(alloc, "seed"),
        Arg::new(alloc, "count"),
        option(alloc, "late"),
    ]?;
    Command::new(alloc, "drill").args(words)
}

fn callers_command<'a>(alloc: Global) -> Result<Command<'a>, AllocError>
    ensures shape { IfOk result (λ command. shape_of command ≡ subcommand (codes "callers") (new_rule (codes "callers") ∷ option_of (codes "tries") ∷ option_of (codes "late") ∷ option_of (codes "readers") ∷ [])) }
    ensures local { IfOk result (λ command. (out-Command command).has_globals ≡ false) }
{
    let words = vec![in alloc;
        Arg::new(alloc, "callers"),
        option(alloc, "tries"),
        option(alloc, "late"),
        option(alloc, "readers"),
    ]?;
    Command::new(alloc, "callers").args(words)
}

fn make_command<'a>(alloc: Global) -> Result<Command<'a>, AllocError>
    ensures shape { IfOk result (λ command. shape_of command ≡ subcommand (codes "make") (new_rule (codes "name") ∷ [])) }
    ensures local { IfOk result (λ command. (out-Command command).has_globals ≡ false) }
{
    Command::new(alloc, "make").arg(Arg::new(alloc, "name"))
}

// An option with one value.
pub fn option<'a>(alloc: Global, name: &'a str) -> Arg<'a>
    ensures rule { rule_of result ≡ option_of name.entry.now }
    ensures local { result.global ≡ false }
{
    Arg::new(alloc, name).long(name)
}

// An option without a value.
pub fn flag<'a>(alloc: Global, name: &'a str) -> Arg<'a>
    ensures rule { rule_of result ≡ flag_of name.entry.now }
    ensures local { result.global ≡ false }
{
    option(alloc, name).action(ArgAction::SetTrue)
}

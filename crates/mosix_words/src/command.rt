// The command: five options of one value, two flags and one required word.
ghost use Rattle.std.specs.Prelude.{◌≡◌, IfOk, map, List, ℕ};
ghost use Rattle.clap.specs.Words.{HasMatchesOf, FailsBy, fault_of, app_of, with_rule};
ghost use Rattle.mosix_words.specs.Command.{the_app, start_app, option_rule, flag_rule, mode_rule};

use clap::{Arg, ArgAction, ArgMatches, Command, Error};
use std::alloc::{AllocError, Global};

/// One more option of one value.
fn with_option<'a>(
    alloc: Global,
    command: Command<'a>,
    name: &'a str,
) -> Result<Command<'a>, AllocError>
    ensures { IfOk result (λ c. app_of c ≡ with_rule (app_of command.entry) (option_rule name.entry.now)) }
{
    command.arg(Arg::new(alloc, name).long(name).action(ArgAction::Set))
}

/// One more flag.
fn with_flag<'a>(
    alloc: Global,
    command: Command<'a>,
    name: &'a str,
) -> Result<Command<'a>, AllocError>
    ensures { IfOk result (λ c. app_of c ≡ with_rule (app_of command.entry) (flag_rule name.entry.now)) }
{
    command.arg(Arg::new(alloc, name).long(name).action(ArgAction::SetTrue))
}

/// The required word.
fn with_mode<'a>(alloc: Global, command: Command<'a>) -> Result<Command<'a>, AllocError>
    ensures { IfOk result (λ c. app_of c ≡ with_rule (app_of command.entry) mode_rule) }
{
    command.arg(
        Arg::new(alloc, "mode")
            .required(true)
            .action(ArgAction::Set),
    )
}

fn start<'a>(alloc: Global) -> Command<'a>
    ensures { app_of result ≡ start_app }
{
    Command::new(alloc, "mosixsim")
        .no_binary_name(true)
        .disable_help_flag(true)
        .disable_version_flag(true)
}

fn command<'a>(alloc: Global) -> Result<Command<'a>, AllocError>
    ensures { IfOk result (λ c. app_of c ≡ the_app) }
{
    let command = start(alloc);
    let command = with_option(alloc, command, "nodes")?;
    let command = with_option(alloc, command, "pages")?;
    let command = with_option(alloc, command, "quantum")?;
    let command = with_option(alloc, command, "journal")?;
    let command = with_option(alloc, command, "seed")?;
    let command = with_flag(alloc, command, "serial")?;
    let command = with_flag(alloc, command, "events")?;
    let command = with_mode(alloc, command)?;
    Ok(command)
}

/// The matches of the program's words.
pub fn parse<'a>(alloc: Global, words: &'a [&'a str]) -> Result<ArgMatches<'a>, Error>
    ensures ok { IfOk result (λ m. HasMatchesOf the_app (map (λ w. w.now) words.now) m) }
    ensures exact { FailsBy (fault_of the_app (map (λ w. w.now) words.now)) result }
{
    let command = command(alloc)?;
    command.try_get_matches_from(words)
}

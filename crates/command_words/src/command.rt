ghost use Rattle.std.specs.Prelude.{◌≡◌, false, codes, IfOk};
ghost use Rattle.clap.specs.Simple.{app_of, new_app, on_top, with_subcommand};
ghost use Rattle.clap.specs.declared.builder.command.Command.TheViews.{out-Command as fields_of};
ghost use Rattle.command_words.specs.App.{first_app, named_app, netd_app, plain_shape, run_app};

use crate::form::ALL_WORDLESS;
use clap::{Arg, Command};
use std::alloc::{AllocError, Global};

fn run_command<'a>(alloc: Global) -> Result<Command<'a>, AllocError>
    ensures app { IfOk result (λ command. app_of command ≡ run_app) }
    ensures local { IfOk result (λ command. (fields_of command).has_globals ≡ false) }
{
    let refuse = Arg::new(alloc, "refuse").long("refuse");
    let breaks = Arg::new(alloc, "break").long("break");
    Command::new(alloc, "run").arg(refuse)?.arg(breaks)
}

/// The most words after the name of a subcommand that isn't `run`.
const MOST_WORDS: usize = 4;

/// A subcommand of which `clap` hands the words on as they are.
fn named_command<'a>(alloc: Global, name: &'a str) -> Result<Command<'a>, AllocError>
    ensures app { IfOk result (λ command. app_of command ≡ named_app name.entry.now) }
    ensures local { IfOk result (λ command. (fields_of command).has_globals ≡ false) }
{
    let words = Arg::new(alloc, "words").num_args(0..=MOST_WORDS);
    Command::new(alloc, name).arg(words)
}

/// The command line before it has subcommands.
fn plain_command<'a>(alloc: Global) -> Command<'a>
    ensures { app_of result ≡ on_top plain_shape (new_app (codes "netd_run")) }
{
    Command::new(alloc, "netd_run")
        .no_binary_name(true)
        .disable_help_flag(true)
        .disable_version_flag(true)
        .disable_help_subcommand(true)
        .subcommand_required(true)
}

/// The command with a subcommand of this name too.
fn with_named<'a>(
    alloc: Global,
    command: Command<'a>,
    name: &'a str,
) -> Result<Command<'a>, AllocError>
    ensures { IfOk result (λ more.
        app_of more ≡ with_subcommand (app_of command.entry) (named_app name.entry.now).top) }
{
    command.subcommand(named_command(alloc, name)?)
}

/// The command line with the forms that have words of their own.
fn first_command<'a>(alloc: Global) -> Result<Command<'a>, AllocError>
    ensures { IfOk result (λ command. app_of command ≡ first_app) }
{
    let run = run_command(alloc)?;
    with_named(alloc, plain_command(alloc).subcommand(run)?, "soak")
}

/// The command line, with a subcommand for each form.
pub fn netd_command<'a>(alloc: Global) -> Result<Command<'a>, AllocError>
    ensures { IfOk result (λ command. app_of command ≡ netd_app) }
{
    let mut command = first_command(alloc)?;
    for form in ALL_WORDLESS {
        command = with_named(alloc, command, form.name())?;
    }
    Ok(command)
}

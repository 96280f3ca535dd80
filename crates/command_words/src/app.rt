//! The command line as `clap` sees it.
ghost use Rattle.clap.specs.Words.{app_of, with_subcommand};
ghost use Rattle.clap.specs.declared.builder.command.Command.TheViews.{out-Command};
ghost use Rattle.command_words.specs.inside.Apps.{folder_app, program_app, top_app, with_folders};
ghost use Rattle.std.specs.Prelude.{◌≡◌, false, IfOk};

use clap::{Arg, Command};
use std::alloc::{AllocError, Global};

// The subcommand of a name, which takes a folder.
fn folder_command<'a>(alloc: Global, name: &'a str) -> Result<Command<'a>, AllocError>
    ensures shape { IfOk result (λ c. app_of c ≡ folder_app name.entry.now) }
    ensures local { IfOk result (λ c. (out-Command c).has_globals ≡ false) }
{
    let folder = Arg::new(alloc, "DIR").required(true);
    Command::new(alloc, name).arg(folder)
}

// A command with one more subcommand.
fn with_folder<'a>(
    alloc: Global,
    parent: Command<'a>,
    name: &'a str,
) -> Result<Command<'a>, AllocError>
    ensures { IfOk result (λ c. app_of c ≡ with_subcommand (app_of parent.entry) (folder_app name.entry.now).top) }
{
    match folder_command(alloc, name) {
        Ok(folder) => parent.subcommand(folder),
        Err(error) => Err(refused(error, parent)),
    }
}

// The refusal of a command of which a part was made, which is let go here.
fn refused<T: Drop>(error: AllocError, _made: T) -> AllocError {
    error
}

// A command with one more subcommand for each name.
fn with_folders<'a>(
    alloc: Global,
    parent: Command<'a>,
    names: &[&'a str],
) -> Result<Command<'a>, AllocError>
    ensures { IfOk result (λ c. app_of c ≡ with_folders (app_of parent.entry) names.now) }
{
    let mut command = parent;
    for name in names {
        command = with_folder(alloc, command, *name)?;
    }
    Ok(command)
}

// A command that wants one of its subcommands.
fn top_command<'a>(alloc: Global) -> Command<'a>
    ensures { app_of result ≡ top_app }
{
    Command::new(alloc, "ims_fp")
        .no_binary_name(true)
        .disable_help_subcommand(true)
        .subcommand_required(true)
}

/// The command of the program.
pub(crate) fn program_command<'a>(alloc: Global) -> Result<Command<'a>, AllocError>
    ensures { IfOk result (λ c. app_of c ≡ program_app) }
{
    let names = ["define", "run", "show", "log", "migrate", "audit"];
    with_folders(alloc, top_command(alloc), &names)
}

//! The command of `clap` that has the commands and options of the table.
ghost use Rattle.std.specs.Prelude.{◌≡◌, IfOk, false, map};
ghost use Rattle.clap.specs.Words.{app_of, new_app, rule_of, with_rule, with_subcommand};
ghost use Rattle.clap.specs.declared.builder.command.Command.TheViews.{out-Command};
ghost use Rattle.command_words.specs.Clap.{command_row, leaf, name_of, option_rule, program, top, with_commands, with_options};

use crate::table::{COMMANDS, CommandOption, CommandRow};
use clap::{Arg, ArgAction, Command};
use std::alloc::{AllocError, Global};

/// The option of this name, which takes one value.
fn option<'a>(alloc: Global, name: &'a str) -> Arg<'a>
    ensures rule { rule_of result ≡ option_rule name.now }
    ensures local { result.global ≡ false }
{
    Arg::new(alloc, name).long(name).action(ArgAction::Set)
}

/// The command with one option more.
fn with_option<'a>(
    alloc: Global,
    command: Command<'a>,
    name: &'a str,
) -> Result<Command<'a>, AllocError>
    ensures app { IfOk result (λ r. app_of r ≡ with_rule (app_of command.entry) (option_rule name.now)) }
    ensures local { IfOk result (λ r. (out-Command command.entry).has_globals ≡ false → (out-Command r).has_globals ≡ false) }
{
    command.arg(option(alloc, name))
}

/// The name of an option.
fn name_of(option: &CommandOption) -> &'static str
    ensures { result.now ≡ name_of option.now }
{
    match option {
        CommandOption::Number(option) => option.name,
        CommandOption::Gateway(name) => *name,
        CommandOption::Order(name) => *name,
        CommandOption::Check(name) => *name,
    }
}

/// The command with these options more.
fn with_options<'a>(
    alloc: Global,
    command: Command<'a>,
    options: &[CommandOption],
) -> Result<Command<'a>, AllocError>
    ensures app { IfOk result (λ r. app_of r ≡ with_options (app_of command.entry) (map name_of options.now)) }
    ensures local { IfOk result (λ r. (out-Command command.entry).has_globals ≡ false → (out-Command r).has_globals ≡ false) }
{
    let mut command = command;
    for option in options {
        command = with_option(alloc, command, name_of(option))?;
    }
    Ok(command)
}

/// The command of this row.
fn leaf<'a>(alloc: Global, row: &CommandRow) -> Result<Command<'a>, AllocError>
    ensures app { IfOk result (λ r. (app_of r).top ≡ leaf (command_row row.now)) }
    ensures local { IfOk result (λ r. (out-Command r).has_globals ≡ false) }
{
    with_options(alloc, Command::new(alloc, row.name), row.options)
}

/// The program without its commands: it wants one, and offers no help.
fn top<'a>(alloc: Global) -> Command<'a>
    ensures { app_of result ≡ top }
{
    Command::new(alloc, "gvr")
        .no_binary_name(true)
        .disable_help_flag(true)
        .disable_help_subcommand(true)
        .subcommand_required(true)
}

/// The program with one command more.
fn with_command<'a>(
    alloc: Global,
    program: Command<'a>,
    row: &CommandRow,
) -> Result<Command<'a>, AllocError>
    ensures { IfOk result (λ r. app_of r ≡ with_subcommand (app_of program.entry) (leaf (command_row row.now))) }
{
    let leaf = leaf(alloc, row)?;
    program.subcommand(leaf)
}

/// The program with the commands of these rows more.
fn with_commands<'a>(
    alloc: Global,
    program: Command<'a>,
    rows: &[CommandRow],
) -> Result<Command<'a>, AllocError>
    ensures { IfOk result (λ r. app_of r ≡ with_commands (app_of program.entry) (map command_row rows.now)) }
{
    let mut program = program;
    for row in rows {
        program = with_command(alloc, program, row)?;
    }
    Ok(program)
}

/// The program with its commands.
pub fn program<'a>(alloc: Global) -> Result<Command<'a>, AllocError>
    ensures { IfOk result (λ r. app_of r ≡ program) }
{
    with_commands(alloc, top(alloc), &COMMANDS)
}

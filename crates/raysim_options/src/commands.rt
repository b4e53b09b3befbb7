// The command `raysim`, put together of its subcommands.

ghost use Rattle.std.specs.Prelude.{◌≡◌, IfOk, false};
ghost use Rattle.clap.specs.Words.{app_of, rule_of, with_rule};
ghost use Rattle.raysim_options.specs.App.{HasNoGlobals, raysim_app, required_app, run_app, sim_app};
ghost use Rattle.raysim_options.specs.Subcommands.{rule_for, subcommand_app, table_app, with_entry};

use crate::subcommands::{Kind, Parameter, RUN, SIM, SUBCOMMANDS, Subcommand};
use clap::builder::ValueParser;
use clap::{Arg, ArgAction, Command};
use std::alloc::{AllocError, Global};

fn arg<'a>(alloc: Global, parameter: &Parameter<'a>) -> Arg<'a>
    ensures rule { rule_of result ≡ rule_for parameter.now }
    ensures local { result.global ≡ false }
{
    let arg = Arg::new(alloc, parameter.id).help(parameter.help);
    match parameter.kind {
        Kind::Needed => arg.required(true),
        Kind::Optional => arg,
        Kind::Flag => arg.long(parameter.id).action(ArgAction::SetTrue),
        Kind::Number(most) => arg
            .long(parameter.id)
            .value_name("N")
            .value_parser(ValueParser::signed(1, i64::from(most))),
        Kind::Worded(value) => arg.long(parameter.id).value_name(value),
        Kind::NeededWorded(value) => arg.long(parameter.id).value_name(value).required(true),
    }
}

fn add<'a>(command: Command<'a>, arg: Arg<'a>) -> Result<Command<'a>, AllocError>
    requires one { arg.global ≡ false }
    requires none { HasNoGlobals command }
    ensures app { IfOk result (λ c. app_of c ≡ with_rule (app_of command.entry) (rule_of arg.entry)) }
    ensures local { IfOk result HasNoGlobals }
{
    command.arg(arg)
}

/// A subcommand with its parameters, in their order.
fn command_of<'a>(alloc: Global, subcommand: &Subcommand<'a>) -> Result<Command<'a>, AllocError>
    ensures app { IfOk result (λ c. app_of c ≡ subcommand_app subcommand.now) }
    ensures local { IfOk result HasNoGlobals }
{
    let mut command = Command::new(alloc, subcommand.name).about(subcommand.about);
    let mut rest = subcommand.parameters;
    while let [parameter, more @ ..] = rest {
        command = add(command, arg(alloc, parameter))?;
        rest = more;
    }
    Ok(command)
}

fn add_subcommand<'a>(
    alloc: Global,
    above: Command<'a>,
    subcommand: &Subcommand<'a>,
) -> Result<Command<'a>, AllocError>
    ensures { IfOk result (λ c. app_of c ≡ with_entry (app_of above.entry) subcommand.now) }
{
    above.subcommand(command_of(alloc, subcommand)?)
}

/// The command `sim`, also by itself to tell of a conflict of its words. The one error is want of memory.
pub(crate) fn sim<'a>(alloc: Global) -> Result<Command<'a>, AllocError>
    ensures { IfOk result (λ c. app_of c ≡ sim_app) }
{
    command_of(alloc, &SIM)
}

/// The command `run` likewise.
pub(crate) fn run<'a>(alloc: Global) -> Result<Command<'a>, AllocError>
    ensures { IfOk result (λ c. app_of c ≡ run_app) }
{
    command_of(alloc, &RUN)
}

/// The command without its subcommands, of which one has to be there.
fn top<'a>(alloc: Global) -> Command<'a>
    ensures { app_of result ≡ required_app }
{
    Command::new(alloc, "raysim")
        .about("Checks scripts of tasks, runs them, and simulates their runs")
        .version("0.2.0")
        .subcommand_required(true)
}

/// The command with these subcommands, in their order.
fn with_subcommands<'a>(
    alloc: Global,
    subcommands: &[Subcommand<'a>],
) -> Result<Command<'a>, AllocError>
    ensures { IfOk result (λ c. app_of c ≡ table_app subcommands.now) }
{
    let mut command = top(alloc);
    let mut rest = subcommands;
    while let [subcommand, more @ ..] = rest {
        command = add_subcommand(alloc, command, subcommand)?;
        rest = more;
    }
    Ok(command)
}

/// The command `raysim` with its subcommands.
pub fn raysim<'a>(alloc: Global) -> Result<Command<'a>, AllocError>
    ensures { IfOk result (λ c. app_of c ≡ raysim_app) }
{
    with_subcommands(alloc, SUBCOMMANDS)
}

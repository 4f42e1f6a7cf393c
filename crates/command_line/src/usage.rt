//! The command line as the usage text specifies it: the commands that take words, and what each takes.

ghost use Rattle.std.specs.Prelude.{◌≡◌, IfOk, false};
ghost use Rattle.clap.specs.Words.{app_of, rule_of};
ghost use Rattle.clap.specs.declared.builder.Command.TheViews.{out-Command as fields_of};
ghost use Rattle.command_line.specs.Usage.{command_app, flag_option, number_option, parameter_words, run_app, usage, world_app};

use clap::{Arg, ArgAction, Command};
use std::alloc::{AllocError, Global};

/// The program's commands except `merge`, which takes no words. The only help is the usage line, so clap adds none.
pub fn define_command_line<'a>(alloc: Global) -> Result<Command<'a>, AllocError>
    ensures { IfOk result (λ c. app_of c ≡ usage) }
{
    Command::new(alloc, "tilefarm")
        .no_binary_name(true)
        .disable_help_flag(true)
        .disable_help_subcommand(true)
        .subcommand_required(true)
        .subcommand(define_job_subcommand(alloc, "eval")?)?
        .subcommand(define_job_subcommand(alloc, "check")?)?
        .subcommand(define_job_subcommand(alloc, "plan")?)?
        .subcommand(define_job_subcommand(alloc, "audit")?)?
        .subcommand(define_world_subcommand(alloc)?)?
        .subcommand(define_run_subcommand(alloc)?)
}

/// A command that takes options and values of parameters.
fn define_job_subcommand<'a>(alloc: Global, name: &'a str) -> Result<Command<'a>, AllocError>
    ensures app { IfOk result (λ c. app_of c ≡ command_app name.now) }
    ensures local { IfOk result (λ c. (fields_of c).has_globals ≡ false) }
{
    Command::new(alloc, name)
        .disable_help_flag(true)
        .arg(make_number_option_definition(alloc, "rows"))?
        .arg(make_number_option_definition(alloc, "cols"))?
        .arg(make_number_option_definition(alloc, "percent"))?
        .arg(make_flag_option_definition(alloc, "stored"))?
        .arg(make_parameter_argument_definition(alloc))
}

/// The command that takes a number of nodes too.
fn define_world_subcommand<'a>(alloc: Global) -> Result<Command<'a>, AllocError>
    ensures app { IfOk result (λ c. app_of c ≡ world_app) }
    ensures local { IfOk result (λ c. (fields_of c).has_globals ≡ false) }
{
    define_job_subcommand(alloc, "world")?.arg(make_number_option_definition(alloc, "nodes"))
}

/// The command that takes how a farm runs too.
fn define_run_subcommand<'a>(alloc: Global) -> Result<Command<'a>, AllocError>
    ensures app { IfOk result (λ c. app_of c ≡ run_app) }
    ensures local { IfOk result (λ c. (fields_of c).has_globals ≡ false) }
{
    define_job_subcommand(alloc, "run")?
        .arg(make_number_option_definition(alloc, "nodes"))?
        .arg(make_number_option_definition(alloc, "turns"))?
        .arg(make_number_option_definition(alloc, "capacity"))?
        .arg(make_number_option_definition(alloc, "lose"))?
        .arg(make_number_option_definition(alloc, "repeat"))?
        .arg(make_number_option_definition(alloc, "restart"))
}

/// An option that takes a number.
fn make_number_option_definition<'a>(alloc: Global, name: &'a str) -> Arg<'a>
    ensures rule { rule_of result ≡ number_option name.entry.now }
    ensures local { result.global ≡ false }
{
    Arg::new(alloc, name).long(name).action(ArgAction::Set)
}

/// An option that takes nothing.
fn make_flag_option_definition<'a>(alloc: Global, name: &'a str) -> Arg<'a>
    ensures rule { rule_of result ≡ flag_option name.entry.now }
    ensures local { result.global ≡ false }
{
    Arg::new(alloc, name).long(name).action(ArgAction::SetTrue)
}

/// The words that are not options, any number of them.
fn make_parameter_argument_definition<'a>(alloc: Global) -> Arg<'a>
    ensures rule { rule_of result ≡ parameter_words }
    ensures local { result.global ≡ false }
{
    Arg::new(alloc, "NAME=VALUE")
        .action(ArgAction::Append)
        .num_args(0..)
}

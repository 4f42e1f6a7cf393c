//! What the words of the command line request.

ghost use Rattle.std.specs.Prelude.{◌≡◌, ◌≢◌, ◌↔◌, IsTrue, IfOk, IfErr, IfSome, IfNone, List, ℕ, map};
ghost use Rattle.std.specs.List.{list_any};
ghost use Rattle.clap.specs.Words.{first_of, found_of, kind_of, rows_of};
ghost use Rattle.clap.specs.declared.error.kind.ErrorKind.TheVariants.{OutOfMemory};
ghost use Rattle.command_line.specs.Asking.{AreFarmOptions, AreFaults, AreOptions, AreParameters, AreParametersIn, AskForMerge, Given};
ghost use Rattle.command_line.specs.Asking.{HasOwn, IsJobRequestOf, IsRequestOf, NamesTask, is_separator};
ghost use Rattle.command_line.specs.Tasks.{word_of};
ghost use Rattle.command_line.specs.Values.{IsChosen, is_true};
ghost use Rattle.command_line.specs.declared.options.Options.{Options as OptionsType};
ghost use Rattle.command_line.specs.declared.tasks.CommandTask.{CommandTask as TaskType};
ghost use Rattle.command_line.specs.declared.tasks.CommandTask.TheVariants.{World};
ghost use Rattle.command_line.specs.declared.words.JobRequest.{JobRequest as JobRequestType};
ghost use Rattle.command_line.specs.declared.words.CommandRequest.{CommandRequest as RequestType};
ghost use Rattle.command_line.specs.declared.words.CommandLineRefusal.TheVariants as refusals;
ghost use Rattle.farm_setup.specs.declared.setup.FarmSetup.{FarmSetup as FarmSetupType};
ghost use Rattle.farm_setup.specs.declared.setup.Faults.{Faults as FaultsType};

use crate::nodes::NodesArgument;
use crate::options::{Options, PercentArgument};
use crate::tasks::{CommandTask, read_command_task_from_first_word};
use crate::usage::define_command_line;
use crate::values::{
    is_flag_option_text_true, parse_option_number_or_default, parse_parameter_argument,
};
use clap::error::ErrorKind;
use clap::{ArgMatches, Error};
use domains::TileSides;
use farm_setup::{FarmSetup, Faults};
use std::alloc::{AllocError, AllocFailed, Global};

/// What is to be done.
#[derive(Drop)]
pub enum CommandRequest {
    /// To merge fact files into one.
    Merge,
    /// A task on a program and a picture.
    Job(JobRequest),
}

/// What is to be done with a program and a picture, and how, and the values of parameters, in order.
#[derive(Drop)]
pub struct JobRequest {
    pub task: CommandTask,
    pub options: Options,
    pub parameters: Vec<(String, i32)>,
}

/// Why a command line is not run.
#[derive(Drop)]
pub enum CommandLineRefusal {
    Usage,
    Memory,
}

impl From<AllocError> for CommandLineRefusal {
    ghost from_gives = { λ _ refusal. refusal ≡ refusals.Memory };

    fn from(_error: AllocError) -> CommandLineRefusal {
        CommandLineRefusal::Memory
    }
}

impl<T: Drop> From<AllocFailed<T>> for CommandLineRefusal {
    ghost from_gives = { λ _ refusal. refusal ≡ refusals.Memory };

    fn from(_error: AllocFailed<T>) -> CommandLineRefusal {
        CommandLineRefusal::Memory
    }
}

impl From<Error> for CommandLineRefusal {
    ghost from_gives = { λ error refusal. refusal ≡ refusals.Usage → kind_of error ≢ OutOfMemory };

    fn from(error: Error) -> CommandLineRefusal {
        match error.kind() {
            ErrorKind::OutOfMemory => CommandLineRefusal::Memory,
            _ => CommandLineRefusal::Usage,
        }
    }
}

/// What the words, without the program's own name, request. They are refused as usage only if they request nothing.
pub fn read_command_request(
    alloc: Global,
    words: &[String],
) -> Result<CommandRequest, CommandLineRefusal>
    ensures asked { IfOk result (IsRequestOf words.now) }
    ensures usage { IfErr result (λ refusal. refusal ≡ refusals.Usage
        → (request : RequestType) → ¬ IsRequestOf words.now request) }
    // If the words name no task, nothing grows, and memory is never reported instead of usage.
    ensures memory { IfErr result (λ refusal. refusal ≡ refusals.Memory → NamesTask words.now) }
{
    if is_merge_request(words) {
        Ok(CommandRequest::Merge)
    } else {
        Ok(CommandRequest::Job(read_job_command_request(alloc, words)?))
    }
}

/// Whether there is one word, which is `merge`.
fn is_merge_request(words: &[String]) -> bool
    ensures { IsTrue result ↔ AskForMerge words.now }
{
    match words {
        [word] => word.as_str() == "merge",
        _ => false,
    }
}

/// What the words request for a program and a picture.
fn read_job_command_request(
    alloc: Global,
    words: &[String],
) -> Result<JobRequest, CommandLineRefusal>
    ensures asked { IfOk result (IsJobRequestOf words.now) }
    ensures usage { IfErr result (λ refusal. refusal ≡ refusals.Usage
        → (request : JobRequestType) → ¬ IsJobRequestOf words.now request) }
    ensures memory { IfErr result (λ refusal. refusal ≡ refusals.Memory → NamesTask words.now) }
{
    if has_double_dash_argument(words) {
        return Err(CommandLineRefusal::Usage);
    }
    let Some(named) = read_command_task_from_first_word(words) else {
        return Err(CommandLineRefusal::Usage);
    };
    let matches = define_command_line(alloc)?.try_get_matches_from(words)?;
    let Some((_, given)) = matches.subcommand() else {
        return Err(CommandLineRefusal::Usage);
    };
    let Some(task) = read_task_with_its_options(named, given) else {
        return Err(CommandLineRefusal::Usage);
    };
    let Some(options) = read_tile_and_schedule_options(given) else {
        return Err(CommandLineRefusal::Usage);
    };
    Ok(JobRequest {
        task,
        options,
        parameters: read_parameter_arguments(alloc, given)?,
    })
}

/// Whether a word is `--`, which ends the options of other programs; this program has none.
fn has_double_dash_argument(words: &[String]) -> bool
    ensures { result ≡ list_any is_separator words.now }
{
    for word in words {
        if word.as_str() == "--" {
            return true;
        }
    }
    false
}

/// The named task; a farm and a world have the settings that the options give.
fn read_task_with_its_options(named: CommandTask, given: &ArgMatches) -> Option<CommandTask>
    ensures same { IfSome result (λ task. word_of task ≡ word_of named) }
    ensures own { IfSome result (HasOwn (rows_of (found_of given.now))) }
    ensures none { IfNone result ((task : TaskType) → word_of task ≡ word_of named
        → ¬ HasOwn (rows_of (found_of given.now)) task) }
{
    match named {
        CommandTask::Run(_) => Some(CommandTask::Run(read_farm_options(given)?)),
        CommandTask::World(_) => Some(CommandTask::World(read_world_node_count_option(given)?)),
        task => Some(task),
    }
}

/// How the farm is to run; absent options have their usual values.
fn read_farm_options(given: &ArgMatches) -> Option<FarmSetup>
    ensures some { IfSome result (AreFarmOptions (rows_of (found_of given.now))) }
    ensures none { IfNone result ((farm : FarmSetupType)
        → ¬ AreFarmOptions (rows_of (found_of given.now)) farm) }
{
    let usual = FarmSetup::with_defaults();
    let count = read_number_option_or_default(given, "nodes", u32::from(usual.nodes))?;
    let nodes = u8::try_from(count).ok()?;
    let turns = read_number_option_or_default(given, "turns", usual.turns)?;
    let capacity = read_number_option_or_default(given, "capacity", usual.capacity)?;
    FarmSetup::new(nodes, turns, capacity, read_farm_fault_options(given)?)
}

/// How often the farm is to make faults; absent options have their usual values.
fn read_farm_fault_options(given: &ArgMatches) -> Option<Faults>
    ensures some { IfSome result (AreFaults (rows_of (found_of given.now))) }
    ensures none { IfNone result ((faults : FaultsType)
        → ¬ AreFaults (rows_of (found_of given.now)) faults) }
{
    let usual = FarmSetup::with_defaults().faults;
    Some(Faults {
        lose: read_number_option_or_default(given, "lose", usual.lose)?,
        repeat: read_number_option_or_default(given, "repeat", usual.repeat)?,
        restart: read_number_option_or_default(given, "restart", usual.restart)?,
    })
}

/// How many nodes the world is to have; usual if the option is absent.
fn read_world_node_count_option(given: &ArgMatches) -> Option<NodesArgument>
    ensures some { IfSome result (λ nodes. HasOwn (rows_of (found_of given.now)) (World nodes)) }
    ensures none { IfNone result ((nodes : ℕ)
        → ¬ HasOwn (rows_of (found_of given.now)) (World nodes)) }
{
    NodesArgument::new(read_number_option_or_default(
        given,
        "nodes",
        u32::from(NodesArgument::with_defaults().get()),
    )?)
}

/// How the command is to be run; absent options have their usual values.
fn read_tile_and_schedule_options(given: &ArgMatches) -> Option<Options>
    ensures some { IfSome result (AreOptions (rows_of (found_of given.now))) }
    ensures none { IfNone result ((options : OptionsType)
        → ¬ AreOptions (rows_of (found_of given.now)) options) }
{
    let usual = Options::with_defaults();
    let rows = read_number_option_or_default(given, "rows", usual.sides.height())?;
    let cols = read_number_option_or_default(given, "cols", usual.sides.width())?;
    let percent = read_number_option_or_default(given, "percent", usual.percent.get())?;
    Some(Options {
        sides: TileSides::new(rows, cols)?,
        percent: PercentArgument::new(percent)?,
        stored: is_flag_option_set_by_name(given, "stored"),
    })
}

/// The number of the option of this name.
fn read_number_option_or_default(given: &ArgMatches, name: &str, usual: u32) -> Option<u32>
    ensures some { IfSome result
        (IsChosen (first_of name.now (rows_of (found_of given.now))) usual) }
    ensures none { IfNone result ((n : ℕ)
        → ¬ IsChosen (first_of name.now (rows_of (found_of given.now))) usual n) }
{
    parse_option_number_or_default(given.get_str(name), usual)
}

/// Whether the flag of this name was given.
fn is_flag_option_set_by_name(given: &ArgMatches, name: &str) -> bool
    ensures { result ≡ is_true (first_of name.now (rows_of (found_of given.now))) }
{
    is_flag_option_text_true(given.get_str(name))
}

/// The values of parameters.
fn read_parameter_arguments(
    alloc: Global,
    given: &ArgMatches,
) -> Result<Vec<(String, i32)>, CommandLineRefusal>
    ensures some { IfOk result
        (λ parameters. AreParametersIn (rows_of (found_of given.now)) parameters.items) }
    ensures usage { IfErr result (λ refusal. refusal ≡ refusals.Usage
        → (parameters : List Given) → ¬ AreParametersIn (rows_of (found_of given.now)) parameters) }
{
    match given.get_strs("NAME=VALUE") {
        Some(words) => parse_all_parameter_arguments(alloc, words),
        None => Ok(Vec::new(alloc)),
    }
}

/// The values of parameters, one for each word.
fn parse_all_parameter_arguments(
    alloc: Global,
    words: &[&str],
) -> Result<Vec<(String, i32)>, CommandLineRefusal>
    ensures some { IfOk result
        (λ parameters. AreParameters (map (λ w. w.now) words.now) parameters.items) }
    ensures usage { IfErr result (λ refusal. refusal ≡ refusals.Usage
        → (parameters : List Given) → ¬ AreParameters (map (λ w. w.now) words.now) parameters) }
{
    let mut parameters = Vec::new(alloc);
    for word in words {
        let Some((name, value)) = parse_parameter_argument(word) else {
            return Err(CommandLineRefusal::Usage);
        };
        parameters.push((String::from_str(alloc, name)?, value))?;
    }
    Ok(parameters)
}

//! The tasks on a program and a picture.

ghost use Rattle.std.specs.Prelude.{IfNone, IfSome};
ghost use Rattle.command_line.specs.Tasks.{AsksFor};
ghost use Rattle.command_line.specs.declared.tasks.CommandTask.{CommandTask as TaskType};

use crate::nodes::NodesArgument;
use farm_setup::FarmSetup;

/// A task on a program and a picture.
#[derive(Clone, Copy, Debug)]
pub enum CommandTask {
    /// To run a program on a picture.
    Eval,
    /// To report the identities of a program and of its input, and its stages.
    Check,
    /// To report which functions are stored, and what that costs.
    Plan,
    /// To run a program on a picture by a farm.
    Run(FarmSetup),
    /// To judge the facts of fact files.
    Audit,
    /// To report what this many nodes hold after a script.
    World(NodesArgument),
}

/// The task that the first word requests; a farm and a world have the usual settings.
pub fn read_command_task_from_first_word(words: &[String]) -> Option<CommandTask>
    ensures some { IfSome result (AsksFor words.now) }
    ensures none { IfNone result ((task : TaskType) → ¬ AsksFor words.now task) }
{
    let word = words.first()?;
    match word.as_str() {
        "eval" => Some(CommandTask::Eval),
        "check" => Some(CommandTask::Check),
        "plan" => Some(CommandTask::Plan),
        "run" => Some(CommandTask::Run(FarmSetup::with_defaults())),
        "audit" => Some(CommandTask::Audit),
        "world" => Some(CommandTask::World(NodesArgument::with_defaults())),
        _ => None,
    }
}

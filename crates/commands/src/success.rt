//! What a command that succeeds leaves to its caller.

ghost use Rattle.std.specs.Prelude.{◌≡◌};
ghost use Rattle.commands.specs.Successes.{finding_of};
ghost use Rattle.commands.specs.inside.Telling.{told_as};

use command_faults::StreamFault;
use fact_commands::AuditFinding;
use farm_commands::FarmResultRun;

/// What a command that succeeds leaves to its caller: the run of its farm, or else what it found in facts.
#[derive(Drop)]
pub enum RunCommandSuccess {
    /// What was found. A command that judges nothing finds nothing false.
    Found(AuditFinding),
    /// The run of a farm, which judges nothing.
    Ran(FarmResultRun),
}

/// The finding of a command that succeeded so.
fn find_finding_of_run_command_success(success: RunCommandSuccess) -> AuditFinding
    ensures { result ≡ finding_of success }
{
    match success {
        RunCommandSuccess::Found(finding) => finding,
        RunCommandSuccess::Ran(_) => AuditFinding::NoFalse,
    }
}

/// The success of a command that judges nothing.
pub fn map_run_command_success_to_no_false(
    done: Result<(), StreamFault>,
) -> Result<RunCommandSuccess, StreamFault>
    ensures { result ≡ told_as (λ _. RunCommandSuccess.Found AuditFinding.NoFalse) done }
{
    done?;
    Ok(RunCommandSuccess::Found(AuditFinding::NoFalse))
}

/// The success of a command that judges facts.
pub fn map_run_command_finding_to_success(
    done: Result<AuditFinding, StreamFault>,
) -> Result<RunCommandSuccess, StreamFault>
    ensures { result ≡ told_as (λ finding. RunCommandSuccess.Found finding) done }
{
    Ok(RunCommandSuccess::Found(done?))
}

/// The success of a command that runs a farm.
pub fn map_run_command_farm_to_success(
    done: Result<FarmResultRun, StreamFault>,
) -> Result<RunCommandSuccess, StreamFault>
    ensures { result ≡ told_as (λ run. RunCommandSuccess.Ran run) done }
{
    Ok(RunCommandSuccess::Ran(done?))
}

/// The finding of a command.
pub fn map_run_command_success_to_finding(
    done: Result<RunCommandSuccess, StreamFault>,
) -> Result<AuditFinding, StreamFault>
    ensures { result ≡ told_as finding_of done }
{
    Ok(find_finding_of_run_command_success(done?))
}

//! How a farm's faults are reported.

ghost use Rattle.std.specs.Prelude.{◌≡◌};
ghost use Rattle.farm_commands.specs.RunFaults.{fault_at_farm};

use command_faults::{FarmFaultLine, StreamFault};
use farm::FarmFault;

/// The fault of the command where its farm has this one. A refusal of memory is the command's own.
pub fn convert_fault_of_farm_for_run_stream(fault: FarmFault) -> StreamFault
    ensures { result ≡ fault_at_farm fault }
{
    match fault {
        FarmFault::SpawnFailed(_) => StreamFault::Farm(FarmFaultLine::SpawnFailed),
        FarmFault::Memory => StreamFault::Memory,
        FarmFault::Close(_) => StreamFault::Farm(FarmFaultLine::Close),
    }
}

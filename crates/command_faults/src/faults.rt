//! Why a command gave no result.

use crate::lines::{BindFaultLine, CheckFaultLine, FarmFaultLine, ParamFaultLine};
use fact_lines::FactLinesFault;
use gossip_events::ScriptFault;
use netpbm::PicFault;
use pipe_tree::ParseFault;
use std::alloc::AllocError;
use streams::WriteFailed;
use thiserror::Error;

/// Why a command gave no result. `write_command_fault_line` writes the line that reports it.
#[derive(Debug, Drop, Error)]
pub enum StreamFault {
    /// The reader failed.
    #[error("the reader failed")]
    Read,
    /// The input has more than 536,870,912 bytes.
    #[error("the input is too long")]
    TooLong,
    /// A separator line is missing.
    #[error("a separator line is missing")]
    NoSeparator,
    /// The first section is no program.
    #[error("the first section is no program: {0}")]
    Program(ParseFault),
    /// A line at the head of the last section is missing, or is no table's. Lines are counted from 1.
    #[error("line {0} of the last section is no table")]
    Tables(usize),
    /// The last section is no picture after its tables.
    #[error("the last section is no picture: {0}")]
    Picture(PicFault),
    /// The program is ill-formed.
    #[error("the program means nothing")]
    Check(CheckFaultLine),
    /// A parameter was rejected.
    #[error("a parameter was given in vain")]
    Param(ParamFaultLine),
    /// The program and the picture make no job.
    #[error("the program and the picture make no job")]
    Bind(BindFaultLine),
    /// A line is no fact file.
    #[error("a line is no fact file: {0}")]
    Facts(FactLinesFault),
    /// The section in the middle is no script.
    #[error("the section in the middle is no script: {0}")]
    Script(ScriptFault),
    /// The farm gave no answer.
    #[error("the farm gave no answer")]
    Farm(FarmFaultLine),
    /// Memory ran out.
    #[error("out of memory")]
    Memory,
    /// The writer failed or took nothing.
    #[error("the writer failed")]
    Write,
}

impl StreamFault {
    ghost use Rattle.std.specs.Prelude.{◌≡◌};
    ghost use Rattle.command_faults.specs.Statuses.{status_of};

    /// The status that the program ends with.
    pub fn exit_status(&self) -> u8
        ensures { result ≡ status_of self.now }
    {
        match self {
            StreamFault::Param(_) => 1,
            StreamFault::TooLong
            | StreamFault::NoSeparator
            | StreamFault::Tables(_)
            | StreamFault::Picture(_)
            | StreamFault::Facts(_)
            | StreamFault::Script(_) => 2,
            StreamFault::Program(_) | StreamFault::Check(_) | StreamFault::Bind(_) => 3,
            StreamFault::Read | StreamFault::Write | StreamFault::Farm(_) => 4,
            StreamFault::Memory => 5,
        }
    }
}

impl From<AllocError> for StreamFault {
    ghost use Rattle.std.specs.Prelude.{◌≡◌};
    ghost use Rattle.command_faults.specs.declared.faults.StreamFault.TheVariants.{Memory};

    ghost from_gives = { λ _ fault. fault ≡ Memory };

    fn from(_fault: AllocError) -> StreamFault {
        StreamFault::Memory
    }
}

impl From<WriteFailed> for StreamFault {
    ghost use Rattle.std.specs.Prelude.{◌≡◌};
    ghost use Rattle.command_faults.specs.declared.faults.StreamFault.TheVariants.{Write};

    ghost from_gives = { λ _ fault. fault ≡ Write };

    fn from(_fault: WriteFailed) -> StreamFault {
        StreamFault::Write
    }
}

// The fault of a step. A refusal of memory is the command's own, whichever step it comes from.
macro_rules! step_fault {
    ($fault:expr, $Faults:ident => $Step:ident) => {
        match $fault {
            $Faults::Memory => StreamFault::Memory,
            fault => StreamFault::$Step(fault),
        }
    };
}

impl From<ParseFault> for StreamFault {
    ghost use Rattle.std.specs.Prelude.{◌≡◌};
    ghost use Rattle.command_faults.specs.StepFaults.{fault_at_parse};

    ghost from_gives = { λ fault made. made ≡ fault_at_parse fault };

    fn from(fault: ParseFault) -> StreamFault {
        step_fault!(fault, ParseFault => Program)
    }
}

impl From<PicFault> for StreamFault {
    ghost use Rattle.std.specs.Prelude.{◌≡◌};
    ghost use Rattle.command_faults.specs.StepFaults.{fault_at_picture};

    ghost from_gives = { λ fault made. made ≡ fault_at_picture fault };

    fn from(fault: PicFault) -> StreamFault {
        step_fault!(fault, PicFault => Picture)
    }
}

impl From<FactLinesFault> for StreamFault {
    ghost use Rattle.std.specs.Prelude.{◌≡◌};
    ghost use Rattle.command_faults.specs.StepFaults.{fault_at_lines};

    ghost from_gives = { λ fault made. made ≡ fault_at_lines fault };

    fn from(fault: FactLinesFault) -> StreamFault {
        step_fault!(fault, FactLinesFault => Facts)
    }
}

impl From<ScriptFault> for StreamFault {
    ghost use Rattle.std.specs.Prelude.{◌≡◌};
    ghost use Rattle.command_faults.specs.StepFaults.{fault_at_script};

    ghost from_gives = { λ fault made. made ≡ fault_at_script fault };

    fn from(fault: ScriptFault) -> StreamFault {
        step_fault!(fault, ScriptFault => Script)
    }
}

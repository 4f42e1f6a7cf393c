//! The faults of commands, and the one line that reports each.
//!
//! Words: fault line, fault head, stream fault, write fault.
#![tactic(auto)]

mod bind_lines;
mod check_lines;
mod facts_lines;
mod fault_lines;
mod faults;
mod lines;
mod script_lines;
mod texts;

pub use fault_lines::write_command_fault_line;
pub use faults::StreamFault;
pub use lines::{BindFaultLine, CheckFaultLine, FarmFaultLine, ParamFaultLine, StageNames};
pub use texts::write_texts_in_fault_line;

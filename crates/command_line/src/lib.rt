//! The command line: what its words request, with which options, and the values of parameters.
//!
//! Words: command line, subcommand, argument, option, request, task.
#![tactic(auto)]

mod nodes;
mod options;
mod tasks;
mod usage;
mod values;
mod words;

pub use nodes::NodesArgument;
pub use options::{Options, PercentArgument};
pub use tasks::CommandTask;
pub use words::{CommandLineRefusal, CommandRequest, JobRequest, read_command_request};

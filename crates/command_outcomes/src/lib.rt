//! What a command reads and writes: the bytes of its input, its reply, and what is written at each ending.
//!
//! Words: job reply, command input bytes.
#![tactic(auto)]

mod input;
mod reply;

pub use input::read_command_input_bytes;
pub use reply::{JobReply, write_job_reply};

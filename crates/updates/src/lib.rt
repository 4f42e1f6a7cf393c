//! Facts and retirements on their way between nodes: which are true, and copies of them.
//!
//! Words: update list.
#![tactic(auto)]

mod copies;

pub use copies::{copy_update_list, make_update_list_of_fact};

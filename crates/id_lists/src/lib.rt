//! Sets of jobs' identities as rising lists.
//!
//! Words: id list, listed job id.
#![tactic(auto)]

mod id_list;

pub use id_list::IdList;

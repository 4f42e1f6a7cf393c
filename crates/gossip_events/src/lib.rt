//! The events of the nodes of a world, and scripts that specify them line by line.
//!
//! Words: script, event, event verb, script line, script request, script tile name.
#![tactic(auto)]

mod event;
mod fault;
mod line;
mod naming;
mod order;
mod order_words;
mod place;
mod places;
mod script;
mod verb;
mod words;

pub use event::{Event, Keys};
pub use fault::ScriptFault;
pub use line::MAX_EVENTS;
pub use script::parse_script;

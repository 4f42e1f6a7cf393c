//! The work of a farm: what its workers make and from what, what is to be done with a key, and the gate that they pass.
//!
//! Words: farm work, key lookup, any key, gate, open gate.
#![tactic(auto)]

mod gate;
mod lookup;
mod work;

pub use gate::{Gate, OpenGate};
pub use lookup::KeyLookup;
pub use work::FarmWork;

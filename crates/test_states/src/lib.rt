//! Public calls of a state over either store, each made once with a proof that its requirements hold. They are apart from
//! `test_calls`, so that both are proved side by side.
//!
//! Words: example state.
#![tactic(auto)]

#[cfg(test)]
mod node_states;

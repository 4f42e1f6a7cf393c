//! The gate that the workers of a farm pass.

use tile_fact::Fact;

/// What each worker of a farm calls as it goes: a point to watch a farm from, or to make its workers wait for one another. No
/// lock of the farm is held at a call.
pub trait Gate {
    /// A worker enters a turn. Workers count from 0, turns from 1.
    fn announce_turn(&self, worker: u8, turn: u32);

    /// A worker has made a fact, which it has not given to its node yet.
    fn report_fact(&self, worker: u8, turn: u32, fact: &Fact);
}

/// A gate that lets all pass.
#[derive(Clone, Copy, Debug)]
pub struct OpenGate;

impl Gate for OpenGate {
    fn announce_turn(&self, _worker: u8, _turn: u32) {}

    fn report_fact(&self, _worker: u8, _turn: u32, _fact: &Fact) {}
}

//! How a farm runs.

ghost use Rattle.std.specs.Prelude.{◌≡◌, IfNone, IfSome};
ghost use Rattle.farm_setup.specs.Setups.{IsWithin};

/// The greatest number of nodes of a farm.
pub const MAX_NODES: u8 = 8;

/// The greatest number of turns of a worker.
pub const MAX_TURNS: u32 = 65_536;

/// The greatest capacity of a mailbox, in parcels.
pub const MAX_PARCELS: u32 = 1_024;

/// The faults that a farm makes on purpose. A fault whose number is 0 is never made.
#[derive(Clone, Copy, Debug, PartialEq, Eq)]
pub struct Faults {
    /// Of the parcels that a worker would send, each one of this many is lost.
    pub lose: u32,
    /// Of the parcels that a worker has received, each one of this many is given to its node twice.
    pub repeat: u32,
    /// In turns that are multiples of it, a worker restarts its node.
    pub restart: u32,
}

/// How many nodes a farm has, how many turns each worker goes through, the capacity of a mailbox in parcels, and which faults are
/// made. There are 1 to 8 nodes, at most 65,536 turns, and a capacity of 1 to 1,024 parcels.
#[derive(Clone, Copy, Debug)]
pub struct FarmSetup {
    pub nodes: u8,
    pub turns: u32,
    pub capacity: u32,
    pub faults: Faults,
    ghost within: { IsWithin nodes turns capacity },
}

impl FarmSetup {
    /// A farm with this number of nodes, if all numbers are within their limits. No memory is allocated.
    pub fn new(nodes: u8, turns: u32, capacity: u32, faults: Faults) -> Option<FarmSetup>
        ensures nodes { IfSome result (λ setup. setup.nodes ≡ nodes) }
        ensures turns { IfSome result (λ setup. setup.turns ≡ turns) }
        ensures capacity { IfSome result (λ setup. setup.capacity ≡ capacity) }
        ensures faults { IfSome result (λ setup. setup.faults ≡ faults) }
        ensures within { IfSome result (λ _. IsWithin nodes turns capacity) }
        ensures refused { IfNone result (¬ (IsWithin nodes turns capacity)) }
    {
        if nodes == 0 || nodes > MAX_NODES || turns > MAX_TURNS {
            return None;
        }
        if capacity == 0 || capacity > MAX_PARCELS {
            return None;
        }
        Some(FarmSetup {
            nodes,
            turns,
            capacity,
            faults,
        })
    }

    /// Two nodes, 1,000 turns, a capacity of eight parcels, and no faults.
    pub fn with_defaults() -> FarmSetup
        ensures nodes { result.nodes ≡ 2 }
        ensures turns { result.turns ≡ 1000 }
        ensures capacity { result.capacity ≡ 8 }
        ensures faults { result.faults ≡ record { lose = 0; repeat = 0; restart = 0 } }
    {
        FarmSetup {
            nodes: 2,
            turns: 1_000,
            capacity: 8,
            faults: Faults {
                lose: 0,
                repeat: 0,
                restart: 0,
            },
        }
    }
}

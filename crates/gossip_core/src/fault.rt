//! Why an event is refused.

ghost use Rattle.std.specs.Prelude.{◌≡◌};

use fault_rows::{Fault, FaultRow, fault_row};
use identity::Key;
use node_state::MakeFault;
use std::alloc::{AllocError, AllocFailed};
use thiserror::Error;

/// The first fault of an event, in this order.
#[derive(Clone, Copy, Debug, PartialEq, Eq, Error)]
pub enum StepFault {
    /// 1: a node does not exist.
    #[error("no such node")]
    NoSuchNode,
    /// 2: the message was never sent.
    #[error("no such message")]
    NoSuchMessage,
    /// 3: the message is for another node.
    #[error("the message is for another node")]
    WrongAddress,
    /// 4: the node can't make the fact. Never for memory.
    #[error("the fact can't be made: {0}")]
    Make(MakeFault),
    /// 5: the least of the keys of which the node holds nothing.
    #[error("no fact of a key is held")]
    NotHeld(Key),
    /// 6: there is no memory for what the event requests.
    #[error("out of memory")]
    Memory,
}

impl Fault for StepFault {
    ghost use Rattle.gossip_core.specs.StepTable.{number_of, name_of};

    ghost number_of = { number_of };

    ghost name_of = { name_of };

    fn row(&self) -> FaultRow {
        fault_row!(self, StepFault {
            NoSuchNode = 1, NoSuchMessage = 2, WrongAddress = 3, Make(_) = 4, NotHeld(_) = 5, Memory = 6,
        })
    }
}

impl StepFault {
    ghost use Rattle.std.specs.Prelude.{◌↔◌, IsTrue};
    ghost use Rattle.gossip_core.specs.declared.fault.StepFault.TheVariants.{Memory};

    /// Whether memory was refused.
    pub fn is_memory(self) -> bool
        ensures { IsTrue result ↔ self ≡ Memory }
    {
        matches!(self, StepFault::Memory)
    }
}

impl From<AllocError> for StepFault {
    ghost use Rattle.std.specs.Prelude.{◌≡◌};
    ghost use Rattle.gossip_core.specs.declared.fault.StepFault.TheVariants.{Memory};

    ghost from_gives = { λ _ fault. fault ≡ Memory };

    fn from(_fault: AllocError) -> StepFault {
        StepFault::Memory
    }
}

impl<T: Drop> From<AllocFailed<T>> for StepFault {
    ghost use Rattle.std.specs.Prelude.{◌≡◌};
    ghost use Rattle.gossip_core.specs.declared.fault.StepFault.TheVariants.{Memory};

    ghost from_gives = { λ _ fault. fault ≡ Memory };

    fn from(_fault: AllocFailed<T>) -> StepFault {
        StepFault::Memory
    }
}

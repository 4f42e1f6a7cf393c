//! Why receipts do not account for a history.

use std::alloc::AllocError;
use thiserror::Error;

/// Why a history is not closed.
#[derive(Clone, Copy, Debug, PartialEq, Eq, Error)]
pub enum CloseFault {
    /// 1: the number of the first receipt that does not fit, or the least number that is on no receipt.
    #[error("receipt {0} does not match the history")]
    ReceiptMismatch(u64),
    /// 2: memory was refused.
    #[error("out of memory")]
    Memory,
}

impl From<AllocError> for CloseFault {
    ghost use Rattle.live_nodes.specs.declared.fault.CloseFault.TheVariants.{Memory};
    ghost use Rattle.std.specs.Prelude.{◌≡◌};

    ghost from_gives = { λ _ fault. fault ≡ Memory };

    fn from(_fault: AllocError) -> CloseFault {
        CloseFault::Memory
    }
}

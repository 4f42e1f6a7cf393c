//! Nodes that do not close.

ghost use Rattle.std.specs.Prelude.{◌≡◌, IfErr, IfOk};
ghost use Rattle.farm.specs.FarmFaults.{fault_of_close};
ghost use Rattle.farm.specs.Reports.{IsSoundEnd};
ghost use Rattle.live_nodes.specs.Accounts.{AccountFor};
ghost use Rattle.live_nodes.specs.Ends.{HaveAllReceipts, IsSomeCloseFault, receipts_of};
ghost use Rattle.live_nodes.specs.declared.fault.CloseFault.{CloseFault};

use crate::fault::FarmFault;
use catalog::NamedCatalog;
use live_nodes::{CloseFault, ClosedNode, LiveNode, Receipt, Seat};
use std::fmt;
use std::fmt::{Display, Formatter, Write};

/// The number of a receipt that does not match its node's history. Only [`close_farm_node`] makes one, where the node's own `close`
/// refuses the receipts.
#[derive(Clone, Copy, Debug, PartialEq, Eq)]
pub struct FarmNodeRefusal {
    number: u64,
}

impl FarmNodeRefusal {
    /// The number of the receipt.
    pub fn number(&self) -> u64
        ensures { result ≡ self.now.number }
    {
        self.number
    }
}

impl Display for FarmNodeRefusal {
    fn fmt<W: Write>(&self, f: &mut Formatter<W>) -> fmt::Result {
        write!(f, "{}", self.number)
    }
}

/// Closes a node with the receipts of its workers.
pub fn close_farm_node<C: NamedCatalog>(
    node: LiveNode<C>,
    ends: Vec<(Seat, Vec<Receipt>)>,
) -> Result<ClosedNode, FarmFault>
    requires { HaveAllReceipts ends.items }
    ensures sound { IfOk result (IsSoundEnd C.catalog) }
    ensures receipts { IfOk result (λ closed. AccountFor closed (receipts_of ends.items)) }
    ensures told { IfErr result (λ fault. (why : CloseFault)
        × IsSomeCloseFault ends.items why × (fault ≡ fault_of_close why)) }
{
    match node.close(ends) {
        Ok(closed) => Ok(closed),
        Err((_, _, CloseFault::ReceiptMismatch(number))) => {
            Err(FarmFault::Close(FarmNodeRefusal { number }))
        }
        Err((_, _, CloseFault::Memory)) => Err(FarmFault::Memory),
    }
}

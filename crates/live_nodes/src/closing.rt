//! The end of a node.

ghost use Rattle.live_nodes.specs.Histories.{IsLegal, replay};
ghost use Rattle.held_facts.specs.HeldFacts.{HoldsTrueFacts};
ghost use Rattle.live_nodes.specs.Ends.{receipts_of};
ghost use Rattle.live_nodes.specs.Accounts.{AccountFor, IsCloseFault};
ghost use Rattle.std.specs.Prelude.{◌≡◌, IfErr, IfOk};

use crate::book::NodeBook;
use crate::event::Event;
use crate::fault::CloseFault;
use crate::matching::check_receipts_against_node_events;
use crate::receipt::Receipt;
use crate::seat::Seat;
use catalog::NamedCatalog;
use fact_store::{FactStore, TableFacts};
use node_state::NodeState;
use std::alloc::Global;
use std::marker::Model;

/// A node at its end: what it holds, and all that happened to it. Contracts see the history, which is legal and leads to what is
/// held. Only the end of a node makes one.
#[derive(Drop)]
pub struct ClosedNode<S: FactStore = TableFacts> {
    state: NodeState<S>,
    history: Vec<Event>,
}

impl<S: FactStore> Model for ClosedNode<S> {
    ghost use Rattle.live_nodes.specs.Histories.{IsLegal, replay};
    ghost use Rattle.live_nodes.specs.declared.event.Event.{Event};
    ghost use Rattle.std.specs.Prelude.{◌≡◌, List};

    ghost Value = { List Event };

    ghost view = { λ closed. closed.history.items };

    ghost invariant = { λ closed. (closed.state ≡ (replay closed.history.items).held) × IsLegal closed.history.items };
}

impl<S: FactStore> ClosedNode<S> {
    /// What was held in the end.
    pub fn state(&self) -> &NodeState<S>
        ensures { result.now ≡ (replay self.now).held }
    {
        &self.state
    }

    /// All events.
    pub fn history(&self) -> &[Event]
        ensures events { result.now ≡ self.now }
        ensures legal { IsLegal self.now }
    {
        &self.history
    }
}

/// Ends a node whose history the receipts account for. If they do not, everything is returned.
///
/// # Errors
///
/// Fails at the first receipt, list after list, that does not fit; then at the least number that is on no receipt. Also fails
/// where memory is refused.
pub fn close_node_book<C: NamedCatalog, S: FactStore>(
    alloc: Global,
    book: NodeBook<C, S>,
    ends: Vec<(Seat, Vec<Receipt>)>,
) -> Result<ClosedNode<S>, (NodeBook<C, S>, Vec<(Seat, Vec<Receipt>)>, CloseFault)>
    ensures history { IfOk result (λ closed. closed ≡ book) }
    ensures legal { IsLegal book }
    ensures truth { HoldsTrueFacts C.catalog (replay book).held.facts }
    ensures receipts { IfOk result (λ closed. AccountFor closed (receipts_of ends.items)) }
    ensures handed_back { IfErr result (λ back. (back.0 ≡ book) × (back.1 ≡ ends)) }
    ensures fault { IfErr result (λ back. IsCloseFault book (receipts_of ends.items) back.2) }
{
    if let Err(fault) = check_receipts_against_node_events(alloc, book.history(), ends.as_slice()) {
        return Err((book, ends, fault));
    }
    let (state, history) = book.into_state_and_history();
    Ok(ClosedNode { state, history })
}

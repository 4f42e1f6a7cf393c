//! A node that threads share.

ghost use Rattle.live_nodes.specs.Histories.{IsLegal, replay};
ghost use Rattle.live_nodes.specs.Loans.{AreTrueFactsOf};
ghost use Rattle.live_nodes.specs.declared.event.Event.TheVariants.{Kept, Lent, Restarted, Took};
ghost use Rattle.held_facts.specs.HeldFacts.{HoldsTrueFacts};
ghost use Rattle.live_nodes.specs.Ends.{HaveAllReceipts, IsAsked, IsSomeCloseFault, IsSomeLook, calls_of, receipts_of};
ghost use Rattle.live_nodes.specs.Accounts.{AccountFor};
ghost use Rattle.std.specs.Prelude.{◌≡◌, ◌+◌, All, IfErr, IfOk, OnErr, OnOk, length};
ghost use Rattle.updates.specs.TrueUpdates.{AreTrue};

use crate::book::NodeBook;
use crate::closing::{ClosedNode, close_node_book};
use crate::fault::CloseFault;
use crate::receipt::{Loan, Receipt};
use crate::seat::Seat;
use catalog::{Catalog, NamedCatalog};
use identity::Key;
use node_state::{LendFault, NodeState};
use std::alloc::{AllocError, AllocFailed, Global};
use std::sync::{Mutex, Wait};
use tile_fact::Update;

/// A node that threads share: a book under a lock. Each thread calls it with a seat of its own, and gets a receipt for each call
/// that is recorded. A call reports nothing of what other threads do. From the receipts `close` finds that the calls of all
/// threads are one history.
#[derive(Drop)]
pub struct LiveNode<C: NamedCatalog> {
    alloc: Global,
    book: Mutex<NodeBook<C>>,
}

impl<C: NamedCatalog> LiveNode<C> {
    /// A node that holds and keeps nothing, with this number of seats.
    pub fn open(
        alloc: Global,
        catalog: &Catalog,
        seats: usize,
    ) -> Result<(LiveNode<C>, Vec<Seat>), AllocError>
        requires { catalog.now ≡ C.catalog }
        ensures count { IfOk result (λ opened. length opened.1.items ≡ seats) }
        ensures fresh { IfOk result (λ opened. All (λ seat. seat ≡ 0) opened.1.items) }
    {
        let mut all = Vec::with_capacity(alloc, seats)?;
        for _ in 0..seats {
            all.push(Seat::new(alloc))?;
        }
        let book = Mutex::new(NodeBook::new(alloc, catalog));
        Ok((LiveNode { alloc, book }, all))
    }

    /// A copy of what is held. It is not recorded.
    pub fn state<R: Wait>(&self, rt: &R) -> Result<NodeState, AllocError>
        ensures { IfOk result (λ state. HoldsTrueFacts C.catalog state.facts) }
    {
        self.book.lock(rt).held().copy()
    }

    /// Whether nothing is held of one of the keys, as `NodeBook::lacks_any_key` tells. It is not recorded.
    pub fn lacks_any_key<R: Wait>(&self, rt: &R, keys: &[Key]) -> bool
        ensures { IsSomeLook C.catalog keys.now result }
    {
        self.book.lock(rt).lacks_any_key(keys)
    }

    /// Lends the facts of the keys, as `NodeBook::lend` does: the one true fact of each, rising, and the identities of retired
    /// jobs.
    ///
    /// # Errors
    ///
    /// Fails at the least key of which nothing is held, and where memory is refused. Then nothing is recorded.
    pub fn lend<R: Wait>(&self, rt: &R, seat: &mut Seat, keys: &[Key]) -> Result<Loan, LendFault>
        ensures truth { IfOk result
            (λ loan. AreTrueFactsOf C.catalog keys.now loan.facts.items) }
        ensures told { IfOk result
            (λ loan. loan.receipt.event ≡ Lent keys.now loan.retired.items) }
        ensures counted { OnOk result (seat.new ≡ seat.old + 1) }
        ensures asked { IfErr result (IsAsked keys.now) }
        ensures unchanged { OnErr result (seat.new ≡ seat.old) }
    {
        seat.calls.reserve(1)?;
        let loan = self.book.lock(rt).lend(keys)?;
        seat.calls.push_reserved(());
        Ok(loan)
    }

    /// Takes updates into what is held, as `NodeBook::take` does. If memory is refused, they are returned and nothing is
    /// recorded.
    pub fn take<R: Wait>(
        &self,
        rt: &R,
        seat: &mut Seat,
        updates: Vec<Update>,
    ) -> Result<Receipt, AllocFailed<Vec<Update>>>
        requires { AreTrue C.catalog updates.items }
        ensures told { IfOk result (λ receipt. receipt.event ≡ Took updates.items) }
        ensures counted { OnOk result (seat.new ≡ seat.old + 1) }
        ensures handed_back { IfErr result (λ back. back.value ≡ updates) }
        ensures unchanged { OnErr result (seat.new ≡ seat.old) }
    {
        if seat.calls.reserve(1).is_err() {
            return Err(AllocFailed { value: updates });
        }
        let receipt = self.book.lock(rt).take(updates)?;
        seat.calls.push_reserved(());
        Ok(receipt)
    }

    /// Keeps what is held, as `NodeBook::keep` does.
    pub fn keep<R: Wait>(&self, rt: &R, seat: &mut Seat) -> Result<Receipt, AllocError>
        ensures told { IfOk result (λ receipt. receipt.event ≡ Kept) }
        ensures counted { OnOk result (seat.new ≡ seat.old + 1) }
        ensures unchanged { OnErr result (seat.new ≡ seat.old) }
    {
        seat.calls.reserve(1)?;
        let receipt = self.book.lock(rt).keep()?;
        seat.calls.push_reserved(());
        Ok(receipt)
    }

    /// Holds what was kept, and nothing else, as `NodeBook::restart` does.
    pub fn restart<R: Wait>(&self, rt: &R, seat: &mut Seat) -> Result<Receipt, AllocError>
        ensures told { IfOk result (λ receipt. receipt.event ≡ Restarted) }
        ensures counted { OnOk result (seat.new ≡ seat.old + 1) }
        ensures unchanged { OnErr result (seat.new ≡ seat.old) }
    {
        seat.calls.reserve(1)?;
        let receipt = self.book.lock(rt).restart()?;
        seat.calls.push_reserved(());
        Ok(receipt)
    }

    /// Ends the node, if the receipts account for its history: each event has one receipt, at its number, and each seat's list
    /// rises. If they do not, the node is returned with the seats and the receipts.
    ///
    /// # Errors
    ///
    /// Fails at the first receipt, seat after seat, that does not fit; then at the least number that is on no receipt. Also fails
    /// where memory is refused.
    pub fn close(
        self,
        ends: Vec<(Seat, Vec<Receipt>)>,
    ) -> Result<ClosedNode, (LiveNode<C>, Vec<(Seat, Vec<Receipt>)>, CloseFault)>
        requires { HaveAllReceipts ends.items }
        ensures legal { IfOk result IsLegal }
        ensures truth { IfOk result
            (λ closed. HoldsTrueFacts C.catalog (replay closed).held.facts) }
        ensures receipts { IfOk result (λ closed. AccountFor closed (receipts_of ends.items)) }
        ensures counted { IfOk result (λ closed. length closed ≡ calls_of ends.items) }
        ensures handed_back { IfErr result (λ back. back.1 ≡ ends) }
        ensures fault { IfErr result (λ back. IsSomeCloseFault ends.items back.2) }
    {
        let LiveNode { alloc, book } = self;
        match close_node_book(alloc, book.into_inner(), ends) {
            Ok(closed) => Ok(closed),
            Err((book, ends, fault)) => Err((
                LiveNode {
                    alloc,
                    book: Mutex::new(book),
                },
                ends,
                fault,
            )),
        }
    }
}

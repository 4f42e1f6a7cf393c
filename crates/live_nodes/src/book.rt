//! A node with its history.

ghost use Rattle.live_nodes.specs.Books.{IsRecorded, updates_in, updates_of};
ghost use Rattle.live_nodes.specs.Histories.{IsLegal, replay};
ghost use Rattle.live_nodes.specs.Loans.{AreTrueFactsOf};
ghost use Rattle.live_nodes.specs.Updates.{state_of, with_update, with_updates};
ghost use Rattle.live_nodes.specs.declared.event.Event.TheVariants.{Kept, Lent, Restarted, Took};
ghost use Rattle.held_facts.specs.Answers.{IsLendFault};
ghost use Rattle.held_facts.specs.HeldAnswers.{lacks};
ghost use Rattle.held_facts.specs.HeldFacts.{HoldsTrueFacts};
ghost use Rattle.node_state.specs.States.{facts_in, lent, retired_in};
ghost use Rattle.std.specs.List.{list_any};
ghost use Rattle.std.specs.Prelude.{◌≡◌, ◌++◌, ◌∷◌, [], IfErr, IfOk, OnErr, OnOk, length};
ghost use Rattle.updates.specs.TrueUpdates.{AreTrue};

use crate::event::{
    Event, Updates, copy_updates_for_node_event, make_lent_node_event_with_retired_ids,
};
use crate::receipt::{Loan, Receipt};
use catalog::{Catalog, NamedCatalog};
use fact_store::{FactStore, TableFacts};
use identity::Key;
use node_state::{LendFault, NodeState};
use std::alloc::{AllocError, AllocFailed, Global};
use std::marker::{Model, PhantomData};
use tile_fact::Update;

/// What one node holds and keeps, over any store, with the history of all that happened to it. Contracts see the history: it is
/// legal, and what is held and kept is what it leaves. Each fact held or kept is true of the catalog that the type names.
#[derive(Drop)]
pub struct NodeBook<C: NamedCatalog, S: FactStore = TableFacts> {
    alloc: Global,
    held: NodeState<S>,
    kept: NodeState<S>,
    // How many events there were up to the last keep or restart, both included.
    since: usize,
    history: Vec<Event>,
    of: PhantomData<C>,
}

impl<C: NamedCatalog, S: FactStore> Model for NodeBook<C, S> {
    ghost use Rattle.live_nodes.specs.Books.{IsBook};
    ghost use Rattle.live_nodes.specs.declared.event.Event.{Event};
    ghost use Rattle.std.specs.Prelude.{List};

    ghost Value = { List Event };

    ghost view = { λ book. book.history.items };

    ghost invariant = { λ book. IsBook C.catalog book.held book.kept book.since book.history.items };
}

impl<C: NamedCatalog, S: FactStore> NodeBook<C, S> {
    /// A node that holds and keeps nothing, and to which nothing happened yet. No memory is allocated.
    pub fn new(alloc: Global, catalog: &Catalog) -> NodeBook<C, S>
        requires { catalog.now ≡ C.catalog }
        ensures { result ≡ [] }
    {
        // `job` ensures what holds of each catalog, whichever index is requested.
        let _ = catalog.job(0);
        NodeBook {
            alloc,
            held: NodeState::new(alloc),
            kept: NodeState::new(alloc),
            since: 0,
            history: Vec::new(alloc),
            of: PhantomData,
        }
    }

    /// What is held.
    pub fn held(&self) -> &NodeState<S>
        ensures stands { result.now ≡ (replay self.now).held }
        ensures truth { HoldsTrueFacts C.catalog result.now.facts }
    {
        &self.held
    }

    /// What is kept for a restart.
    pub fn kept(&self) -> &NodeState<S>
        ensures stands { result.now ≡ (replay self.now).kept }
        ensures truth { HoldsTrueFacts C.catalog result.now.facts }
    {
        &self.kept
    }

    /// Whether nothing is held of one of the keys. It is not recorded.
    pub fn lacks_any_key(&self, keys: &[Key]) -> bool
        ensures lacking { result ≡ list_any (lacks (replay self.now).held.facts) keys.now }
        ensures legal { IsLegal self.now }
        ensures truth { HoldsTrueFacts C.catalog (replay self.now).held.facts }
    {
        // `history` ensures that it is legal.
        let _ = self.history();
        let held = self.held().held();
        keys.iter().any(|key| held.count_facts_of_key(key) == 0)
    }

    /// All events so far.
    pub fn history(&self) -> &[Event]
        ensures events { result.now ≡ self.now }
        ensures legal { IsLegal self.now }
    {
        &self.history
    }

    /// Lends the facts of the keys, returns the identities of all retired jobs with them, and records this. The keys may be in
    /// any order and may repeat.
    ///
    /// # Errors
    ///
    /// Fails at the least key of which nothing is held, and where memory is refused. Then nothing is recorded.
    pub fn lend(&mut self, keys: &[Key]) -> Result<Loan, LendFault>
        ensures lent { IfOk result
            (λ loan. loan.facts.items ≡ facts_in (lent (replay self.old).held keys.now)) }
        ensures truth { IfOk result
            (λ loan. AreTrueFactsOf C.catalog keys.now loan.facts.items) }
        ensures retired { IfOk result
            (λ loan. loan.retired.items ≡ retired_in (replay self.old).held) }
        ensures recorded { IfOk result
            (λ loan. IsRecorded self.old self.new (Lent keys.now loan.retired.items) loan.receipt) }
        ensures fault { IfErr result (IsLendFault (replay self.old).held.facts keys.now) }
        ensures unchanged { OnErr result (self.new ≡ self.old) }
    {
        let facts = self.held.lend(keys)?;
        let retired = self.held.retired().to_vec(self.alloc)?;
        let lent = make_lent_node_event_with_retired_ids(self.alloc, keys, &retired)?;
        let event = make_lent_node_event_with_retired_ids(self.alloc, keys, &retired)?;
        self.history.reserve(1)?;
        let number = self.history.len() as u64;
        self.history.push_reserved(lent);
        Ok(Loan {
            facts,
            retired,
            receipt: Receipt { number, event },
        })
    }

    /// Takes updates into what is held, and records this. If memory is refused, they are handed back and nothing changes.
    pub fn take(&mut self, updates: Vec<Update>) -> Result<Receipt, AllocFailed<Vec<Update>>>
        requires { AreTrue C.catalog updates.items }
        ensures recorded { IfOk result (IsRecorded self.old self.new (Took updates.items)) }
        ensures handed_back { IfErr result (λ back. back.value ≡ updates) }
        ensures unchanged { OnErr result (self.new ≡ self.old) }
    {
        match self.take_copies_of_updates(&updates) {
            Ok(number) => Ok(Receipt {
                number,
                event: Event::Took(Updates::new(updates)),
            }),
            Err(_) => Err(AllocFailed { value: updates }),
        }
    }

    // Takes copies of updates, and returns the number of the event.
    fn take_copies_of_updates(&mut self, updates: &[Update]) -> Result<u64, AllocError>
        requires { AreTrue C.catalog updates.now }
        ensures recorded { OnOk result (self.new ≡ self.old ++ Took updates.now ∷ []) }
        ensures number { IfOk result (λ number. number ≡ length self.old) }
        ensures unchanged { OnErr result (self.new ≡ self.old) }
    {
        let taken = copy_updates_for_node_event(self.alloc, updates)?;
        let state: NodeState<S> = build_node_book_state_from_updates(self.alloc, updates)?;
        self.history.reserve(1)?;
        self.held.merge(&state)?;
        let number = self.history.len() as u64;
        self.history.push_reserved(Event::Took(taken));
        Ok(number)
    }

    /// Keeps what is held, and records it. What is kept shares its facts with what is held. It takes time by what was taken since
    /// the last keep or restart, and not by all that is held.
    pub fn keep(&mut self) -> Result<Receipt, AllocError>
        ensures recorded { IfOk result (IsRecorded self.old self.new Kept) }
        ensures unchanged { OnErr result (self.new ≡ self.old) }
    {
        let (_, recent) = self.history.split_at(self.since);
        let taken: NodeState<S> = build_node_book_state_from_events(self.alloc, recent)?;
        self.history.reserve(1)?;
        self.kept.merge(&taken)?;
        let number = self.history.len();
        self.history.push_reserved(Event::Kept);
        self.since = number + 1;
        Ok(Receipt {
            number: number as u64,
            event: Event::Kept,
        })
    }

    /// Holds what was kept, and nothing else, and records it.
    pub fn restart(&mut self) -> Result<Receipt, AllocError>
        ensures recorded { IfOk result (IsRecorded self.old self.new Restarted) }
        ensures unchanged { OnErr result (self.new ≡ self.old) }
    {
        let held = self.kept.copy()?;
        self.history.reserve(1)?;
        let number = self.history.len();
        self.held = held;
        self.history.push_reserved(Event::Restarted);
        self.since = number + 1;
        Ok(Receipt {
            number: number as u64,
            event: Event::Restarted,
        })
    }

    /// What is held at the end, and all events.
    pub fn into_state_and_history(self) -> (NodeState<S>, Vec<Event>)
        ensures stands { result.0 ≡ (replay self).held }
        ensures truth { HoldsTrueFacts C.catalog result.0.facts }
        ensures events { result.1.items ≡ self }
        ensures legal { IsLegal self }
    {
        let NodeBook { held, history, .. } = self;
        (held, history)
    }
}

// What these updates alone make.
fn build_node_book_state_from_updates<S: FactStore>(
    alloc: Global,
    updates: &[Update],
) -> Result<NodeState<S>, AllocError>
    ensures { IfOk result (λ state. state ≡ state_of updates.now) }
{
    let mut state = NodeState::new(alloc);
    apply_updates_to_node_book_state(&mut state, updates)?;
    Ok(state)
}

// What the updates that these events took make.
fn build_node_book_state_from_events<S: FactStore>(
    alloc: Global,
    events: &[Event],
) -> Result<NodeState<S>, AllocError>
    ensures { IfOk result (λ state. state ≡ state_of (updates_in events.now)) }
{
    let mut state = NodeState::new(alloc);
    for event in events {
        apply_updates_to_node_book_state(&mut state, borrow_updates_of_node_event(event))?;
    }
    Ok(state)
}

// The updates that an event took.
fn borrow_updates_of_node_event(event: &Event) -> &[Update]
    ensures { result.now ≡ updates_of event.now }
{
    match event {
        Event::Took(updates) => updates.as_slice(),
        Event::Lent(_, _) | Event::Kept | Event::Restarted => &[],
    }
}

// Takes updates into a state, one after another.
fn apply_updates_to_node_book_state<S: FactStore>(
    state: &mut NodeState<S>,
    updates: &[Update],
) -> Result<(), AllocError>
    ensures { OnOk result (state.new ≡ with_updates state.old updates.now) }
{
    for update in updates {
        apply_update_to_node_book_state(state, update)?;
    }
    Ok(())
}

// Takes an update into a state.
fn apply_update_to_node_book_state<S: FactStore>(
    state: &mut NodeState<S>,
    update: &Update,
) -> Result<(), AllocError>
    ensures { OnOk result (state.new ≡ with_update state.old update.now) }
{
    match update {
        Update::Fact(fact) => {
            state.take(fact.clone()?)?;
        }
        Update::Retire(ids) => {
            state.retire(ids)?;
        }
    }
    Ok(())
}

//! The nodes of a farm after it has run.

ghost use Rattle.std.specs.List.{list_any};
ghost use Rattle.std.specs.Prelude.{◌≡◌, drop, false, take, All, IfErr, IfOk, OnOk, length, map};
ghost use Rattle.std.specs.Vec.Iter.{into_iter_items, into_iter_len};
ghost use Rattle.farm.specs.FarmFaults.{result_of_closing};
ghost use Rattle.farm.specs.NodeEnds.{HaveClosed, IsClosingFault, end_of};
ghost use Rattle.farm.specs.Reports.{IsSoundEnd, all_held};
ghost use Rattle.held_facts.specs.Facts.{lent};
ghost use Rattle.live_nodes.specs.Ends.{HaveAllReceipts};

use crate::fault::FarmFault;
use crate::hand::WorkerReceipts;
use crate::node::{FarmNode, WORKERS};
use crate::refusal::close_farm_node;
use catalog::NamedCatalog;
use held_facts::{HeldFacts, LendFault};
use identity::Key;
use live_nodes::{ClosedNode, Receipt, Seat};
use std::alloc::{AllocError, Global};
use std::vec;

/// Closes each node with the receipts of its workers. If all are closed, none of the workers ran out of memory.
///
/// # Errors
///
/// `Close` only where the receipts of a node's workers do not match its history, before `Memory` of a worker.
pub fn close_farm_nodes_to_list_or_memory_fault<C: NamedCatalog>(
    alloc: Global,
    nodes: Vec<FarmNode<C>>,
    ends: Vec<WorkerReceipts>,
) -> Result<Vec<ClosedNode>, FarmFault>
    ensures sound { IfOk result (λ closed. All (IsSoundEnd C.catalog) closed.items) }
    ensures count { IfOk result (λ closed. length closed.items ≡ length nodes.items) }
    ensures receipts { IfOk result (λ closed. HaveClosed closed.items ends.items) }
    ensures fault { IfErr result (IsClosingFault (length nodes.items) ends.items) }
    ensures memory { IfOk result (λ _. list_any (λ end. end.memory) ends.items ≡ false) }
{
    let memory = has_any_farm_worker_lacked_memory(&ends);
    fail_closing_if_farm_worker_lacks_memory(memory, close_each_farm_node(alloc, nodes, ends))
}

// Whether one of these workers ran out of memory.
fn has_any_farm_worker_lacked_memory(ends: &[WorkerReceipts]) -> bool
    ensures { result ≡ list_any (λ end. end.memory) ends.now }
{
    ends.iter().any(|end| end.memory)
}

// The result of closing all nodes, by whether some worker ran out of memory.
fn fail_closing_if_farm_worker_lacks_memory<T: Drop>(
    memory: bool,
    closing: Result<T, FarmFault>,
) -> Result<T, FarmFault>
    ensures told { result ≡ result_of_closing memory closing }
    ensures none { IfOk result (λ _. memory ≡ false) }
{
    let closed = closing?;
    if memory {
        return Err(FarmFault::Memory);
    }
    Ok(closed)
}

// Closes each node with the receipts of its workers, whether or not these ran out of memory.
fn close_each_farm_node<C: NamedCatalog>(
    alloc: Global,
    nodes: Vec<FarmNode<C>>,
    ends: Vec<WorkerReceipts>,
) -> Result<Vec<ClosedNode>, FarmFault>
    ensures sound { IfOk result (λ closed. All (IsSoundEnd C.catalog) closed.items) }
    ensures count { IfOk result (λ closed. length closed.items ≡ length nodes.items) }
    ensures receipts { IfOk result (λ closed. HaveClosed closed.items ends.items) }
    ensures fault { IfErr result (IsClosingFault (length nodes.items) ends.items) }
{
    let mut closed: Vec<ClosedNode> = Vec::new(alloc);
    let mut rest = ends.into_iter();
    for node in nodes {
        let mine = take_worker_receipts_of_next_node(alloc, &mut rest)?;
        let one = close_farm_node(node.live, mine)?;
        closed.reserve(1)?;
        closed.push_reserved(one);
    }
    Ok(closed)
}

// The seats of one node's workers, with their receipts.
fn take_worker_receipts_of_next_node(
    alloc: Global,
    rest: &mut vec::IntoIter<WorkerReceipts>,
) -> Result<Vec<(Seat, Vec<Receipt>)>, AllocError>
    ensures all { IfOk result (λ mine. HaveAllReceipts mine.items) }
    ensures taken { into_iter_len rest.old ≡ length (into_iter_items rest.old) → IfOk result
        (λ mine. mine.items ≡ map end_of (take 2 (into_iter_items rest.old))) }
    ensures rest { into_iter_len rest.old ≡ length (into_iter_items rest.old) → OnOk result
        (into_iter_items rest.new ≡ drop 2 (into_iter_items rest.old)) }
    ensures whole { into_iter_len rest.old ≡ length (into_iter_items rest.old)
        → into_iter_len rest.new ≡ length (into_iter_items rest.new) }
{
    let mut mine: Vec<(Seat, Vec<Receipt>)> = Vec::new(alloc);
    for _ in 0..WORKERS {
        if let Some(end) = rest.next() {
            let WorkerReceipts { seat, receipts, .. } = end;
            mine.reserve(1)?;
            mine.push_reserved((seat, receipts));
        }
    }
    Ok(mine)
}

/// The facts of the keys that any of the nodes holds at the end. A retirement at one node excludes no fact of another.
pub fn join_facts_of_closed_farm_nodes_by_keys(
    alloc: Global,
    keys: &[Key],
    closed: &[ClosedNode],
) -> Result<HeldFacts, AllocError>
    ensures { IfOk result (λ held. held ≡ lent (all_held closed.now) keys.now) }
{
    let mut all = HeldFacts::new(alloc);
    for one in closed {
        let lent = select_facts_of_closed_farm_node_by_keys(alloc, keys, one.state().held())?;
        all.merge(&lent)?;
    }
    Ok(all)
}

// The held facts of the keys. Of some keys nothing may be held.
fn select_facts_of_closed_farm_node_by_keys(
    alloc: Global,
    keys: &[Key],
    held: &HeldFacts,
) -> Result<HeldFacts, AllocError>
    ensures { IfOk result (λ found. found ≡ lent held.now keys.now) }
{
    let mut there = keys.to_vec(alloc)?;
    there.retain(|key| held.count_facts_of_key(key) != 0);
    match held.lend_fact_set(&there) {
        Ok(lent) => Ok(lent),
        Err(LendFault::Memory) => Err(AllocError),
        Err(LendFault::NotHeld(_)) => unreachable!(),
    }
}

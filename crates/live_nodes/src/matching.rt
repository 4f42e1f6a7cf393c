//! Comparison of receipts with a history.

ghost use Rattle.live_nodes.specs.declared.receipt.Receipt.{Receipt as ReceiptType};
ghost use Rattle.live_nodes.specs.Accounts.{AccountFor, IsCloseFault, IsFirstUnfit, IsShown};
ghost use Rattle.live_nodes.specs.inside.Marks.{AreSeen};
ghost use Rattle.std.specs.Bool.{OnTrue};
ghost use Rattle.std.specs.Prelude.{◌≡◌, ◌↔◌, ◌<◌, ◌++◌, ◌∷◌, [], ℕ, List, IfErr, IfNone, IfSome, IsTrue, OnOk, false, length};
ghost use Rattle.std.specs.Prelude.{map, slice_index_or, true};

use crate::equality::is_same_node_event;
use crate::event::Event;
use crate::fault::CloseFault;
use crate::receipt::Receipt;
use std::alloc::Global;

/// Whether receipts account for a history: each list rises, each receipt has the history's event at its number, and each event
/// has one receipt. Each list comes with its owner, which is not used.
///
/// # Errors
///
/// Fails at the first receipt, list after list, that does not fit. Else fails at the least number that is on no receipt. Fails
/// where memory is refused.
pub fn check_receipts_against_node_events<T>(
    alloc: Global,
    history: &[Event],
    lists: &[(T, Vec<Receipt>)],
) -> Result<(), CloseFault>
    ensures ok { OnOk result (AccountFor history.now (map (λ list. list.1.items) lists.now)) }
    ensures fault { IfErr result
        (IsCloseFault history.now (map (λ list. list.1.items) lists.now)) }
{
    let mut seen = Vec::from_elem(alloc, false, history.len())?;
    for list in lists {
        if let Err(number) = check_and_mark_node_events_of_receipts(
            history,
            list.1.as_slice(),
            seen.as_mut_slice(),
        ) {
            return Err(CloseFault::ReceiptMismatch(number));
        }
    }
    match find_first_node_event_without_receipt(seen.as_slice()) {
        Some(number) => Err(CloseFault::ReceiptMismatch(number)),
        None => Ok(()),
    }
}

// Marks the numbers of one more list, or returns the number of the first receipt that does not fit.
fn check_and_mark_node_events_of_receipts(
    history: &[Event],
    receipts: &[Receipt],
    seen: &mut [bool],
) -> Result<(), u64>
    requires { length seen.old ≡ length history.now }
    ensures seen { (earlier : List (List ReceiptType)) → AreSeen history.now earlier seen.old
        → OnOk result (AreSeen history.now (earlier ++ receipts.now ∷ []) seen.new) }
    ensures unfit { (earlier later : List (List ReceiptType))
        → AreSeen history.now earlier seen.old
        → IfErr result (IsFirstUnfit history.now (earlier ++ receipts.now ∷ later)) }
{
    let mut least: u64 = 0;
    for receipt in receipts {
        let number = receipt.number;
        if number < least {
            return Err(number);
        }
        if !is_receipt_in_history(history, receipt) {
            return Err(number);
        }
        if seen[number as usize] {
            return Err(number);
        }
        seen[number as usize] = true;
        least = number + 1;
    }
    Ok(())
}

// Whether the history has the receipt's event at its number.
fn is_receipt_in_history(history: &[Event], receipt: &Receipt) -> bool
    ensures shown { IsTrue result ↔ IsShown history.now receipt.now }
    ensures within { OnTrue result (receipt.now.number < length history.now) }
{
    match history.get(receipt.number as usize) {
        Some(event) => is_same_node_event(event, &receipt.event),
        None => false,
    }
}

// The least number that is not marked.
fn find_first_node_event_without_receipt(seen: &[bool]) -> Option<u64>
    ensures within { IfSome result (λ number. number < length seen.now) }
    ensures unseen { IfSome result (λ number. slice_index_or seen.now number false ≡ false) }
    ensures first { IfSome result
        (λ number. (k : ℕ) → k < number → slice_index_or seen.now k false ≡ true) }
    ensures none { IfNone result
        ((k : ℕ) → k < length seen.now → slice_index_or seen.now k false ≡ true) }
{
    for number in 0..seen.len() {
        if !seen[number] {
            return Some(number as u64);
        }
    }
    None
}

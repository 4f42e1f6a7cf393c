//! Copies of updates, which share the numbers of their facts.

ghost use Rattle.std.specs.Prelude.{◌≡◌, ◌∷◌, [], IfOk};
ghost use Rattle.tile_fact.specs.declared.update.Update.TheVariants as update;

use std::alloc::{AllocError, Global};
use tile_fact::{Fact, Update};

/// The same updates.
pub fn copy_update_list(alloc: Global, updates: &[Update]) -> Result<Vec<Update>, AllocError>
    ensures { IfOk result (λ copies. copies.items ≡ updates.now) }
{
    let mut copies = Vec::with_capacity(alloc, updates.len())?;
    for update in updates {
        copies.push(update.clone()?)?;
    }
    Ok(copies)
}

/// The update that is this fact, alone.
pub fn make_update_list_of_fact(alloc: Global, fact: &Fact) -> Result<Vec<Update>, AllocError>
    ensures { IfOk result (λ updates. updates.items ≡ update.Fact fact.now ∷ []) }
{
    let mut updates = Vec::with_capacity(alloc, 1)?;
    updates.push(Update::Fact(fact.clone()?))?;
    Ok(updates)
}

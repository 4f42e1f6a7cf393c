//! A store of ordered tables.

ghost use Rattle.fact_store.specs.Facts.{with_fact, holds, join, lacked};
ghost use Rattle.fact_store.specs.inside.SortedLists.{rises, set_of};
ghost use Rattle.fact_store.specs.inside.Tables.{all_facts, set_in, table_at, tables_above, stand, undo_one, undone};
ghost use Rattle.std.specs.List.{list_any};
ghost use Rattle.std.specs.Option.{is_some, option_copied};
ghost use Rattle.std.specs.Ordering.{eq_by_cmp};
ghost use Rattle.std.specs.Prelude.{◌≡◌, ◌≤◌, ◌<◌, ◌^◌, true, false, not, IfOk, IfErr, IfSome, IfNone, OnOk, OnErr, length, slice_get, insert};
ghost use Rattle.tile_fact.specs.Order.{fact_cmp};

use crate::sorted::{
    count_sorted_facts_not_above, find_place_in_sorted_facts, get_sorted_fact_at_index,
    is_fact_set_key_of_jobs, push_sorted_fact_copies,
};
use crate::store::FactStore;
use identity::{JobId, Key};
use std::alloc::{AllocError, AllocFailed, Global};
use std::collections::BTreeMap;
use std::marker::Model;
use std::ops::Bound;
use std::sync::ArcSlice;
use tile_fact::Fact;

/// The facts of one key, in a list that rises. Copies share them.
#[derive(Drop)]
struct KeyFacts {
    facts: ArcSlice<Fact>,
}

impl Model for KeyFacts {
    ghost use Rattle.fact_store.specs.Facts.{coded_fact};
    ghost use Rattle.std.specs.Arc.{arc_slice_items};
    ghost use Rattle.std.specs.Coded.{coded_list};
    ghost use Rattle.std.specs.Prelude.{List};
    ghost use Rattle.tile_fact.specs.declared.fact.Fact.{Fact};

    ghost Value = { List Fact };

    ghost coded = { coded_list coded_fact };

    ghost view = { λ table. arc_slice_items table.facts };
}

impl Clone for KeyFacts {
    ghost use Rattle.std.specs.Prelude.{◌≡◌};

    ghost is_clone = { λ it copy. copy ≡ it };

    fn clone(&self) -> Result<KeyFacts, AllocError> {
        let facts = self.facts.clone()?;
        Ok(KeyFacts { facts })
    }
}

impl KeyFacts {
    // Copies of facts, with a copy of another one at a place.
    fn from_insertion(
        alloc: Global,
        facts: &[Fact],
        place: usize,
        fact: &Fact,
    ) -> Result<KeyFacts, AllocError>
        requires { place ≤ length facts.now }
        ensures { IfOk result (λ table. table ≡ insert facts.now place fact.now) }
    {
        let mut copies = Vec::with_capacity(alloc, facts.len() + 1)?;
        push_sorted_fact_copies(&mut copies, facts)?;
        copies.insert(place, fact.clone()?)?;
        let facts = ArcSlice::from_vec(copies)?;
        Ok(KeyFacts { facts })
    }

    fn as_slice(&self) -> &[Fact]
        ensures { result.now ≡ self.now }
    {
        self.facts.as_slice()
    }
}

/// Facts in tables, one for each key that has any, in the order of the keys. Finding a key takes time logarithmic in the number
/// of keys. Adding a fact makes the table of its key again, and moves no other one. A copy shares the facts of each key.
#[derive(Drop)]
pub struct TableFacts {
    alloc: Global,
    tables: BTreeMap<Key, KeyFacts>,
    ghost stand: { stand tables.entries ≡ true },
}

impl FactStore for TableFacts {
    ghost content = { λ store. set_in store.tables.entries };

    fn new(alloc: Global) -> TableFacts {
        TableFacts {
            alloc,
            tables: BTreeMap::new(alloc),
        }
    }

    fn copy(&self) -> Result<TableFacts, AllocError> {
        Ok(TableFacts {
            alloc: self.alloc,
            tables: self.tables.clone()?,
        })
    }

    // A copy is stored, so that the fact itself is available if memory runs out.
    fn add_fact(&mut self, fact: Fact) -> Result<bool, AllocFailed<Fact>> {
        match self.add_fact_copy_and_get_former_entry(&fact) {
            Ok(former) => Ok(former.is_some()),
            Err(_) => Err(AllocFailed { value: fact }),
        }
    }

    // The facts of the other store are added in their order. If memory runs out, what was added is removed again.
    fn join_facts(&mut self, other: &TableFacts) -> Result<usize, AllocError> {
        let mut undo = Vec::new(self.alloc);
        match self.add_facts_of_tables_and_note_undo(&other.tables, &mut undo) {
            Ok(new) => Ok(new),
            Err(fault) => {
                restore_table_facts_of_keys(&mut self.tables, undo);
                Err(fault)
            }
        }
    }

    fn remove_facts_of_jobs(&mut self, jobs: &[JobId]) {
        self.tables
            .retain(|key, _| !is_fact_set_key_of_jobs(jobs, key));
    }

    fn count_facts_of_key(&self, key: &Key) -> usize {
        self.find_sorted_facts_of_key(key).len()
    }

    fn find_nth_fact_of_key(&self, key: &Key, n: usize) -> Option<&Fact> {
        get_sorted_fact_at_index(self.find_sorted_facts_of_key(key), n)
    }

    fn find_least_fact_of_all_keys(&self) -> Option<&Fact> {
        match self.tables.first_key_value() {
            Some((_, table)) => get_sorted_fact_at_index(table.as_slice(), 0),
            None => None,
        }
    }

    fn find_least_fact_above(&self, fact: &Fact) -> Option<&Fact> {
        let facts = self.find_sorted_facts_of_key(fact.key());
        match get_sorted_fact_at_index(facts, count_sorted_facts_not_above(facts, fact)) {
            Some(next) => Some(next),
            None => self.find_least_fact_above_key(fact.key()),
        }
    }
}

impl TableFacts {
    // The facts of the key.
    fn find_sorted_facts_of_key(&self, key: &Key) -> &[Fact]
        ensures table { result.now ≡ table_at self.now.tables.entries key.now }
        ensures rising { rises result.now ≡ true }
    {
        match self.tables.get(key) {
            Some(table) => table.as_slice(),
            None => &[],
        }
    }

    // The least fact of the keys above the key.
    fn find_least_fact_above_key(&self, key: &Key) -> Option<&Fact>
        ensures { option_copied result
            ≡ slice_get (all_facts (tables_above key.now self.now.tables.entries)) 0 }
    {
        let above = (Bound::Excluded(*key), Bound::Unbounded);
        match self.tables.range(above).next() {
            Some((_, table)) => get_sorted_fact_at_index(table.as_slice(), 0),
            None => None,
        }
    }

    // Adds a copy of a fact, and returns the former entry of its key; none if the fact is there already.
    fn add_fact_copy_and_get_former_entry(
        &mut self,
        fact: &Fact,
    ) -> Result<Option<(Key, Option<KeyFacts>)>, AllocError>
        ensures added { OnOk result
            (set_in self.new.tables.entries ≡ with_fact (set_in self.old.tables.entries) fact.now) }
        ensures new { IfOk result
            (λ former. is_some former ≡ not (holds (set_in self.old.tables.entries) fact.now)) }
        ensures former { IfOk result (λ former. IfSome former
            (λ u. undo_one u self.new.tables.entries ≡ self.old.tables.entries)) }
        ensures same { IfOk result
            (λ former. IfNone former (self.new.tables.entries ≡ self.old.tables.entries)) }
        ensures only_new { IfErr result
            (λ _. holds (set_in self.old.tables.entries) fact.now ≡ false) }
        ensures unchanged { OnErr result (self.new.tables.entries ≡ self.old.tables.entries) }
    {
        let facts = self.find_sorted_facts_of_key(fact.key());
        let Err(at) = find_place_in_sorted_facts(facts, fact) else {
            return Ok(None);
        };
        let table = KeyFacts::from_insertion(self.alloc, facts, at, fact)?;
        let former = self.tables.insert(*fact.key(), table)?;
        Ok(Some((*fact.key(), former)))
    }

    // Adds a copy of a fact, and returns whether it is new. The former entry of its key is noted.
    fn add_fact_copy_and_note_undo(
        &mut self,
        fact: &Fact,
        undo: &mut Vec<(Key, Option<KeyFacts>)>,
    ) -> Result<bool, AllocError>
        ensures added { OnOk result
            (set_in self.new.tables.entries ≡ with_fact (set_in self.old.tables.entries) fact.now) }
        ensures new { IfOk result
            (λ new. new ≡ not (holds (set_in self.old.tables.entries) fact.now)) }
        ensures undo { undone undo.new.items self.new.tables.entries
            ≡ undone undo.old.items self.old.tables.entries }
    {
        undo.reserve(1)?;
        match self.add_fact_copy_and_get_former_entry(fact)? {
            Some(former) => {
                undo.push_reserved(former);
                Ok(true)
            }
            None => Ok(false),
        }
    }

    // Adds copies of facts, and returns how many are new. If memory runs out, some are added.
    fn add_fact_copies_and_note_undo(
        &mut self,
        facts: &[Fact],
        undo: &mut Vec<(Key, Option<KeyFacts>)>,
    ) -> Result<usize, AllocError>
        ensures added { OnOk result
            (set_in self.new.tables.entries
            ≡ join (set_in self.old.tables.entries) (set_of facts.now)) }
        ensures new { IfOk result (λ new. new
            ≡ length (lacked (set_in self.old.tables.entries) (set_in self.new.tables.entries))) }
        ensures undo { undone undo.new.items self.new.tables.entries
            ≡ undone undo.old.items self.old.tables.entries }
    {
        let mut new: usize = 0;
        for fact in facts {
            new += usize::from(self.add_fact_copy_and_note_undo(fact, undo)?);
        }
        Ok(new)
    }

    // Adds copies of the facts of tables, and returns how many are new. Facts that are too many to count would not fit into
    // memory.
    fn add_facts_of_tables_and_note_undo(
        &mut self,
        tables: &BTreeMap<Key, KeyFacts>,
        undo: &mut Vec<(Key, Option<KeyFacts>)>,
    ) -> Result<usize, AllocError>
        ensures joined { OnOk result
            (set_in self.new.tables.entries
            ≡ join (set_in self.old.tables.entries) (set_in tables.now.entries)) }
        ensures new { IfOk result (λ new. new
            ≡ length (lacked (set_in self.old.tables.entries) (set_in self.new.tables.entries))) }
        ensures few { IfOk result (λ new. new < 2 ^ 63) }
        ensures undo { undone undo.new.items self.new.tables.entries
            ≡ undone undo.old.items self.old.tables.entries }
    {
        let mut new: usize = 0;
        for (_, table) in tables {
            let more = self.add_fact_copies_and_note_undo(table.as_slice(), undo)?;
            new = new.checked_add(more).ok_or(AllocError)?;
        }
        if new > isize::MAX as usize {
            return Err(AllocError);
        }
        Ok(new)
    }
}

// Restores the former entry of a key.
fn restore_table_facts_of_key(
    tables: &mut BTreeMap<Key, KeyFacts>,
    key: &Key,
    former: Option<KeyFacts>,
)
    ensures { tables.new.entries ≡ undo_one (key.now, former) tables.old.entries }
{
    match former {
        Some(table) => {
            if let Some(place) = tables.get_mut(key) {
                *place = table;
            }
        }
        None => {
            tables.remove(key);
        }
    }
}

// Undoes changes, from the last on.
fn restore_table_facts_of_keys(
    tables: &mut BTreeMap<Key, KeyFacts>,
    undo: Vec<(Key, Option<KeyFacts>)>,
)
    ensures { tables.new.entries ≡ undone undo.items tables.old.entries }
{
    let mut rest = undo;
    while let Some((key, former)) = rest.pop() {
        restore_table_facts_of_key(tables, &key, former);
    }
}

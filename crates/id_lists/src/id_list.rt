//! A finite set of jobs' identities.

ghost use Rattle.id_lists.specs.IdLists.{ids_lacked};
ghost use Rattle.identity.specs.Keys.{ids_cmp};
ghost use Rattle.states.specs.IdSets.{has, ids_in_set, no_ids, union, with_ids};
ghost use Rattle.std.specs.List.{list_any};
ghost use Rattle.std.specs.Ordering.{eq_by_cmp};
ghost use Rattle.std.specs.Prelude.{◌≡◌, ◌<◌, ◌^◌, ◌++◌, IfOk, OnErr, OnOk, length};

use distinct::sort_without_repeats;
use identity::JobId;
use std::alloc::{AllocError, Global};
use std::marker::Model;

/// Identities of jobs, each once, in a list that rises. Contracts see the set of them.
#[derive(Drop)]
pub struct IdList {
    ids: Vec<JobId>,
}

impl Model for IdList {
    ghost use Rattle.id_lists.specs.IdLists.{coded_id_set, id_set};
    ghost use Rattle.identity.specs.Keys.{ids_cmp};
    ghost use Rattle.states.specs.IdSets.{IdSet};
    ghost use Rattle.std.specs.List.Sorted.{IsStrictlySortedBy};

    ghost Value = { IdSet };

    ghost coded = { coded_id_set };

    ghost view = { λ list. id_set list.ids.items };

    ghost invariant = { λ list. IsStrictlySortedBy ids_cmp list.ids.items };
}

impl IdList {
    /// The list of no identities. No memory is taken.
    pub fn new(alloc: Global) -> IdList
        ensures { result ≡ no_ids }
    {
        IdList {
            ids: Vec::new(alloc),
        }
    }

    /// The same list.
    pub fn copy(&self, alloc: Global) -> Result<IdList, AllocError>
        ensures { IfOk result (λ copy. copy ≡ self.now) }
    {
        let mut ids = Vec::with_capacity(alloc, self.ids.len())?;
        push_listed_job_id_copies(&mut ids, &self.ids)?;
        Ok(IdList { ids })
    }

    /// The identities, rising.
    pub fn as_slice(&self) -> &[JobId]
        ensures { result.now ≡ ids_in_set self.now }
    {
        self.ids.as_slice()
    }

    /// Whether a job's identities are among these.
    pub fn has_job_id(&self, ids: &JobId) -> bool
        ensures { result ≡ has self.now ids.now }
    {
        has_listed_job_id(&self.ids, ids)
    }

    /// Adds a job's identities. If memory runs out, the list is unchanged.
    pub fn add_job_id(&mut self, ids: &JobId) -> Result<(), AllocError>
        ensures added { OnOk result (self.new ≡ with_ids self.old ids.now) }
        ensures unchanged { OnErr result (self.new ≡ self.old) }
    {
        self.ids.push(*ids)?;
        sort_without_repeats(&mut self.ids);
        Ok(())
    }

    /// The identities that are in this list or in the other.
    pub fn build_union(&self, alloc: Global, other: &IdList) -> Result<IdList, AllocError>
        ensures { IfOk result (λ both. both ≡ union self.now other.now) }
    {
        let mut ids = Vec::with_capacity(alloc, self.ids.len())?;
        push_listed_job_id_copies(&mut ids, &self.ids)?;
        push_listed_job_id_copies(&mut ids, &other.ids)?;
        sort_without_repeats(&mut ids);
        Ok(IdList { ids })
    }

    /// How many identities of the other list are not in this one.
    pub fn count_job_ids_only_in_other(&self, other: &IdList) -> usize
        ensures count { result ≡ length (ids_lacked self.now other.now) }
        ensures few { result < 2 ^ 63 }
    {
        let mut count = 0;
        for ids in &other.ids {
            if !has_listed_job_id(&self.ids, ids) {
                count += 1;
            }
        }
        count
    }
}

// Whether the identities are in the list.
fn has_listed_job_id(list: &[JobId], ids: &JobId) -> bool
    ensures { result ≡ list_any (eq_by_cmp ids_cmp ids.now) list.now }
{
    list.iter().any(|other| ids.cmp(other).is_eq())
}

// Adds copies of the identities.
fn push_listed_job_id_copies(copies: &mut Vec<JobId>, ids: &[JobId]) -> Result<(), AllocError>
    ensures { OnOk result (copies.new.items ≡ copies.old.items ++ ids.now) }
{
    for one in ids {
        copies.push(*one)?;
    }
    Ok(())
}

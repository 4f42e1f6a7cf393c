//! The schedules of a node.

use grouping::Schedule;
use std::marker::Model;

/// A node's schedules, one for each job of a catalog, in its order. Contracts see what they inline.
#[derive(Debug, Drop)]
pub struct NodeSchedules {
    items: Vec<Schedule>,
}

impl Model for NodeSchedules {
    ghost use Rattle.std.specs.Coded.{coded_bool, coded_list};
    ghost use Rattle.std.specs.Prelude.{Bool, List, map};

    ghost Value = { List (List Bool) };

    ghost coded = { coded_list (coded_list coded_bool) };

    ghost view = { λ s. map (λ i. i.inlining) s.items.items };
}

impl NodeSchedules {
    ghost use Rattle.std.specs.Option.{option_map};
    ghost use Rattle.std.specs.Prelude.{◌≡◌, length, map, slice_get};

    /// These schedules.
    pub fn new(items: Vec<Schedule>) -> NodeSchedules
        ensures { result ≡ map (λ s. s.inlining) items.items }
    {
        NodeSchedules { items }
    }

    /// How many there are.
    pub fn len(&self) -> usize
        ensures { result ≡ length self.now }
    {
        self.items.len()
    }

    /// The schedule for the job of this index.
    pub fn find_schedule_of_job(&self, job: usize) -> Option<&Schedule>
        ensures { option_map (λ s. s.now.inlining) result ≡ slice_get self.now job }
    {
        self.items.as_slice().get(job)
    }
}

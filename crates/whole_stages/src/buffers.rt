#![tactic(auto)]
//! Stages whose values are known on their whole domains.

ghost use Rattle.std.specs.Prelude.{◌≡◌, ◌≢◌, ◌<◌, length, Some, None, IfSome, IfNone, slice_get, slice_set};
ghost use Rattle.domains.specs.Area.{point_count};

use domains::Area;

/// The values of a stage on its whole domain, row by row.
#[derive(Drop)]
pub struct StageBuffer {
    pub(crate) area: Area,
    pub(crate) values: Vec<i32>,
    ghost size: { length values.items ≡ point_count area },
}

/// The stages whose values are known, each at the place of its number.
#[derive(Drop)]
pub struct StageBuffers {
    pub(crate) buffers: Vec<Option<StageBuffer>>,
}

impl StageBuffer {
    /// The values of an area: as many as it has points.
    pub fn new(area: Area, values: Vec<i32>) -> StageBuffer
        requires { length values.items ≡ point_count area }
        ensures area { result.area ≡ area }
        ensures values { result.values.items ≡ values.items }
    {
        StageBuffer { area, values }
    }

    /// The values alone.
    pub fn into_stage_values(self) -> Vec<i32>
        ensures { result.items ≡ self.values.items }
    {
        self.values
    }
}

impl StageBuffers {
    /// Keeps the values of a stage.
    pub fn insert_buffer(&mut self, stage: usize, whole: StageBuffer)
        requires { stage < length self.old.buffers.items }
        ensures { self.new.buffers.items ≡ slice_set self.old.buffers.items stage (Some whole) }
    {
        self.buffers[stage] = Some(whole);
    }

    /// Takes the values of a stage out, if they are known.
    pub fn take_out_buffer_of_stage_if_known(&mut self, stage: usize) -> Option<StageBuffer>
        ensures some { IfSome result
            (λ whole. slice_get self.old.buffers.items stage ≡ Some (Some whole)) }
        ensures none { IfNone result
            ((whole : StageBuffer) → slice_get self.old.buffers.items stage ≢ Some (Some whole)) }
        ensures rest { self.new.buffers.items ≡ slice_set self.old.buffers.items stage None }
    {
        self.buffers.get_mut(stage)?.take()
    }
}

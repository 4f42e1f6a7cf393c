#![tactic(auto)]
//! Which rows of other stages each row of a stage is made of.

ghost use Rattle.std.specs.Prelude.{◌≡◌, ◌≢◌, ◌<◌, ℕ, ℤ, true, List, All, OnOk, IfOk, IfSome, map, [], ◌∷◌};
ghost use Rattle.std.specs.Option.{option_map};
ghost use Rattle.domains.specs.Span.{Holds};
ghost use Rattle.job.specs.CaseViews.{case_view};
ghost use Rattle.job.specs.FormulaViews.{formula_view};
ghost use Rattle.job.specs.Kept.{pipeline_in};
ghost use Rattle.job.specs.Pipeline.{function};
ghost use Rattle.job.specs.Reads.{BodyReads};
ghost use Rattle.job.specs.Views.{stage_view};
ghost use Rattle.job.specs.WellFormed.{IsValued};
ghost use Rattle.row_plans.specs.Moved.{AreWindowsMoved, IsReadMoved};
ghost use Rattle.row_plans.specs.Rows.{IsKeptAt};
ghost use Rattle.row_plans.specs.Taken.{AreTakenKept, AreRowsReadOf, AddsCases, AddsReads, IsJoined, IsWider};
ghost use Rattle.row_plans.specs.Windows.{AreWindowsOf};
ghost use Rattle.row_plans.specs.declared.row_state.RowState.{RowState};

use crate::row_state_window::RowStateWindow;
use crate::rows_read::RowsRead;
use domains::{Area, Span};
use job::{Accumulator, Body, Function, Job, JobCase, Read, Stage};
use std::alloc::{AllocError, Global};

/// What each row of a stage is made of.
#[derive(Drop)]
pub(crate) struct StageRowsRead<'a> {
    stage: &'a Stage,
    reads: Vec<RowsRead>,
}

impl<'a> StageRowsRead<'a> {
    /// What each row of the stage is made of, or read by, if it is an accumulator. None if a kernel is too high.
    ///
    /// # Errors
    ///
    /// Fails only where memory is refused.
    fn from_stage(
        alloc: Global,
        job: &Job,
        stage: &'a Stage,
    ) -> Result<Option<StageRowsRead<'a>>, AllocError>
        ensures stage { IfOk result (λ found. IfSome found (λ x. x.stage.now ≡ stage.now)) }
        ensures covered { IfOk result (λ found. IfSome found
            (λ x. AreRowsReadOf (stage_view stage.now) x.reads.items)) }
    {
        match list_rows_read_of_stage(alloc, job, stage)? {
            Some(reads) => Ok(Some(StageRowsRead { stage, reads })),
            None => Ok(None),
        }
    }

    /// The stage's domain.
    pub(crate) fn area(&self) -> Area
        ensures { result ≡ self.now.stage.now.domain }
    {
        *self.stage.domain()
    }

    /// Whether the stage has values, so that rows of it are made. An accumulator has none: it only reads.
    #[inline]
    pub(crate) fn has_planned_rows(&self) -> bool
        ensures { result ≡ true → IsValued (stage_view self.now.stage.now).body }
    {
        match self.stage.body() {
            Body::Plane(_) | Body::Function(_) => true,
            Body::Accumulator(_) => false,
        }
    }

    /// The stage's rank.
    pub(crate) fn rank(&self) -> usize {
        self.stage.rank()
    }

    /// The number of the row at this place of the domain.
    pub(crate) fn find_row_at_place(&self, place: usize) -> i32 {
        let place = i32::try_from(place).unwrap_or(i32::MAX);
        self.area().rows.lo().saturating_add(place)
    }

    /// What each row is made of, or what an accumulator reads in it, besides planes.
    pub(crate) fn reads(&self) -> &[RowsRead]
        ensures { result.now ≡ self.now.reads.items }
    {
        &self.reads
    }

    /// Whether all that is read moves with the rows of the stage.
    pub(crate) fn are_rows_read_moved(
        &self,
        begun: &[RowStateWindow],
        ended: &[RowStateWindow],
        stage: usize,
    ) -> bool
        ensures { result ≡ true → (states : List RowState) (d : ℕ → ℕ)
            → AreWindowsMoved d states begun.now ended.now
            → All (IsReadMoved d states stage) self.now.reads.items }
    {
        for read in &self.reads {
            if !read.are_rows_read_moved(begun, ended, stage) {
                return false;
            }
        }
        true
    }

    /// Whether all that this row of the stage is made of is kept, and is of other stages.
    pub(crate) fn are_rows_read_kept(
        &self,
        windows: &[RowStateWindow],
        stage: usize,
        row: i32,
    ) -> bool
        ensures { result ≡ true → (states : List RowState) → AreWindowsOf states windows.now
            → All (AreTakenKept states stage row) self.now.reads.items }
    {
        for read in &self.reads {
            if !read.are_rows_read_kept(windows, stage, row) {
                return false;
            }
        }
        true
    }
}

/// What the rows of each stage are made of, and what accumulators read. None if a kernel is too high.
///
/// # Errors
///
/// Fails only where memory is refused.
pub(crate) fn list_rows_read_of_stages<'a>(
    alloc: Global,
    job: &'a Job,
) -> Result<Option<Vec<StageRowsRead<'a>>>, AllocError>
    ensures stages { IfOk result (λ found. IfSome found
        (λ list. map (λ x. stage_view x.stage.now) list.items ≡ (pipeline_in job.now).stages)) }
    ensures covered { IfOk result (λ found. IfSome found
        (λ list. All (λ x. AreRowsReadOf (stage_view x.stage.now) x.reads.items) list.items)) }
{
    let mut list = Vec::with_capacity(alloc, job.stages().len())?;
    for stage in job.stages() {
        match StageRowsRead::from_stage(alloc, job, stage)? {
            Some(read) => list.push(read)?,
            None => return Ok(None),
        }
    }
    Ok(Some(list))
}

// What the rows of a stage are made of, or what an accumulator reads.
fn list_rows_read_of_stage(
    alloc: Global,
    job: &Job,
    stage: &Stage,
) -> Result<Option<Vec<RowsRead>>, AllocError>
    ensures { IfOk result (λ found. IfSome found
        (λ reads. AreRowsReadOf (stage_view stage.now) reads.items)) }
{
    match stage.body() {
        Body::Plane(_) => Ok(Some(Vec::new(alloc))),
        Body::Function(formulas) => {
            list_rows_read_of_function(alloc, formulas, stage.domain().rows)
        }
        Body::Accumulator(accumulator) => {
            list_rows_read_of_accumulator(alloc, job, accumulator, stage.domain().rows)
        }
    }
}

// What an accumulator reads in these rows, besides planes, which it reads where they lie.
fn list_rows_read_of_accumulator(
    alloc: Global,
    job: &Job,
    accumulator: &Accumulator,
    rows: Span,
) -> Result<Option<Vec<RowsRead>>, AllocError> {
    let mut found = Vec::new(alloc);
    for read in accumulator.reads() {
        if !is_plane_of_rows_read(job, read.stage()) {
            match RowsRead::from_read(read, rows) {
                Some(taken) => push_or_join_rows_read(&mut found, taken)?,
                None => return Ok(None),
            }
        }
    }
    Ok(Some(found))
}

// Whether a stage is a plane of the picture.
fn is_plane_of_rows_read(job: &Job, stage: usize) -> bool {
    match job.stage(stage) {
        Some(found) => matches!(found.body(), Body::Plane(_)),
        None => false,
    }
}

// What the rows of a function are made of, if it has these rows.
fn list_rows_read_of_function(
    alloc: Global,
    formulas: &Function,
    rows: Span,
) -> Result<Option<Vec<RowsRead>>, AllocError>
    ensures { IfOk result (λ found. IfSome found
        (λ reads. (states : List RowState) (g : ℕ) (r c : ℤ) → Holds rows r
        → All (AreTakenKept states g r) reads.items
        → BodyReads (λ h q d. (h ≢ g) × IsKeptAt states h q)
        (function (map case_view formulas.now.cases.items)
        (option_map formula_view formulas.now.otherwise)) r c)) }
{
    let mut found = Vec::new(alloc);
    if !push_rows_read_in_cases(&mut found, formulas.cases())? {
        return Ok(None);
    }
    if !push_rows_read_by_reads(&mut found, formulas.otherwise_reads(), rows)? {
        return Ok(None);
    }
    Ok(Some(found))
}

// Adds what cases read, each in the rows of its box, and returns whether all kernels are low enough.
fn push_rows_read_in_cases(found: &mut Vec<RowsRead>, cases: &[JobCase]) -> Result<bool, AllocError>
    ensures { IfOk result (λ all. all ≡ true → AddsCases found.old.items found.new.items cases.now) }
{
    for case in cases {
        if !push_rows_read_in_case(found, case)? {
            return Ok(false);
        }
    }
    Ok(true)
}

// Adds what a case reads in the rows of its box.
fn push_rows_read_in_case(found: &mut Vec<RowsRead>, case: &JobCase) -> Result<bool, AllocError>
    ensures { IfOk result (λ all. all ≡ true
        → AddsCases found.old.items found.new.items (case.now ∷ [])) }
{
    match case.area() {
        Some(area) => push_rows_read_by_reads(found, case.reads(), area.rows),
        None => Ok(true),
    }
}

// Adds what reads take for these rows of the reader, and returns whether all kernels are low enough.
fn push_rows_read_by_reads(
    found: &mut Vec<RowsRead>,
    reads: &[Read],
    rows: Span,
) -> Result<bool, AllocError>
    ensures { IfOk result (λ all. all ≡ true
        → AddsReads found.old.items found.new.items rows reads.now) }
{
    for read in reads {
        match RowsRead::from_read(read, rows) {
            Some(taken) => push_or_join_rows_read(found, taken)?,
            None => return Ok(false),
        }
    }
    Ok(true)
}

// Adds what is read, or joins it to what was found.
fn push_or_join_rows_read(found: &mut Vec<RowsRead>, read: RowsRead) -> Result<(), AllocError>
    ensures wider { OnOk result (IsWider found.old.items found.new.items) }
    ensures taken { OnOk result ((states : List RowState) (g : ℕ) (r : ℤ)
        → All (AreTakenKept states g r) found.new.items → AreTakenKept states g r read) }
{
    match find_joined_rows_read(found, &read) {
        Some((place, joined)) => {
            found[place] = joined;
        }
        None => found.push(read)?,
    }
    Ok(())
}

// One for what is read and for what was found, with its place, if they can be joined.
fn find_joined_rows_read(found: &[RowsRead], read: &RowsRead) -> Option<(usize, RowsRead)>
    ensures { IfSome result (λ x. IsJoined found.now read.now x.0 x.1) }
{
    for (place, known) in found.iter().enumerate() {
        if let Some(joined) = known.join_rows_read(read) {
            return Some((place, joined));
        }
    }
    None
}

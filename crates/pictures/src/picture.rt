#![tactic(auto)]
//! The picture of a job, row by row from tiles.

ghost use Rattle.std.specs.Prelude.{◌≡◌, ◌≤◌, ◌++◌, Some, map, length, slice_get, All, IfOk, OnOk};
ghost use Rattle.std.specs.Option.{ForSome, option_map};
ghost use Rattle.domains.specs.Area.{points_of};
ghost use Rattle.domains.specs.Span.{numbers_from};
ghost use Rattle.netpbm.specs.Image.{IsImage};
ghost use Rattle.netpbm.specs.MadePlane.{made, made_samples};
ghost use Rattle.job.specs.Answers.{height_of, sample_of, width_of};
ghost use Rattle.job.specs.Kept.{pipeline_in};
ghost use Rattle.job.specs.Views.{output_view};
ghost use Rattle.job.specs.WellFormed.{IsOutput};
ghost use Rattle.tile_sources.specs.KnownTiles.{given_at, IsGivenLine};
ghost use Rattle.pictures.specs.Pictures.{given_image, picture_from, picture_with, samples_from, IsLentStage, GivesOutputs};
ghost use Rattle.pictures.specs.GivenAreas.{IsGivenArea};

use crate::plane::OutputPlane;
use domains::Area;
use job::{Job, Output};
use netpbm::{PackedPlane, Picture};
use row_kernels::compute_coordinate_at_place;
use std::alloc::{AllocError, Global};
use tile_eval::find_span_number_at_position;
use tile_run::{TileSource, borrow_supplied_row_up_to_tile_end};

// The number of values that are clamped before their samples are added.
const PIECE: usize = 512;

// A job with a source of the tiles of its functions.
#[derive(Drop)]
struct SuppliedJob<'a, K: TileSource> {
    job: &'a Job,
    known: &'a K,
}

/// The picture of a job that has an output, from whatever numbers are supplied for its functions: each is clamped to 0 and the
/// greatest sample. If the numbers are true, it is the job's image.
///
/// # Errors
///
/// Fails only where memory is refused.
pub fn assemble_image<K: TileSource>(
    alloc: Global,
    job: &Job,
    known: &K,
) -> Result<Option<Picture>, AllocError>
    requires { GivesOutputs (pipeline_in job.now) (K.given known.now) }
    ensures answer { IfOk result
        (λ picture. picture ≡ given_image (pipeline_in job.now) (K.given known.now)) }
    ensures image { IfOk result (λ picture. ForSome picture IsImage) }
{
    SuppliedJob { job, known }.assemble_picture_from_tiles_if_any(alloc)
}

impl<K: TileSource> SuppliedJob<'_, K> {
    // The picture of a job that has an output.
    fn assemble_picture_from_tiles_if_any(
        &self,
        alloc: Global,
    ) -> Result<Option<Picture>, AllocError>
        requires { GivesOutputs (pipeline_in self.now.job.now) (K.given self.now.known.now) }
        ensures answer { IfOk result (λ picture. picture
            ≡ given_image (pipeline_in self.now.job.now) (K.given self.now.known.now)) }
        ensures image { IfOk result (λ picture. ForSome picture IsImage) }
    {
        match self.job.output() {
            Some(output) => Ok(Some(self.assemble_picture(alloc, output)?)),
            None => Ok(None),
        }
    }

    // The output's functions as planes.
    fn assemble_picture(&self, alloc: Global, output: &Output) -> Result<Picture, AllocError>
        requires output { IsOutput (pipeline_in self.now.job.now) (output_view output.now) }
        requires stored { All
            (IsLentStage (pipeline_in self.now.job.now) (K.given self.now.known.now))
            (output_view output.now).stages }
        ensures answer { IfOk result (λ picture. picture
            ≡ picture_from (pipeline_in self.now.job.now)
            (given_at (pipeline_in self.now.job.now) (K.given self.now.known.now))
            (output_view output.now)) }
        ensures image { IfOk result IsImage }
    {
        let planes = self.assemble_planes(alloc, output.stages(), output.max() as u16)?;
        Ok(build_picture_from_output_planes(self.job, output, planes))
    }

    // The planes of functions.
    fn assemble_planes(
        &self,
        alloc: Global,
        stages: &[usize],
        max: u16,
    ) -> Result<Vec<PackedPlane>, AllocError>
        requires stored { All
            (IsLentStage (pipeline_in self.now.job.now) (K.given self.now.known.now)) stages.now }
        ensures { IfOk result (λ planes. made_samples planes.items
            ≡ map (samples_from (pipeline_in self.now.job.now)
            (given_at (pipeline_in self.now.job.now) (K.given self.now.known.now)) max)
            stages.now) }
    {
        let mut planes = Vec::with_capacity(alloc, stages.len())?;
        for stage in stages {
            planes.push(self.assemble_plane(alloc, *stage, max)?)?;
        }
        Ok(planes)
    }

    // The values of a function, row by row, clamped to 0 and the greatest sample.
    fn assemble_plane(
        &self,
        alloc: Global,
        stage: usize,
        max: u16,
    ) -> Result<PackedPlane, AllocError>
        requires stored { IsLentStage (pipeline_in self.now.job.now) (K.given self.now.known.now)
            stage }
        ensures { IfOk result (λ plane. plane
            ≡ made max (samples_from (pipeline_in self.now.job.now)
            (given_at (pipeline_in self.now.job.now) (K.given self.now.known.now)) max stage)) }
    {
        match self.job.domain(stage) {
            Some(domain) => self.assemble_plane_of_domain(alloc, stage, &domain, max),
            None => unreachable!(),
        }
    }

    // The plane of a function over its domain.
    fn assemble_plane_of_domain(
        &self,
        alloc: Global,
        stage: usize,
        domain: &Area,
        max: u16,
    ) -> Result<PackedPlane, AllocError>
        requires stored { IsLentStage (pipeline_in self.now.job.now) (K.given self.now.known.now)
            stage }
        requires domain { option_map (λ s. s.domain)
            (slice_get (pipeline_in self.now.job.now).stages stage) ≡ Some domain.now }
        ensures { IfOk result (λ plane. plane
            ≡ made max (map (λ p. sample_of max (given_at (pipeline_in self.now.job.now)
            (K.given self.now.known.now) stage p.0 p.1)) (points_of domain.now))) }
    {
        let mut sheet = OutputPlane::with_capacity(alloc, max, domain.points() as usize)?;
        self.push_area_samples(&mut sheet, stage, domain)?;
        Ok(sheet.into_plane())
    }

    // Adds the values of a function on an area to a plane, row by row, clamped to 0 and the greatest sample.
    fn push_area_samples(
        &self,
        sheet: &mut OutputPlane,
        stage: usize,
        area: &Area,
    ) -> Result<(), AllocError>
        requires { IsGivenArea (pipeline_in self.now.job.now) (K.given self.now.known.now) stage
            area.now }
        ensures max { sheet.new.plane.max ≡ sheet.old.plane.max }
        ensures samples { OnOk result (sheet.new.plane.samples
            ≡ sheet.old.plane.samples
            ++ map (λ p. sample_of (sheet.old.plane.max) (given_at (pipeline_in self.now.job.now)
            (K.given self.now.known.now) stage p.0 p.1)) (points_of area.now)) }
    {
        let first = area.cols.lo();
        let count = area.cols.len() as usize;
        for place in 0..area.rows.len() {
            let row = find_span_number_at_position(&area.rows, place);
            self.push_row_samples(sheet, stage, row, first, count)?;
        }
        Ok(())
    }

    // Adds the values of a row from a column on, clamped to 0 and the greatest sample: tile by tile, from the numbers of the
    // tiles.
    fn push_row_samples(
        &self,
        sheet: &mut OutputPlane,
        stage: usize,
        row: i32,
        first: i32,
        count: usize,
    ) -> Result<(), AllocError>
        requires { IsGivenLine (pipeline_in self.now.job.now) (K.given self.now.known.now) stage row
            first count }
        ensures max { sheet.new.plane.max ≡ sheet.old.plane.max }
        ensures samples { OnOk result (sheet.new.plane.samples
            ≡ sheet.old.plane.samples
            ++ map (λ c. sample_of (sheet.old.plane.max) (given_at (pipeline_in self.now.job.now)
            (K.given self.now.known.now) stage row c)) (numbers_from first count)) }
    {
        let mut done = 0;
        while done < count {
            let from = compute_coordinate_at_place(first, done);
            let part = borrow_supplied_row_up_to_tile_end(
                self.known,
                self.job,
                stage,
                row,
                from,
                count - done,
            );
            push_values_as_clamped_samples(sheet, part)?;
            done += part.len();
        }
        Ok(())
    }
}

// The picture of an output, with these planes.
fn build_picture_from_output_planes(job: &Job, output: &Output, planes: Vec<PackedPlane>) -> Picture
    requires output { IsOutput (pipeline_in job.now) (output_view output.now) }
    requires image { IsImage (picture_with (pipeline_in job.now) (output_view output.now)
        (made_samples planes.items)) }
    ensures picture { result
        ≡ picture_with (pipeline_in job.now) (output_view output.now) (made_samples planes.items) }
    ensures image { IsImage result }
{
    let first = output.stages()[0];
    let rows = count_rows_of_output_plane(job, first);
    let cols = count_columns_of_output_plane(job, first);
    match Picture::from_packed_planes(rows, cols, output.max() as u16, planes) {
        Ok(picture) => picture,
        Err(_) => unreachable!(),
    }
}

// Adds values to a plane, clamped to 0 and its greatest sample, `PIECE` of them at a time.
fn push_values_as_clamped_samples(sheet: &mut OutputPlane, values: &[i32]) -> Result<(), AllocError>
    ensures max { sheet.new.plane.max ≡ sheet.old.plane.max }
    ensures samples { OnOk result (sheet.new.plane.samples
        ≡ sheet.old.plane.samples ++ map (sample_of (sheet.old.plane.max)) values.now) }
{
    let max = sheet.max;
    let mut room = [0; PIECE];
    let mut rest = values;
    while !rest.is_empty() {
        let (piece, behind) = rest.split_at(rest.len().min(PIECE));
        let cuts = &mut room[..piece.len()];
        write_clamped_samples(cuts, piece, max);
        sheet.append_samples(cuts)?;
        rest = behind;
    }
    Ok(())
}

// Each value, clamped to 0 and the greatest sample.
fn write_clamped_samples(cuts: &mut [u16], values: &[i32], max: u16)
    requires { length cuts.old ≡ length values.now }
    ensures { cuts.new ≡ map (sample_of max) values.now }
{
    for k in 0..values.len() {
        cuts[k] = compute_clamped_sample(values[k], max);
    }
}

// The value clamped to 0 and the greatest sample.
fn compute_clamped_sample(value: i32, max: u16) -> u16
    ensures { result ≡ sample_of max value }
{
    value.max(0).min(i32::from(max)) as u16
}

// The number of rows of the domain of a stage.
fn count_rows_of_output_plane(job: &Job, stage: usize) -> u32
    ensures { result ≡ height_of (pipeline_in job.now) stage }
{
    match job.domain(stage) {
        Some(domain) => domain.rows.len(),
        None => 0,
    }
}

// The number of columns of the domain of a stage.
fn count_columns_of_output_plane(job: &Job, stage: usize) -> u32
    ensures { result ≡ width_of (pipeline_in job.now) stage }
{
    match job.domain(stage) {
        Some(domain) => domain.cols.len(),
        None => 0,
    }
}

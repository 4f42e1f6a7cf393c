#![tactic(auto)]
//! Samples of planes as numbers.

ghost use Rattle.std.specs.Prelude.{◌≡◌, ◌<◌, ◌≤◌, ◌+◌, ◌*◌, ◌≤ℤ◌, ◌+ℤ◌, pos, length, slice_index, slice_index_or, unsigned_abs, [], IfSome};
ghost use Rattle.domains.specs.Area.{HoldsPoint};
ghost use Rattle.domains.specs.Index.{index_at};
ghost use Rattle.plane_samples.specs.Samples.{count_in, sample_in, IsSamples};
ghost use Rattle.job.specs.Values.{sample_at};
ghost use Rattle.job.specs.WellFormed.{picture_area};
ghost use Rattle.tile_eval.specs.Rows.{EachPlace, at};

use domains::Index;
use netpbm::{Picture, PlaneSamples};
use row_kernels::{RowSpan, convert_samples_to_row, gather_samples};

// The place of a sample among those of a plane.
#[tactic(auto, using(crate::proofs::PlaneSamples::sample_below))]
fn locate_plane_sample_for_tile(picture: &Picture, row: i32, col: i32) -> usize
    requires { HoldsPoint (picture_area picture.now) row col }
    ensures place { result ≡ unsigned_abs row * picture.now.cols + unsigned_abs col }
    ensures below { result < picture.now.rows * picture.now.cols }
{
    row as usize * picture.cols() as usize + col as usize
}

// The samples of a plane, row by row.
fn borrow_plane_samples_for_tile(picture: &Picture, plane: usize) -> PlaneSamples<'_>
    requires { plane < length picture.now.planes }
    ensures samples { IsSamples result (slice_index_or picture.now.planes plane []) }
    ensures count { count_in result ≡ picture.now.rows * picture.now.cols }
{
    picture.samples(plane)
}

/// The samples of a plane along a row, from a column on.
pub fn read_plane_row_for_tile(
    picture: &Picture,
    plane: usize,
    row: i32,
    first: i32,
    out: &mut [i32],
)
    requires plane { plane < length picture.now.planes }
    requires there { EachPlace (length out.old)
        (λ k. HoldsPoint (picture_area picture.now) row (first +ℤ pos k)) }
    ensures { EachPlace (length out.old)
        (λ k. at out.new k ≡ sample_at picture.now plane row (first +ℤ pos k)) }
{
    if !out.is_empty() {
        let place = locate_plane_sample_for_tile(picture, row, first);
        convert_samples_to_row(&borrow_plane_samples_for_tile(picture, plane), place, out);
    }
}

// So many samples from a place on, if they are adjacent bytes.
fn borrow_adjacent_bytes_for_tile<'a>(
    samples: &PlaneSamples<'a>,
    place: usize,
    count: usize,
) -> Option<&'a [u8]>
    requires { place + count ≤ count_in samples.now }
    ensures count { IfSome result (λ line. length line.now ≡ count) }
    ensures samples { IfSome result (λ line. EachPlace count
        (λ k. slice_index line.now k ≡ sample_in samples.now (place + k))) }
{
    match samples {
        PlaneSamples::Bytes(spaced) if spaced.step == 1 => spaced.bytes.get(place..place + count),
        PlaneSamples::Bytes(_) | PlaneSamples::Words(_) | PlaneSamples::Pairs(_) => None,
    }
}

/// The samples of a plane along a row, from a column on, if they are adjacent bytes of the picture.
pub fn borrow_plane_row_bytes_for_tile(
    picture: &Picture,
    plane: usize,
    row: i32,
    first: i32,
    count: usize,
) -> Option<&[u8]>
    requires plane { plane < length picture.now.planes }
    requires there { EachPlace count
        (λ k. HoldsPoint (picture_area picture.now) row (first +ℤ pos k)) }
    ensures count { IfSome result (λ line. length line.now ≡ count) }
    ensures samples { IfSome result (λ line. EachPlace count
        (λ k. pos (slice_index line.now k) ≡ sample_at picture.now plane row (first +ℤ pos k))) }
{
    if count == 0 {
        return None;
    }
    let place = locate_plane_sample_for_tile(picture, row, first);
    borrow_adjacent_bytes_for_tile(&borrow_plane_samples_for_tile(picture, plane), place, count)
}

/// The samples of a plane along a row, at the columns that an index takes at the columns of some points.
pub fn gather_plane_row_for_tile(
    picture: &Picture,
    plane: usize,
    row: i32,
    col: &Index,
    points: &RowSpan,
    out: &mut [i32],
)
    requires plane { plane < length picture.now.planes }
    requires fits { length out.old ≡ points.now.len }
    requires there { EachPlace (length out.old) (λ k. HoldsPoint (picture_area picture.now) row
        (index_at col.now (points.now.col +ℤ pos k))) }
    ensures { EachPlace (length out.old) (λ k. at out.new k
        ≡ sample_at picture.now plane row (index_at col.now (points.now.col +ℤ pos k))) }
{
    if out.is_empty() {
        return;
    }
    let place = locate_plane_sample_for_tile(picture, row, col.at(points.col));
    gather_samples(
        &borrow_plane_samples_for_tile(picture, plane),
        place,
        col,
        points,
        out,
    );
}

/// A sample of a plane.
pub fn read_plane_sample_for_tile(picture: &Picture, plane: usize, row: i32, col: i32) -> i32
    requires plane { plane < length picture.now.planes }
    requires there { HoldsPoint (picture_area picture.now) row col }
    ensures { result ≡ sample_at picture.now plane row col }
{
    i32::from(picture.sample(plane, row as u32, col as u32))
}

#![tactic(auto)]
//! Samples of planes as rows of numbers, whatever their layout in memory.

ghost use Rattle.std.specs.Prelude.{◌≡◌, ◌≤◌, ◌<◌, ◌+◌, ◌*◌, ◌^◌, ℕ, pos, length, slice_index};
ghost use Rattle.plane_samples.specs.Samples.{count_in, sample_in};
ghost use Rattle.row_kernels.specs.Columns.{column_gap};
ghost use Rattle.row_loops.specs.Rows.{EachPlace, at};

use crate::gathering::gather_index_columns;
use crate::row_span::RowSpan;
use crate::values::RowNumbers;
use domains::Index;
use plane_samples::{PlaneSamples, SpacedBytes, SpacedPairs};

// Bytes that are any distance apart.
impl<'a> RowNumbers for SpacedBytes<'a> {
    ghost has = { λ s k. k < s.count };

    ghost number = { λ s k. pos (slice_index s.bytes.now (k * s.step)) };

    #[inline]
    fn read_number_at_place(&self, k: usize) -> i32 {
        i32::from(self.bytes[k * self.step])
    }
}

// Pairs of bytes that are any distance apart.
impl<'a> RowNumbers for SpacedPairs<'a> {
    ghost has = { λ s k. k < s.count };

    ghost number = { λ s k. pos (256 * slice_index s.bytes.now (k * s.step)
        + slice_index s.bytes.now (k * s.step + 1)) };

    #[inline]
    fn read_number_at_place(&self, k: usize) -> i32 {
        let place = k * self.step;
        256 * i32::from(self.bytes[place]) + i32::from(self.bytes[place + 1])
    }
}

// Adjacent bytes. (A constant distance allows vector code.)
#[derive(Clone, Copy)]
struct AdjacentBytes<'a>(SpacedBytes<'a>);

impl<'a> RowNumbers for AdjacentBytes<'a> {
    ghost has = { λ s k. k < s.0.count × s.0.step ≡ 1 };

    ghost number = { λ s k. pos (slice_index s.0.bytes.now (k * s.0.step)) };

    #[inline]
    fn read_number_at_place(&self, k: usize) -> i32 {
        i32::from(self.0.bytes[k])
    }
}

// Every third byte: one colour of three.
#[derive(Clone, Copy)]
struct EveryThirdByte<'a>(SpacedBytes<'a>);

impl<'a> RowNumbers for EveryThirdByte<'a> {
    ghost has = { λ s k. k < s.0.count × s.0.step ≡ 3 };

    ghost number = { λ s k. pos (slice_index s.0.bytes.now (k * s.0.step)) };

    #[inline]
    fn read_number_at_place(&self, k: usize) -> i32 {
        i32::from(self.0.bytes[k * 3])
    }
}

// Adjacent pairs of bytes.
#[derive(Clone, Copy)]
struct AdjacentBytePairs<'a>(SpacedPairs<'a>);

impl<'a> RowNumbers for AdjacentBytePairs<'a> {
    ghost has = { λ s k. k < s.0.count × s.0.step ≡ 2 };

    ghost number = { λ s k. pos (256 * slice_index s.0.bytes.now (k * s.0.step)
        + slice_index s.0.bytes.now (k * s.0.step + 1)) };

    #[inline]
    fn read_number_at_place(&self, k: usize) -> i32 {
        256 * i32::from(self.0.bytes[k * 2]) + i32::from(self.0.bytes[k * 2 + 1])
    }
}

// Takes the numbers from a place on.
fn copy_numbers_to_row<V: RowNumbers>(numbers: V, place: usize, out: &mut [i32])
    requires few { (j : ℕ) → V.has numbers j → j < 2 ^ 64 }
    requires there { EachPlace (length out.old) (λ k. V.has numbers (place + k)) }
    ensures { EachPlace (length out.old) (λ k. at out.new k ≡ V.number numbers (place + k)) }
{
    for k in 0..out.len() {
        out[k] = numbers.read_number_at_place(place + k);
    }
}

fn convert_bytes_to_row(spaced: &SpacedBytes<'_>, place: usize, out: &mut [i32])
    requires { place + length out.old ≤ spaced.now.count }
    ensures { EachPlace (length out.old) (λ k. at out.new k
        ≡ pos (slice_index spaced.now.bytes.now ((place + k) * spaced.now.step))) }
{
    prove!(spaced.count <= usize::MAX);
    match spaced.step {
        1 => copy_numbers_to_row(AdjacentBytes(*spaced), place, out),
        3 => copy_numbers_to_row(EveryThirdByte(*spaced), place, out),
        _ => copy_numbers_to_row(*spaced, place, out),
    }
}

fn convert_byte_pairs_to_row(spaced: &SpacedPairs<'_>, place: usize, out: &mut [i32])
    requires { place + length out.old ≤ spaced.now.count }
    ensures { EachPlace (length out.old) (λ k. at out.new k
        ≡ pos (256 * slice_index spaced.now.bytes.now ((place + k) * spaced.now.step)
        + slice_index spaced.now.bytes.now ((place + k) * spaced.now.step + 1))) }
{
    prove!(spaced.count <= usize::MAX);
    match spaced.step {
        2 => copy_numbers_to_row(AdjacentBytePairs(*spaced), place, out),
        _ => copy_numbers_to_row(*spaced, place, out),
    }
}

/// Writes the samples from a place on.
pub fn convert_samples_to_row(samples: &PlaneSamples<'_>, place: usize, out: &mut [i32])
    requires { place + length out.old ≤ count_in samples.now }
    ensures { EachPlace (length out.old)
        (λ k. at out.new k ≡ pos (sample_in samples.now (place + k))) }
{
    match samples {
        PlaneSamples::Words(words) => copy_numbers_to_row(*words, place, out),
        PlaneSamples::Bytes(spaced) => convert_bytes_to_row(spaced, place, out),
        PlaneSamples::Pairs(spaced) => convert_byte_pairs_to_row(spaced, place, out),
    }
}

fn gather_bytes_to_row(
    spaced: &SpacedBytes<'_>,
    place: usize,
    col: &Index,
    points: &RowSpan,
    out: &mut [i32],
)
    requires fits { length out.old ≡ points.now.len }
    requires there { EachPlace (length out.old)
        (λ k. place + column_gap col.now points.now.col k < spaced.now.count) }
    ensures { EachPlace (length out.old) (λ k. at out.new k
        ≡ pos (slice_index spaced.now.bytes.now
        ((place + column_gap col.now points.now.col k) * spaced.now.step))) }
{
    // a count is below 2^64
    prove!(spaced.count <= usize::MAX);
    gather_index_columns(*spaced, place, col, points, out)
}

fn gather_byte_pairs_to_row(
    spaced: &SpacedPairs<'_>,
    place: usize,
    col: &Index,
    points: &RowSpan,
    out: &mut [i32],
)
    requires fits { length out.old ≡ points.now.len }
    requires there { EachPlace (length out.old)
        (λ k. place + column_gap col.now points.now.col k < spaced.now.count) }
    ensures { EachPlace (length out.old) (λ k. at out.new k
        ≡ pos (256 * slice_index spaced.now.bytes.now
        ((place + column_gap col.now points.now.col k) * spaced.now.step)
        + slice_index spaced.now.bytes.now
        ((place + column_gap col.now points.now.col k) * spaced.now.step + 1))) }
{
    // a count is below 2^64
    prove!(spaced.count <= usize::MAX);
    gather_index_columns(*spaced, place, col, points, out)
}

/// Writes the samples from a place on, at the columns that an index takes at the columns of some points.
pub fn gather_samples(
    samples: &PlaneSamples<'_>,
    place: usize,
    col: &Index,
    points: &RowSpan,
    out: &mut [i32],
)
    requires fits { length out.old ≡ points.now.len }
    requires there { EachPlace (length out.old)
        (λ k. place + column_gap col.now points.now.col k < count_in samples.now) }
    ensures { EachPlace (length out.old) (λ k. at out.new k
        ≡ pos (sample_in samples.now (place + column_gap col.now points.now.col k))) }
{
    match samples {
        PlaneSamples::Words(words) => gather_index_columns(*words, place, col, points, out),
        PlaneSamples::Bytes(spaced) => gather_bytes_to_row(spaced, place, col, points, out),
        PlaneSamples::Pairs(spaced) => gather_byte_pairs_to_row(spaced, place, col, points, out),
    }
}

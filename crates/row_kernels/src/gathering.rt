#![tactic(auto)]
//! Numbers that are gathered at the columns that an index takes along a row.

ghost use Rattle.std.specs.Prelude.{◌≡◌, ◌<◌, ◌+◌, ◌*◌, ◌/◌, ◌^◌, ℕ, pos, length};
ghost use Rattle.row_kernels.specs.Columns.{column_gap};
ghost use Rattle.row_loops.specs.Rows.{EachPlace, at};
ghost use Rattle.row_kernels.specs.inside.Divided.{compute_column_offset_at_place};

use crate::divided_columns::DividedColumns;
use crate::row_span::RowSpan;
use crate::values::RowNumbers;
use domains::Index;

// What an index multiplies by.
#[tactic(auto, using(std::proofs::lemmas::Int::ints))]
fn get_gather_step(index: &Index) -> usize
    ensures { index.now.mul ≡ pos result }
{
    index.mul() as usize
}

// Takes every second number from a place on. (A constant step allows vector code.)
fn gather_every_second<V: RowNumbers>(numbers: V, place: usize, out: &mut [i32])
    requires few { (j : ℕ) → V.has numbers j → j < 2 ^ 64 }
    requires there { EachPlace (length out.old) (λ k. V.has numbers (place + k * 2)) }
    ensures { EachPlace (length out.old)
        (λ k. at out.new k ≡ V.number numbers (place + k * 2)) }
{
    for k in 0..out.len() {
        out[k] = numbers.read_number_at_place(place + k * 2);
    }
}

// Takes the numbers from a place on, at steps of one length.
fn gather_every_nth<V: RowNumbers>(numbers: V, place: usize, step: usize, out: &mut [i32])
    requires few { (j : ℕ) → V.has numbers j → j < 2 ^ 64 }
    requires there { EachPlace (length out.old) (λ k. V.has numbers (place + k * step)) }
    ensures { EachPlace (length out.old)
        (λ k. at out.new k ≡ V.number numbers (place + k * step)) }
{
    if step == 2 {
        return gather_every_second(numbers, place, out);
    }
    for k in 0..out.len() {
        out[k] = numbers.read_number_at_place(place + k * step);
    }
}

// Takes each number from a place on twice; the first of them only once if `left` is 1.
fn gather_each_twice<V: RowNumbers>(numbers: V, place: usize, left: usize, out: &mut [i32])
    requires left { left < 2 }
    requires few { (j : ℕ) → V.has numbers j → j < 2 ^ 64 }
    requires there { EachPlace (length out.old) (λ k. V.has numbers (place + (left + k) / 2)) }
    ensures { EachPlace (length out.old)
        (λ k. at out.new k ≡ V.number numbers (place + (left + k) / 2)) }
{
    if out.is_empty() {
        return;
    }
    let last = out.len() - 1;
    out[0] = numbers.read_number_at_place(place);
    for k in 0..(out.len() - left) / 2 {
        let number = numbers.read_number_at_place(place + left + k);
        out[left + 2 * k] = number;
        out[left + 2 * k + 1] = number;
    }
    out[last] = numbers.read_number_at_place(place + (left + last) / 2);
}

// Takes the numbers from a place on, at the columns of a dividing index.
fn gather_divided_columns<V: RowNumbers>(
    numbers: V,
    place: usize,
    columns: &DividedColumns,
    out: &mut [i32],
)
    requires short { length out.old < 65536 }
    requires few { (j : ℕ) → V.has numbers j → j < 2 ^ 64 }
    requires there { EachPlace (length out.old)
        (λ k. V.has numbers (place + compute_column_offset_at_place columns.now k)) }
    ensures { EachPlace (length out.old)
        (λ k. at out.new k ≡ V.number numbers (place + compute_column_offset_at_place columns.now k)) }
{
    if columns.is_halving() {
        return gather_each_twice(numbers, place, columns.first_remainder(), out);
    }
    for k in 0..out.len() {
        out[k] = numbers.read_number_at_place(place + columns.compute_column_offset_at_place(k));
    }
}

/// Writes the numbers from a place on, at the columns that an index takes at the columns of some points.
pub fn gather_index_columns<V: RowNumbers>(
    numbers: V,
    place: usize,
    col: &Index,
    points: &RowSpan,
    out: &mut [i32],
)
    requires fits { length out.old ≡ points.now.len }
    requires few { (j : ℕ) → V.has numbers j → j < 2 ^ 64 }
    requires there { EachPlace (length out.old)
        (λ k. V.has numbers (place + column_gap col.now points.now.col k)) }
    ensures { EachPlace (length out.old) (λ k. at out.new k
        ≡ V.number numbers (place + column_gap col.now points.now.col k)) }
{
    if col.div() == 1 {
        // the places of the columns lie at steps of one length
        gather_every_nth(numbers, place, get_gather_step(col), out);
    } else {
        gather_divided_columns(
            numbers,
            place,
            &DividedColumns::from_index(col, points.col),
            out,
        );
    }
}

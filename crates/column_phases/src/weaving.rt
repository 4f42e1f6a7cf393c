#![tactic(auto)]
//! Rows of numbers, woven into one. (The constant steps allow vector code.)

ghost use Rattle.std.specs.Prelude.{◌≡◌, ◌≤◌, ◌+◌, ◌*◌, ◌/◌, length, slice_index_or};
ghost use Rattle.row_loops.specs.Rows.{EachPlace};
ghost use Rattle.column_phases.specs.inside.Rows.{row_place};

// Weaves two rows.
#[inline(never)]
fn weave_two_column_phases<T: Copy>(out: &mut [T], first: &[T], second: &[T])
    requires first { length first.now ≡ (length out.old + 1) / 2 }
    requires second { length second.now ≡ length out.old / 2 }
    ensures first { (d : T) → EachPlace (length first.now)
        (λ k. slice_index_or out.new (2 * k) d ≡ slice_index_or first.now k d) }
    ensures second { (d : T) → EachPlace (length second.now)
        (λ k. slice_index_or out.new (2 * k + 1) d ≡ slice_index_or second.now k d) }
{
    let count = second.len();
    for k in 0..count {
        out[2 * k] = first[k];
        out[2 * k + 1] = second[k];
    }
    if count < first.len() {
        out[2 * count] = first[count];
    }
}

// Weaves three rows.
#[inline(never)]
fn weave_three_column_phases<T: Copy>(out: &mut [T], first: &[T], second: &[T], third: &[T])
    requires first { length first.now ≡ (length out.old + 2) / 3 }
    requires second { length second.now ≡ (length out.old + 1) / 3 }
    requires third { length third.now ≡ length out.old / 3 }
    ensures first { (d : T) → EachPlace (length first.now)
        (λ k. slice_index_or out.new (3 * k) d ≡ slice_index_or first.now k d) }
    ensures second { (d : T) → EachPlace (length second.now)
        (λ k. slice_index_or out.new (3 * k + 1) d ≡ slice_index_or second.now k d) }
    ensures third { (d : T) → EachPlace (length third.now)
        (λ k. slice_index_or out.new (3 * k + 2) d ≡ slice_index_or third.now k d) }
{
    let count = third.len();
    for k in 0..count {
        out[3 * k] = first[k];
        out[3 * k + 1] = second[k];
        out[3 * k + 2] = third[k];
    }
    if count < first.len() {
        out[3 * count] = first[count];
        if count < second.len() {
            out[3 * count + 1] = second[count];
        }
    }
}

// Weaves four rows.
#[inline(never)]
fn weave_four_column_phases<T: Copy>(
    out: &mut [T],
    first: &[T],
    second: &[T],
    third: &[T],
    fourth: &[T],
)
    requires first { length first.now ≡ (length out.old + 3) / 4 }
    requires second { length second.now ≡ (length out.old + 2) / 4 }
    requires third { length third.now ≡ (length out.old + 1) / 4 }
    requires fourth { length fourth.now ≡ length out.old / 4 }
    ensures first { (d : T) → EachPlace (length first.now)
        (λ k. slice_index_or out.new (4 * k) d ≡ slice_index_or first.now k d) }
    ensures second { (d : T) → EachPlace (length second.now)
        (λ k. slice_index_or out.new (4 * k + 1) d ≡ slice_index_or second.now k d) }
    ensures third { (d : T) → EachPlace (length third.now)
        (λ k. slice_index_or out.new (4 * k + 2) d ≡ slice_index_or third.now k d) }
    ensures fourth { (d : T) → EachPlace (length fourth.now)
        (λ k. slice_index_or out.new (4 * k + 3) d ≡ slice_index_or fourth.now k d) }
{
    let count = fourth.len();
    for k in 0..count {
        out[4 * k] = first[k];
        out[4 * k + 1] = second[k];
        out[4 * k + 2] = third[k];
        out[4 * k + 3] = fourth[k];
    }
    if count < first.len() {
        out[4 * count] = first[count];
        if count < second.len() {
            out[4 * count + 1] = second[count];
            if count < third.len() {
                out[4 * count + 2] = third[count];
            }
        }
    }
}

// Weaves two rows, which lie one after the other.
fn weave_rows_of_two_column_phases<T: Copy>(out: &mut [T], rows: &[T])
    requires { length rows.now ≡ length out.old }
    ensures { (d : T) → EachPlace (length out.old) (λ k. slice_index_or out.new k d
        ≡ slice_index_or rows.now (row_place 2 (length out.old) k) d) }
{
    let (first, second) = rows.split_at(rows.len() - rows.len() / 2);
    weave_two_column_phases(out, first, second);
}

// Weaves three rows, which lie one after the other.
fn weave_rows_of_three_column_phases<T: Copy>(out: &mut [T], rows: &[T])
    requires { length rows.now ≡ length out.old }
    ensures { (d : T) → EachPlace (length out.old) (λ k. slice_index_or out.new k d
        ≡ slice_index_or rows.now (row_place 3 (length out.old) k) d) }
{
    let (front, third) = rows.split_at(rows.len() - rows.len() / 3);
    let (first, second) = front.split_at(front.len() - front.len() / 2);
    weave_three_column_phases(out, first, second, third);
}

// Weaves four rows, which lie one after the other.
fn weave_rows_of_four_column_phases<T: Copy>(out: &mut [T], rows: &[T])
    requires { length rows.now ≡ length out.old }
    ensures { (d : T) → EachPlace (length out.old) (λ k. slice_index_or out.new k d
        ≡ slice_index_or rows.now (row_place 4 (length out.old) k) d) }
{
    let (most, fourth) = rows.split_at(rows.len() - rows.len() / 4);
    let (front, third) = most.split_at(most.len() - most.len() / 3);
    let (first, second) = front.split_at(front.len() - front.len() / 2);
    weave_four_column_phases(out, first, second, third, fourth);
}

/// Weaves the rows of the phases by a period, which lie one after the other.
pub(crate) fn weave_column_phases<T: Copy>(out: &mut [T], rows: &[T], period: usize)
    requires least { 2 ≤ period }
    requires most { period ≤ 4 }
    requires count { length rows.now ≡ length out.old }
    ensures { (d : T) → EachPlace (length out.old) (λ k. slice_index_or out.new k d
        ≡ slice_index_or rows.now (row_place period (length out.old) k) d) }
{
    if period == 2 {
        return weave_rows_of_two_column_phases(out, rows);
    }
    if period == 3 {
        return weave_rows_of_three_column_phases(out, rows);
    }
    weave_rows_of_four_column_phases(out, rows);
}
